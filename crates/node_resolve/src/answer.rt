use pk_base::Path;
use pkg_manifest::Manifest;

/// Why a request leads to no file.
#[derive(Debug, Drop)]
pub enum Why {
    NoFile,
    NotExported,
    BadTarget,
    /// The manifest at this path is none.
    BadManifest(Path),
}

/// What a request is resolved to, and the paths that were asked for it, in order.
#[derive(Debug, Drop)]
pub struct Answer {
    pub result: Result<Path, Why>,
    pub asked: Vec<Path>,
}

/// The nearest manifest with its folder, if there is one, or the path of a bad manifest, and the paths that were asked for
/// it, in order.
#[derive(Debug, Drop)]
pub struct ScopeAnswer {
    pub found: Result<Option<(Path, Manifest)>, Path>,
    pub asked: Vec<Path>,
}
