// A tree of files.
use crate::{Path, Sequence, Text};

/// A finite map from paths to bytes: each path stands once. (Where one stands again, the first counts.)
#[derive(Drop)]
pub struct Tree {
    pub files: Sequence<(Path, Text)>,
}
