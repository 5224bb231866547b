// The paths that a build looks at first.
ghost use Rattle.std.specs.Prelude.{◌≡◌, IfOk, IsTrue};
ghost use Rattle.watch_core.specs.Builds.{pack_json, index_js, other_candidates};
ghost use Rattle.watch_core.specs.Places.{names_file};

use pk_base::{Path, PathFault};
use std::alloc::{AllocError, Global};

/// The paths that a build looks at first.
#[derive(Drop)]
pub struct Places {
    /// Where the settings stand.
    pub settings: Path,

    /// The first candidate for the entry's request.
    pub entry: Path,

    /// The other candidates, in the order of resolution.
    pub other_candidates: Vec<Path>,
}

// The path that a text is known to be.
fn path_of(alloc: Global, text: &str) -> Result<Path, AllocError>
    requires { IsTrue (names_file text.now) }
    ensures { IfOk result (λ path. path ≡ text.now) }
{
    match Path::read(alloc, text.as_bytes()) {
        Ok(path) => Ok(path),
        Err(PathFault::NoMemory) => Err(AllocError),
        Err(PathFault::Empty) => unreachable!(),
        Err(PathFault::Long(_)) => unreachable!(),
        Err(PathFault::Bad(_)) => unreachable!(),
    }
}

#[tactic(auto, unfolding(crate::specs::Builds::other_candidates))]
fn other_candidates(alloc: Global) -> Result<Vec<Path>, AllocError>
    ensures { IfOk result (λ paths. paths.items ≡ other_candidates) }
{
    let mut paths = Vec::new(alloc);
    paths.push(path_of(alloc, "src/index.js.js")?)?;
    paths.push(path_of(alloc, "src/index.js.json")?)?;
    paths.push(path_of(alloc, "src/index.js/package.json")?)?;
    paths.push(path_of(alloc, "src/index.js/index.js")?)?;
    paths.push(path_of(alloc, "src/index.js/index.json")?)?;
    Ok(paths)
}

impl Places {
    #[tactic(auto, unfolding(crate::specs::Builds::pack_json, crate::specs::Builds::index_js))]
    /// The same for each tree.
    pub fn new(alloc: Global) -> Result<Places, AllocError>
        ensures settings { IfOk result (λ places. places.settings ≡ pack_json) }
        ensures entry { IfOk result (λ places. places.entry ≡ index_js) }
        ensures other_candidates { IfOk result (λ places. places.other_candidates.items
            ≡ other_candidates) }
    {
        Ok(Places {
            settings: path_of(alloc, "pack.json")?,
            entry: path_of(alloc, "src/index.js")?,
            other_candidates: other_candidates(alloc)?,
        })
    }
}
