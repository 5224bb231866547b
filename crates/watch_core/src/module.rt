// One module of a tree.
ghost use Rattle.std.specs.Prelude.{◌≡◌, ◌≤◌, ◌+◌, List, ℕ, IfOk, OnOk, OnErr, IsTrue, length, nat_lt, if◌then◌else◌};
ghost use Rattle.std.specs.Map.{keys_of};
ghost use Rattle.module_graph.specs.Known.{with_path};
ghost use Rattle.pk_base.specs.FileTree.{FileTree};
ghost use Rattle.pk_base.specs.declared.outside.Read.TheVariants as read;
ghost use Rattle.bare_modules.specs.Meaning.{ReadsModule};
ghost use Rattle.watch_core.specs.Asking.{Looks, Sees};
ghost use Rattle.watch_core.specs.Trees.{is_there, seen};
ghost use Rattle.watch_core.specs.Visits.{IsText, Visits};

use crate::faults::{BuildFault, What};
use crate::manifest::manifest_paths;
use crate::sights::Sights;
use crate::target::files_from;
use bare_modules::{ModuleText, read_module};
use pk_base::{Files, Path, Read, ReadFail};
use pk_types::{MAX_FILE_LEN, MAX_SOURCE_BYTES, Text};
use std::alloc::{AllocError, Global};

/// A module that was looked at.
#[derive(Drop)]
pub struct Visited {
    /// What its text says.
    pub said: ModuleText,
    /// The files that its requests lead to.
    pub targets: Vec<Path>,
    /// The number of bytes of its file.
    pub size: u32,
}

/// The file of this path calls for what is not built yet.
pub fn not_built(alloc: Global, path: &Path) -> Result<BuildFault, AllocError>
    ensures { IfOk result (λ fault. fault ≡ BuildFault.NotBuilt path.now) }
{
    Ok(BuildFault::NotBuilt(Text::from_slice(alloc, path.as_bytes())?))
}

// The module whose text says this, if it is a module's text, in a file of so many bytes.
fn follow<F: Files>(
    alloc: Global,
    sights: &mut Sights,
    files: &mut F,
    path: &Path,
    said: Option<ModuleText>,
    size: u32,
) -> Result<Result<Visited, BuildFault>, ReadFail>
    requires { (bytes : List ℕ) × (length bytes ≤ MAX_FILE_LEN) × (size ≡ length bytes)
        × ReadsModule bytes said }
    ensures text { IfOk result (λ answer. IfOk answer (λ visited. IsText visited)) }
    ensures each { IfOk result (λ answer. IfOk answer (λ visited. length visited.targets.items
        ≡ length visited.said.requests)) }
    ensures size { IfOk result (λ answer. IfOk answer (λ visited. visited.size ≡ size)) }
    ensures value { IfOk result (λ visited. (t : FileTree) (bytes : List ℕ) (before : ℕ)
        → Sees (F.means files.old) sights.old t → seen t path.now ≡ read.Bytes bytes
        → ReadsModule bytes said
        → size ≡ length bytes → before + length bytes ≤ MAX_SOURCE_BYTES
        → Visits t before path.now (keys_of sights.old) (keys_of sights.new) visited) }
    ensures looks { Looks result (F.means files.old) (F.means files.new) sights.old sights.new }
{
    let manifests = manifest_paths(alloc, path)?;
    match sights.first_there(files, manifests.as_slice())? {
        Some(manifest) => return Ok(Err(not_built(alloc, manifest)?)),
        None => {}
    }
    let said = match said {
        Some(said) => said,
        None => return Ok(Err(not_built(alloc, path)?)),
    };
    let folder = path.folder()?;
    match files_from(alloc, sights, files, &folder, said.requests.as_slice())? {
        Some(targets) => Ok(Ok(Visited {
            said,
            targets,
            size,
        })),
        None => Ok(Err(not_built(alloc, path)?)),
    }
}

// The fault of a file that is too large, where so many source bytes are left.
fn too_large(alloc: Global, path: &Path, left: u32) -> Result<BuildFault, AllocError>
    ensures { IfOk result (λ fault. fault ≡
        (if nat_lt left MAX_FILE_LEN then BuildFault.TooMany What.SourceBytes else BuildFault.TooLarge path.now)) }
{
    if left < MAX_FILE_LEN {
        return Ok(BuildFault::TooMany(What::SourceBytes));
    }
    Ok(BuildFault::TooLarge(Text::from_slice(alloc, path.as_bytes())?))
}

/// Looks at the module at a path, where something stands. The modules before it have `before` source bytes.
pub fn visit<F: Files>(
    alloc: Global,
    sights: &mut Sights,
    files: &mut F,
    path: &Path,
    before: u32,
) -> Result<Result<Visited, BuildFault>, ReadFail>
    requires { before ≤ MAX_SOURCE_BYTES }
    ensures value { IfOk result (λ visited. (t : FileTree) → Sees (F.means files.old) sights.old t
        → IsTrue (is_there (seen t path.now)) → Visits t before path.now (with_path
        (keys_of sights.old) path.now) (keys_of sights.new) visited) }
    ensures text { IfOk result (λ answer. IfOk answer (λ visited. IsText visited)) }
    ensures each { IfOk result (λ answer. IfOk answer (λ visited. length visited.targets.items
        ≡ length visited.said.requests)) }
    ensures few { IfOk result (λ answer. IfOk answer
        (λ visited. before + visited.size ≤ MAX_SOURCE_BYTES)) }
    ensures looks { Looks result (F.means files.old) (F.means files.new) sights.old sights.new }
{
    let number = sights.look(files, path)?;
    let left = MAX_SOURCE_BYTES - before;
    let text = match sights.read_at(number) {
        Read::Bytes(text) => text.as_slice(),
        Read::Absent | Read::Longer => return Ok(Err(too_large(alloc, path, left)?)),
    };
    if text.len() > left as usize {
        return Ok(Err(BuildFault::TooMany(What::SourceBytes)));
    }
    let size = text.len() as u32;
    let said = read_module(alloc, text)?;
    follow(alloc, sights, files, path, said, size)
}
