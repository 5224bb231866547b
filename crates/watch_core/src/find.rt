// The modules of a tree, or its first fault.
ghost use Rattle.std.specs.Prelude.{◌≡◌, ◌++◌, ◌∷◌, [], List, ℕ, None, IfOk, OnOk, OnErr, IsTrue};
ghost use Rattle.std.specs.Map.{keys_of};
ghost use Rattle.module_graph.specs.Known.{with_paths};
ghost use Rattle.pk_base.specs.Causes.{is_failed};
ghost use Rattle.pk_base.specs.FileTree.{FileTree};
ghost use Rattle.pk_base.specs.Keeping.{KeepsFiles};
ghost use Rattle.watch_core.specs.Asking.{Looks, Sees};
ghost use Rattle.watch_core.specs.Builds.{pack_json, index_js, other_candidates, candidate_fault, Finds, FindsBehind};
ghost use Rattle.watch_core.specs.Trees.{first_there, looked_at};
ghost use Rattle.watch_core.specs.Walks.{IsWritable};

use crate::faults::BuildFault;
use crate::module::not_built;
use crate::places::Places;
use crate::sights::Sights;
use crate::walk::{FoundModules, walk};
use pk_base::{Files, Path, ReadFail};
use pk_types::Text;
use std::alloc::{AllocError, Global};

fn unresolved(alloc: Global) -> Result<BuildFault, AllocError>
    ensures { IfOk result (λ fault. fault ≡ candidate_fault None) }
{
    Ok(BuildFault::EntryUnresolved(
        Text::from_slice(alloc, b"main")?,
        Text::from_slice(alloc, b"./src/index.js")?,
        Text::from_slice(alloc, b"no file")?,
    ))
}

// Where the entry's first candidate is absent: the fault by the other candidates.
fn look_at_candidates<F: Files>(
    alloc: Global,
    sights: &mut Sights,
    files: &mut F,
    candidates: &[Path],
) -> Result<BuildFault, ReadFail>
    ensures value { IfOk result (λ fault. (t : FileTree) → Sees (F.means files.old) sights.old t
        → fault ≡ candidate_fault (first_there t candidates.now)) }
    ensures keys { OnOk result ((t : FileTree) → Sees (F.means files.old) sights.old t
        → keys_of sights.new ≡ with_paths (keys_of sights.old) (looked_at t candidates.now)) }
    ensures looks { Looks result (F.means files.old) (F.means files.new) sights.old sights.new }
{
    match sights.first_there(files, candidates)? {
        Some(path) => Ok(not_built(alloc, path)?),
        None => Ok(unresolved(alloc)?),
    }
}

// The same as `find_modules`, by what was seen, which is nothing yet.
fn find<F: Files>(
    alloc: Global,
    sights: &mut Sights,
    files: &mut F,
) -> Result<Result<FoundModules, BuildFault>, ReadFail>
    requires { sights.old ≡ [] }
    ensures value { IfOk result (λ found. (t : FileTree) → Sees (F.means files.old) sights.old t
        → Finds t (keys_of sights.new) found) }
    ensures writable { IfOk result (λ answer. IfOk answer IsWritable) }
    ensures looks { Looks result (F.means files.old) (F.means files.new) sights.old sights.new }
{
    let places = Places::new(alloc)?;
    if sights.is_there(files, &places.settings)? {
        return Ok(Err(not_built(alloc, &places.settings)?));
    }
    if !sights.is_there(files, &places.entry)? {
        return Ok(Err(look_at_candidates(
            alloc,
            sights,
            files,
            places.other_candidates.as_slice(),
        )?));
    }
    walk(alloc, sights, files, places.entry)
}

/// The modules of a tree with their bodies, or its first fault. Each path is asked for once, and none behind the first fault.
pub fn find_modules<F: Files>(
    alloc: Global,
    files: &mut F,
) -> Result<Result<FoundModules, BuildFault>, ReadFail>
    ensures value { IfOk result (λ found. IsTrue ((F.means files.old).told)
        → FindsBehind ((F.means files.old).tree) ((F.means files.old).asks)
        ((F.means files.new).asks) found) }
    ensures writable { IfOk result (λ answer. IfOk answer IsWritable) }
    ensures keeps { KeepsFiles (is_failed result) [] (F.means files.old) (F.means files.new) }
{
    let mut sights = Sights::new(alloc);
    find(alloc, &mut sights, files)
}
