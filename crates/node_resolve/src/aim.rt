ghost use Rattle.std.specs.Prelude.{◌≡◌, ℕ, List, IfOk, Result};
ghost use Rattle.pkg_exports.specs.declared.answer.Target.{Target as TargetOf};
ghost use Rattle.pkg_exports.specs.declared.answer.TargetFault.{TargetFault as FaultOf};
ghost use Rattle.pkg_exports.specs.Answers.{Answers};
ghost use Rattle.node_resolve.specs.Aims.{aim_of, follow};
ghost use Rattle.node_resolve.specs.Candidates.{Candidates, decided};
ghost use Rattle.node_resolve.specs.Looking.{moment};
ghost use Rattle.node_resolve.specs.Walks.{Went};

use crate::answer::Why;
use crate::ask::{Verdict, ask};
use crate::look::{Look, LookFail};
use crate::sight::Package;
use pk_base::{Files, Path};
use pk_types::{Form, Text};
use pkg_exports::{Table, Target, TargetFault, target};
use pkg_manifest::Json;
use std::alloc::{AllocError, Global};

/// What a target of a manifest's map means for its package.
#[derive(Drop)]
pub(crate) enum Aim {
    File(Option<Path>),
    Bare(Text),
    Ended(Why),
}

/// What a map of a package's manifest has for a key.
pub(crate) fn aim_of(
    alloc: Global,
    owner: &Package,
    map: &Json,
    key: &[u8],
    form: Form,
    table: Table,
) -> Result<Aim, AllocError>
    ensures { IfOk result (λ aim. (answer : Result TargetOf FaultOf)
        × Answers form table map.now key.now answer × (aim ≡ aim_of owner.now answer)) }
{
    match target(alloc, map, key, form, table) {
        Ok(Target::File(text)) => Ok(Aim::File(owner.folder.join(text.as_slice())?)),
        Ok(Target::Bare(text)) => Ok(Aim::Bare(text)),
        Err(TargetFault::NotExported) => Ok(Aim::Ended(Why::NotExported)),
        Err(TargetFault::BadTarget) => Ok(Aim::Ended(Why::BadTarget)),
        Err(TargetFault::BadMap) => Ok(Aim::Ended(Why::BadManifest(owner.path.copy()?))),
        Err(TargetFault::NoMemory) => Err(AllocError),
    }
}

/// The file at a path, with no search.
pub(crate) fn exact<F: Files, K: Look<F>>(
    look: &mut K,
    files: &mut F,
    asked: &mut Vec<Path>,
    path: Option<Path>,
) -> Result<Verdict, LookFail>
    requires fits { K.fits look.old files.old }
    ensures fits { K.fits look.new files.new }
    ensures went { (bare : List ℕ → Candidates) → Went result
        (moment (F.means files.old) (K.means look.old))
        (moment (F.means files.new) (K.means look.new))
        asked.old.items asked.new.items
        (follow bare (Aim.File path)) (decided) }
{
    let Some(path) = path else {
        return Ok(Err(Why::NoFile));
    };
    if ask(look, files, asked, &path)? {
        Ok(Ok(path))
    } else {
        Ok(Err(Why::NoFile))
    }
}
