// Where the requests of a module lead.
ghost use Rattle.std.specs.Prelude.{◌≡◌, ◌++◌, ◌∷◌, [], List, ℕ, IfOk, IfSome, OnOk, OnErr, length};
ghost use Rattle.std.specs.Map.{keys_of};
ghost use Rattle.std.specs.Option.{option_map, option_to_list};
ghost use Rattle.module_graph.specs.Known.{with_paths};
ghost use Rattle.pk_base.specs.FileTree.{FileTree};
ghost use Rattle.watch_core.specs.Asking.{Looks, Sees};
ghost use Rattle.watch_core.specs.Targets as spec;
ghost use Rattle.watch_core.specs.Targets.{target_from, file_from, files_from, looked_at_from};

use crate::sights::Sights;
use pk_base::{Files, Path, ReadFail};
use pk_types::Text;
use std::alloc::{AllocError, Global};

fn is_relative(request: &[u8]) -> bool
    ensures { result ≡ spec.is_relative request.now }
{
    (request.starts_with(b"./") || request.starts_with(b"../")) && request.ends_with(b".js")
}

fn is_output(path: &Path) -> bool
    ensures { result ≡ spec.is_output path.now }
{
    path.as_bytes().starts_with(b"dist/")
}

// The path that a request leads to from a folder, if it leads to any.
fn target_from(folder: &Path, request: &[u8]) -> Result<Option<Path>, AllocError>
    ensures { IfOk result (λ target. target ≡ target_from folder.now request.now) }
{
    if !is_relative(request) {
        return Ok(None);
    }
    match folder.join(request)? {
        Some(path) if !is_output(&path) => Ok(Some(path)),
        _ => Ok(None),
    }
}

// The file that a request leads to from a folder, if it leads to one.
fn file_from<F: Files>(
    sights: &mut Sights,
    files: &mut F,
    folder: &Path,
    request: &[u8],
) -> Result<Option<Path>, ReadFail>
    ensures value { IfOk result (λ file. (t : FileTree) → Sees (F.means files.old) sights.old t
        → file ≡ file_from t folder.now request.now) }
    ensures looks { Looks result (F.means files.old) (F.means files.new) sights.old sights.new }
    ensures keys { OnOk result (keys_of sights.new ≡ with_paths (keys_of sights.old) (option_to_list
        (target_from folder.now request.now))) }
{
    let Some(target) = target_from(folder, request)? else {
        return Ok(None);
    };
    if sights.is_there(files, &target)? {
        Ok(Some(target))
    } else {
        Ok(None)
    }
}

fn put(files: &mut Vec<Path>, file: Path) -> Result<(), AllocError>
    ensures { OnOk result (files.new.items ≡ files.old.items ++ file ∷ []) }
{
    files.push(file)?;
    Ok(())
}

/// The files that requests lead to from a folder, if each leads to one. None is looked at behind the first that doesn't.
#[tactic(auto, using(crate::proofs::Seeing::looks_nothing))]
pub fn files_from<F: Files>(
    alloc: Global,
    sights: &mut Sights,
    files: &mut F,
    folder: &Path,
    requests: &[Text],
) -> Result<Option<Vec<Path>>, ReadFail>
    ensures value { IfOk result (λ found. (t : FileTree) → Sees (F.means files.old) sights.old t
        → option_map (λ targets. targets.items) found ≡ files_from t folder.now requests.now) }
    ensures each { IfOk result (λ found. IfSome found (λ targets. length targets.items
        ≡ length requests.now)) }
    ensures looks { Looks result (F.means files.old) (F.means files.new) sights.old sights.new }
    ensures keys { OnOk result ((t : FileTree) → Sees (F.means files.old) sights.old t
        → keys_of sights.new ≡ with_paths (keys_of sights.old)
        (looked_at_from t folder.now requests.now)) }
{
    let mut targets = Vec::new(alloc);
    for request in requests {
        match file_from(sights, files, folder, request.as_slice())? {
            Some(file) => put(&mut targets, file)?,
            None => return Ok(None),
        }
    }
    Ok(Some(targets))
}
