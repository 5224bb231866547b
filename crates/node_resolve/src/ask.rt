ghost use Rattle.std.specs.Prelude.{◌≡◌, ◌++◌, ◌∷◌, [], ℕ, List, Option, IfOk, OnOk, if◌then◌else◌};
ghost use Rattle.node_resolve.specs.declared.sight.Sight.{Sight as SightOf};
ghost use Rattle.node_resolve.specs.declared.sight.Package.{Package as PackageOf};
ghost use Rattle.node_resolve.specs.Candidates.{Candidates, End, file, manifest};
ghost use Rattle.node_resolve.specs.Looking.{moment};
ghost use Rattle.node_resolve.specs.Resolution.{by_sight, files as files_at, manifest_at as at, manifest_in as inside};
ghost use Rattle.node_resolve.specs.Walks.{Went, on, behind};

use crate::answer::Why;
use crate::look::{Look, LookFail};
use crate::sight::{Package, Sight, sight_in};
use pk_base::{Files, Path};
use std::alloc::{AllocError, Global};

/// A file, or why there is none.
pub(crate) type Verdict = Result<Path, Why>;

/// A manifest with its folder, if there is one, or the path of a bad one.
pub(crate) type Found = Result<Option<Package>, Path>;

/// Puts a path that was asked behind the others.
fn note(asked: &mut Vec<Path>, path: &Path) -> Result<(), AllocError>
    ensures { OnOk result (asked.new.items ≡ asked.old.items ++ path.now ∷ []) }
{
    asked.push(path.copy()?)?;
    Ok(())
}

/// Whether a file stands at the path.
pub(crate) fn ask<F: Files, K: Look<F>>(
    look: &mut K,
    files: &mut F,
    asked: &mut Vec<Path>,
    path: &Path,
) -> Result<bool, LookFail>
    requires fits { K.fits look.old files.old }
    ensures fits { K.fits look.new files.new }
    ensures went { (yes no : Candidates) → Went result
        (moment (F.means files.old) (K.means look.old))
        (moment (F.means files.new) (K.means look.new))
        asked.old.items asked.new.items
        (file path.now yes no) (λ there. if there then yes else no) }
{
    let there = look.has(files, path)?;
    note(asked, path)?;
    Ok(there)
}

/// The first of some paths at which a file stands. None behind it is asked.
pub(crate) fn first_file<F: Files, K: Look<F>>(
    look: &mut K,
    files: &mut F,
    asked: &mut Vec<Path>,
    paths: &[Path],
) -> Result<Option<Verdict>, LookFail>
    requires fits { K.fits look.old files.old }
    ensures fits { K.fits look.new files.new }
    ensures went { (next : Candidates) → Went result
        (moment (F.means files.old) (K.means look.old))
        (moment (F.means files.new) (K.means look.new))
        asked.old.items asked.new.items
        (files_at paths.now next) (λ end. on end next) }
{
    for path in paths {
        if ask(look, files, asked, path)? {
            return Ok(Some(Ok(path.copy()?)));
        }
    }
    Ok(None)
}

/// What the manifest at the path says.
fn look_at_manifest<F: Files, K: Look<F>>(
    alloc: Global,
    look: &mut K,
    files: &mut F,
    asked: &mut Vec<Path>,
    path: &Path,
) -> Result<Sight, LookFail>
    requires fits { K.fits look.old files.old }
    ensures fits { K.fits look.new files.new }
    ensures went { (next : SightOf → Candidates) → Went result
        (moment (F.means files.old) (K.means look.old))
        (moment (F.means files.new) (K.means look.new))
        asked.old.items asked.new.items
        (manifest path.now next) (next) }
{
    let bytes = look.manifest_bytes(files, path)?;
    note(asked, path)?;
    Ok(sight_in(alloc, &bytes)?)
}

/// What was seen of the manifest of a folder, with its places.
fn found(folder: &Path, path: Path, sight: Sight) -> Result<Found, AllocError>
    ensures { IfOk result (λ found. (bad : List ℕ → End) (next : Option PackageOf → Candidates)
        → by_sight bad next folder.now path sight ≡ behind bad next found) }
{
    match sight {
        Sight::Absent => Ok(Ok(None)),
        Sight::Bad => Ok(Err(path)),
        Sight::Says(manifest) => {
            let folder = folder.copy()?;
            Ok(Ok(Some(Package {
                folder,
                path,
                manifest,
            })))
        }
    }
}

fn manifest_at<F: Files, K: Look<F>>(
    alloc: Global,
    look: &mut K,
    files: &mut F,
    asked: &mut Vec<Path>,
    folder: &Path,
    path: Option<Path>,
) -> Result<Found, LookFail>
    requires fits { K.fits look.old files.old }
    ensures fits { K.fits look.new files.new }
    ensures went { (bad : List ℕ → End) (next : Option PackageOf → Candidates) → Went result
        (moment (F.means files.old) (K.means look.old))
        (moment (F.means files.new) (K.means look.new))
        asked.old.items asked.new.items
        (at bad next folder.now path) (behind bad next) }
{
    match path {
        None => Ok(Ok(None)),
        Some(path) => {
            let sight = look_at_manifest(alloc, look, files, asked, &path)?;
            Ok(found(folder, path, sight)?)
        }
    }
}

/// The manifest in a folder.
pub(crate) fn manifest_in<F: Files, K: Look<F>>(
    alloc: Global,
    look: &mut K,
    files: &mut F,
    asked: &mut Vec<Path>,
    folder: &Path,
) -> Result<Found, LookFail>
    requires fits { K.fits look.old files.old }
    ensures fits { K.fits look.new files.new }
    ensures went { (bad : List ℕ → End) (next : Option PackageOf → Candidates) → Went result
        (moment (F.means files.old) (K.means look.old))
        (moment (F.means files.new) (K.means look.new))
        asked.old.items asked.new.items
        (inside bad next folder.now) (behind bad next) }
{
    let path = folder.join(b"package.json")?;
    manifest_at(alloc, look, files, asked, folder, path)
}
