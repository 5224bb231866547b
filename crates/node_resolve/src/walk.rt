ghost use Rattle.std.specs.Prelude.{◌≡◌, ℕ, List, Option, Bool, if◌then◌else◌};
ghost use Rattle.node_resolve.specs.declared.sight.Package.{Package as PackageOf};
ghost use Rattle.node_resolve.specs.Candidates.{Candidates, End, decided};
ghost use Rattle.node_resolve.specs.Looking.{moment};
ghost use Rattle.node_resolve.specs.Resolution as spec;
ghost use Rattle.node_resolve.specs.Walks.{Went, on, behind, is_found, verdict_of as verdict};

use crate::answer::Why;
use crate::ask::{Found, Verdict, first_file, manifest_in};
use crate::folders::holds_packages;
use crate::look::{Look, LookFail};
use crate::places::{file_paths, folder_paths};
use crate::request::names_folder;
use pk_base::{Files, Path};
use std::alloc::Global;

/// Whether a search for the nearest manifest ends with this.
fn is_found(found: &Found) -> bool
    ensures { result ≡ is_found found.now }
{
    !matches!(found, Ok(None))
}

/// The nearest manifest in some folders from one outwards.
pub(crate) fn nearest<F: Files, K: Look<F>>(
    alloc: Global,
    look: &mut K,
    files: &mut F,
    asked: &mut Vec<Path>,
    folders: &[Path],
) -> Result<Found, LookFail>
    requires fits { K.fits look.old files.old }
    ensures fits { K.fits look.new files.new }
    ensures went { (bad : List ℕ → End) (next : Option PackageOf → Candidates) → Went result
        (moment (F.means files.old) (K.means look.old))
        (moment (F.means files.new) (K.means look.new))
        asked.old.items asked.new.items
        (spec.nearest bad next folders.now) (behind bad next) }
{
    for folder in folders {
        if holds_packages(folder) {
            return Ok(Ok(None));
        }
        let found = manifest_in(alloc, look, files, asked, folder)?;
        if is_found(&found) {
            return Ok(found);
        }
    }
    Ok(Ok(None))
}

fn try_file<F: Files, K: Look<F>>(
    alloc: Global,
    look: &mut K,
    files: &mut F,
    asked: &mut Vec<Path>,
    path: &Path,
) -> Result<Option<Verdict>, LookFail>
    requires fits { K.fits look.old files.old }
    ensures fits { K.fits look.new files.new }
    ensures went { (next : Candidates) → Went result
        (moment (F.means files.old) (K.means look.old))
        (moment (F.means files.new) (K.means look.new))
        asked.old.items asked.new.items
        (spec.as_file path.now next) (λ end. on end next) }
{
    let paths = file_paths(alloc, path)?;
    first_file(look, files, asked, paths.as_slice())
}

fn try_folder<F: Files, K: Look<F>>(
    alloc: Global,
    look: &mut K,
    files: &mut F,
    asked: &mut Vec<Path>,
    path: &Path,
) -> Result<Option<Verdict>, LookFail>
    requires fits { K.fits look.old files.old }
    ensures fits { K.fits look.new files.new }
    ensures went { (next : Candidates) → Went result
        (moment (F.means files.old) (K.means look.old))
        (moment (F.means files.new) (K.means look.new))
        asked.old.items asked.new.items
        (spec.as_folder path.now next) (λ end. on end next) }
{
    let found = manifest_in(alloc, look, files, asked, path)?;
    match found {
        Err(bad) => Ok(Some(Err(Why::BadManifest(bad)))),
        Ok(package) => {
            let paths = folder_paths(alloc, path, &package)?;
            first_file(look, files, asked, paths.as_slice())
        }
    }
}

fn try_both<F: Files, K: Look<F>>(
    alloc: Global,
    look: &mut K,
    files: &mut F,
    asked: &mut Vec<Path>,
    path: &Path,
) -> Result<Option<Verdict>, LookFail>
    requires fits { K.fits look.old files.old }
    ensures fits { K.fits look.new files.new }
    ensures went { (next : Candidates) → Went result
        (moment (F.means files.old) (K.means look.old))
        (moment (F.means files.new) (K.means look.new))
        asked.old.items asked.new.items
        (spec.as_both path.now next) (λ end. on end next) }
{
    let end = try_file(alloc, look, files, asked, path)?;
    if end.is_some() {
        return Ok(end);
    }
    try_folder(alloc, look, files, asked, path)
}

/// The path as a file and then as a folder, if it is a path.
pub(crate) fn try_either<F: Files, K: Look<F>>(
    alloc: Global,
    look: &mut K,
    files: &mut F,
    asked: &mut Vec<Path>,
    path: Option<Path>,
) -> Result<Option<Verdict>, LookFail>
    requires fits { K.fits look.old files.old }
    ensures fits { K.fits look.new files.new }
    ensures went { (next : Candidates) → Went result
        (moment (F.means files.old) (K.means look.old))
        (moment (F.means files.new) (K.means look.new))
        asked.old.items asked.new.items
        (spec.as_either path next) (λ end. on end next) }
{
    match path {
        None => Ok(None),
        Some(path) => try_both(alloc, look, files, asked, &path),
    }
}

/// The verdict where the candidates end.
pub(crate) fn verdict_of(end: Option<Verdict>) -> Verdict
    ensures { result ≡ verdict end }
{
    match end {
        Some(verdict) => verdict,
        None => Err(Why::NoFile),
    }
}

fn try_relative<F: Files, K: Look<F>>(
    alloc: Global,
    look: &mut K,
    files: &mut F,
    asked: &mut Vec<Path>,
    path: &Path,
    folder: bool,
) -> Result<Option<Verdict>, LookFail>
    requires fits { K.fits look.old files.old }
    ensures fits { K.fits look.new files.new }
    ensures went { (next : Candidates) → Went result
        (moment (F.means files.old) (K.means look.old))
        (moment (F.means files.new) (K.means look.new))
        asked.old.items asked.new.items
        (if folder then spec.as_folder path.now next else spec.as_both path.now next)
        (λ end. on end next) }
{
    if folder {
        try_folder(alloc, look, files, asked, path)
    } else {
        try_both(alloc, look, files, asked, path)
    }
}

/// What a relative request leads to.
pub(crate) fn relative<F: Files, K: Look<F>>(
    alloc: Global,
    look: &mut K,
    files: &mut F,
    asked: &mut Vec<Path>,
    folder: &Path,
    request: &[u8],
) -> Result<Verdict, LookFail>
    requires fits { K.fits look.old files.old }
    ensures fits { K.fits look.new files.new }
    ensures went { Went result
        (moment (F.means files.old) (K.means look.old))
        (moment (F.means files.new) (K.means look.new))
        asked.old.items asked.new.items
        (spec.relative folder.now request.now) (decided) }
{
    match folder.join(request)? {
        None => Ok(Err(Why::NoFile)),
        Some(path) => {
            let end = try_relative(alloc, look, files, asked, &path, names_folder(request))?;
            Ok(verdict_of(end))
        }
    }
}
