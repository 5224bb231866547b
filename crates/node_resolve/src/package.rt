ghost use Rattle.std.specs.Prelude.{◌≡◌, ◌++◌, ℕ, List, Option, IfOk, false, option_copied};
ghost use Rattle.pk_base.specs.Paths.{joined};
ghost use Rattle.pkg_exports.specs.declared.answer.Table.{Table as TableOf};
ghost use Rattle.pkg_exports.specs.declared.answer.Table.TheVariants.{Exports, Imports};
ghost use Rattle.node_resolve.specs.Aims.{by_map};
ghost use Rattle.node_resolve.specs.Candidates.{Candidates, decided};
ghost use Rattle.node_resolve.specs.Folders.{outward as outside};
ghost use Rattle.node_resolve.specs.Looking.{moment};
ghost use Rattle.node_resolve.specs.Requests.{is_scope_alone as scope_alone, key_of as export_key};
ghost use Rattle.node_resolve.specs.Resolution as spec;
ghost use Rattle.node_resolve.specs.Walks.{Went, on};

use crate::aim::{Aim, aim_of, exact};
use crate::answer::Why;
use crate::ask::{Verdict, manifest_in};
use crate::folders::{holds_packages, outward};
use crate::look::{Look, LookFail};
use crate::request::{is_scope_alone, key_of, name_of};
use crate::sight::Package;
use crate::walk::{nearest, try_either, verdict_of};
use pk_base::{Files, Path};
use pk_types::Form;
use pkg_exports::Table;
use pkg_manifest::Json;
use std::alloc::{AllocError, Global};

/// The exports of a package, where it states some.
fn exports_of(owner: &Package) -> Option<&Json>
    ensures { option_copied result ≡ spec.exports_in owner.now.manifest.exports }
{
    match &owner.manifest.exports {
        None => None,
        Some(Json::Null) => None,
        Some(map) => Some(map),
    }
}

/// Whether a package has that name.
fn has_name(name: &[u8], owner: &Option<Package>) -> bool
    ensures { result ≡ spec.has_name name.now owner.now }
{
    match owner {
        None => false,
        Some(owner) => match &owner.manifest.name {
            None => false,
            Some(own) => own.as_slice() == name,
        },
    }
}

/// The path of a text beneath the packages of a folder.
fn join_packages(alloc: Global, folder: &Path, text: &[u8]) -> Result<Option<Path>, AllocError>
    ensures { IfOk result (λ path. path ≡ joined folder.now (spec.packages_name ++ text.now)) }
{
    let mut inner = Vec::from_slice(alloc, b"node_modules/")?;
    inner.extend_from_slice(text)?;
    folder.join(inner.as_slice())
}

/// What the exports of a package have for a request.
fn by_exports<F: Files, K: Look<F>>(
    alloc: Global,
    look: &mut K,
    files: &mut F,
    asked: &mut Vec<Path>,
    form: Form,
    request: &[u8],
    owner: &Package,
    map: &Json,
) -> Result<Verdict, LookFail>
    requires fits { K.fits look.old files.old }
    requires named { scope_alone request.now ≡ false }
    ensures fits { K.fits look.new files.new }
    ensures went { Went result
        (moment (F.means files.old) (K.means look.old))
        (moment (F.means files.new) (K.means look.new))
        asked.old.items asked.new.items
        (by_map form Exports owner.now map.now (export_key request.now) spec.no_bare) (decided) }
{
    let key = key_of(alloc, request)?;
    let aim = aim_of(alloc, owner, map, key.as_slice(), form, Table::Exports)?;
    match aim {
        Aim::File(path) => exact(look, files, asked, path),
        Aim::Bare(_) => Ok(Err(Why::BadTarget)),
        Aim::Ended(why) => Ok(Err(why)),
    }
}

/// The same, where it has some.
fn exported<F: Files, K: Look<F>>(
    alloc: Global,
    look: &mut K,
    files: &mut F,
    asked: &mut Vec<Path>,
    form: Form,
    request: &[u8],
    owner: &Option<Package>,
) -> Result<Option<Verdict>, LookFail>
    requires fits { K.fits look.old files.old }
    requires named { scope_alone request.now ≡ false }
    ensures fits { K.fits look.new files.new }
    ensures went { (next : Candidates) → Went result
        (moment (F.means files.old) (K.means look.old))
        (moment (F.means files.new) (K.means look.new))
        asked.old.items asked.new.items
        (spec.exported form request.now next owner.now) (λ end. on end next) }
{
    let Some(owner) = owner else {
        return Ok(None);
    };
    let Some(map) = exports_of(owner) else {
        return Ok(None);
    };
    let verdict = by_exports(alloc, look, files, asked, form, request, owner, map)?;
    Ok(Some(verdict))
}

fn try_place<F: Files, K: Look<F>>(
    alloc: Global,
    look: &mut K,
    files: &mut F,
    asked: &mut Vec<Path>,
    request: &[u8],
    folder: &Path,
) -> Result<Option<Verdict>, LookFail>
    requires fits { K.fits look.old files.old }
    ensures fits { K.fits look.new files.new }
    ensures went { (next : Candidates) → Went result
        (moment (F.means files.old) (K.means look.old))
        (moment (F.means files.new) (K.means look.new))
        asked.old.items asked.new.items
        (spec.as_either (joined folder.now (spec.packages_name ++ request.now)) next)
        (λ end. on end next) }
{
    let place = join_packages(alloc, folder, request)?;
    try_either(alloc, look, files, asked, place)
}

fn exported_at<F: Files, K: Look<F>>(
    alloc: Global,
    look: &mut K,
    files: &mut F,
    asked: &mut Vec<Path>,
    form: Form,
    request: &[u8],
    home: Option<Path>,
) -> Result<Option<Verdict>, LookFail>
    requires fits { K.fits look.old files.old }
    requires named { scope_alone request.now ≡ false }
    ensures fits { K.fits look.new files.new }
    ensures went { (next : Candidates) → Went result
        (moment (F.means files.old) (K.means look.old))
        (moment (F.means files.new) (K.means look.new))
        asked.old.items asked.new.items
        (spec.packaged_at form request.now next home) (λ end. on end next) }
{
    let Some(home) = home else {
        return Ok(None);
    };
    let found = manifest_in(alloc, look, files, asked, &home)?;
    match found {
        Err(bad) => Ok(Some(Err(Why::BadManifest(bad)))),
        Ok(owner) => exported(alloc, look, files, asked, form, request, &owner),
    }
}

/// The package beneath `node_modules` of a folder.
fn packaged_in<F: Files, K: Look<F>>(
    alloc: Global,
    look: &mut K,
    files: &mut F,
    asked: &mut Vec<Path>,
    form: Form,
    request: &[u8],
    folder: &Path,
) -> Result<Option<Verdict>, LookFail>
    requires fits { K.fits look.old files.old }
    requires named { scope_alone request.now ≡ false }
    ensures fits { K.fits look.new files.new }
    ensures went { (next : Candidates) → Went result
        (moment (F.means files.old) (K.means look.old))
        (moment (F.means files.new) (K.means look.new))
        asked.old.items asked.new.items
        (spec.packaged_in form request.now next folder.now) (λ end. on end next) }
{
    let home = join_packages(alloc, folder, name_of(request))?;
    let end = exported_at(alloc, look, files, asked, form, request, home)?;
    if end.is_some() {
        return Ok(end);
    }
    try_place(alloc, look, files, asked, request, folder)
}

fn packaged_unless<F: Files, K: Look<F>>(
    alloc: Global,
    look: &mut K,
    files: &mut F,
    asked: &mut Vec<Path>,
    form: Form,
    request: &[u8],
    folder: &Path,
) -> Result<Option<Verdict>, LookFail>
    requires fits { K.fits look.old files.old }
    requires named { scope_alone request.now ≡ false }
    ensures fits { K.fits look.new files.new }
    ensures went { (next : Candidates) → Went result
        (moment (F.means files.old) (K.means look.old))
        (moment (F.means files.new) (K.means look.new))
        asked.old.items asked.new.items
        (spec.packaged_unless form request.now next folder.now) (λ end. on end next) }
{
    if holds_packages(folder) {
        return Ok(None);
    }
    packaged_in(alloc, look, files, asked, form, request, folder)
}

/// The packages of some folders, from the first on.
fn packaged<F: Files, K: Look<F>>(
    alloc: Global,
    look: &mut K,
    files: &mut F,
    asked: &mut Vec<Path>,
    form: Form,
    request: &[u8],
    folders: &[Path],
) -> Result<Option<Verdict>, LookFail>
    requires fits { K.fits look.old files.old }
    requires named { scope_alone request.now ≡ false }
    ensures fits { K.fits look.new files.new }
    ensures went { Went result
        (moment (F.means files.old) (K.means look.old))
        (moment (F.means files.new) (K.means look.new))
        asked.old.items asked.new.items
        (spec.packaged form request.now folders.now) (λ end. on end spec.no_file) }
{
    for folder in folders {
        let end = packaged_unless(alloc, look, files, asked, form, request, folder)?;
        if end.is_some() {
            return Ok(end);
        }
    }
    Ok(None)
}

/// The exports of a package that asks for itself.
fn itself<F: Files, K: Look<F>>(
    alloc: Global,
    look: &mut K,
    files: &mut F,
    asked: &mut Vec<Path>,
    form: Form,
    request: &[u8],
    owner: &Option<Package>,
) -> Result<Option<Verdict>, LookFail>
    requires fits { K.fits look.old files.old }
    requires named { scope_alone request.now ≡ false }
    ensures fits { K.fits look.new files.new }
    ensures went { (next : Candidates) → Went result
        (moment (F.means files.old) (K.means look.old))
        (moment (F.means files.new) (K.means look.new))
        asked.old.items asked.new.items
        (spec.itself form request.now next owner.now) (λ end. on end next) }
{
    if !has_name(name_of(request), owner) {
        return Ok(None);
    }
    exported(alloc, look, files, asked, form, request, owner)
}

fn bare_among<F: Files, K: Look<F>>(
    alloc: Global,
    look: &mut K,
    files: &mut F,
    asked: &mut Vec<Path>,
    form: Form,
    request: &[u8],
    folders: &[Path],
    owner: &Option<Package>,
) -> Result<Verdict, LookFail>
    requires fits { K.fits look.old files.old }
    requires named { scope_alone request.now ≡ false }
    ensures fits { K.fits look.new files.new }
    ensures went { Went result
        (moment (F.means files.old) (K.means look.old))
        (moment (F.means files.new) (K.means look.new))
        asked.old.items asked.new.items
        (spec.itself form request.now (spec.packaged form request.now folders.now) owner.now)
        (decided) }
{
    let own = itself(alloc, look, files, asked, form, request, owner)?;
    if own.is_some() {
        return Ok(verdict_of(own));
    }
    let end = packaged(alloc, look, files, asked, form, request, folders)?;
    Ok(verdict_of(end))
}

/// What a bare request leads to.
pub(crate) fn bare<F: Files, K: Look<F>>(
    alloc: Global,
    look: &mut K,
    files: &mut F,
    asked: &mut Vec<Path>,
    form: Form,
    folder: &Path,
    request: &[u8],
) -> Result<Verdict, LookFail>
    requires fits { K.fits look.old files.old }
    ensures fits { K.fits look.new files.new }
    ensures went { Went result
        (moment (F.means files.old) (K.means look.old))
        (moment (F.means files.new) (K.means look.new))
        asked.old.items asked.new.items
        (spec.bare form folder.now request.now) (decided) }
{
    if is_scope_alone(request) {
        return Ok(Err(Why::NoFile));
    }
    let above = outward(alloc, folder)?;
    let folders = above.as_slice();
    let found = nearest(alloc, look, files, asked, folders)?;
    match found {
        Err(bad) => Ok(Err(Why::BadManifest(bad))),
        Ok(owner) => bare_among(alloc, look, files, asked, form, request, folders, &owner),
    }
}

/// What the imports of a package have for a request.
fn by_imports<F: Files, K: Look<F>>(
    alloc: Global,
    look: &mut K,
    files: &mut F,
    asked: &mut Vec<Path>,
    form: Form,
    request: &[u8],
    owner: &Package,
    map: &Json,
) -> Result<Verdict, LookFail>
    requires fits { K.fits look.old files.old }
    ensures fits { K.fits look.new files.new }
    ensures went { Went result
        (moment (F.means files.old) (K.means look.old))
        (moment (F.means files.new) (K.means look.new))
        asked.old.items asked.new.items
        (by_map form Imports owner.now map.now request.now (spec.bare form owner.now.folder))
        (decided) }
{
    let aim = aim_of(alloc, owner, map, request, form, Table::Imports)?;
    match aim {
        Aim::File(path) => exact(look, files, asked, path),
        Aim::Bare(text) => {
            bare(
                alloc,
                look,
                files,
                asked,
                form,
                &owner.folder,
                text.as_slice(),
            )
        }
        Aim::Ended(why) => Ok(Err(why)),
    }
}

fn imported_from<F: Files, K: Look<F>>(
    alloc: Global,
    look: &mut K,
    files: &mut F,
    asked: &mut Vec<Path>,
    form: Form,
    request: &[u8],
    owner: &Option<Package>,
) -> Result<Verdict, LookFail>
    requires fits { K.fits look.old files.old }
    ensures fits { K.fits look.new files.new }
    ensures went { Went result
        (moment (F.means files.old) (K.means look.old))
        (moment (F.means files.new) (K.means look.new))
        asked.old.items asked.new.items
        (spec.imported form request.now owner.now) (decided) }
{
    let Some(owner) = owner else {
        return Ok(Err(Why::NotExported));
    };
    let Some(map) = &owner.manifest.imports else {
        return Ok(Err(Why::NotExported));
    };
    by_imports(alloc, look, files, asked, form, request, owner, map)
}

/// What a request for an import of the package leads to.
pub(crate) fn imported<F: Files, K: Look<F>>(
    alloc: Global,
    look: &mut K,
    files: &mut F,
    asked: &mut Vec<Path>,
    form: Form,
    folder: &Path,
    request: &[u8],
) -> Result<Verdict, LookFail>
    requires fits { K.fits look.old files.old }
    ensures fits { K.fits look.new files.new }
    ensures went { Went result
        (moment (F.means files.old) (K.means look.old))
        (moment (F.means files.new) (K.means look.new))
        asked.old.items asked.new.items
        (spec.nearest spec.bad_manifest (spec.imported form request.now) (outside folder.now))
        (decided) }
{
    let above = outward(alloc, folder)?;
    let found = nearest(alloc, look, files, asked, above.as_slice())?;
    match found {
        Err(bad) => Ok(Err(Why::BadManifest(bad))),
        Ok(owner) => imported_from(alloc, look, files, asked, form, request, &owner),
    }
}
