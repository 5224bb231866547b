ghost use Rattle.std.specs.Prelude.{◌≡◌, ◌++◌, [], IfOk, IfErr, IsTrue};
ghost use Rattle.pk_base.specs.Causes.{is_failed};
ghost use Rattle.node_resolve.specs.Candidates.{decided};
ghost use Rattle.node_resolve.specs.Looking.{moment, AskedAll, Stays};
ghost use Rattle.node_resolve.specs.Resolution as spec;
ghost use Rattle.node_resolve.specs.Walks.{Went, Stops, found_scope};

use crate::answer::{Answer, ScopeAnswer, Why};
use crate::ask::{Found, Verdict};
use crate::folders::outward;
use crate::look::{Look, LookFail};
use crate::package::{bare, imported};
use crate::request::{RequestKind, kind_of};
use crate::walk::{nearest, relative};
use pk_base::{Files, Path};
use pk_types::{Form, Text};
use pkg_manifest::Manifest;
use std::alloc::Global;

fn verdict<F: Files, K: Look<F>>(
    alloc: Global,
    look: &mut K,
    files: &mut F,
    asked: &mut Vec<Path>,
    form: Form,
    folder: &Path,
    request: &[u8],
) -> Result<Verdict, LookFail>
    requires fits { K.fits look.old files.old }
    ensures fits { K.fits look.new files.new }
    ensures went { Went result
        (moment (F.means files.old) (K.means look.old))
        (moment (F.means files.new) (K.means look.new))
        asked.old.items asked.new.items
        (spec.candidates form folder.now request.now) (decided) }
{
    match kind_of(request) {
        RequestKind::Relative => relative(alloc, look, files, asked, folder, request),
        RequestKind::Nowhere => Ok(Err(Why::NoFile)),
        RequestKind::BadImport => Ok(Err(Why::BadTarget)),
        RequestKind::Import => imported(alloc, look, files, asked, form, folder, request),
        RequestKind::Bare => bare(alloc, look, files, asked, form, folder, request),
    }
}

/// What a request of a module in the folder leads to.
pub fn resolve<F: Files, K: Look<F>>(
    alloc: Global,
    look: &mut K,
    files: &mut F,
    dir: &Path,
    request: &Text,
    form: Form,
) -> Result<Answer, LookFail>
    requires fits { K.fits look.old files.old }
    ensures fits { K.fits look.new files.new }
    ensures answer { IfOk result (λ answer. IsTrue ((F.means files.old).told)
        → spec.Resolves ((F.means files.old).tree) dir.now request.now form answer.result
        answer.asked.items) }
    ensures asked { IfOk result (λ answer. AskedAll
        (moment (F.means files.old) (K.means look.old))
        (moment (F.means files.new) (K.means look.new)) answer.asked.items) }
    ensures looked { IfOk result (λ answer. (K.means look.new).asks
        ≡ (K.means look.old).asks ++ answer.asked.items) }
    ensures files { Stays (is_failed result) (F.means files.old) (F.means files.new) }
    ensures stops { IfErr result (λ fail. Stops fail
        (moment (F.means files.old) (K.means look.old))
        (moment (F.means files.new) (K.means look.new))
        (spec.candidates form dir.now request.now)) }
{
    let mut asked = Vec::new(alloc);
    let result = verdict(
        alloc,
        look,
        files,
        &mut asked,
        form,
        dir,
        request.as_slice(),
    )?;
    Ok(Answer { result, asked })
}

/// The scope that a search for the nearest manifest found.
fn scope_in(found: Found) -> Result<Option<(Path, Manifest)>, Path>
    ensures { result ≡ found_scope found }
{
    match found {
        Ok(Some(package)) => Ok(Some((package.folder, package.manifest))),
        Ok(None) => Ok(None),
        Err(path) => Err(path),
    }
}

/// The nearest manifest of the folder, with the folder that it stands in.
pub fn scope_of<F: Files, K: Look<F>>(
    alloc: Global,
    look: &mut K,
    files: &mut F,
    dir: &Path,
) -> Result<ScopeAnswer, LookFail>
    requires fits { K.fits look.old files.old }
    ensures fits { K.fits look.new files.new }
    ensures answer { IfOk result (λ answer. IsTrue ((F.means files.old).told)
        → spec.IsScope ((F.means files.old).tree) dir.now answer.found answer.asked.items) }
    ensures asked { IfOk result (λ answer. AskedAll
        (moment (F.means files.old) (K.means look.old))
        (moment (F.means files.new) (K.means look.new)) answer.asked.items) }
    ensures looked { IfOk result (λ answer. (K.means look.new).asks
        ≡ (K.means look.old).asks ++ answer.asked.items) }
    ensures files { Stays (is_failed result) (F.means files.old) (F.means files.new) }
    ensures stops { IfErr result (λ fail. Stops fail
        (moment (F.means files.old) (K.means look.old))
        (moment (F.means files.new) (K.means look.new))
        (spec.scopes dir.now)) }
{
    let folders = outward(alloc, dir)?;
    let mut asked = Vec::new(alloc);
    let found = nearest(alloc, look, files, &mut asked, folders.as_slice())?;
    Ok(ScopeAnswer {
        found: scope_in(found),
        asked,
    })
}
