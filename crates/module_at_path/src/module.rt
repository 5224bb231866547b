//! The module at a path, or its first fault.
ghost use Rattle.std.specs.Prelude.{◌≡◌, ◌≢◌, ◌≤◌, List, ℕ, Some, None, IsTrue, IfSome, length, option_map};
ghost use Rattle.std.specs.Str.{IsUtf8};
ghost use Rattle.pk_types.specs.declared.limits.TheConstants.{MAX_FILE_LEN};
ghost use Rattle.pk_types.specs.declared.facts.NameKind.{NameKind as NameKindValue};
ghost use Rattle.module_at_path.specs.Files as spec;
ghost use Rattle.module_at_path.specs.Faults.{Stands, IsFirst, needs_manifest};
ghost use Rattle.module_at_path.specs.Answers as answers;

use crate::fault::FileFault;
use crate::name::name_kind;
use crate::scope::{Scope, says_module, scope_fault};
use es_facts::{Parsed, facts};
use pk_base::{Path, Steps};
use pk_types::NameKind;
use std::alloc::Global;
use std::sync::ledger::Ledger;

// Whether the text is one of a script or a module that is not UTF-8.
fn lacks_utf8(named: NameKind, bytes: &[u8]) -> bool
    ensures yes { IsTrue result → answers.LacksUtf8 bytes.now named }
    ensures no { ¬ IsTrue result → ¬ answers.LacksUtf8 bytes.now named }
{
    named != NameKind::Json && std::str::from_utf8(bytes).is_err()
}

// The first fault of a text of this kind that comes before its nearest manifest, if there is one.
fn fault_of_text(path: &Path, bytes: &[u8]) -> Option<FileFault>
    ensures fault { IfSome result (λ fault. (scope : spec.Scope)
        → IsFirst (spec.file path.now (Some bytes.now) scope) fault) }
    ensures none { result ≡ None → (scope : spec.Scope) (place : ℕ) (fault : _)
        → Stands (spec.file path.now (Some bytes.now) scope) place fault
        → IsTrue (needs_manifest fault) }
{
    let Some(named) = name_kind(path, false) else {
        return Some(FileFault::UnknownType);
    };
    if lacks_utf8(named, bytes) {
        return Some(FileFault::NotUtf8);
    }
    None
}

/// The first fault of the file at a path, where it comes before the nearest manifest is sought. A file of more than
/// `MAX_FILE_LEN` bytes is given as none.
pub fn fault_without_manifest(path: &Path, text: Option<&[u8]>) -> Option<FileFault>
    ensures fault { IfSome result (λ fault. (scope : spec.Scope)
        → IsFirst (spec.file path.now (option_map (λ bytes. bytes.now) text.entry) scope) fault) }
    ensures none { result ≡ None → (scope : spec.Scope) (place : ℕ) (fault : _)
        → Stands (spec.file path.now (option_map (λ bytes. bytes.now) text.entry) scope) place fault
        → IsTrue (needs_manifest fault) }
{
    match text {
        Some(bytes) => fault_of_text(path, bytes),
        None => Some(FileFault::TooLarge),
    }
}

// The facts of a text of this kind, or its first fault.
fn facts_of<L: Ledger>(
    alloc: Global,
    named: NameKind,
    bytes: &[u8],
    steps: &mut Steps<L>,
) -> Result<Parsed, FileFault>
    requires short { length bytes.now ≤ MAX_FILE_LEN }
    ensures answer { answers.AnswersText bytes.now named result }
    ensures fit { answers.FitParsed result }
    ensures steps { answers.TakesSteps bytes.now named steps.old steps.new }
{
    Ok(facts(alloc, named, bytes, steps)?)
}

// Of a file with a bad manifest the first fault.
fn fault_by_manifest(named: NameKind, bytes: &[u8], bad_scope: FileFault) -> FileFault
    ensures { answers.IsByManifest bytes.now named bad_scope result }
{
    if lacks_utf8(named, bytes) {
        return FileFault::NotUtf8;
    }
    bad_scope
}

/// The module at a path whose file has these bytes, or its first fault, by its nearest manifest.
pub fn module_at<L: Ledger>(
    alloc: Global,
    path: &Path,
    bytes: &[u8],
    scope: &Scope,
    steps: &mut Steps<L>,
) -> Result<Parsed, FileFault>
    requires short { length bytes.now ≤ MAX_FILE_LEN }
    ensures answer { answers.Answers (spec.file path.now (Some bytes.now) scope.now) result }
    ensures fit { answers.FitParsed result }
    ensures steps { answers.TakesFileSteps (spec.name_kind (spec.says_module scope.now) path.now)
        bytes.now scope.now steps.old steps.new }
{
    let Some(named) = name_kind(path, says_module(scope)) else {
        return Err(FileFault::UnknownType);
    };
    match scope_fault(scope)? {
        Some(bad_scope) => Err(fault_by_manifest(named, bytes, bad_scope)),
        None => facts_of(alloc, named, bytes, steps),
    }
}
