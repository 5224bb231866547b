//! The first fault of a text that parses.
ghost use Rattle.std.specs.Prelude.{◌≡◌, ◌<◌, ◌^◌, ◌+◌, List, ℕ, IfOk, length};
ghost use Rattle.es_scope.specs.Exporting.{ExportsName};
ghost use Rattle.es_scope.specs.Faults.{IsEarly};
ghost use Rattle.es_scope.specs.Source.{name_at};
ghost use Rattle.es_exports.specs.Seeing as at;
ghost use Rattle.es_facts.specs.Errors as spec;

use es_names::name;
use es_outline::{Mark, Part, Role};
use es_scope::{EarlyError, Outlined};
use pk_types::Name;
use std::alloc::{AllocError, Global};

// The one of two errors that stands at the lesser place, or the first of two at one place.
fn earlier(
    error: Option<(u32, EarlyError)>,
    place: Option<u32>,
    further: EarlyError,
) -> Option<(u32, EarlyError)>
    ensures { result ≡ spec.earlier error place further }
{
    match (error, place) {
        (None, Some(place)) => Some((place, further)),
        (Some(first), Some(place)) if place < first.0 => Some((place, further)),
        _ => error,
    }
}

/// The first of the early errors, by place; these are the first places of each.
pub(crate) fn first_error(
    declared: Option<u32>,
    exported: Option<u32>,
    undeclared: Option<u32>,
) -> Option<(u32, EarlyError)>
    ensures { result ≡ spec.first_error declared exported undeclared }
{
    let twice = earlier(None, declared, EarlyError::DeclaredTwice);
    let exports = earlier(twice, exported, EarlyError::ExportedTwice);
    earlier(exports, undeclared, EarlyError::ExportsUndeclared)
}

/// The byte at which the token at the place starts; 0 where a mark of another kind stands.
pub(crate) fn start_of(outlined: &Outlined<'_>, place: u32) -> u32
    ensures { result ≡ spec.start_at outlined.now place }
{
    match outlined.marks().get(place as usize) {
        Some(Mark::Token(_, token)) => token.start,
        _ => 0,
    }
}

// The part that begins two places before.
fn begun_before(outlined: &Outlined<'_>, place: usize) -> Option<Part>
    ensures { result ≡ at.begun_before outlined.now place }
{
    if place < 2 {
        return None;
    }
    match outlined.marks().get(place - 2) {
        Some(Mark::Begin(part)) => Some(*part),
        _ => None,
    }
}

// Whether a name of an export list stands at a place.
fn is_listed(outlined: &Outlined<'_>, place: usize) -> bool
    ensures { result ≡ at.is_exported (at.role_at outlined.now place) }
{
    matches!(
        outlined.marks().get(place),
        Some(Mark::Token(Role::Exported, _))
    )
}

// Whether a name for outside stands at a place.
fn is_outer(outlined: &Outlined<'_>, place: usize) -> bool
    ensures { result ≡ at.is_outer (at.role_at outlined.now place) }
{
    matches!(
        outlined.marks().get(place),
        Some(Mark::Token(Role::Outer, _))
    )
}

// Whether the word `default` of an export stands at a place.
fn says_default(outlined: &Outlined<'_>, place: usize) -> bool
    ensures { result ≡ at.says_default outlined.now place }
{
    matches!(begun_before(outlined, place), Some(Part::ExportDefault))
}

// Whether a place exports by the name two places behind.
fn says_outer(outlined: &Outlined<'_>, place: usize) -> bool
    requires { place + 2 < 2 ^ 64 }
    ensures { result ≡ at.says_outer outlined.now place }
{
    let may_rename = is_listed(outlined, place)
        || matches!(begun_before(outlined, place), Some(Part::ExportStar));
    may_rename && is_outer(outlined, place + 2)
}

// Where the name stands by which a place exports; none where it is `default`.
fn exporting_name(outlined: &Outlined<'_>, place: usize) -> Option<usize>
    requires short { place + 2 < 2 ^ 64 }
    requires exports { (name : List ℕ) × ExportsName outlined.now place name }
    ensures { ExportsName outlined.now place (spec.said_at outlined.now result) }
{
    if says_default(outlined, place) {
        return None;
    }
    if says_outer(outlined, place) {
        return Some(place + 2);
    }
    Some(place)
}

// The name that stands at a place; `default` where none is given.
fn said_at(alloc: Global, outlined: &Outlined<'_>, place: Option<usize>) -> Result<Name, AllocError>
    ensures { IfOk result (λ name. name ≡ spec.said_at outlined.now place) }
{
    match place {
        Some(place) => Ok(Name::from_vec(name(alloc, outlined.spelled_at(place))?)),
        None => Name::from_slice(alloc, b"default"),
    }
}

/// The name that the early error at a place speaks of.
pub(crate) fn error_name(
    alloc: Global,
    outlined: &Outlined<'_>,
    place: u32,
    error: EarlyError,
) -> Result<Name, AllocError>
    requires { IsEarly outlined.now place error }
    ensures { IfOk result (spec.SpeaksOf outlined.now place error) }
{
    let place = place as usize;
    match error {
        EarlyError::DeclaredTwice => said_at(alloc, outlined, Some(place)),
        EarlyError::ExportedTwice => said_at(alloc, outlined, exporting_name(outlined, place)),
        EarlyError::ExportsUndeclared => said_at(alloc, outlined, Some(place)),
    }
}
