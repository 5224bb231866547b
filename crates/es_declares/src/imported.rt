//! What places import.
ghost use Rattle.std.specs.Prelude.{◌≡◌, ◌<◌, ◌^◌, ◌+◌, slice_get, length, IfOk, OnOk};
ghost use Rattle.es_scope.specs.Source.{name_at};
ghost use Rattle.es_parts.specs.Around.{AreAround};
ghost use Rattle.es_asks.specs.Numbering.{AreAsked};
ghost use Rattle.es_declares.specs.Found.{IsItemAt};
ghost use Rattle.es_declares.specs.Inside.{AreStanding};
ghost use Rattle.es_declares.specs.Importing as spec;

use crate::inside::{Inside, mark_at};
use es_asks::Asked;
use es_names::{is_plain, name};
use es_outline::{Mark, Role};
use es_parts::Enclosing;
use es_scope::Outlined;
use pk_text::Text;
use pk_types::ImportEntry;
use std::alloc::{AllocError, Global};

/// What is imported, with the place where this is said: a name that stands there, the default, or the namespace.
#[derive(Clone, Copy, Debug, PartialEq, Eq)]
pub enum Wanted {
    Named(u32),
    Default(u32),
    Space(u32),
}

/// The name that the token at a place spells.
pub(crate) fn name_text(
    alloc: Global,
    outlined: &Outlined<'_>,
    place: u32,
) -> Result<Text, AllocError>
    ensures { IfOk result (λ text. text ≡ name_at outlined.now place) }
{
    let spelling = outlined.spelled_at(place as usize);
    if is_plain(spelling) {
        return Text::from_slice(alloc, spelling);
    }
    let name = name(alloc, spelling)?;
    Ok(Text::from_vec(name))
}

// The place so many before another.
fn before(count: u32, place: u32) -> Option<u32>
    ensures { result ≡ spec.before count place }
{
    if count <= place {
        Some(place - count)
    } else {
        None
    }
}

// Whether the mark stands at the place that a name is that of a property too.
fn is_shorthand_at(outlined: &Outlined<'_>, place: Option<u32>) -> bool
    ensures { result ≡ spec.is_shorthand_at outlined.now place }
{
    match place {
        Some(place) => matches!(mark_at(outlined, place as usize), Some(Mark::Shorthand)),
        None => false,
    }
}

// The name of another module that stands at the place.
fn outer_at(outlined: &Outlined<'_>, place: Option<u32>) -> Option<Wanted>
    ensures { result ≡ spec.outer_at outlined.now place }
{
    let place = place?;
    match mark_at(outlined, place as usize) {
        Some(Mark::Token(Role::Outer, _)) => Some(Wanted::Named(place)),
        _ => None,
    }
}

// What a name of this role at the place imports.
fn role_wants(outlined: &Outlined<'_>, place: u32, role: Role) -> Option<Wanted>
    ensures { result ≡ spec.role_wants outlined.now place role }
{
    match role {
        Role::Imported if is_shorthand_at(outlined, before(1, place)) => {
            Some(Wanted::Named(place))
        }
        Role::Imported => outer_at(outlined, before(2, place)),
        Role::ImportedDefault => Some(Wanted::Default(place)),
        Role::ImportedSpace => Some(Wanted::Space(before(2, place)?)),
        _ => None,
    }
}

// What the name at the place imports.
fn wanted_at(outlined: &Outlined<'_>, place: u32) -> Option<Wanted>
    ensures { result ≡ spec.wanted_at outlined.now place }
{
    match mark_at(outlined, place as usize) {
        Some(Mark::Token(role, _)) => role_wants(outlined, place, role),
        _ => None,
    }
}

// Where it is said what is imported.
fn said_at(wanted: Wanted) -> u32
    ensures { result ≡ spec.said_at wanted }
{
    match wanted {
        Wanted::Named(place) | Wanted::Default(place) | Wanted::Space(place) => place,
    }
}

// Where the token of a mark starts.
fn start_of(mark: Option<Mark>) -> Option<u32>
    ensures { result ≡ spec.start_of mark }
{
    match mark {
        Some(Mark::Token(_, token)) => Some(token.start),
        _ => None,
    }
}

// The name that is imported.
fn name_of(
    alloc: Global,
    outlined: &Outlined<'_>,
    wanted: Wanted,
) -> Result<Option<Text>, AllocError>
    ensures { IfOk result (λ name. name ≡ spec.name_of outlined.now wanted) }
{
    let name = match wanted {
        Wanted::Named(place) => Some(name_text(alloc, outlined, place)?),
        Wanted::Default(_) => Some(Text::from_slice(alloc, b"default")?),
        Wanted::Space(_) => None,
    };
    Ok(name)
}

// The entry of what is wanted by the request.
fn entry_of(
    alloc: Global,
    outlined: &Outlined<'_>,
    wanted: Option<Wanted>,
    request: Option<u32>,
) -> Result<Option<ImportEntry>, AllocError>
    ensures { IfOk result (λ entry. entry ≡ spec.entry_of outlined.now wanted request) }
{
    let Some(what) = wanted else {
        return Ok(None);
    };
    let Some(request) = request else {
        return Ok(None);
    };
    let Some(place) = start_of(mark_at(outlined, said_at(what) as usize)) else {
        return Ok(None);
    };
    let name = name_of(alloc, outlined, what)?;
    Ok(Some(ImportEntry {
        request,
        name,
        place,
    }))
}

/// The import that stands at a place.
pub(crate) fn import_at(
    alloc: Global,
    outlined: &Outlined<'_>,
    enclosing: &Enclosing,
    asked: &Asked,
    inside: &Inside,
    place: u32,
) -> Result<Option<ImportEntry>, AllocError>
    requires enclosing { AreAround outlined.now.marks enclosing.now }
    requires asked { AreAsked outlined.now asked.now }
    requires inside { AreStanding outlined.now inside.now }
    requires place { place < length outlined.now.marks }
    ensures { IfOk result (IsItemAt (spec.IsImportBy outlined.now asked.now.requests) place) }
{
    let request = inside.request_of(enclosing, asked, place);
    entry_of(alloc, outlined, wanted_at(outlined, place), request)
}
