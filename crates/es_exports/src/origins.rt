//! Where what a place exports comes from.
ghost use Rattle.std.specs.Prelude.{◌≡◌, ◌<◌, ◌^◌, ◌+◌, Some, length, IfOk};
ghost use Rattle.es_exports.specs.Noting.{AreNoted};
ghost use Rattle.es_exports.specs.Origins as spec;

use crate::inside::Inside;
use crate::noted::Noted;
use crate::said::{Said, Whence};
use crate::sight::{Sight, back};
use es_outline::{Mark, Part, Role};
use std::alloc::{AllocError, Global};

// The number of the request of the declaration that begins at a place.
fn request_in(sight: &Sight<'_, '_>, inside: &Inside, part: Option<u32>) -> Option<u32>
    ensures { result ≡ spec.request_in sight.now inside.now part }
{
    let request = inside.numbered.at(part?)?;
    sight.number_at(request)
}

// The number of the request of the declaration that a place stands directly in.
fn request_of(sight: &Sight<'_, '_>, inside: &Inside, place: u32) -> Option<u32>
    ensures { result ≡ spec.request_of sight.now inside.now place }
{
    request_in(sight, inside, sight.part_at(place))
}

/// Whether the names of the list around a place are those of another module.
pub(crate) fn exports_from(sight: &Sight<'_, '_>, inside: &Inside, place: u32) -> bool
    ensures { result ≡ spec.exports_from sight.now inside.now place }
{
    match sight.part_at(place) {
        Some(part) => {
            matches!(sight.begun_at(part), Some(Part::ExportList))
                && inside.requests.at(part).is_some()
        }
        None => false,
    }
}

// What the top declares that the name at a place refers to.
fn top_at(sight: &Sight<'_, '_>, place: u32) -> Option<u32>
    ensures { result ≡ spec.top_at sight.now place }
{
    match sight.scopes.declared_by(place) {
        Some(declared) if declared.scope == 0 => Some(declared.place),
        _ => None,
    }
}

// Where it is said what the name at a place is imported as, which binds by `Imported`.
fn imported_as(sight: &Sight<'_, '_>, place: u32) -> Option<Option<Said>>
    ensures { result ≡ spec.imports_by sight.now.source place (Some Role.Imported) }
{
    if let Some(before) = back(1, place) {
        if matches!(sight.mark_at(before), Some(Mark::Shorthand)) {
            return Some(Some(Said::At(place)));
        }
    }
    match back(2, place) {
        Some(outer) if matches!(sight.role_at(outer), Some(Role::Outer)) => {
            Some(Some(Said::At(outer)))
        }
        _ => None,
    }
}

// Where it is said what the name at a place is imported as, if it is; nothing is said of a namespace.
fn imports_at(sight: &Sight<'_, '_>, place: u32) -> Option<Option<Said>>
    ensures { result ≡ spec.imports_at sight.now.source place }
{
    match sight.role_at(place) {
        Some(Role::Imported) => imported_as(sight, place),
        Some(Role::ImportedDefault) => Some(Some(Said::Default)),
        Some(Role::ImportedSpace) => match back(2, place) {
            Some(_) => Some(None),
            None => None,
        },
        _ => None,
    }
}

// The binding that has the name at a place.
fn binding_at(sight: &Sight<'_, '_>, place: u32) -> Option<u32>
    ensures { result ≡ spec.binding_at sight.now place }
{
    let number = sight.scopes.number_at(place)?;
    match sight.declarations.binding_of.get(number as usize) {
        Some(found) => *found,
        None => None,
    }
}

// Where a declaration of the top comes from, which may be an import.
fn comes_from(sight: &Sight<'_, '_>, inside: &Inside, declaration: u32) -> Option<Whence>
    ensures { result ≡ spec.comes_from sight.now inside.now declaration }
{
    match imports_at(sight, declaration) {
        Some(Some(name)) => Some(Whence::Other(request_of(sight, inside, declaration)?, name)),
        Some(None) => Some(Whence::Space(request_of(sight, inside, declaration)?)),
        None => Some(Whence::Own(binding_at(sight, declaration)?)),
    }
}

/// Where what the name at a place refers to comes from.
pub(crate) fn referred(sight: &Sight<'_, '_>, inside: &Inside, place: u32) -> Option<Whence>
    ensures { result ≡ spec.referred sight.now inside.now place }
{
    let declaration = top_at(sight, place)?;
    comes_from(sight, inside, declaration)
}

// The `export default` that a declared name stands directly in, whose origin is known.
fn of_named(sight: &Sight<'_, '_>, inside: &Inside, place: u32) -> Option<u32>
    ensures { result ≡ spec.of_named sight.now inside.now place }
{
    let opening = sight.default_of(sight.part_at(place));
    if opening.is_some() && sight.is_declared(place) && referred(sight, inside, place).is_some() {
        opening
    } else {
        None
    }
}

/// Of each `export default` a declared name that stands directly in it, whose origin is known.
pub(crate) fn named(
    alloc: Global,
    sight: &Sight<'_, '_>,
    inside: &Inside,
) -> Result<Noted, AllocError>
    requires { length sight.now.source.marks + 2 < 2 ^ 32 }
    ensures { IfOk result (AreNoted (spec.of_named sight.now inside.now)
        (length sight.now.source.marks)) }
{
    let mut named = Noted::new(alloc);
    for place in 0..sight.len() {
        named.note(of_named(sight, inside, place), place)?;
    }
    Ok(named)
}

// Where the name of a list comes from.
fn listed_from(sight: &Sight<'_, '_>, inside: &Inside, place: u32) -> Option<Whence>
    ensures { result ≡ spec.listed_from sight.now inside.now place }
{
    if !sight.is_exported(place) {
        return None;
    }
    if exports_from(sight, inside, place) {
        let request = request_of(sight, inside, place)?;
        return Some(Whence::Other(request, Said::At(place)));
    }
    referred(sight, inside, place)
}

// Which namespace an `export * as` exports.
fn space_from(sight: &Sight<'_, '_>, inside: &Inside, place: u32) -> Option<Whence>
    ensures { result ≡ spec.space_from sight.now inside.now place }
{
    if sight.is_space(place) {
        Some(Whence::Space(request_of(sight, inside, place)?))
    } else {
        None
    }
}

// Where the name of an exported declaration comes from.
fn declared_from(sight: &Sight<'_, '_>, inside: &Inside, place: u32) -> Option<Whence>
    ensures { result ≡ spec.declared_from sight.now inside.now place }
{
    if sight.exports_declared(place) && sight.is_declared(place) {
        referred(sight, inside, place)
    } else {
        None
    }
}

// Where the named function or class of an `export default` comes from.
fn named_from(sight: &Sight<'_, '_>, inside: &Inside, named: &Noted, place: u32) -> Option<Whence>
    ensures { result ≡ spec.named_from sight.now inside.now named.now place }
{
    let opening = sight.default_at(place)?;
    let name = named.at(opening)?;
    referred(sight, inside, name)
}

// Where what an `export default` binds without a name comes from.
fn unnamed_from(sight: &Sight<'_, '_>, inside: &Inside, place: u32) -> Option<Whence>
    requires { place + 2 < 2 ^ 32 }
    ensures { result ≡ spec.unnamed_from sight.now inside.now place }
{
    let opening = sight.default_at(place)?;
    if matches!(sight.begun_at(place + 1), Some(Part::ExportedValue))
        || inside.unnamed.at(opening).is_some()
    {
        Some(Whence::Own(sight.declarations.default_binding?))
    } else {
        None
    }
}

/// Where what a place exports comes from.
pub(crate) fn whence_at(
    sight: &Sight<'_, '_>,
    inside: &Inside,
    named: &Noted,
    place: u32,
) -> Option<Whence>
    requires { place + 2 < 2 ^ 32 }
    ensures { result ≡ spec.whence_at sight.now inside.now named.now place }
{
    if let Some(from) = listed_from(sight, inside, place) {
        return Some(from);
    }
    if let Some(from) = space_from(sight, inside, place) {
        return Some(from);
    }
    if let Some(from) = declared_from(sight, inside, place) {
        return Some(from);
    }
    if let Some(from) = named_from(sight, inside, named, place) {
        return Some(from);
    }
    unnamed_from(sight, inside, place)
}

/// The request of the `export * from` at a place.
pub(crate) fn star_at(sight: &Sight<'_, '_>, inside: &Inside, place: u32) -> Option<u32>
    requires { length sight.now.source.marks < 2 ^ 32 }
    ensures { result ≡ spec.star_at sight.now inside.now place }
{
    if sight.is_all(place) {
        request_in(sight, inside, sight.part_around(place))
    } else {
        None
    }
}

/// Whether a place lists a name of this module that the top doesn't declare.
pub(crate) fn exports_undeclared(sight: &Sight<'_, '_>, inside: &Inside, place: u32) -> bool
    ensures { result ≡ spec.exports_undeclared sight.now inside.now place }
{
    if !sight.is_exported(place) || exports_from(sight, inside, place) {
        return false;
    }
    match sight.scopes.number_at(place) {
        Some(number) => sight.scopes.first(0, number).is_none(),
        None => false,
    }
}
