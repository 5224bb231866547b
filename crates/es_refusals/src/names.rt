//! The names that a text uses freely, and those that it declares within.
ghost use Rattle.std.specs.Prelude.{◌≡◌, ◌<◌, ◌^◌, ◌+◌, ◌↔◌, ℕ, List, Some, length, slice_get, IsTrue, IfSome, IfOk, OnOk};
ghost use Rattle.std.specs.List.{Contains};
ghost use Rattle.pk_types.specs.ExportedNames.{AreInByteOrder};
ghost use Rattle.export_names.specs.Collected.{key_names};
ghost use Rattle.es_scope.specs.Firsts.{entry_of};
ghost use Rattle.es_scope.specs.FactsOf.{IsUsedFree, IsInner};
ghost use Rattle.es_scope.specs.Telling.{AreScopes};
ghost use Rattle.es_refusals.specs.Names as spec;

use es_outline::{Mark, Part, Role};
use es_scope::{Declared, First, Outlined, Scopes};
use indexmap::IndexSet;
use pk_text::{Key, Sequence, Text};
use pk_types::Name;
use std::alloc::{AllocError, Global};

// Copies of the names.
fn copies(alloc: Global, names: &[Key<'_>]) -> Result<Vec<Name>, AllocError>
    ensures { IfOk result (λ copies. copies.items ≡ key_names names.now) }
{
    let mut copies = Vec::with_capacity(alloc, names.len())?;
    for name in names {
        copies.push(Text::from_slice(alloc, name.0)?)?;
    }
    Ok(copies)
}

// Copies of the names of a set, in byte order.
fn in_byte_order(alloc: Global, names: &IndexSet<Key<'_>>) -> Result<Sequence<Name>, AllocError>
    ensures each { IfOk result (spec.HasSame (key_names names.now.keys)) }
    ensures order { IfOk result AreInByteOrder }
{
    let mut sorted = copies(alloc, names.as_slice())?;
    sorted.sort_unstable_by(|name, other| name.as_slice().cmp(other.as_slice()));
    Ok(Sequence::from_vec(sorted))
}

// Adds the name of a number, if one is given.
fn add<'a>(
    names: &mut IndexSet<Key<'a>>,
    scopes: &'a Scopes,
    number: Option<u32>,
) -> Result<(), AllocError>
    requires { IfSome number (λ number. number < length scopes.now.texts) }
    ensures { OnOk result (spec.Gains names.old.keys (spec.IsNumbered scopes.now number) names.new.keys) }
{
    let Some(number) = number else {
        return Ok(());
    };
    names.insert(Key(scopes.name_of(number)))?;
    Ok(())
}

// The number of the name of the mark at the place, where it is a Reference that refers to nothing.
fn free_number(scopes: &Scopes, mark: Mark, place: u32) -> Option<u32>
    ensures { result ≡ spec.free_number scopes.now place (Some mark) }
{
    let Mark::Token(Role::Reference, _) = mark else {
        return None;
    };
    if scopes.declared_by(place).is_some() {
        return None;
    }
    scopes.number_at(place)
}

/// The names that a text uses without declaring them, in byte order, each once.
pub fn free(
    alloc: Global,
    outlined: &Outlined<'_>,
    scopes: &Scopes,
) -> Result<Sequence<Name>, AllocError>
    requires short { length outlined.now.marks + 2 < 2 ^ 32 }
    requires scopes { AreScopes outlined.now scopes.now }
    ensures names { IfOk result (λ names. (name : List ℕ) → Contains names name ↔ IsUsedFree outlined.now name) }
    ensures order { IfOk result AreInByteOrder }
{
    let mut names = IndexSet::new(alloc);
    for (place, mark) in outlined.marks().iter().enumerate() {
        let number = free_number(scopes, *mark, place as u32);
        add(&mut names, scopes, number)?;
    }
    in_byte_order(alloc, &names)
}

// Whether the mark is the name of a class, which this is told of, and which belongs to the top.
fn is_top_name(mark: Option<Mark>, told: Option<Declared>) -> bool
    ensures { result ≡ spec.is_top_name mark told }
{
    match (mark, told) {
        (Some(Mark::Token(Role::ClassName, _)), Some(declared)) => declared.scope == 0,
        _ => false,
    }
}

// Whether the scope holds the name of a class that is declared at the top.
fn is_top_class(outlined: &Outlined<'_>, scopes: &Scopes, scope: u32) -> bool
    ensures { result ≡ spec.is_top_class outlined.now scopes.now scope }
{
    if scope < 2 {
        return false;
    }
    let place = scope - 2;
    let mark = outlined.marks().get(place as usize).copied();
    is_top_name(mark, scopes.declared_by(place))
}

// The number of the name of this first declaration, where its scope is an inner one.
fn inner_number(outlined: &Outlined<'_>, scopes: &Scopes, first: First) -> Option<u32>
    ensures { result ≡ spec.inner_number outlined.now scopes.now (entry_of first) }
{
    if first.scope == 0 || is_top_class(outlined, scopes, first.scope) {
        None
    } else {
        Some(first.number)
    }
}

// The same of the first declaration at the index.
fn inner_number_at(outlined: &Outlined<'_>, scopes: &Scopes, index: usize) -> Option<u32>
    ensures { result
        ≡ spec.inner_number_at outlined.now scopes.now (slice_get scopes.now.firsts index) }
{
    match scopes.first_at(index) {
        Some(first) => inner_number(outlined, scopes, first),
        None => None,
    }
}

// Whether the mark at the place begins a function that declares `arguments` in an inner scope.
fn gives_arguments(outlined: &Outlined<'_>, scopes: &Scopes, mark: Mark, place: u32) -> bool
    requires { place + 1 < 2 ^ 32 }
    ensures { result ≡ spec.gives_arguments outlined.now scopes.now place (Some mark) }
{
    match mark {
        Mark::Begin(Part::Function) => !is_top_class(outlined, scopes, place + 1),
        _ => false,
    }
}

// Whether a function declares `arguments` in an inner scope.
fn has_arguments(outlined: &Outlined<'_>, scopes: &Scopes) -> bool
    requires { length outlined.now.marks + 2 < 2 ^ 32 }
    ensures { IsTrue result ↔ spec.HasArguments outlined.now scopes.now }
{
    for (place, mark) in outlined.marks().iter().enumerate() {
        if gives_arguments(outlined, scopes, *mark, place as u32) {
            return true;
        }
    }
    false
}

// Adds `arguments`, if it is given.
fn add_arguments(names: &mut IndexSet<Key<'_>>, is_given: bool) -> Result<(), AllocError>
    ensures { OnOk result (spec.Gains names.old.keys (spec.IsArgumentsIf is_given) names.new.keys) }
{
    if !is_given {
        return Ok(());
    }
    names.insert(Key(b"arguments"))?;
    Ok(())
}

/// The names that inner scopes of a text declare, in byte order, each once.
pub fn inner(
    alloc: Global,
    outlined: &Outlined<'_>,
    scopes: &Scopes,
) -> Result<Sequence<Name>, AllocError>
    requires short { length outlined.now.marks + 2 < 2 ^ 32 }
    requires scopes { AreScopes outlined.now scopes.now }
    ensures names { IfOk result (λ names. (name : List ℕ) → Contains names name ↔ IsInner outlined.now name) }
    ensures order { IfOk result AreInByteOrder }
{
    let mut names = IndexSet::new(alloc);
    for index in 0..scopes.len() {
        let number = inner_number_at(outlined, scopes, index);
        add(&mut names, scopes, number)?;
    }
    let is_given = has_arguments(outlined, scopes);
    add_arguments(&mut names, is_given)?;
    in_byte_order(alloc, &names)
}
