//! What the top of a text declares.
ghost use Rattle.std.specs.Prelude.{◌≡◌, ◌<◌, ◌^◌, length, IfOk, OnOk};
ghost use Rattle.es_scope.specs.Telling.{AreScopes};
ghost use Rattle.es_scope.specs.Declaring.{DeclaresOwn, IsBinding};
ghost use Rattle.es_parts.specs.Binding.{AreBinders};
ghost use Rattle.es_declares.specs.Found.{IsItemAt};
ghost use Rattle.es_declares.specs.Inside.{AreStanding};
ghost use Rattle.es_declares.specs.Binds as spec;

use crate::imported::name_text;
use crate::inside::Inside;
use crate::nameless::unnamed;
use es_parts::{Binders, declared};
use es_scope::{DeclarationKind, Outlined, Scopes};
use pk_text::Text;
use pk_types::{BindKind, Binding};
use std::alloc::{AllocError, Global};

// Whether the top declares the name at a place there first.
fn is_first(scopes: &Scopes, place: u32) -> bool
    ensures { result ≡ spec.is_first scopes.now place }
{
    let Some(number) = scopes.number_at(place) else {
        return false;
    };
    match scopes.first(0, number) {
        Some(first) => first == place,
        None => false,
    }
}

// What a declaration is bound as.
fn bind_kind_of(kind: Option<DeclarationKind>) -> Option<BindKind>
    ensures { result ≡ spec.bind_kind_of kind }
{
    match kind? {
        DeclarationKind::Var => Some(BindKind::Var),
        DeclarationKind::Let => Some(BindKind::Let),
        DeclarationKind::Const => Some(BindKind::Const),
        DeclarationKind::Class => Some(BindKind::Class),
        DeclarationKind::Function => Some(BindKind::Function),
        DeclarationKind::Import | DeclarationKind::Parameter | DeclarationKind::Catch => None,
    }
}

// What a declaration is bound as, if it is the first.
fn own_if(is_first: bool, kind: Option<DeclarationKind>) -> Option<BindKind>
    ensures { result ≡ spec.own_if is_first kind }
{
    if is_first { bind_kind_of(kind) } else { None }
}

// As what the place binds a name of the top, if that is not bound before.
fn own_kind(
    outlined: &Outlined<'_>,
    scopes: &Scopes,
    binders: &Binders,
    place: u32,
) -> Option<BindKind>
    requires scopes { AreScopes outlined.now scopes.now }
    requires binders { AreBinders outlined.now.marks binders.now }
    requires place { place < length outlined.now.marks }
    ensures { IsItemAt (DeclaresOwn outlined.now) place result }
{
    own_if(is_first(scopes, place), declared(outlined, binders, place))
}

/// The binding that stands at a place.
pub(crate) fn binding_at(
    alloc: Global,
    outlined: &Outlined<'_>,
    scopes: &Scopes,
    binders: &Binders,
    inside: &Inside,
    place: u32,
) -> Result<Option<Binding>, AllocError>
    requires scopes { AreScopes outlined.now scopes.now }
    requires binders { AreBinders outlined.now.marks binders.now }
    requires inside { AreStanding outlined.now inside.now }
    requires place { place < length outlined.now.marks }
    ensures { IfOk result (IsItemAt (IsBinding outlined.now) place) }
{
    if let Some(kind) = own_kind(outlined, scopes, binders, place) {
        let name = name_text(alloc, outlined, place)?;
        return Ok(Some(Binding { name, kind }));
    }
    let Some(kind) = unnamed(outlined, inside, place) else {
        return Ok(None);
    };
    let name = Text::from_slice(alloc, b"__webpack_default")?;
    Ok(Some(Binding { name, kind }))
}
