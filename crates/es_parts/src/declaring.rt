//! How the tokens of an outline declare names.
ghost use Rattle.std.specs.Prelude.{◌≡◌, ◌↔◌, ◌<◌, ◌^◌, ◌+◌, length, slice_get, Some};
ghost use Rattle.es_scope.specs.Frames.{kind_of_word};
ghost use Rattle.es_scope.specs.Occurrences.{IsDeclared};
ghost use Rattle.es_scope.specs.declared.kinds.DeclarationKind.{DeclarationKind};
ghost use Rattle.es_parts.specs.Binding as spec;

use crate::binders::Binders;
use es_outline::{Mark, Part, Role};
use es_scope::{DeclarationKind, Outlined};

// What the word of a declaration declares.
fn kind_of_word(word: &[u8]) -> Option<DeclarationKind>
    ensures { result ≡ kind_of_word word.now }
{
    if word == b"var".as_slice() {
        Some(DeclarationKind::Var)
    } else if word == b"let".as_slice() {
        Some(DeclarationKind::Let)
    } else if word == b"const".as_slice() {
        Some(DeclarationKind::Const)
    } else {
        None
    }
}

// How a name is declared that this part binds.
fn bound_by(outlined: &Outlined<'_>, binder: Option<u32>) -> Option<DeclarationKind>
    ensures { result ≡ spec.bound_by outlined.now binder }
{
    let opening = binder? as usize;
    match outlined.marks().get(opening) {
        Some(Mark::Begin(Part::Declaration)) => kind_of_word(outlined.spelled_at(opening + 1)),
        Some(Mark::Begin(Part::Function | Part::Arrow)) => Some(DeclarationKind::Parameter),
        Some(Mark::Begin(Part::Catch)) => Some(DeclarationKind::Catch),
        _ => None,
    }
}

// How a mark declares a name, if it does, where this part binds.
fn declared_by(outlined: &Outlined<'_>, mark: Mark, binder: Option<u32>) -> Option<DeclarationKind>
    ensures { result ≡ spec.mark_declares outlined.now (Some mark) binder }
{
    let Mark::Token(role, _) = mark else {
        return None;
    };
    match role {
        Role::Bound => bound_by(outlined, binder),
        Role::FunctionName => Some(DeclarationKind::Function),
        Role::ClassName => Some(DeclarationKind::Class),
        Role::Imported | Role::ImportedDefault | Role::ImportedSpace => {
            Some(DeclarationKind::Import)
        }
        _ => None,
    }
}

/// How the name at a place is declared there, if it is.
pub fn declared(outlined: &Outlined<'_>, binders: &Binders, place: u32) -> Option<DeclarationKind>
    requires binders { spec.AreBinders outlined.now.marks binders.now }
    requires place { place < length outlined.now.marks }
    ensures { (how : DeclarationKind) → (result ≡ Some how) ↔ IsDeclared outlined.now place how }
{
    let mark = outlined.marks()[place as usize];
    declared_by(outlined, mark, binders.binder(place))
}
