//! How marks declare names.
ghost use Rattle.std.specs.Prelude.{◌≡◌, Some};
ghost use Rattle.es_scope.specs.Frames as spec;

use crate::frame::{Binder, Frame};
use crate::kinds::DeclarationKind;
use crate::outlined::Outlined;
use es_outline::{Mark, Role};

// What the word of a declaration declares.
fn kind_of_word(word: &[u8]) -> Option<DeclarationKind>
    ensures { result ≡ spec.kind_of_word word.now }
{
    if word == b"var".as_slice() {
        Some(DeclarationKind::Var)
    } else if word == b"let".as_slice() {
        Some(DeclarationKind::Let)
    } else if word == b"const".as_slice() {
        Some(DeclarationKind::Const)
    } else {
        None
    }
}

// How a BindingIdentifier is declared that is bound like this.
fn bound_by(outlined: &Outlined<'_>, binder: Binder) -> Option<DeclarationKind>
    ensures { result ≡ spec.bound_by outlined.now binder }
{
    match binder {
        Binder::Declaration(opening) => kind_of_word(outlined.spelled_at(opening as usize + 1)),
        Binder::Parameters => Some(DeclarationKind::Parameter),
        Binder::Catch => Some(DeclarationKind::Catch),
        Binder::None => None,
    }
}

/// How the mark declares a name, if it does, where this is known of the parts around it.
pub(crate) fn declared(outlined: &Outlined<'_>, mark: Mark, frame: Frame) -> Option<DeclarationKind>
    ensures { result ≡ spec.mark_declares outlined.now (Some mark) frame }
{
    let Mark::Token(role, _) = mark else {
        return None;
    };
    match role {
        Role::Bound => bound_by(outlined, frame.binder),
        Role::FunctionName => Some(DeclarationKind::Function),
        Role::ClassName => Some(DeclarationKind::Class),
        Role::Imported | Role::ImportedDefault | Role::ImportedSpace => {
            Some(DeclarationKind::Import)
        }
        _ => None,
    }
}
