//! Tests of single marks.
ghost use Rattle.std.specs.Prelude.{◌≡◌, slice_get};
ghost use Rattle.es_scope.specs.Source.{token_of};
ghost use Rattle.es_touches.specs.Told as spec;

use es_outline::{Mark, Part, Role};
use es_scope::Outlined;
use es_tree::Token;

/// The mark at a place.
pub(crate) fn mark_at(outlined: &Outlined<'_>, place: usize) -> Option<Mark>
    ensures { result ≡ slice_get outlined.now.marks place }
{
    outlined.marks().get(place).copied()
}

/// The token of a mark.
pub(crate) fn token_of(found: Option<Mark>) -> Option<Token>
    ensures { result ≡ token_of found }
{
    match found {
        Some(Mark::Token(_, token)) => Some(token),
        _ => None,
    }
}

/// Whether a mark is the name of a class.
pub(crate) fn is_class_name(found: Option<Mark>) -> bool
    ensures { result ≡ spec.is_class_name found }
{
    matches!(found, Some(Mark::Token(Role::ClassName, _)))
}

/// Whether an `export default` begins with a mark.
pub(crate) fn begins_default(found: Option<Mark>) -> bool
    ensures { result ≡ spec.begins_default found }
{
    matches!(found, Some(Mark::Begin(Part::ExportDefault)))
}

/// Whether a function begins with a mark.
pub(crate) fn begins_function(found: Option<Mark>) -> bool
    ensures { result ≡ spec.begins_function found }
{
    matches!(found, Some(Mark::Begin(Part::Function)))
}

/// Whether a mark is `=` of an Initializer.
pub(crate) fn initializes(found: Option<Mark>) -> bool
    ensures { result ≡ spec.initializes found }
{
    matches!(found, Some(Mark::Token(Role::Initializes, _)))
}

/// Whether a mark says that what is bound before it is bound to values in turn.
pub(crate) fn is_iterated(found: Option<Mark>) -> bool
    ensures { result ≡ spec.is_iterated found }
{
    matches!(found, Some(Mark::Iterated))
}

/// Whether a mark is a word before an operand.
pub(crate) fn is_prefix(found: Option<Mark>) -> bool
    ensures { result ≡ spec.is_prefix found }
{
    matches!(found, Some(Mark::Token(Role::Prefix, _)))
}

/// Whether a member, a call or a tagged template goes on at a mark, or the name before it is assigned to.
pub(crate) fn goes_on(found: Option<Mark>) -> bool
    ensures { result ≡ spec.goes_on found }
{
    match found {
        Some(Mark::Token(role, _)) => matches!(role, Role::Dot | Role::Suffixes),
        Some(Mark::Call | Mark::Tag | Mark::Assigned) => true,
        _ => false,
    }
}
