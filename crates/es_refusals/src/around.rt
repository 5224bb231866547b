//! What stands around an occurrence of a name.
ghost use Rattle.std.specs.Prelude.{◌≡◌, ◌<◌, ◌^◌, ◌+◌, Some, length, slice_get};
ghost use Rattle.es_asks.specs.Free as asked;
ghost use Rattle.es_asks.specs.Texts as texts;
ghost use Rattle.es_refusals.specs.Around as spec;

use es_outline::{Mark, Role};
use es_scope::Outlined;

/// The mark at a place.
pub(crate) fn mark_at(outlined: &Outlined<'_>, place: usize) -> Option<Mark>
    ensures { result ≡ slice_get outlined.now.marks place }
{
    outlined.marks().get(place).copied()
}

/// Whether the token at a place is spelled like this.
pub(crate) fn spells(outlined: &Outlined<'_>, place: usize, word: &[u8]) -> bool
    ensures { result ≡ texts.spells outlined.now place word.now }
{
    outlined.spelled_at(place) == word
}

// Whether a mark is `(` of a parenthesised expression.
fn is_opens(found: Option<Mark>) -> bool
    ensures { result ≡ spec.is_opens found }
{
    matches!(found, Some(Mark::Token(Role::Opens, _)))
}

// Whether a mark is `)` of such a one.
fn is_closes(found: Option<Mark>) -> bool
    ensures { result ≡ spec.is_closes found }
{
    matches!(found, Some(Mark::Token(Role::Closes, _)))
}

// Whether a mark is a prefix.
fn is_prefix(found: Option<Mark>) -> bool
    ensures { result ≡ spec.is_prefix found }
{
    matches!(found, Some(Mark::Token(Role::Prefix, _)))
}

/// Whether a mark is `.` before the name of a property.
pub(crate) fn is_dot(found: Option<Mark>) -> bool
    ensures { result ≡ spec.is_dot found }
{
    matches!(found, Some(Mark::Token(Role::Dot, _)))
}

/// Whether arguments of a call follow at a mark.
pub(crate) fn is_call(found: Option<Mark>) -> bool
    ensures { result ≡ asked.is_call found }
{
    matches!(found, Some(Mark::Call))
}

// Whether a member, a call or a tagged template goes on at a mark, or the name before it is assigned to.
fn goes_on(found: Option<Mark>) -> bool
    ensures { result ≡ spec.goes_on found }
{
    match found {
        Some(Mark::Token(role, _)) => matches!(role, Role::Dot | Role::Suffixes),
        Some(Mark::Call | Mark::Tag | Mark::Assigned) => true,
        _ => false,
    }
}

// Whether `typeof` stands before a place.
fn is_behind_typeof(outlined: &Outlined<'_>, place: u32) -> bool
    ensures { result ≡ spec.is_behind_typeof outlined.now place }
{
    if place == 0 {
        return false;
    }
    let before = place as usize - 1;
    is_prefix(mark_at(outlined, before)) && spells(outlined, before, b"typeof")
}

/// Whether the name at a place is the operand of `typeof`.
pub(crate) fn is_typeof(outlined: &Outlined<'_>, place: u32) -> bool
    ensures { result ≡ spec.is_typeof outlined.now place }
{
    is_behind_typeof(outlined, place) && !goes_on(mark_at(outlined, place as usize + 1))
}

// Whether `?.` and arguments stand at a place.
fn calls_if_there(outlined: &Outlined<'_>, place: usize) -> bool
    requires { place < 2 ^ 33 }
    ensures { result ≡ spec.calls_if_there outlined.now place }
{
    spells(outlined, place, b"?.") && spells(outlined, place + 1, b"(")
}

/// Whether a member goes on at a place.
pub(crate) fn goes_on_as_member(outlined: &Outlined<'_>, place: usize) -> bool
    requires { place < 2 ^ 33 }
    ensures { result ≡ spec.goes_on_as_member outlined.now place }
{
    match mark_at(outlined, place) {
        Some(Mark::Token(Role::Dot, _)) => true,
        Some(Mark::Token(Role::Suffixes, _)) => !calls_if_there(outlined, place),
        _ => false,
    }
}

// Whether parentheses stand around what goes from `outer` to `last`.
fn is_enclosed(outlined: &Outlined<'_>, outer: usize, last: usize) -> bool
    requires { last < 2 ^ 33 }
    ensures { result ≡ spec.is_enclosed outlined.now.marks outer last }
{
    if outer == 0 {
        return false;
    }
    is_opens(mark_at(outlined, outer - 1)) && is_closes(mark_at(outlined, last + 1))
}

/// Whether the name at a place is called, maybe in parentheses.
///
/// Only parentheses that stand right around the name are gone through. A `(` stands right around one name at most, so all
/// the names of a text together take no more steps than the text has parentheses.
pub(crate) fn is_called(outlined: &Outlined<'_>, place: u32) -> bool
    ensures { result ≡ spec.called_from outlined.now.marks place place }
{
    let mut outer = place as usize;
    let mut last = place as usize;
    while is_enclosed(outlined, outer, last) {
        outer -= 1;
        last += 1;
    }
    is_call(mark_at(outlined, last + 1))
}
