//! Whether what stands at a place is called, and how its spelling is held together there.
ghost use Rattle.std.specs.Prelude.{◌≡◌};
ghost use Rattle.module_body.specs.Calls as spec;

use es_outline::{Mark, Role};
use es_scope::Outlined;

/// How a spelling is held together.
#[derive(Clone, Copy, Debug, PartialEq, Eq)]
pub enum Hold {
    /// It stands alone.
    Nothing,
    /// It is called without a `this`: `(0, SPELLING)`.
    Comma,
    /// It begins the callee of a `new`: `(SPELLING)`.
    Parentheses,
}

/// What stands before a spelling that is held so.
pub(crate) fn opening_of(hold: Hold) -> &'static [u8]
    ensures { result.now ≡ spec.opening_of hold }
{
    match hold {
        Hold::Nothing => b"",
        Hold::Comma => b"(0, ",
        Hold::Parentheses => b"(",
    }
}

/// What stands behind it.
pub(crate) fn closing_of(hold: Hold) -> &'static [u8]
    ensures { result.now ≡ spec.closing_of hold }
{
    match hold {
        Hold::Nothing => b"",
        _ => b")",
    }
}

// Whether a mark is a token that ends there or behind.
fn ends_by(end: u32, mark: Mark) -> bool
    ensures { result ≡ spec.ends_by end mark }
{
    match mark {
        Mark::Token(_, token) => end <= token.end,
        _ => false,
    }
}

/// The marks behind the token that ends there.
#[tactic(auto, unfolding(crate::specs::Calls::marks_behind))]
pub(crate) fn marks_behind(end: u32, marks: &[Mark]) -> &[Mark]
    ensures { result.now ≡ spec.marks_behind end marks.now }
{
    let mut left = marks;
    while let Some((mark, after)) = left.split_first() {
        if ends_by(end, *mark) {
            return after;
        }
        left = after;
    }
    left
}

// Whether a call or a tagged template begins.
fn begins_call(outlined: &Outlined<'_>, marks: &[Mark]) -> bool
    ensures { result ≡ spec.begins_call outlined.now.text marks.now }
{
    match marks {
        [Mark::Call | Mark::Tag, ..] => true,
        [
            Mark::Token(Role::Suffixes, _),
            Mark::Token(Role::Plain, left),
            ..
        ] => { outlined.spelled(*left) == b"(".as_slice() }
        _ => false,
    }
}

// Whether a mark is a `)` of parentheses.
fn closes(mark: Mark) -> bool
    ensures { result ≡ spec.closes mark }
{
    matches!(mark, Mark::Token(Role::Closes, _))
}

/// Whether a call or a tagged template begins, maybe behind `)` of parentheses, of which so many are open.
#[tactic(auto, unfolding(crate::specs::Calls::is_called))]
pub(crate) fn is_called(outlined: &Outlined<'_>, opens: usize, marks: &[Mark]) -> bool
    ensures { result ≡ spec.is_called outlined.now.text opens marks.now }
{
    let mut left = marks;
    let mut more = opens;
    while let Some((mark, after)) = left.split_first() {
        if more == 0 || !closes(*mark) {
            return begins_call(outlined, left);
        }
        left = after;
        more -= 1;
    }
    false
}

/// Whether a spelling names a property.
pub(crate) fn is_property(text: &[u8]) -> bool
    ensures { result ≡ spec.is_property text.now }
{
    text.starts_with(b"__webpack_r.m(") || text.starts_with(b"__webpack_r.w(")
}

/// Whether a spelling calls the loader, or names what it gives.
pub(crate) fn is_loaded(text: &[u8]) -> bool
    ensures { result ≡ spec.is_loaded text.now }
{
    text.starts_with(b"__webpack_r")
}
