//! `typeof` of just a name.
ghost use Rattle.std.specs.Prelude.{◌≡◌, ◌<◌, ◌^◌};
ghost use Rattle.es_refusals.specs.Around as spec;

use crate::marks::{goes_on, is_prefix, mark_at};
use es_scope::Outlined;

// Whether `typeof` stands before a place.
fn is_behind_typeof(outlined: &Outlined<'_>, place: u32) -> bool
    ensures { result ≡ spec.is_behind_typeof outlined.now place }
{
    if place == 0 {
        return false;
    }
    let before = place as usize - 1;
    is_prefix(mark_at(outlined, before)) && outlined.spelled_at(before) == b"typeof".as_slice()
}

/// Whether the name at a place is the operand of `typeof`.
pub(crate) fn is_typeof(outlined: &Outlined<'_>, place: u32) -> bool
    ensures { result ≡ spec.is_typeof outlined.now place }
{
    is_behind_typeof(outlined, place) && !goes_on(mark_at(outlined, place as usize + 1))
}
