//! The declarations that bind names.
ghost use Rattle.std.specs.Prelude.{◌≡◌, ◌<◌, length};
ghost use Rattle.es_parts.specs.Around.{AreAround};
ghost use Rattle.es_sites.specs.Tables as spec;

use crate::marks::{begins_binder, begins_declaration};
use crate::tables::part_around;
use es_parts::Enclosing;
use es_scope::Outlined;

/// The declaration by `var`, `let` or `const` that binds at a place. The parts around the place are gone through from inside
/// up to the first that binds. Between a name and its declaration are only patterns, and these are within the depth of nests.
pub(crate) fn declaration_around(
    outlined: &Outlined<'_>,
    enclosing: &Enclosing,
    place: u32,
) -> Option<u32>
    requires enclosing { AreAround outlined.now.marks enclosing.now }
    requires place { place < length outlined.now.marks }
    ensures { result ≡ spec.declaration_around outlined.now place }
{
    let marks = outlined.marks();
    let mut at = place;
    while let Some(opening) = part_around(marks, enclosing, at) {
        if begins_declaration(marks, opening as usize) {
            return Some(opening);
        }
        if begins_binder(marks, opening as usize) {
            return None;
        }
        at = opening;
    }
    None
}
