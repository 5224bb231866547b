//! Names that are declared without a value.
ghost use Rattle.std.specs.Prelude.{◌≡◌, ◌<◌, length};
ghost use Rattle.es_scope.specs.Frames.{declared_at};
ghost use Rattle.es_touches.specs.Told as spec;

use crate::marks::{initializes, is_iterated, mark_at};
use crate::tables::Tables;
use es_parts::declared;
use es_scope::DeclarationKind;

// Whether a pattern begins behind an opening.
fn is_behind(opening: Option<u32>, pattern: Option<u32>) -> bool
    ensures { result ≡ spec.is_behind opening pattern }
{
    match (opening, pattern) {
        (Some(opening), Some(pattern)) => opening < pattern,
        _ => false,
    }
}

// Whether the name that is bound at a place is given a value there.
fn is_given(tables: &Tables<'_, '_>, place: u32) -> bool
    requires tables { spec.AreLong tables.now }
    requires place { place < length tables.now.source.marks }
    ensures { result ≡ spec.is_given tables.now place }
{
    let next = mark_at(tables.outlined, place as usize + 1);
    initializes(next)
        || is_iterated(next)
        || is_behind(tables.binder(place), tables.pattern_around(place))
}

// How the name at a place is declared there, if it is.
fn declared_how(tables: &Tables<'_, '_>, place: u32) -> Option<DeclarationKind>
    requires binders { spec.HasBinders tables.now }
    requires place { place < length tables.now.source.marks }
    ensures { result ≡ declared_at tables.now.source place }
{
    declared(tables.outlined, &tables.binders, place)
}

/// Whether a function is declared at a place, or a `var` that is given no value there.
pub(crate) fn is_alone(tables: &Tables<'_, '_>, place: u32) -> bool
    requires tables { spec.AreLong tables.now }
    requires binders { spec.HasBinders tables.now }
    requires place { place < length tables.now.source.marks }
    ensures { result ≡ spec.is_alone tables.now place }
{
    match declared_how(tables, place) {
        Some(DeclarationKind::Function) => true,
        Some(DeclarationKind::Var) => !is_given(tables, place),
        _ => false,
    }
}
