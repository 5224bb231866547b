//! What an `export default` binds without a name.
ghost use Rattle.std.specs.Prelude.{◌≡◌};
ghost use Rattle.es_scope.specs.Declaring.{BindsUnnamed};
ghost use Rattle.es_declares.specs.Found.{IsItemAt};
ghost use Rattle.es_declares.specs.Inside.{AreStanding};
ghost use Rattle.es_declares.specs.Unnamed as spec;

use crate::inside::{Inside, kind_begun, mark_at};
use es_outline::{Mark, Part};
use es_scope::Outlined;
use pk_types::BindKind;

// Whether an `export default` begins by a mark.
fn begins_default(mark: Option<Mark>) -> bool
    ensures { result ≡ spec.begins_default mark }
{
    matches!(mark, Some(Mark::Begin(Part::ExportDefault)))
}

// Whether an exported expression begins by a mark.
fn begins_value(mark: Option<Mark>) -> bool
    ensures { result ≡ spec.begins_value mark }
{
    matches!(mark, Some(Mark::Begin(Part::ExportedValue)))
}

// What begins behind the mark that it has no name.
fn kind_behind(outlined: &Outlined<'_>, at: Option<u32>) -> Option<BindKind>
    ensures { result ≡ spec.kind_behind outlined.now at }
{
    kind_begun(mark_at(outlined, at? as usize + 1))
}

// What the `export default` that begins at a place binds without a name.
fn default_binds(outlined: &Outlined<'_>, inside: &Inside, opening: u32) -> Option<BindKind>
    ensures { result ≡ spec.default_binds outlined.now inside.now.nameless opening }
{
    if !begins_default(mark_at(outlined, opening as usize)) {
        return None;
    }
    if begins_value(mark_at(outlined, opening as usize + 3)) {
        return Some(BindKind::Const);
    }
    kind_behind(outlined, inside.nameless_in(opening))
}

// The same where the second word of one stands.
fn unnamed_at(outlined: &Outlined<'_>, inside: &Inside, place: u32) -> Option<BindKind>
    ensures { result ≡ spec.unnamed_at outlined.now inside.now.nameless place }
{
    if 2 <= place {
        default_binds(outlined, inside, place - 2)
    } else {
        None
    }
}

/// What the `export default` binds without a name whose second word stands at a place; none where no such one does.
pub fn unnamed(outlined: &Outlined<'_>, inside: &Inside, place: u32) -> Option<BindKind>
    requires { AreStanding outlined.now inside.now }
    ensures { IsItemAt (BindsUnnamed outlined.now) place result }
{
    unnamed_at(outlined, inside, place)
}
