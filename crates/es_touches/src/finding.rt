//! The touches of a text.
ghost use Rattle.std.specs.Prelude.{◌≡◌, ◌<◌, ◌^◌, ◌+◌, length, IfOk};
ghost use Rattle.es_scope.specs.Listed.{AreThose};
ghost use Rattle.es_touches.specs.Touches.{IsTouch};
ghost use Rattle.es_touches.specs.Told as spec;

use crate::anew::touch_at;
use crate::numbers::{default_number, numbers_of};
use crate::tables::Tables;
use es_parts::{Binders, Enclosing};
use es_scope::{Outlined, Scopes};
use module_body::Touch;
use pk_types::{Binding, Facts};
use std::alloc::{AllocError, Global};

// The tables of a text that declares these bindings.
fn tables_of<'a, 't>(
    alloc: Global,
    outlined: &'a Outlined<'t>,
    bindings: &'a [Binding],
) -> Result<Tables<'a, 't>, AllocError>
    requires short { length outlined.now.marks + 2 < 2 ^ 32 }
    requires few { length bindings.now < 2 ^ 32 }
    ensures source { IfOk result (λ tables. tables.source ≡ outlined.now) }
    ensures bindings { IfOk result (λ tables. tables.bindings ≡ bindings.now) }
    ensures tables { IfOk result spec.AreTables }
{
    let scopes = Scopes::new(alloc, outlined)?;
    let enclosing = Enclosing::new(alloc, outlined.marks())?;
    let binders = Binders::new(alloc, outlined.marks())?;
    let numbers = numbers_of(alloc, &scopes, bindings)?;
    let default = default_number(bindings);
    Ok(Tables {
        outlined,
        bindings,
        scopes,
        enclosing,
        binders,
        numbers,
        default,
    })
}

// The touches of a text with its tables.
fn touches_by(alloc: Global, tables: &Tables<'_, '_>) -> Result<Vec<Touch>, AllocError>
    requires { spec.AreTables tables.now }
    ensures { IfOk result (λ touches. AreThose (IsTouch tables.now.source tables.now.bindings) touches.items) }
{
    let mut touches = Vec::new(alloc);
    for (place, mark) in tables.outlined.marks().iter().enumerate() {
        if let Some(touch) = touch_at(tables, place as u32, *mark) {
            touches.push(touch)?;
        }
    }
    Ok(touches)
}

/// The touches of a text, in the order of places: each lies at the place of its last mark, and that of a function without a name
/// where its name would stand.
pub fn touches(
    alloc: Global,
    outlined: &Outlined<'_>,
    facts: &Facts,
) -> Result<Vec<Touch>, AllocError>
    requires short { length outlined.now.marks + 2 < 2 ^ 32 }
    requires few { length facts.now.bindings < 2 ^ 32 }
    ensures { IfOk result (λ touches. AreThose (IsTouch outlined.now facts.now.bindings) touches.items) }
{
    let tables = tables_of(alloc, outlined, facts.bindings.as_slice())?;
    touches_by(alloc, &tables)
}
