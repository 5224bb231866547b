//! What is known of a text before its first fault is sought.
ghost use Rattle.std.specs.Prelude.{◌<◌, ◌^◌, ◌+◌, length, IfOk};
ghost use Rattle.es_facts.specs.Tables.{AreTables};

use es_asks::Asked;
use es_declares::Declarations;
use es_exports::Exports;
use es_parts::Enclosing;
use es_scope::{Outlined, Scopes};
use std::alloc::{AllocError, Global};

/// What the passes over the marks of a text tell.
#[derive(Drop)]
pub(crate) struct Tables {
    pub(crate) scopes: Scopes,
    pub(crate) enclosing: Enclosing,
    pub(crate) asked: Asked,
    pub(crate) declarations: Declarations,
    pub(crate) exports: Exports,
}

/// Goes through the marks of a text, once for each table.
pub(crate) fn make_tables(alloc: Global, outlined: &Outlined<'_>) -> Result<Tables, AllocError>
    requires short { length outlined.now.marks + 2 < 2 ^ 32 }
    ensures { IfOk result (AreTables outlined.now) }
{
    let scopes = Scopes::new(alloc, outlined)?;
    let enclosing = Enclosing::new(alloc, outlined.marks())?;
    let asked = Asked::new(alloc, outlined, &scopes)?;
    let declarations = Declarations::new(alloc, outlined, &scopes, &enclosing, &asked)?;
    let exports = Exports::new(alloc, outlined, &scopes, &enclosing, &asked, &declarations)?;
    Ok(Tables {
        scopes,
        enclosing,
        asked,
        declarations,
        exports,
    })
}
