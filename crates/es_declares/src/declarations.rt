//! The imports and the bindings of a text.
ghost use Rattle.std.specs.Prelude.{◌≡◌, ◌<◌, ◌^◌, ◌+◌, length, IfOk};
ghost use Rattle.es_scope.specs.Telling.{AreScopes};
ghost use Rattle.es_parts.specs.Around.{AreAround};
ghost use Rattle.es_asks.specs.Numbering.{AreAsked};
ghost use Rattle.es_declares.specs.Numbering as spec;

use crate::bindings::{Bindings, all_bindings};
use crate::gathered::{Imports, all_imports};
use crate::inside::Inside;
use es_asks::Asked;
use es_parts::{Binders, Enclosing};
use es_scope::{Outlined, Scopes};
use pk_text::Sequence;
use pk_types::{Binding, ImportEntry};
use std::alloc::{AllocError, Global};

/// The imports and the bindings of a text. Places and names have the numbers of these: a place that declares an import, and
/// a name, told by its number among the names of the text, that a binding has.
#[derive(Drop)]
pub struct Declarations {
    pub imports: Sequence<ImportEntry>,
    pub import_at: Vec<Option<u32>>,
    pub bindings: Sequence<Binding>,
    pub binding_of: Vec<Option<u32>>,
    pub default_binding: Option<u32>,
}

// The imports and the bindings together.
fn joined(imports: Imports, bindings: Bindings) -> Declarations
    ensures imports { result.imports ≡ imports.entries }
    ensures import_at { result.import_at.items ≡ imports.numbers }
    ensures bindings { result.bindings ≡ bindings.items }
    ensures binding_of { result.binding_of.items ≡ bindings.numbers }
    ensures default_binding { result.default_binding ≡ bindings.default }
{
    let Imports { entries, numbers } = imports;
    let Bindings {
        items,
        numbers: binding_of,
        default,
    } = bindings;
    Declarations {
        imports: Sequence::from_vec(entries),
        import_at: numbers,
        bindings: Sequence::from_vec(items),
        binding_of,
        default_binding: default,
    }
}

impl Declarations {
    /// What a text imports and declares.
    pub fn new(
        alloc: Global,
        outlined: &Outlined<'_>,
        scopes: &Scopes,
        enclosing: &Enclosing,
        asked: &Asked,
    ) -> Result<Declarations, AllocError>
        requires short { length outlined.now.marks + 2 < 2 ^ 32 }
        requires scopes { AreScopes outlined.now scopes.now }
        requires enclosing { AreAround outlined.now.marks enclosing.now }
        requires asked { AreAsked outlined.now asked.now }
        ensures { IfOk result (spec.AreDeclarations outlined.now asked.now.requests scopes.now.texts) }
    {
        let inside = Inside::new(alloc, outlined, enclosing, asked)?;
        let binders = Binders::new(alloc, outlined.marks())?;
        let imports = all_imports(alloc, outlined, enclosing, asked, &inside)?;
        let bindings = all_bindings(alloc, outlined, scopes, &binders, &inside)?;
        Ok(joined(imports, bindings))
    }
}
