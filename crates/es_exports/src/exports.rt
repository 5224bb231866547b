//! The exports of a text.
ghost use Rattle.std.specs.Prelude.{◌<◌, ◌^◌, ◌+◌, length, IfOk};
ghost use Rattle.es_scope.specs.Telling.{AreScopes};
ghost use Rattle.es_parts.specs.Around.{AreAround};
ghost use Rattle.es_asks.specs.Numbering.{AreAsked};
ghost use Rattle.es_declares.specs.Numbering.{AreDeclarations, known_by};
ghost use Rattle.es_exports.specs.Exported as spec;

use crate::inside::Inside;
use crate::names::first_again;
use crate::origins::named;
use crate::passes::{entries, first_undeclared, stars};
use crate::sight::Sight;
use es_asks::Asked;
use es_declares::Declarations;
use es_parts::{Binders, Enclosing};
use es_scope::{Outlined, Scopes};
use pk_text::Sequence;
use pk_types::ExportEntry;
use std::alloc::{AllocError, Global};

/// The exports of a text; the requests of its `export * from`; the first place that exports a name again, and the first that
/// lists a name that the top doesn't declare.
#[derive(Drop)]
pub struct Exports {
    pub entries: Sequence<ExportEntry>,
    pub stars: Sequence<u32>,
    pub twice: Option<u32>,
    pub undeclared: Option<u32>,
}

impl Exports {
    /// What a text exports.
    pub fn new(
        alloc: Global,
        outlined: &Outlined<'_>,
        scopes: &Scopes,
        enclosing: &Enclosing,
        asked: &Asked,
        declarations: &Declarations,
    ) -> Result<Exports, AllocError>
        requires short { length outlined.now.marks + 2 < 2 ^ 32 }
        requires scopes { AreScopes outlined.now scopes.now }
        requires enclosing { AreAround outlined.now.marks enclosing.now }
        requires asked { AreAsked outlined.now asked.now }
        requires declarations { AreDeclarations outlined.now asked.now.requests
            scopes.now.texts declarations.now }
        ensures { IfOk result (spec.AreExports outlined.now
            (known_by asked.now.requests declarations.now)) }
    {
        let sight = Sight {
            outlined,
            scopes,
            enclosing,
            asked,
            declarations,
            binders: Binders::new(alloc, outlined.marks())?,
        };
        let inside = Inside::new(alloc, &sight)?;
        let named = named(alloc, &sight, &inside)?;
        Ok(Exports {
            entries: Sequence::from_vec(entries(alloc, &sight, &inside, &named)?),
            stars: Sequence::from_vec(stars(alloc, &sight, &inside)?),
            twice: first_again(alloc, &sight)?,
            undeclared: first_undeclared(&sight, &inside),
        })
    }
}
