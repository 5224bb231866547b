//! The sites of a text.
ghost use Rattle.std.specs.Prelude.{◌≡◌, ◌<◌, ◌^◌, ◌+◌, Some, length, slice_get, IfOk};
ghost use Rattle.es_tree.specs.Names.{name_of};
ghost use Rattle.es_scope.specs.Listed.{AreThose};
ghost use Rattle.es_scope.specs.SiteRules.{IsSite};
ghost use Rattle.es_scope.specs.Source.{name_at};
ghost use Rattle.es_scope.specs.Telling.{AreScopes};
ghost use Rattle.es_parts.specs.Around.{AreAround};
ghost use Rattle.es_asks.specs.Numbering.{AreAsked};
ghost use Rattle.es_declares.specs.Numbering.{AreDeclarations, known_by};
ghost use Rattle.es_sites.specs.Done as spec;
ghost use Rattle.es_sites.specs.Tables.{AreTables, known};

use crate::done::{Act, Done, done_at};
use crate::inside::Inside;
use crate::marks::token_at;
use crate::tables::Tables;
use es_asks::Asked;
use es_declares::Declarations;
use es_names::{is_plain, name};
use es_outline::Mark;
use es_parts::Enclosing;
use es_scope::{Outlined, Scopes};
use pk_text::{Sequence, Text};
use pk_types::{Site, SiteKind};
use std::alloc::{AllocError, Global};

// The name at a place.
fn name_at(alloc: Global, outlined: &Outlined<'_>, place: usize) -> Result<Text, AllocError>
    ensures { IfOk result (λ name. name ≡ name_at outlined.now place) }
{
    let spelling = outlined.spelled_at(place);
    if is_plain(spelling) {
        Text::from_slice(alloc, spelling)
    } else {
        Ok(Text::from_vec(name(alloc, spelling)?))
    }
}

// What is done, as sites tell it.
fn kind_of(alloc: Global, outlined: &Outlined<'_>, done: Done) -> Result<SiteKind, AllocError>
    ensures { IfOk result (λ kind. kind ≡ spec.kind_of outlined.now done) }
{
    match done.act {
        Act::Init(binding) => Ok(SiteKind::Init(binding)),
        Act::Read(to) => Ok(SiteKind::Read(to)),
        Act::Write(to) => Ok(SiteKind::Write(to)),
        Act::Member(request) => Ok(SiteKind::Member(request, name_at(alloc, outlined, done.last)?)),
        Act::Space(request) => Ok(SiteKind::Space(request)),
        Act::Require(request) => Ok(SiteKind::Require(request)),
        Act::Import(request) => Ok(SiteKind::Import(request)),
    }
}

// The site of what is done.
fn site_of(alloc: Global, outlined: &Outlined<'_>, done: Done) -> Result<Option<Site>, AllocError>
    ensures { IfOk result (λ site. site ≡ spec.site_of outlined.now (Some done)) }
{
    let marks = outlined.marks();
    let Some(first) = token_at(marks, done.first) else {
        return Ok(None);
    };
    let Some(last) = token_at(marks, done.last) else {
        return Ok(None);
    };
    let kind = kind_of(alloc, outlined, done)?;
    Ok(Some(Site {
        kind,
        start: first.start,
        end: last.end,
    }))
}

// The site at a place, where this mark stands.
#[tactic(auto, unfolding(crate::specs::Done::site_at))]
fn site_at(
    alloc: Global,
    tables: &Tables<'_, '_>,
    place: u32,
    mark: Mark,
) -> Result<Option<Site>, AllocError>
    requires tables { AreTables tables.now }
    requires mark { slice_get tables.now.source.marks place ≡ Some «mark» }
    ensures { IfOk result (λ site. site ≡ spec.site_at tables.now place) }
{
    match done_at(tables, place, mark) {
        Some(done) => site_of(alloc, tables.outlined, done),
        None => Ok(None),
    }
}

// The sites of a text with its tables.
fn sites_by(alloc: Global, tables: &Tables<'_, '_>) -> Result<Sequence<Site>, AllocError>
    requires { AreTables tables.now }
    ensures { IfOk result (AreThose (IsSite tables.now.source (known tables.now))) }
{
    let mut sites = Vec::new(alloc);
    for (place, mark) in tables.outlined.marks().iter().enumerate() {
        if let Some(site) = site_at(alloc, tables, place as u32, *mark)? {
            sites.push(site)?;
        }
    }
    Ok(Sequence::from_vec(sites))
}

/// The sites of a text, in the order of places.
pub fn sites(
    alloc: Global,
    outlined: &Outlined<'_>,
    scopes: &Scopes,
    enclosing: &Enclosing,
    asked: &Asked,
    declarations: &Declarations,
) -> Result<Sequence<Site>, AllocError>
    requires short { length outlined.now.marks + 2 < 2 ^ 32 }
    requires scopes { AreScopes outlined.now scopes.now }
    requires enclosing { AreAround outlined.now.marks enclosing.now }
    requires asked { AreAsked outlined.now asked.now }
    requires declarations { AreDeclarations outlined.now asked.now.requests scopes.now.texts declarations.now }
    ensures { IfOk result (AreThose (IsSite outlined.now (known_by asked.now.requests declarations.now))) }
{
    let inside = Inside::new(alloc, outlined, enclosing, asked)?;
    let tables = Tables {
        outlined,
        scopes,
        enclosing,
        asked,
        declarations,
        inside,
    };
    sites_by(alloc, &tables)
}
