// What the sites of a module use.
ghost use Rattle.std.specs.Prelude.{◌≡◌, ◌<◌, length, slice_get, Some, OnOk};
ghost use Rattle.std.specs.List.{Contains};
ghost use Rattle.pk_types.specs.Places.{ArePlacesIn, HasPlaces};
ghost use Rattle.pk_types.specs.Requests.{site_kinds, AsksFor, NamesAtSite, UsesSpaceAtSite};
ghost use Rattle.pk_types.specs.Sites.{ref_imports};
ghost use Rattle.prune_graph.specs.AtSites.{AsksBy, UsesName, UsesSpace};
ghost use Rattle.prune_graph.specs.Gathering.{HasRequests, Gains, IsNoSpace};

use crate::through::Through;
use pk_types::{Ref, Row, SiteKind};
use std::alloc::AllocError;

// Adds what the import at this place asks for.
fn add_import<'a>(row: &'a Row, place: u32, through: &mut Through<'a>) -> Result<(), AllocError>
    requires places { HasPlaces row.now.facts }
    requires place { «place» < length row.now.facts.imports }
    requires requests { HasRequests (length row.now.facts.requests) through.old }
    ensures { OnOk result (Gains through.old (AsksFor row.now «place») IsNoSpace through.new) }
{
    let entry = &row.facts.imports.as_slice()[place as usize];
    if let Some(name) = &entry.name {
        through.add_name(entry.request, name)?;
    }
    Ok(())
}

// Adds what a name in the text asks for.
fn add_named<'a>(row: &'a Row, named: &Ref, through: &mut Through<'a>) -> Result<(), AllocError>
    requires places { HasPlaces row.now.facts }
    requires imports { ArePlacesIn row.now.facts.imports (ref_imports named.now) }
    requires requests { HasRequests (length row.now.facts.requests) through.old }
    ensures { OnOk result (Gains through.old (AsksBy row.now named.now) IsNoSpace through.new) }
{
    match named {
        Ref::Own(_) => {}
        Ref::Imported(place) => add_import(row, *place, through)?,
    }
    Ok(())
}

// Adds what a site uses.
fn add_site<'a>(
    row: &'a Row,
    kind: &'a SiteKind,
    through: &mut Through<'a>,
) -> Result<(), AllocError>
    requires places { HasPlaces row.now.facts }
    requires among { Contains (site_kinds row.now) kind.now }
    requires requests { HasRequests (length row.now.facts.requests) through.old }
    ensures { OnOk result (Gains through.old (UsesName row.now kind.now) (UsesSpace kind.now) through.new) }
{
    match kind {
        SiteKind::Read(named) => add_named(row, named, through)?,
        SiteKind::Write(named) => add_named(row, named, through)?,
        SiteKind::Member(request, name) => through.add_name(*request, name)?,
        SiteKind::Space(request) => through.add_space(*request),
        SiteKind::Init(_) | SiteKind::Require(_) | SiteKind::Import(_) => {}
    }
    Ok(())
}

/// Adds what the sites of a module use.
pub fn add_sites<'a>(row: &'a Row, through: &mut Through<'a>) -> Result<(), AllocError>
    requires places { HasPlaces row.now.facts }
    requires requests { HasRequests (length row.now.facts.requests) through.old }
    ensures { OnOk result (Gains through.old (NamesAtSite row.now) (UsesSpaceAtSite row.now) through.new) }
{
    for site in row.facts.sites.as_slice() {
        add_site(row, &site.kind, through)?;
    }
    Ok(())
}
