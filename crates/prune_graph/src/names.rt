// What goes through the requests of a module.
ghost use Rattle.std.specs.Prelude.{◌≡◌, ◌<◌, length, slice_get, Some, IfOk, OnOk};
ghost use Rattle.std.specs.List.{All};
ghost use Rattle.pk_types.specs.Fitting.{RowFits};
ghost use Rattle.prune_graph.specs.Gathering.{HasRequests, Gains, AreWithin, IsTheStar, IsNoSpace, IsThrough};
ghost use Rattle.prune_graph.specs.PassedNames.{PassesTo, PassesToSpace, OnePassesOn, OneExportsSpace};

use crate::passing::Passing;
use crate::sites::add_sites;
use crate::stops::Stops;
use crate::through::Through;
use pk_types::{Name, Row};
use std::alloc::{AllocError, Global};

// Adds a name that is passed on by these stars.
fn add_stars<'a>(
    stars: &[u32],
    exported: &'a Name,
    through: &mut Through<'a>,
) -> Result<(), AllocError>
    requires { All (λ star. star < length through.old.names.items) stars.now }
    ensures { OnOk result (Gains through.old (IsTheStar stars.now exported.now) IsNoSpace through.new) }
{
    for star in stars {
        through.add_name(*star, exported)?;
    }
    Ok(())
}

// Adds what an exported name is passed on to.
fn add_passing<'a>(
    passing: &Passing<'a>,
    exported: &'a Name,
    through: &mut Through<'a>,
) -> Result<(), AllocError>
    requires within { AreWithin through.old (PassesTo «passing».now exported.now) (PassesToSpace «passing».now) }
    ensures { OnOk result (Gains through.old (PassesTo «passing».now exported.now) (PassesToSpace «passing».now) through.new) }
{
    match passing {
        Passing::Nowhere => {}
        Passing::Name(request, name) => through.add_name(*request, *name)?,
        Passing::Space(request) => through.add_space(*request),
        Passing::Stars(stars) => add_stars(stars.as_slice(), exported, through)?,
    }
    Ok(())
}

// Adds what the used names of a module are passed on to.
fn add_used<'a>(
    alloc: Global,
    stops: &mut Stops<'a>,
    module: u32,
    row: &'a Row,
    used: &'a [Name],
    through: &mut Through<'a>,
) -> Result<(), AllocError>
    requires at { slice_get stops.old.rows «module» ≡ Some row.now }
    requires fits { RowFits stops.old row.now }
    requires requests { HasRequests (length row.now.facts.requests) through.old }
    ensures gains { OnOk result
        (Gains through.old (OnePassesOn stops.old «module» row.now used.now) (OneExportsSpace row.now used.now) through.new) }
    ensures same { stops.new ≡ stops.old }
{
    for exported in used {
        let passing = stops.passing(alloc, module, exported)?;
        add_passing(&passing, exported, through)?;
    }
    Ok(())
}

/// What goes through the requests of a module of which these names are used.
pub fn through_requests<'a>(
    alloc: Global,
    stops: &mut Stops<'a>,
    module: u32,
    row: &'a Row,
    used: &'a [Name],
) -> Result<Through<'a>, AllocError>
    requires at { slice_get stops.old.rows «module» ≡ Some row.now }
    requires fits { RowFits stops.old row.now }
    ensures through { IfOk result (IsThrough stops.old «module» row.now used.now) }
    ensures same { stops.new ≡ stops.old }
{
    let mut through = Through::none(alloc, row.facts.requests.len())?;
    add_sites(row, &mut through)?;
    add_used(alloc, stops, module, row, used, &mut through)?;
    Ok(through)
}
