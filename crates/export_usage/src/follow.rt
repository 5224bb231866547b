// What follows from what is known of a module.
ghost use Rattle.std.specs.Prelude.{◌≡◌, ◌<◌, ◌^◌, ℕ, length, slice_get, Some, OnOk};
ghost use Rattle.pk_types.specs.declared.graph.Graph.{Graph};
ghost use Rattle.pk_types.specs.declared.graph.Row.{Row};
ghost use Rattle.pk_types.specs.Fitting.{RowFits};
ghost use Rattle.pk_types.specs.Places.{ArePlacesIn, HasPlaces};
ghost use Rattle.prune_graph.specs.Gathering.{the_names, HasRequests};
ghost use Rattle.prune_graph.specs.PassingOn.{IsPassedBy};
ghost use Rattle.export_usage.specs.Claims.{Claim, IsTheClaim, AreUsed, Learns};
ghost use Rattle.export_usage.specs.Rules.{FollowsCalls, FollowsDeclared, FollowsSites, FollowsPassing, FollowsStops, FollowsReached, FollowsUsed, FollowsExposed};
ghost use Rattle.export_usage.specs.Steps.{Each, HasCallTargets, SaysRequest, SaysStar, SaysUnflagged};

use crate::facts::Facts;
use export_names::{Resolver, names};
use indexmap::IndexSet;
use pk_types::{Name, Row};
use prune_graph::{Passing, Through, add_sites, meet_called, passing_of};
use std::alloc::{AllocError, Global};
use stop_search::stops;

// What the module calls for is reached, and all that it exports is used.
fn follow_calls(alloc: Global, row: &Row, facts: &mut Facts) -> Result<(), AllocError>
    requires { HasCallTargets row.now }
    ensures { OnOk result ((graph : Graph) (number : ℕ) → slice_get graph.rows number ≡ Some row.now
        → Learns facts.old (FollowsCalls graph number) facts.new) }
{
    let mut called = IndexSet::new(alloc);
    meet_called(&mut called, row)?;
    facts.put_all_exposed(called.as_slice())?;
    Ok(())
}

// A module that is declared is reached where it may have side effects.
fn declare(resolver: &Resolver<'_>, target: u32, facts: &mut Facts) -> Result<(), AllocError>
    requires { target < length resolver.now.rows }
    ensures { OnOk result (Learns facts.old (SaysUnflagged resolver.now target) facts.new) }
{
    let row = resolver.row(target);
    if row.flagged {
        return Ok(());
    }
    facts.put_reached(target)?;
    Ok(())
}

// What the module declares and may have side effects is reached.
fn follow_declared(resolver: &Resolver<'_>, row: &Row, facts: &mut Facts) -> Result<(), AllocError>
    requires { RowFits resolver.now row.now }
    ensures { OnOk result (Learns facts.old (FollowsDeclared resolver.now row.now) facts.new) }
{
    let targets = row.targets.as_slice();
    for request in row.facts.order.as_slice() {
        declare(resolver, targets[*request as usize], facts)?;
    }
    Ok(())
}

// These names of a module are used.
fn put_names(facts: &mut Facts, module: u32, names: &[&Name]) -> Result<(), AllocError>
    ensures { OnOk result (Learns facts.old (AreUsed «module» (the_names names.now)) facts.new) }
{
    for name in names {
        facts.put_used(module, name.as_slice())?;
    }
    Ok(())
}

// What goes through a request is used of its target.
fn follow_request(
    alloc: Global,
    through: &Through<'_>,
    request: u32,
    target: u32,
    facts: &mut Facts,
) -> Result<(), AllocError>
    requires names { request < length through.now.names.items }
    requires spaces { request < length through.now.spaces.items }
    ensures { OnOk result (Learns facts.old (SaysRequest through.now request target) facts.new) }
{
    let names = through.names(alloc, request)?;
    put_names(facts, target, names.as_slice())?;
    if !through.is_space(request) {
        return Ok(());
    }
    facts.put_space(target)?;
    Ok(())
}

// What the sites of the module use.
fn follow_sites(alloc: Global, row: &Row, facts: &mut Facts) -> Result<(), AllocError>
    requires places { HasPlaces row.now.facts }
    requires each { length row.now.targets ≡ length row.now.facts.requests }
    requires few { length row.now.facts.requests < 2 ^ 32 }
    ensures { OnOk result (Learns facts.old (FollowsSites row.now) facts.new) }
{
    let mut through = Through::none(alloc, row.facts.requests.len())?;
    add_sites(row, &mut through)?;
    for (request, target) in row.targets.as_slice().iter().enumerate() {
        follow_request(alloc, &through, request as u32, *target, facts)?;
    }
    Ok(())
}

/// What follows where a module is reached.
pub fn follow_reached(
    alloc: Global,
    resolver: &Resolver<'_>,
    module: u32,
    facts: &mut Facts,
) -> Result<(), AllocError>
    requires { «module» < length resolver.now.rows }
    ensures { OnOk result ((row : Row) → slice_get resolver.now.rows «module» ≡ Some row
        → Learns facts.old (FollowsReached resolver.now «module» row) facts.new) }
{
    let row = resolver.row(module);
    follow_calls(alloc, row, facts)?;
    follow_declared(resolver, row, facts)?;
    follow_sites(alloc, row, facts)?;
    Ok(())
}

// The name is used of what these stars lead to.
fn follow_stars(
    targets: &[u32],
    stars: &[u32],
    name: &Name,
    facts: &mut Facts,
) -> Result<(), AllocError>
    requires { ArePlacesIn targets.now stars.now }
    ensures { OnOk result (Learns facts.old (Each (SaysStar targets.now name.now) stars.now) facts.new) }
{
    for star in stars {
        facts.put_used(targets[*star as usize], name.as_slice())?;
    }
    Ok(())
}

// What an exported name is passed on to is used.
fn follow_passing(
    resolver: &Resolver<'_>,
    module: u32,
    name: &Name,
    passing: &Passing<'_>,
    facts: &mut Facts,
) -> Result<(), AllocError>
    requires module { «module» < length resolver.now.rows }
    requires passed { (row : Row) → slice_get resolver.now.rows «module» ≡ Some row → IsPassedBy resolver.now «module» row name.now passing.now }
    ensures { OnOk result ((row : Row) → slice_get resolver.now.rows «module» ≡ Some row
        → Learns facts.old (FollowsPassing resolver.now «module» row name.now) facts.new) }
{
    let targets = resolver.row(module).targets.as_slice();
    match passing {
        Passing::Nowhere => {}
        Passing::Name(request, other) => {
            facts.put_used(targets[*request as usize], other.as_slice())?;
        }
        Passing::Space(request) => facts.put_space(targets[*request as usize])?,
        Passing::Stars(stars) => follow_stars(targets, stars.as_slice(), name, facts)?,
    }
    Ok(())
}

/// What follows where a name of a module is used.
pub fn follow_used(
    alloc: Global,
    resolver: &mut Resolver<'_>,
    module: u32,
    name: &Name,
    facts: &mut Facts,
) -> Result<(), AllocError>
    requires { «module» < length resolver.old.rows }
    ensures learns { OnOk result ((row : Row) → slice_get resolver.old.rows «module» ≡ Some row
        → Learns facts.old (FollowsUsed resolver.old «module» row name.now) facts.new) }
    ensures same { resolver.new ≡ resolver.old }
{
    let passing = passing_of(alloc, resolver, module, name)?;
    follow_passing(resolver, module, name, &passing, facts)?;
    let stops = stops(alloc, resolver, module, name)?;
    facts.put_all_reached(stops.as_slice())?;
    Ok(())
}

/// What follows where all names are used that a module exports.
pub fn follow_exposed(
    alloc: Global,
    resolver: &Resolver<'_>,
    module: u32,
    facts: &mut Facts,
) -> Result<(), AllocError>
    requires { «module» < length resolver.now.rows }
    ensures { OnOk result (Learns facts.old (FollowsExposed resolver.now «module») facts.new) }
{
    let names = names(alloc, resolver.graph(), module)?;
    facts.put_all_used(module, names.as_slice())?;
    Ok(())
}
