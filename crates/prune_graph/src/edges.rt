// The edges of a module.
ghost use Rattle.std.specs.Prelude.{◌≡◌, ◌⊎◌, ◌<◌, ℕ, List, true, false, nat_eq, length, slice_get, Some, IfOk, OnOk};
ghost use Rattle.std.specs.List.{AllZip};
ghost use Rattle.indexmap.specs.IndexSet.{insert_all};
ghost use Rattle.pk_types.specs.ActiveEdges.{GivesEdges, HasEdges};
ghost use Rattle.pk_types.specs.Fitting.{RowFits};
ghost use Rattle.pk_types.specs.Requests.{flag_of};
ghost use Rattle.pk_types.specs.StopSearch.{HasStops};
ghost use Rattle.prune_graph.specs.Gathering.{the_names, IsSpaced, IsThrough};
ghost use Rattle.prune_graph.specs.RowEdges.{Adds, AddsStops};

use crate::names::through_requests;
use crate::stops::Stops;
use crate::through::Through;
use indexmap::IndexSet;
use pk_types::{Name, Row};
use std::alloc::{AllocError, Global};

/// Adds numbers behind those that are there, each where it first comes.
pub fn add_all(numbers: &mut IndexSet<u32>, more: &[u32]) -> Result<(), AllocError>
    ensures { OnOk result (numbers.new.keys ≡ insert_all nat_eq numbers.old.keys more.now) }
{
    for number in more {
        numbers.insert(*number)?;
    }
    Ok(())
}

// Adds the stops of these names of a module.
fn add_stops<'a>(
    alloc: Global,
    stops: &mut Stops<'a>,
    target: u32,
    names: &[&'a Name],
    edges: &mut IndexSet<u32>,
) -> Result<(), AllocError>
    requires { target < length stops.old.rows }
    ensures adds { OnOk result (AddsStops stops.old target (the_names names.now) edges.old.keys edges.new.keys) }
    ensures same { stops.new ≡ stops.old }
{
    for name in names {
        let found = stops.of(alloc, target, *name)?;
        add_all(edges, found.as_slice())?;
    }
    Ok(())
}

// Whether a request stays an edge: its target may have side effects, or the namespace is used.
fn is_kept(stops: &Stops<'_>, through: &Through<'_>, request: u32, target: u32) -> bool
    requires target { «target» < length stops.now.rows }
    requires request { «request» < length through.now.spaces.items }
    ensures kept { result ≡ true → (flag_of stops.now «target» ≡ Some false)
        ⊎ ((flag_of stops.now «target» ≡ Some true) × IsSpaced through.now «request») }
    ensures replaced { result ≡ false → (flag_of stops.now «target» ≡ Some true) × ¬ IsSpaced through.now «request» }
{
    if !stops.row(target).flagged {
        return true;
    }
    through.is_space(request)
}

// Adds the edges that a request of a module gives.
fn add_request<'a>(
    alloc: Global,
    stops: &mut Stops<'a>,
    row: &'a Row,
    through: &Through<'a>,
    request: u32,
    edges: &mut IndexSet<u32>,
) -> Result<(), AllocError>
    requires fits { RowFits stops.old row.now }
    requires request { «request» < length row.now.targets }
    requires through { (number : ℕ) × (used : List (List ℕ)) × IsThrough stops.old number row.now used through.now }
    ensures adds { OnOk result ((number : ℕ) (used : List (List ℕ)) → IsThrough stops.old number row.now used through.now
        → Adds (GivesEdges stops.old number row.now used «request») edges.old.keys edges.new.keys) }
    ensures same { stops.new ≡ stops.old }
{
    let target = row.targets.as_slice()[request as usize];
    if is_kept(stops, through, request, target) {
        edges.insert(target)?;
    } else {
        let names = through.names(alloc, request)?;
        add_stops(alloc, stops, target, names.as_slice(), edges)?;
    }
    Ok(())
}

/// The edges of a module of which these names are used.
pub fn edges_of<'a>(
    alloc: Global,
    stops: &mut Stops<'a>,
    module: u32,
    row: &'a Row,
    used: &'a [Name],
) -> Result<Vec<u32>, AllocError>
    requires at { slice_get stops.old.rows «module» ≡ Some row.now }
    requires fits { RowFits stops.old row.now }
    ensures edges { IfOk result (λ edges. HasEdges stops.old «module» row.now used.now edges.items) }
    ensures same { stops.new ≡ stops.old }
{
    let through = through_requests(alloc, stops, module, row, used)?;
    let mut edges = IndexSet::new(alloc);
    for request in row.facts.order.as_slice() {
        add_request(alloc, stops, row, &through, *request, &mut edges)?;
    }
    let edges = Vec::from_slice(alloc, edges.as_slice())?;
    Ok(edges)
}
