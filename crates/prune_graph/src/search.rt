// The edges of the modules that the entries lead to.
ghost use Rattle.std.specs.Prelude.{◌≡◌, ◌<◌, ◌^◌, ℕ, [], false, nat_eq, length, slice_index_or, IfOk};
ghost use Rattle.std.specs.List.{list_any};
ghost use Rattle.pk_types.specs.ActiveEdges.{IsActive};
ghost use Rattle.pk_types.specs.Fitting.{Fits};
ghost use Rattle.prune_graph.specs.Meeting.{IsGoneThrough};

use crate::edges::edges_of;
use crate::meeting::{meet, meet_called};
use crate::stops::Stops;
use indexmap::IndexSet;
use pk_types::{Active, Graph, Sequence, Used};
use std::alloc::{AllocError, Global};

// For each of so many modules no edge.
fn no_edges(alloc: Global, count: usize) -> Result<Vec<Sequence<u32>>, AllocError>
    ensures each { IfOk result (λ edges. length edges.items ≡ count) }
    ensures none { IfOk result (λ edges. (number : ℕ) → slice_index_or edges.items number [] ≡ []) }
{
    let mut edges = Vec::with_capacity(alloc, count)?;
    for _ in 0..count {
        edges.push(Sequence::new(alloc))?;
    }
    Ok(edges)
}

// For each of so many modules whether it is known.
fn marks(alloc: Global, count: u32, known: &IndexSet<u32>) -> Result<Vec<bool>, AllocError>
    ensures each { IfOk result (λ marks. length marks.items ≡ count) }
    ensures known { IfOk result (λ marks. (number : ℕ) → number < count
        → slice_index_or marks.items number false ≡ list_any (nat_eq number) known.now.keys) }
{
    let mut marks = Vec::with_capacity(alloc, count as usize)?;
    for number in 0..count {
        marks.push(known.contains(&number))?;
    }
    Ok(marks)
}

// Goes through a module: its edges, with which what it leads to is met.
fn go_through<'a>(
    alloc: Global,
    stops: &mut Stops<'a>,
    used: &'a Used,
    module: u32,
    known: &mut IndexSet<u32>,
) -> Result<Sequence<u32>, AllocError>
    requires module { «module» < length stops.old.rows }
    requires names { length used.now.names ≡ length stops.old.rows }
    ensures gone { IfOk result (λ edges. IsGoneThrough stops.old used.now «module» edges known.old.keys known.new.keys) }
    ensures same { stops.new ≡ stops.old }
{
    let row = stops.row(module);
    let names = used.names.as_slice()[module as usize].as_slice();
    let edges = edges_of(alloc, stops, module, row, names)?;
    meet(known, edges.as_slice())?;
    meet_called(known, row)?;
    Ok(Sequence::from_vec(edges))
}

/// The active edges of a graph of which these names are used. Each module that the entries lead to is gone through once.
pub fn active_edges(alloc: Global, graph: &Graph, used: &Used) -> Result<Active, AllocError>
    requires fits { Fits graph.now }
    requires names { length used.now.names ≡ length graph.now.rows }
    ensures { IfOk result (IsActive graph.now used.now) }
{
    let mut stops = Stops::new(alloc, graph);
    let mut edges = no_edges(alloc, graph.rows.len())?;
    let mut known = IndexSet::new(alloc);
    meet(&mut known, graph.entries.as_slice())?;
    let mut place = 0;
    while place < known.len() {
        let number = known.as_slice()[place];
        edges[number as usize] = go_through(alloc, &mut stops, used, number, &mut known)?;
        place += 1;
    }
    let reached = marks(alloc, graph.rows.len() as u32, &known)?;
    Ok(Active {
        edges: Sequence::from_vec(edges),
        reached: Sequence::from_vec(reached),
    })
}
