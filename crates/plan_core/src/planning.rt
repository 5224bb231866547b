// The plan of a bundle.
ghost use Rattle.std.specs.Prelude.{◌≡◌, false, [], ◌∷◌, ◌<◌, ◌^◌, length, replicate, IfOk};
ghost use Rattle.pk_types.specs.Fitting.{Fits};
ghost use Rattle.emit_chunk.specs.Bare.{IsBare};
ghost use Rattle.emit_chunk.specs.Ranges.{InRange};
ghost use Rattle.plan_core.specs.Closure.{known_flags};
ghost use Rattle.plan_core.specs.Edges as edge;
ghost use Rattle.plan_core.specs.NaturalIds as spec;
ghost use Rattle.plan_core.specs.Plans.{IsPlan};

use crate::closure::{by_number, flags, reached};
use crate::edges::{active_edges, declared_edges};
use crate::ids::natural_ids;
use crate::scopes::own_scopes;
use indexmap::IndexSet;
use pk_types::{Active, Chunks, Graph, Groups, Ids, Name, Plan, Sequence, Used};
use std::alloc::{AllocError, Global};

// The modules in a set are reached, and those that have these edges keep them.
fn active(
    alloc: Global,
    edges: Vec<Sequence<u32>>,
    placed: &IndexSet<u32>,
) -> Result<Active, AllocError>
    requires { length edges.items < 2 ^ 32 }
    ensures { IfOk result (λ active. active ≡ record {
      edges = edge.active_edges (known_flags placed.now.keys (length edges.items)) edges.items;
      reached = known_flags placed.now.keys (length edges.items);
    }) }
{
    let reached = flags(alloc, placed, edges.len() as u32)?;
    let edges = active_edges(alloc, edges, reached.as_slice());
    Ok(Active {
        edges: Sequence::from_vec(edges),
        reached: Sequence::from_vec(reached),
    })
}

// No name for each of so many modules.
fn no_names(alloc: Global, count: usize) -> Result<Sequence<Sequence<Name>>, AllocError>
    ensures { IfOk result (λ names. names ≡ replicate count []) }
{
    let mut names = Vec::with_capacity(alloc, count)?;
    for _place in 0..count {
        names.push(Sequence::from_vec(Vec::new(alloc)))?;
    }
    Ok(Sequence::from_vec(names))
}

// Nothing of so many modules is used.
fn unused(alloc: Global, count: usize) -> Result<Used, AllocError>
    ensures { IfOk result (λ used. used ≡ record { names = replicate count []; whole = replicate count false }) }
{
    Ok(Used {
        names: no_names(alloc, count)?,
        whole: Sequence::from_vec(vec![in alloc; false; count]?),
    })
}

// One list of numbers.
fn one_list(alloc: Global, numbers: Vec<u32>) -> Result<Sequence<Sequence<u32>>, AllocError>
    ensures { IfOk result (λ lists. lists ≡ numbers.items ∷ []) }
{
    let mut lists = Vec::with_capacity(alloc, 1)?;
    lists.push(Sequence::from_vec(numbers))?;
    Ok(Sequence::from_vec(lists))
}

// The group of an entry, which holds these modules.
fn entry_group(alloc: Global, entry: u32, modules: Vec<u32>) -> Result<Groups, AllocError>
    ensures { IfOk result (λ groups. groups ≡ record {
      targets = entry ∷ [];
      entries = 1;
      closures = modules.items ∷ [];
      leads = [] ∷ [];
    }) }
{
    Ok(Groups {
        targets: Sequence::from_vec(vec![in alloc; entry]?),
        entries: 1,
        closures: one_list(alloc, modules)?,
        leads: one_list(alloc, Vec::new(alloc))?,
    })
}

// The entry chunk of these modules, as the only one.
fn entry_chunk(alloc: Global, modules: Vec<u32>) -> Result<Chunks, AllocError>
    ensures { IfOk result (λ chunks. chunks ≡ record { modules = modules.items ∷ []; entries = 1; lists = [] ∷ [] }) }
{
    Ok(Chunks {
        modules: one_list(alloc, modules)?,
        entries: 1,
        lists: one_list(alloc, Vec::new(alloc))?,
    })
}

// The ids where the modules in a set are in chunks, of which none has an id.
fn ids(alloc: Global, placed: &IndexSet<u32>, count: u32) -> Result<Ids, AllocError>
    ensures { IfOk result (λ ids. ids ≡ record { modules = spec.natural_ids (placed.now.keys ∷ []) count; chunks = [] }) }
{
    Ok(Ids {
        modules: Sequence::from_vec(natural_ids(alloc, placed, count)?),
        chunks: Sequence::from_vec(Vec::new(alloc)),
    })
}

/// Plans a bundle of a graph of one entry: its group and its chunk hold what the entry leads to, only modules that it
/// leads to have edges, each module has a scope of its own, no name is used, and ids are natural.
pub fn plan(alloc: Global, graph: &Graph) -> Result<Plan, AllocError>
    requires fits { Fits graph.now }
    requires entry { length graph.now.entries ≡ 1 }
    requires bare { IsBare graph.now }
    ensures plan { IfOk result (IsPlan graph.now) }
    ensures range { IfOk result (InRange graph.now) }
{
    let edges = declared_edges(alloc, graph)?;
    let entry = graph.entries.as_slice()[0];
    let count = edges.len() as u32;
    let placed = reached(alloc, edges.as_slice(), entry)?;
    let modules = by_number(alloc, &placed, count)?;
    let chunks = entry_chunk(alloc, Vec::from_slice(alloc, modules.as_slice())?)?;
    let active = active(alloc, edges, &placed)?;
    let hoists = own_scopes(alloc, active.edges.as_slice())?;
    Ok(Plan {
        active,
        used: unused(alloc, graph.rows.len())?,
        groups: entry_group(alloc, entry, modules)?,
        chunks,
        hoists,
        names: no_names(alloc, graph.rows.len())?,
        ids: ids(alloc, &placed, count)?,
    })
}
