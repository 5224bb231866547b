// The edges of modules.
ghost use Rattle.std.specs.Prelude.{◌≡◌, length, IfOk};
ghost use Rattle.pk_types.specs.Fitting.{Fits};
ghost use Rattle.pk_types.specs.Places.{ArePlacesIn};
ghost use Rattle.plan_core.specs.Edges as spec;

use indexmap::IndexSet;
use pk_types::{Graph, Row, Sequence};
use std::alloc::{AllocError, Global};

// The edges of a module: each target of its declarations, where it stands first.
#[tactic(auto, using(crate::proofs::FirstPlaces::one_target_more))]
fn edges_of(alloc: Global, row: &Row) -> Result<Sequence<u32>, AllocError>
    requires { ArePlacesIn (row.now.targets) (row.now.facts.order) }
    ensures { IfOk result (λ edges. edges ≡ spec.edges_of row.now) }
{
    let targets = row.targets.as_slice();
    let mut seen = IndexSet::new(alloc);
    for request in row.facts.order.as_slice() {
        seen.insert(targets[*request as usize])?;
    }
    Ok(Sequence::from_vec(Vec::from_slice(alloc, seen.as_slice())?))
}

/// The edges that the declarations of each module give, by number.
#[tactic(auto, using(crate::proofs::Within::order_in_targets))]
pub fn declared_edges(alloc: Global, graph: &Graph) -> Result<Vec<Sequence<u32>>, AllocError>
    requires { Fits graph.now }
    ensures { IfOk result (λ edges. edges.items ≡ spec.declared_edges graph.now) }
{
    let mut edges = Vec::with_capacity(alloc, graph.rows.len())?;
    for row in graph.rows.as_slice() {
        edges.push(edges_of(alloc, row)?)?;
    }
    Ok(edges)
}

/// The active edges of each module, by number: those of modules that are reached stay, and the others go.
pub fn active_edges(
    alloc: Global,
    mut edges: Vec<Sequence<u32>>,
    reached: &[bool],
) -> Vec<Sequence<u32>>
    requires { length reached.now ≡ length edges.items }
    ensures { result.items ≡ spec.active_edges reached.now edges.items }
{
    for (number, is_reached) in reached.iter().enumerate() {
        if !*is_reached {
            edges[number] = Sequence::from_vec(Vec::new(alloc));
        }
    }
    edges
}
