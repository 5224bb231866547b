// The names of several modules in one scope.
ghost use Rattle.std.specs.Prelude.{◌≡◌, ◌<◌, ◌++◌, length, map, flat_map, IfOk, OnOk};
ghost use Rattle.std.specs.List.{All};
ghost use Rattle.pk_types.specs.GivenNames.{own_names, avoided_names, GivesInOrder};
ghost use Rattle.hoist_rename.specs.Kept.{IsKept, HaveSame};

use crate::taken::{Taken, avoid, give, nothing_taken};
use pk_types::{Binding, Graph, Name, Sequence};
use std::alloc::{AllocError, Global};

// The names that no binding of the members may be given.
fn avoided(alloc: Global, graph: &Graph, members: &[u32]) -> Result<Taken, AllocError>
    requires { All (λ member. member < length graph.now.rows) members.now }
    ensures names { IfOk result (λ taken. HaveSame taken.names.keys (flat_map (avoided_names graph.now) members.now)) }
    ensures kept { IfOk result (λ taken. IsKept taken.names.keys taken.last.items) }
{
    let mut taken = nothing_taken(alloc);
    for member in members {
        let facts = &graph.rows.as_slice()[*member as usize].facts;
        avoid(alloc, &mut taken, facts.free.as_slice())?;
        avoid(alloc, &mut taken, facts.inner.as_slice())?;
    }
    Ok(taken)
}

// Gives each binding of a module its name.
fn give_each(
    alloc: Global,
    taken: &mut Taken,
    bindings: &[Binding],
) -> Result<Vec<Name>, AllocError>
    requires kept { IsKept taken.old.names.keys taken.old.last.items }
    ensures given { IfOk result (λ names. GivesInOrder taken.old.names.keys (map (λ binding. binding.name) bindings.now) names.items) }
    ensures names { IfOk result (λ names. taken.new.names.keys ≡ taken.old.names.keys ++ names.items) }
    ensures kept { OnOk result (IsKept taken.new.names.keys taken.new.last.items) }
{
    let mut names = Vec::with_capacity(alloc, bindings.len())?;
    for binding in bindings {
        names.push(give(alloc, taken, binding.name.as_slice())?)?;
    }
    Ok(names)
}

/// The names of the members' bindings, which differ from one another and from those that no binding may be given.
pub fn shared_names(
    alloc: Global,
    graph: &Graph,
    members: &[u32],
) -> Result<Vec<Sequence<Name>>, AllocError>
    requires { All (λ member. member < length graph.now.rows) members.now }
    ensures counts { IfOk result (λ names. map (λ list. length list) names.items ≡ map (λ member. length (own_names graph.now member)) members.now) }
    ensures given { IfOk result (λ names. GivesInOrder (flat_map (avoided_names graph.now) members.now)
        (flat_map (own_names graph.now) members.now) (flat_map (λ list. list) names.items)) }
{
    let mut taken = avoided(alloc, graph, members)?;
    let mut names = Vec::with_capacity(alloc, members.len())?;
    for member in members {
        let bindings = &graph.rows.as_slice()[*member as usize].facts.bindings;
        let given = give_each(alloc, &mut taken, bindings.as_slice())?;
        names.push(Sequence::from_vec(given))?;
    }
    Ok(names)
}
