ghost use Rattle.std.specs.Prelude.{◌≡◌, ◌≢◌, ℕ, ◌^◌, List, [], ◌∷◌, ◌<◌, length, map, flat_map, slice_index, AllPairs, IfOk};
ghost use Rattle.std.specs.List.{All, Contains};
ghost use Rattle.pk_types.specs.Fitting.{Fits};
ghost use Rattle.pk_types.specs.GivenNames.{own_names, avoided_names, GivesNames};
ghost use Rattle.pk_types.specs.HoistSets.{set_of};

use crate::shared::shared_names;
use pk_types::{Binding, Graph, Hoists, Name, Sequence, Text};
use std::alloc::{AllocError, Global};

// The modules of the set of a root, by number.
#[tactic(auto, using(crate::proofs::Rows::passes_more, crate::proofs::Rows::fails_more))]
fn members(alloc: Global, roots: &[u32], root: u32) -> Result<Vec<u32>, AllocError>
    requires { length roots.now < 2 ^ 32 }
    ensures { IfOk result (λ members. members.items ≡ set_of roots.now root) }
{
    let mut members = Vec::new(alloc);
    for member in 0..roots.len() as u32 {
        if roots[member as usize] == root {
            members.push(member)?;
        }
    }
    Ok(members)
}

// Copies of the names of bindings.
fn copies(alloc: Global, bindings: &[Binding]) -> Result<Vec<Name>, AllocError>
    ensures { IfOk result (λ names. names.items ≡ map (λ binding. binding.name) bindings.now) }
{
    let mut names = Vec::with_capacity(alloc, bindings.len())?;
    for binding in bindings {
        names.push(Text::from_slice(alloc, binding.name.as_slice())?)?;
    }
    Ok(names)
}

// The names of a module that stands alone.
fn own(alloc: Global, graph: &Graph, member: u32) -> Result<Vec<Sequence<Name>>, AllocError>
    requires { member < length graph.now.rows }
    ensures { IfOk result (λ names. names.items ≡ map (own_names graph.now) (member ∷ [])) }
{
    let bindings = &graph.rows.as_slice()[member as usize].facts.bindings;
    let names = copies(alloc, bindings.as_slice())?;
    let mut lists = Vec::new(alloc);
    lists.push(Sequence::from_vec(names))?;
    Ok(lists)
}

/// The names of the bindings of modules that share a scope: for each module a list, with a name for each binding. The
/// modules stand by number.
pub fn names_of_set(
    alloc: Global,
    graph: &Graph,
    members: &[u32],
) -> Result<Vec<Sequence<Name>>, AllocError>
    requires { All (λ member. member < length graph.now.rows) members.now }
    ensures { IfOk result (λ names. GivesNames graph.now members.now names.items) }
{
    if members.len() == 1 {
        own(alloc, graph, members[0])
    } else {
        shared_names(alloc, graph, members)
    }
}

/// The names of the bindings of the modules that share the scope of a root: for each module, by number, a list, with a name for
/// each binding.
pub fn names_for(
    alloc: Global,
    graph: &Graph,
    hoists: &Hoists,
    root: u32,
) -> Result<Vec<Sequence<Name>>, AllocError>
    requires fits { Fits graph.now }
    requires each { length hoists.now.root ≡ length graph.now.rows }
    requires root { root < length hoists.now.root }
    requires itself { slice_index hoists.now.root root ≡ root }
    ensures given { IfOk result (λ names. GivesNames graph.now (set_of hoists.now.root root) names.items) }

    // No two bindings of the set have one name.
    ensures distinct { IfOk result (λ names. AllPairs (λ name other. name ≢ other) (flat_map (λ list. list) names.items)) }

    // In a set of several modules none is free in one of them, or declared in an inner scope of one.
    ensures uncaptured { IfOk result (λ names. 1 < length (set_of hoists.now.root root)
        → (name : List ℕ) → Contains (flat_map (λ list. list) names.items) name
        → (member : ℕ) → Contains (set_of hoists.now.root root) member → ¬ Contains (avoided_names graph.now member) name) }
{
    let members = members(alloc, hoists.root.as_slice(), root)?;
    names_of_set(alloc, graph, members.as_slice())
}
