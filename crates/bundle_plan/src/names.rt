// The names that the bindings of each module have in the bundle.
ghost use Rattle.std.specs.Prelude.{◌≡◌, ◌<◌, ◌^◌, ℕ, [], length, slice_index, slice_index_or, IfOk};
ghost use Rattle.std.specs.List.{All, Contains};
ghost use Rattle.std.specs.List.Sorted.{IsStrictlyIncreasing};
ghost use Rattle.pk_types.specs.Fitting.{Fits};
ghost use Rattle.pk_types.specs.GivenNames.{AreGivenNames};

use crate::members::sets_of;
use hoist_rename::names_of_set;
use pk_types::{Graph, Name, Sequence};
use std::alloc::{AllocError, Global};

// For each of so many modules no name.
fn no_names(alloc: Global, count: usize) -> Result<Vec<Sequence<Name>>, AllocError>
    ensures { IfOk result (λ names. length names.items ≡ count) }
{
    let mut names = Vec::with_capacity(alloc, count)?;
    for _ in 0..count {
        names.push(Sequence::new(alloc))?;
    }
    Ok(names)
}

// Puts the lists of these modules into their places.
fn put(names: &mut Vec<Sequence<Name>>, members: &[u32], mut given: Vec<Sequence<Name>>)
    requires each { length given.items ≡ length members.now }
    requires within { All (λ member. member < length names.old.items) members.now }
    requires apart { IsStrictlyIncreasing members.now }
    ensures long { length names.new.items ≡ length names.old.items }
    ensures given { (place : ℕ) → place < length members.now
        → slice_index_or names.new.items (slice_index members.now place) [] ≡ slice_index_or given.items place [] }
    ensures others { (number : ℕ) → ¬ Contains members.now number
        → slice_index_or names.new.items number [] ≡ slice_index_or names.old.items number [] }
{
    while let Some(list) = given.pop() {
        let member = members[given.len()];
        names[member as usize] = list;
    }
}

// For each module the names of its bindings, where each module's root is given.
pub fn given_names(
    alloc: Global,
    graph: &Graph,
    roots: &[u32],
) -> Result<Vec<Sequence<Name>>, AllocError>
    requires fits { Fits graph.now }
    requires each { length roots.now ≡ length graph.now.rows }
    requires within { All (λ root. root < length roots.now) roots.now }
    ensures { IfOk result (λ names. AreGivenNames graph.now roots.now names.items) }
{
    let sets = sets_of(alloc, roots)?;
    let mut names = no_names(alloc, roots.len())?;
    for members in sets.as_slice() {
        let given = names_of_set(alloc, graph, members.as_slice())?;
        put(&mut names, members.as_slice(), given);
    }
    Ok(names)
}
