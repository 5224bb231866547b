ghost use Rattle.std.specs.Prelude.{◌≡◌, ◌↔◌, true, ℕ, List, ◌<◌, length, map, IfOk, OnOk};
ghost use Rattle.std.specs.List.{Contains};
ghost use Rattle.pk_types.specs.Fitting.{Fits};
ghost use Rattle.pk_types.specs.ExportedNames.{AreInByteOrder, ExportsItself, IsExported, ExportedNames};
ghost use Rattle.export_names.specs.Collected.{HasMore, IsGiven, key_names};

use crate::starred::starred;
use crate::step::is_default;
use indexmap::IndexSet;
use pk_types::{ExportEntry, Graph, Key, Name, Text};
use std::alloc::{AllocError, Global};

// What a module exports itself.
fn exports(graph: &Graph, number: u32) -> &[ExportEntry]
    requires { «number» < length graph.now.rows }
    ensures { (name : List ℕ) → Contains (map (λ entry. entry.name) result.now) name ↔ ExportsItself graph.now «number» name }
{
    graph.rows.as_slice()[number as usize]
        .facts
        .exports
        .as_slice()
}

// Adds the names of exports, and `default` only if it is said to count.
fn add<'a>(
    names: &mut IndexSet<Key<'a>>,
    exports: &'a [ExportEntry],
    with_default: bool,
) -> Result<(), AllocError>
    ensures { OnOk result (HasMore (key_names names.old.keys) (IsGiven exports.now with_default) (key_names names.new.keys)) }
{
    for entry in exports {
        let name = entry.name.as_slice();
        if with_default || !is_default(name) {
            names.insert(Key(name))?;
        }
    }
    Ok(())
}

// The names that a module exports, in any order, borrowed from the graph: one that many modules export isn't copied for each.
// Each module that stars lead to is gone through once.
fn collected<'a>(
    alloc: Global,
    graph: &'a Graph,
    module: u32,
) -> Result<IndexSet<Key<'a>>, AllocError>
    requires fits { Fits graph.now }
    requires module { «module» < length graph.now.rows }
    ensures { IfOk result (λ names. (name : List ℕ) → Contains (key_names names.keys) name ↔ IsExported graph.now «module» name) }
{
    let mut names = IndexSet::new(alloc);
    let modules = starred(alloc, graph, module)?;
    for number in modules.as_slice() {
        let is_asked = *number == module;
        add(&mut names, exports(graph, *number), is_asked)?;
    }
    Ok(names)
}

// Copies of the names.
fn copies(alloc: Global, names: &[Key<'_>]) -> Result<Vec<Name>, AllocError>
    ensures { IfOk result (λ copies. copies.items ≡ key_names names.now) }
{
    let mut copies = Vec::with_capacity(alloc, names.len())?;
    for name in names {
        copies.push(Text::from_slice(alloc, name.0)?)?;
    }
    Ok(copies)
}

// Copies of the names of a set, in byte order.
fn in_byte_order(alloc: Global, names: &IndexSet<Key<'_>>) -> Result<Vec<Name>, AllocError>
    ensures each { IfOk result (λ sorted. (name : List ℕ) → Contains sorted.items name ↔ Contains (key_names names.now.keys) name) }
    ensures order { IfOk result (λ sorted. AreInByteOrder sorted.items) }
{
    let mut sorted = copies(alloc, names.as_slice())?;
    sorted.sort_unstable_by(|name, other| name.as_slice().cmp(other.as_slice()));
    Ok(sorted)
}

/// The names that a module exports, in byte order. Each module that stars lead to is gone through once.
pub fn names(alloc: Global, graph: &Graph, module: u32) -> Result<Vec<Name>, AllocError>
    requires fits { Fits graph.now }
    requires module { «module» < length graph.now.rows }
    ensures { IfOk result (λ names. ExportedNames graph.now «module» names.items) }
{
    let names = collected(alloc, graph, module)?;
    in_byte_order(alloc, &names)
}
