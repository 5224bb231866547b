// What is used through the requests of a module.
ghost use Rattle.std.specs.Prelude.{◌≡◌, ◌↔◌, ◌<◌, ℕ, List, [], false, length, slice_index_or, IfOk, OnOk};
ghost use Rattle.std.specs.List.{Contains};
ghost use Rattle.pk_types.specs.ExportedNames.{AreInByteOrder};
ghost use Rattle.prune_graph.specs.Gathering.{the_names, name_lists, IsNamed, IsUnused, Gains, IsNoName, IsNoSpace, IsTheName, IsTheSpace};

use indexmap::IndexSet;
use pk_types::Name;
use std::alloc::{AllocError, Global};

/// What is used through each request of a module.
#[derive(Drop)]
pub struct Through<'a> {
    // The names of what the request leads to.
    names: Vec<IndexSet<&'a Name>>,

    // Whether the namespace is used.
    spaces: Vec<bool>,
}

// For each of so many requests no name.
fn no_names<'a>(alloc: Global, count: usize) -> Result<Vec<IndexSet<&'a Name>>, AllocError>
    ensures each { IfOk result (λ names. length names.items ≡ count) }
    ensures none { IfOk result (λ names. (request : ℕ) (name : List ℕ) → ¬ Contains (slice_index_or (name_lists names.items) request []) name) }
{
    let mut names = Vec::with_capacity(alloc, count)?;
    for _ in 0..count {
        names.push(IndexSet::new(alloc))?;
    }
    Ok(names)
}

// The names in byte order.
fn in_byte_order<'a>(alloc: Global, names: &IndexSet<&'a Name>) -> Result<Vec<&'a Name>, AllocError>
    ensures each { IfOk result (λ sorted. (name : List ℕ) → Contains (the_names sorted.items) name ↔ Contains (the_names names.now.keys) name) }
    ensures order { IfOk result (λ sorted. AreInByteOrder (the_names sorted.items)) }
{
    let mut sorted = Vec::from_slice(alloc, names.as_slice())?;
    sorted.sort_unstable_by(|name, other| name.as_slice().cmp(other.as_slice()));
    Ok(sorted)
}

impl<'a> Through<'a> {
    /// Nothing is used through so many requests.
    pub fn none(alloc: Global, count: usize) -> Result<Through<'a>, AllocError>
        ensures { IfOk result (IsUnused count) }
    {
        let names = no_names(alloc, count)?;
        let spaces = vec![in alloc; false; count]?;
        Ok(Through { names, spaces })
    }

    /// A name is used through the request.
    pub fn add_name(&mut self, request: u32, name: &'a Name) -> Result<(), AllocError>
        requires { request < length self.old.names.items }
        ensures { OnOk result (Gains self.old (IsTheName request name.now) IsNoSpace self.new) }
    {
        self.names[request as usize].insert(name)?;
        Ok(())
    }

    /// The namespace is used through the request.
    pub fn add_space(&mut self, request: u32)
        requires { request < length self.old.spaces.items }
        ensures { Gains self.old IsNoName (IsTheSpace request) self.new }
    {
        self.spaces[request as usize] = true;
    }

    /// The names that are used through the request, in byte order.
    pub fn names(&self, alloc: Global, request: u32) -> Result<Vec<&'a Name>, AllocError>
        requires { request < length self.now.names.items }
        ensures each { IfOk result (λ names. (name : List ℕ) → Contains (the_names names.items) name ↔ IsNamed self.now request name) }
        ensures order { IfOk result (λ names. AreInByteOrder (the_names names.items)) }
    {
        let names = in_byte_order(alloc, &self.names[request as usize])?;
        Ok(names)
    }

    /// Whether the namespace is used through the request.
    pub fn is_space(&self, request: u32) -> bool
        requires { request < length self.now.spaces.items }
        ensures { result ≡ slice_index_or self.now.spaces.items request false }
    {
        self.spaces[request as usize]
    }
}
