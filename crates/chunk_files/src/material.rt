// What the files of a bundle are made of.
ghost use Rattle.std.specs.Prelude.{◌≡◌, ◌+◌, ◌<◌, ◌==◌, Some, length, slice_get, slice_index};
ghost use Rattle.std.specs.List.{All};
ghost use Rattle.pk_types.specs.Fitting.{RowFits};
ghost use Rattle.emit_body.specs.Pieces.{HoldsPieces};
ghost use Rattle.edge_search.specs.Reached.{LeadWithin};
ghost use Rattle.emit_chunk.specs.Entry as entry;
ghost use Rattle.emit_chunk.specs.Factories as spec;
ghost use Rattle.emit_chunk.specs.Ranges.{AreBelow, module_of};
ghost use Rattle.chunk_files.specs.Holding.{HoldsTogether};

use emit_body::{Body, Getters, ScopeGetters};
use pk_types::{Graph, Item, Plan, Row, Sequence, Text};
use std::marker::Model;

/// The graph, its plan, the bodies of its modules, the texts of their files and the getters of their scopes.
#[derive(Drop)]
pub struct Material<'a> {
    graph: &'a Graph,
    plan: &'a Plan,
    bodies: &'a Sequence<Body>,
    sources: &'a Sequence<Text>,
    getters: &'a Getters,
}

impl<'a> Model for Material<'a> {
    ghost use Rattle.chunk_files.specs.Materials.{MaterialOf};
    ghost use Rattle.chunk_files.specs.Holding.{HoldsTogether};

    ghost Value = { MaterialOf };

    ghost view = { λ material. record {
      graph = material.graph.now;
      plan = material.plan.now;
      bodies = material.bodies.now;
      sources = material.sources.now;
      getters = material.getters.now;
    } };

    ghost invariant = { λ material. HoldsTogether (record {
      graph = material.graph.now;
      plan = material.plan.now;
      bodies = material.bodies.now;
      sources = material.sources.now;
      getters = material.getters.now;
    }) };
}

impl<'a> Material<'a> {
    /// What holds together. A text is looked at where its module is JSON, and may be empty elsewhere.
    pub fn new(
        graph: &'a Graph,
        plan: &'a Plan,
        bodies: &'a Sequence<Body>,
        sources: &'a Sequence<Text>,
        getters: &'a Getters,
    ) -> Material<'a>
        requires { HoldsTogether (record {
          graph = graph.now;
          plan = plan.now;
          bodies = bodies.now;
          sources = sources.now;
          getters = getters.now;
        }) }
        ensures { result ≡ record {
          graph = graph.now;
          plan = plan.now;
          bodies = bodies.now;
          sources = sources.now;
          getters = getters.now;
        } }
    {
        Material {
            graph,
            plan,
            bodies,
            sources,
            getters,
        }
    }

    /// The row of a module.
    pub fn row(&self, module: u32) -> &'a Row
        requires { «module» < length self.now.graph.rows }
        ensures at { slice_get self.now.graph.rows «module» ≡ Some result.now }
        ensures fits { RowFits self.now.graph result.now }
    {
        &self.graph.rows.as_slice()[module as usize]
    }

    /// The body of a module.
    pub fn body(&self, module: u32) -> &'a Body
        requires { «module» < length self.now.graph.rows }
        ensures at { slice_get self.now.bodies «module» ≡ Some result.now }
        ensures pieces { HoldsPieces result.now }
    {
        &self.bodies.as_slice()[module as usize]
    }

    /// The text of a module's file.
    pub fn source(&self, module: u32) -> &'a [u8]
        requires { «module» < length self.now.graph.rows }
        ensures { slice_get self.now.sources «module» ≡ Some result.now }
    {
        self.sources.as_slice()[module as usize].as_slice()
    }

    /// What the head of the factory of a root lists.
    pub fn scope(&self, module: u32) -> &'a ScopeGetters
        requires { «module» < length self.now.graph.rows }
        ensures { slice_get self.now.getters.scopes «module» ≡ Some result.now }
    {
        &self.getters.scopes.as_slice()[module as usize]
    }

    /// What the scope of a root runs.
    pub fn items(&self, module: u32) -> &'a [Item]
        requires { «module» < length self.now.graph.rows }
        ensures items { result.now ≡ spec.items_of self.now.plan «module» }
        ensures within { All (λ item. module_of item < length self.now.graph.rows) result.now }
    {
        self.plan.hoists.items.as_slice()[module as usize].as_slice()
    }

    /// The id of a module.
    pub fn id(&self, module: u32) -> u32
        requires { «module» < length self.now.graph.rows }
        ensures { result ≡ slice_index self.now.plan.ids.modules «module» }
    {
        self.plan.ids.modules.as_slice()[module as usize]
    }

    /// Whether a module is a root.
    pub fn is_root(&self, module: u32) -> bool
        requires { «module» < length self.now.graph.rows }
        ensures { result ≡ entry.is_root self.now.plan «module» }
    {
        self.plan.hoists.root.as_slice()[module as usize] == module
    }

    /// The place of a chunk that is no entry chunk, behind the entry chunks.
    pub fn place_of(&self, chunk: u32) -> usize
        requires { chunk < length self.now.plan.ids.chunks }
        ensures place { result ≡ self.now.plan.chunks.entries + chunk }
        ensures within { result < length self.now.plan.chunks.modules }
    {
        self.plan.chunks.entries as usize + chunk as usize
    }

    /// The modules of a chunk, where the entry chunks come first.
    pub fn members(&self, chunk: usize) -> &'a [u32]
        requires { chunk < length self.now.plan.chunks.modules }
        ensures modules { result.now ≡ entry.modules_of self.now.plan chunk }
        ensures within { AreBelow (length self.now.graph.rows) result.now }
    {
        self.plan.chunks.modules.as_slice()[chunk].as_slice()
    }

    /// The id of a chunk that is no entry chunk.
    pub fn chunk_id(&self, chunk: u32) -> u32
        requires { chunk < length self.now.plan.ids.chunks }
        ensures { result ≡ slice_index self.now.plan.ids.chunks chunk }
    {
        self.plan.ids.chunks.as_slice()[chunk as usize]
    }

    /// The group of an entry, which has the entry's number, as its chunk has.
    pub fn group_of(&self, entry: u32) -> u32
        requires { entry < self.now.plan.chunks.entries }
        ensures group { result ≡ entry }
        ensures within { result < length self.now.plan.groups.targets }
        ensures chunk { result < length self.now.plan.chunks.modules }
    {
        let _ = &self.plan;
        entry
    }

    /// The module of a group.
    pub fn target(&self, group: u32) -> u32
        requires { group < length self.now.plan.groups.targets }
        ensures target { result ≡ slice_index self.now.plan.groups.targets group }
        ensures within { result < length self.now.graph.rows }
    {
        self.plan.groups.targets.as_slice()[group as usize]
    }

    /// The chunks that a group needs beside its entry chunk.
    pub fn list(&self, group: u32) -> &'a [u32]
        requires { group < length self.now.plan.groups.targets }
        ensures chunks { result.now ≡ entry.list_of self.now.plan group }
        ensures within { AreBelow (length self.now.plan.ids.chunks) result.now }
    {
        self.plan.chunks.lists.as_slice()[group as usize].as_slice()
    }

    /// For each group the groups that it leads to.
    pub fn leads(&self) -> &'a [Sequence<u32>]
        ensures leads { result.now ≡ self.now.plan.groups.leads }
        ensures within { LeadWithin self.now.plan.groups.leads }
        ensures each { length result.now ≡ length self.now.plan.groups.targets }
    {
        self.plan.groups.leads.as_slice()
    }
}
