// The stops of names, each found once.
ghost use Rattle.std.specs.Prelude.{◌≡◌, ◌<◌, length, slice_get, Some, IfOk};
ghost use Rattle.pk_types.specs.declared.graph.Row.{Row};
ghost use Rattle.pk_types.specs.Fitting.{Fits, RowFits};
ghost use Rattle.pk_types.specs.StopSearch.{HasStops};
ghost use Rattle.prune_graph.specs.PassingOn.{IsPassedBy};

use crate::passing::{Passing, passing_of};
use export_names::Resolver;
use indexmap::IndexMap;
use pk_types::{Graph, Key, Name, Row, Sequence};
use std::alloc::{AllocError, Global};
use std::marker::Model;

/// The stops of the names of a graph's modules. Those of a name of a module are sought once, and kept.
#[derive(Drop)]
pub struct Stops<'a> {
    resolver: Resolver<'a>,

    known: IndexMap<(u32, Key<'a>), Sequence<u32>>,
}

impl<'a> Model for Stops<'a> {
    ghost use Rattle.pk_types.specs.declared.graph.Graph.{Graph};
    ghost use Rattle.prune_graph.specs.Known.{AreKnown};

    ghost Value = { Graph };

    ghost view = { λ stops. stops.resolver };

    ghost invariant = { λ stops. AreKnown stops.resolver stops.known };
}

impl<'a> Stops<'a> {
    /// The stops of a graph's names, none of which was sought yet.
    pub fn new(alloc: Global, graph: &'a Graph) -> Stops<'a>
        requires { Fits graph.now }
        ensures { result ≡ graph.now }
    {
        Stops {
            resolver: Resolver::new(alloc, graph),
            known: IndexMap::new(alloc),
        }
    }

    /// The row of a module.
    pub fn row(&self, module: u32) -> &'a Row
        requires { «module» < length self.now.rows }
        ensures at { slice_get self.now.rows «module» ≡ Some result.now }
        ensures fits { RowFits self.now result.now }
    {
        self.resolver.row(module)
    }

    /// How an exported name of a module is passed on to what its requests lead to.
    pub fn passing(
        &mut self,
        alloc: Global,
        module: u32,
        exported: &Name,
    ) -> Result<Passing<'a>, AllocError>
        requires { «module» < length self.old.rows }
        ensures passed { IfOk result (λ passing. (row : Row) → slice_get self.old.rows «module» ≡ Some row
            → IsPassedBy self.old «module» row exported.now passing) }
        ensures same { self.new ≡ self.old }
    {
        let passing = passing_of(alloc, &mut self.resolver, module, exported)?;
        Ok(passing)
    }

    /// The stops of a name of a module, in order.
    pub fn of(&mut self, alloc: Global, module: u32, name: &'a Name) -> Result<Vec<u32>, AllocError>
        requires { «module» < length self.old.rows }
        ensures stops { IfOk result (λ stops. HasStops self.old «module» name.now stops.items) }
        ensures same { self.new ≡ self.old }
    {
        let key = (module, Key(name.as_slice()));
        if let Some(stops) = self.known.get(&key) {
            let copy = Vec::from_slice(alloc, stops.as_slice())?;
            return Ok(copy);
        }
        let stops = stop_search::stops(alloc, &mut self.resolver, module, name)?;
        let copy = Vec::from_slice(alloc, stops.as_slice())?;
        self.known.insert(key, Sequence::from_vec(stops))?;
        Ok(copy)
    }
}
