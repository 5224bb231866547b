ghost use Rattle.std.specs.Prelude.{◌≡◌, ◌↔◌, ◌<◌, ℕ, List, [], nat_eq, length, slice_index_or, OnOk};
ghost use Rattle.std.specs.List.{Contains, IsDistinct, list_any};
ghost use Rattle.indexmap.specs.IndexSet.{insert_key, insert_all};
ghost use Rattle.edge_search.specs.Reached.{IsReached, LeadWithin};

use crate::edges::Edges;
use std::alloc::{AllocError, Global};
use std::marker::Model;

/// The nodes that a search met, in the order in which it met them.
#[derive(Drop)]
pub struct Search {
    // Whether a node was met. A node past the end was not.
    marks: Vec<bool>,

    met: Vec<u32>,
}

impl Model for Search {
    ghost use Rattle.std.specs.Prelude.{List, ℕ};
    ghost use Rattle.edge_search.specs.Marks.{AreMarked};

    ghost Value = { List ℕ };

    ghost view = { λ search. search.met.items };

    ghost invariant = { λ search. AreMarked search.marks.items search.met.items };
}

impl Search {
    /// A search that has met nothing yet.
    pub fn new(alloc: Global) -> Search
        ensures { result ≡ [] }
    {
        Search {
            marks: Vec::new(alloc),
            met: Vec::new(alloc),
        }
    }

    /// The nodes that were met, in order.
    pub fn met(&self) -> &[u32]
        ensures met { result.now ≡ self.now }
        ensures distinct { IsDistinct nat_eq self.now }
    {
        self.met.as_slice()
    }

    /// Whether a node was met.
    pub fn has(&self, node: u32) -> bool
        ensures { result ≡ list_any (nat_eq node) self.now }
    {
        let place = node as usize;
        place < self.marks.len() && self.marks[place]
    }

    // Forgets the nodes that were met.
    fn clear(&mut self)
        ensures { self.new ≡ [] }
    {
        while let Some(node) = self.met.pop() {
            self.marks[node as usize] = false;
        }
    }

    // Meets a node. A new one goes last.
    fn meet(&mut self, node: u32) -> Result<(), AllocError>
        ensures { OnOk result (self.new ≡ insert_key nat_eq self.old node) }
    {
        let place = node as usize;
        while self.marks.len() <= place {
            self.marks.push(false)?;
        }
        if !self.marks[place] {
            self.met.push(node)?;
            self.marks[place] = true;
        }
        Ok(())
    }

    // Meets what the edges of a node lead to, in order.
    fn go_through<E: Edges>(&mut self, edges: &E, node: u32) -> Result<(), AllocError>
        requires { node < length (E.edges edges.now) }
        ensures { OnOk result (self.new ≡ insert_all nat_eq self.old (slice_index_or (E.edges edges.now) node [])) }
    {
        for place in 0..edges.degree(node) {
            self.meet(edges.target(node, place))?;
        }
        Ok(())
    }

    /// Searches anew, from one node. After an error the next search begins anew all the same.
    pub fn reach<E: Edges>(&mut self, edges: &E, from: u32) -> Result<(), AllocError>
        requires from { «from» < length (E.edges edges.now) }
        requires within { LeadWithin (E.edges edges.now) }
        ensures { OnOk result ((number : ℕ) → Contains self.new number ↔ IsReached (E.edges edges.now) «from» number) }
    {
        self.clear();
        self.meet(from)?;
        let mut place = 0;
        while place < self.met().len() {
            self.go_through(edges, self.met()[place])?;
            place += 1;
        }
        Ok(())
    }
}
