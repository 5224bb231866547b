ghost use Rattle.std.specs.Prelude.{◌≡◌, [], nat_eq, OnOk};
ghost use Rattle.std.specs.List.{list_any};
ghost use Rattle.indexmap.specs.IndexSet.{insert_key};

use std::alloc::{AllocError, Global};
use std::marker::Model;

/// The modules that a walk came to, in order.
#[derive(Drop)]
pub struct Met {
    // Whether it came to a module. To one past the end it didn't.
    marks: Vec<bool>,

    met: Vec<u32>,
}

impl Model for Met {
    ghost use Rattle.std.specs.Prelude.{List, ℕ};
    ghost use Rattle.edge_search.specs.Marks.{AreMarked};

    ghost Value = { List ℕ };

    ghost view = { λ met. met.met.items };

    ghost invariant = { λ met. AreMarked met.marks.items met.met.items };
}

impl Met {
    /// No module.
    pub fn new(alloc: Global) -> Met
        ensures { result ≡ [] }
    {
        Met {
            marks: Vec::new(alloc),
            met: Vec::new(alloc),
        }
    }

    /// Whether the walk came to a module.
    pub fn has(&self, module: u32) -> bool
        ensures { result ≡ list_any (nat_eq «module») self.now }
    {
        let place = module as usize;
        place < self.marks.len() && self.marks[place]
    }

    /// Forgets the modules.
    pub fn clear(&mut self)
        ensures { self.new ≡ [] }
    {
        while let Some(node) = self.met.pop() {
            self.marks[node as usize] = false;
        }
    }

    /// Comes to a module. One that is new goes last.
    pub fn meet(&mut self, module: u32) -> Result<(), AllocError>
        ensures { OnOk result (self.new ≡ insert_key nat_eq self.old «module») }
    {
        let place = module as usize;
        while self.marks.len() <= place {
            self.marks.push(false)?;
        }
        if !self.marks[place] {
            self.met.push(module)?;
            self.marks[place] = true;
        }
        Ok(())
    }
}
