//! The parts that bind at the places of an outline.
ghost use Rattle.std.specs.Prelude.{◌≡◌, ◌<◌, ◌^◌, ◌+◌, length, slice_get, Some, IfOk};
ghost use Rattle.es_parts.specs.Binding as spec;

use crate::open_parts::OpenParts;
use es_outline::Mark;
use std::alloc::{AllocError, Global};
use std::marker::Model;

/// Which part binds a name at each place of an outline: the innermost of the declarations, functions and `catch`es around it,
/// told by the place where it begins.
#[derive(Drop)]
pub struct Binders {
    table: Vec<Option<u32>>,
}

impl Model for Binders {
    ghost use Rattle.std.specs.Prelude.{ℕ, List, Option};

    ghost Value = { List (Option ℕ) };

    ghost view = { λ binders. binders.table.items };
}

impl Binders {
    /// What binds at the places of these marks.
    pub fn new(alloc: Global, marks: &[Mark]) -> Result<Binders, AllocError>
        requires { length marks.now + 2 < 2 ^ 32 }
        ensures { IfOk result (spec.AreBinders marks.now) }
    {
        let mut parts = OpenParts::new(alloc);
        let mut table = Vec::with_capacity(alloc, marks.len())?;
        for (place, mark) in marks.iter().enumerate() {
            table.push(parts.innermost().binder)?;
            parts.pass(*mark, place as u32)?;
        }
        Ok(Binders { table })
    }

    /// What binds at a place.
    pub fn binder(&self, place: u32) -> Option<u32>
        requires { place < length self.now }
        ensures { slice_get self.now place ≡ Some result }
    {
        self.table[place as usize]
    }
}
