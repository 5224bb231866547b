//! The parts around the places of an outline.
ghost use Rattle.std.specs.Prelude.{◌≡◌, ◌<◌, ◌^◌, ◌+◌, length, slice_get, Some, IfOk};
ghost use Rattle.es_parts.specs.Around as spec;

use crate::open_parts::OpenParts;
use es_outline::Mark;
use std::alloc::{AllocError, Global};
use std::marker::Model;

/// What is around a place: the innermost part, the innermost pattern, and whether a function is. Parts are told by the places
/// where they begin.
#[derive(Clone, Copy, Debug, PartialEq, Eq)]
pub struct Surroundings {
    pub part: Option<u32>,
    pub pattern: Option<u32>,
    pub in_function: bool,
}

/// What is around each place of an outline.
#[derive(Drop)]
pub struct Enclosing {
    table: Vec<Surroundings>,
}

impl Model for Enclosing {
    ghost use Rattle.std.specs.Prelude.{List};
    ghost use Rattle.es_parts.specs.declared.enclosing.Surroundings.{Surroundings};

    ghost Value = { List Surroundings };

    ghost view = { λ enclosing. enclosing.table.items };
}

impl Enclosing {
    /// What is around the places of these marks.
    pub fn new(alloc: Global, marks: &[Mark]) -> Result<Enclosing, AllocError>
        requires { length marks.now + 2 < 2 ^ 32 }
        ensures { IfOk result (spec.AreAround marks.now) }
    {
        let mut parts = OpenParts::new(alloc);
        let mut table = Vec::with_capacity(alloc, marks.len())?;
        for (place, mark) in marks.iter().enumerate() {
            table.push(parts.innermost().around)?;
            parts.pass(*mark, place as u32)?;
        }
        Ok(Enclosing { table })
    }

    /// What is around a place.
    pub fn around(&self, place: u32) -> Surroundings
        requires { place < length self.now }
        ensures { slice_get self.now place ≡ Some result }
    {
        self.table[place as usize]
    }
}
