ghost use Rattle.std.specs.Prelude.{◌≡◌, ◌∷◌, ◌++◌, [], OnOk};
ghost use Rattle.std.specs.List.{Contains};
ghost use Rattle.pk_types.specs.ChunkGroups.{AreAll};

use std::alloc::{AllocError, Global};
use std::marker::Model;

/// Numbers that are gathered, and may be put in order.
#[derive(Drop)]
pub struct Line {
    numbers: Vec<u32>,
}

impl Model for Line {
    ghost use Rattle.std.specs.Prelude.{List, ℕ};

    ghost Value = { List ℕ };

    ghost view = { λ line. line.numbers.items };
}

// Puts numbers in their order, each once.
fn put(numbers: &mut Vec<u32>)
    ensures { AreAll (Contains numbers.old.items) numbers.new.items }
{
    numbers.sort_unstable();
    numbers.dedup();
}

impl Line {
    /// No number.
    pub fn new(alloc: Global) -> Line
        ensures { result ≡ [] }
    {
        Line {
            numbers: Vec::new(alloc),
        }
    }

    /// One number more, at the end.
    pub fn push(&mut self, number: u32) -> Result<(), AllocError>
        ensures { OnOk result (self.new ≡ self.old ++ number ∷ []) }
    {
        self.numbers.push(number)?;
        Ok(())
    }

    /// The numbers.
    pub fn as_slice(&self) -> &[u32]
        ensures { result.now ≡ self.now }
    {
        self.numbers.as_slice()
    }

    /// Puts the numbers in their order, each once.
    pub fn put_in_order(&mut self)
        ensures { AreAll (Contains self.old) self.new }
    {
        put(&mut self.numbers);
    }
}
