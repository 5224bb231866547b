ghost use Rattle.std.specs.Prelude.{◌≡◌, ℕ, List, [], ◌∷◌, ◌++◌, length, OnOk};
ghost use Rattle.std.specs.List.{Contains};
ghost use Rattle.std.specs.Str.{bytes_eq};
ghost use Rattle.std.specs.Hash as fed;
ghost use Rattle.std.specs.Cmp as compared;
ghost use Rattle.std.specs.Cmp.Lexicographic.{bytes_decides, nat_list_eq_equiv};
ghost use Rattle.std.proofs.Common.{ap};
ghost use Rattle.pk_types.specs.ChunkGroups.{AreAll};

use pk_types::Sequence;
use std::alloc::{AllocError, Global};
use std::hash::{Hash, Hasher};
use std::marker::Model;

/// Numbers of modules or of chunks, gathered one by one. Sets of numbers are keys of a map.
#[derive(Debug, Drop)]
pub struct Numbers {
    numbers: Vec<u32>,
}

impl Model for Numbers {
    ghost use Rattle.std.specs.Prelude.{ℕ, List};
    ghost use Rattle.std.specs.Coded.{coded_list, coded_ℕ};

    ghost Value = { List ℕ };

    ghost coded = { coded_list coded_ℕ };

    ghost view = { λ numbers. numbers.numbers.items };
}

// Puts numbers in their order, each once.
fn put(numbers: &mut Vec<u32>)
    ensures { AreAll (Contains numbers.old.items) numbers.new.items }
{
    numbers.sort_unstable();
    numbers.dedup();
}

impl Numbers {
    /// No number.
    pub fn new(alloc: Global) -> Numbers
        ensures { result ≡ [] }
    {
        Numbers {
            numbers: Vec::new(alloc),
        }
    }

    /// The numbers of a `Vec`, without a copy.
    pub fn from_vec(numbers: Vec<u32>) -> Numbers
        ensures { result ≡ numbers.items }
    {
        Numbers { numbers }
    }

    /// One number more, at the end.
    pub fn push(&mut self, number: u32) -> Result<(), AllocError>
        ensures { OnOk result (self.new ≡ self.old ++ number ∷ []) }
    {
        self.numbers.push(number)?;
        Ok(())
    }

    /// The numbers, borrowed.
    pub fn as_slice(&self) -> &[u32]
        ensures { result.now ≡ self.now }
    {
        self.numbers.as_slice()
    }

    /// Puts the numbers in their order, each once.
    pub fn put_in_order(&mut self)
        ensures { AreAll (Contains self.old) self.new }
    {
        put(&mut self.numbers);
    }

    /// The numbers as a sequence, without a copy.
    pub fn into_sequence(self) -> Sequence<u32>
        ensures { result ≡ self }
    {
        let Numbers { numbers } = self;
        Sequence::from_vec(numbers)
    }
}

impl PartialEq for Numbers {
    ghost eq = { bytes_eq };

    ghost laws = { compared.partial_equiv_from_equiv nat_list_eq_equiv };

    fn eq(&self, other: &Numbers) -> bool {
        self.numbers.as_slice() == other.numbers.as_slice()
    }
}

impl Eq for Numbers {
    ghost laws = { nat_list_eq_equiv };
}

impl Hash for Numbers {
    ghost hash_input = { fed.slice fed.u32 };

    ghost respects_eq = { λ x y h. ap (fed.slice fed.u32) ((bytes_decides x y).0 h) };

    fn hash<H: Hasher>(&self, state: &mut H) {
        self.numbers.hash(state);
    }
}
