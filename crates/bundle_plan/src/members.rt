// The modules of each set.
ghost use Rattle.std.specs.Prelude.{◌≡◌, ◌<◌, ◌^◌, ◌∷◌, ◌++◌, ℕ, [], length, slice_index_or, IfOk, OnOk};
ghost use Rattle.std.specs.List.{All};
ghost use Rattle.pk_types.specs.HoistSets.{set_of};

use std::alloc::{AllocError, Global};
use std::marker::Model;

// The modules of a set, by number.
#[derive(Drop)]
pub struct Members {
    numbers: Vec<u32>,
}

impl Model for Members {
    ghost use Rattle.std.specs.Prelude.{List, ℕ};

    ghost Value = { List ℕ };

    ghost view = { λ members. members.numbers.items };
}

impl Members {
    // No module.
    pub fn new(alloc: Global) -> Members
        ensures { result ≡ [] }
    {
        Members {
            numbers: Vec::new(alloc),
        }
    }

    // One module more, at the end.
    pub fn push(&mut self, number: u32) -> Result<(), AllocError>
        ensures { OnOk result (self.new ≡ self.old ++ number ∷ []) }
    {
        self.numbers.push(number)?;
        Ok(())
    }

    // The numbers.
    pub fn as_slice(&self) -> &[u32]
        ensures { result.now ≡ self.now }
    {
        self.numbers.as_slice()
    }
}

// So many empty sets.
fn empty_sets(alloc: Global, count: usize) -> Result<Vec<Members>, AllocError>
    ensures each { IfOk result (λ sets. length sets.items ≡ count) }
    ensures empty { IfOk result (λ sets. (root : ℕ) → slice_index_or sets.items root [] ≡ []) }
{
    let mut sets = Vec::with_capacity(alloc, count)?;
    for _ in 0..count {
        sets.push(Members::new(alloc))?;
    }
    Ok(sets)
}

// For each module the members of its set, where it is a root, and else none.
pub fn sets_of(alloc: Global, roots: &[u32]) -> Result<Vec<Members>, AllocError>
    requires within { All (λ root. root < length roots.now) roots.now }
    requires few { length roots.now < 2 ^ 32 }
    ensures each { IfOk result (λ sets. length sets.items ≡ length roots.now) }
    ensures sets { IfOk result (λ sets. (root : ℕ) → slice_index_or sets.items root [] ≡ set_of roots.now root) }
{
    let mut sets = empty_sets(alloc, roots.len())?;
    for member in 0..roots.len() as u32 {
        let root = roots[member as usize];
        sets[root as usize].push(member)?;
    }
    Ok(sets)
}
