// The modules of each set.
ghost use Rattle.std.specs.Prelude.{◌≡◌, ◌<◌, ◌^◌, ℕ, Some, length, slice_get, [], IfOk};
ghost use Rattle.pk_types.specs.HoistSets.{set_of};
ghost use Rattle.module_spelling.specs.Layout.{LayoutFits};
ghost use Rattle.std.specs.Prelude.{Vec};
ghost use Rattle.std.specs.declared.alloc.Global.{Global};

use module_spelling::Speller;
use std::alloc::{AllocError, Global};

// So many sets without a module.
fn no_members(alloc: Global, count: usize) -> Result<Vec<Vec<u32>>, AllocError>
    ensures each { IfOk result (λ sets. length sets.items ≡ count) }
    ensures none { IfOk result (λ sets. (root : ℕ) (set : Vec ℕ Global) → slice_get sets.items root ≡ Some set
        → set.items ≡ []) }
{
    let mut sets = Vec::with_capacity(alloc, count)?;
    for _ in 0..count {
        sets.push(Vec::new(alloc))?;
    }
    Ok(sets)
}

/// For each module the modules of the set of which it is the root, by number.
pub fn members(alloc: Global, speller: &Speller<'_>) -> Result<Vec<Vec<u32>>, AllocError>
    ensures each { IfOk result (λ sets. length sets.items ≡ length speller.now.graph.rows) }
    ensures sets { IfOk result (λ sets. (root : ℕ) (set : Vec ℕ Global) → slice_get sets.items root ≡ Some set
        → set.items ≡ set_of speller.now.roots root) }
{
    let count = speller.graph().rows.len();
    let mut sets = no_members(alloc, count)?;
    for member in 0..count {
        let root = speller.root(member as u32);
        sets[root as usize].push(member as u32)?;
    }
    Ok(sets)
}
