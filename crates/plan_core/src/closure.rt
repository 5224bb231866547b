// The modules that edges lead to from a module.
ghost use Rattle.std.specs.Prelude.{◌≡◌, ◌↔◌, ℕ, ◌<◌, nat_eq, length, IfOk, OnOk};
ghost use Rattle.std.specs.List.{All, Contains};
ghost use Rattle.indexmap.specs.IndexSet.{insert_all};
ghost use Rattle.plan_core.specs.Closure.{IsReached, known_below, known_flags};

use indexmap::IndexSet;
use pk_types::Sequence;
use std::alloc::{AllocError, Global};

// Makes modules known. The new ones go last.
fn see(known: &mut IndexSet<u32>, modules: &[u32]) -> Result<(), AllocError>
    ensures { OnOk result (known.new.keys ≡ insert_all nat_eq known.old.keys modules.now) }
{
    for number in modules {
        known.insert(*number)?;
    }
    Ok(())
}

/// The modules that edges lead to from a module, in the order in which they are met. The edges of each are gone through
/// once.
pub fn reached(
    alloc: Global,
    edges: &[Sequence<u32>],
    from: u32,
) -> Result<IndexSet<u32>, AllocError>
    requires from { from < length edges.now }
    requires edges { All (λ targets. All (λ target. target < length edges.now) targets) edges.now }
    ensures { IfOk result (λ modules. (number : ℕ) → Contains modules.keys number ↔ IsReached edges.now from number) }
{
    let mut known = IndexSet::new(alloc);
    known.insert(from)?;
    let mut place = 0;
    while place < known.len() {
        let number = known.as_slice()[place];
        see(&mut known, edges[number as usize].as_slice())?;
        place += 1;
    }
    Ok(known)
}

/// Those of the first `count` modules that are in a set, by number.
#[tactic(auto, using(crate::proofs::Ranges::passes_more, crate::proofs::Ranges::fails_more))]
pub fn by_number(alloc: Global, set: &IndexSet<u32>, count: u32) -> Result<Vec<u32>, AllocError>
    ensures { IfOk result (λ modules. modules.items ≡ known_below set.now.keys count) }
{
    let mut modules = Vec::with_capacity(alloc, set.len())?;
    for number in 0..count {
        if set.contains(&number) {
            modules.push(number)?;
        }
    }
    Ok(modules)
}

/// Which of the first `count` modules are in a set.
#[tactic(auto, using(crate::proofs::Ranges::flags_more))]
pub fn flags(alloc: Global, set: &IndexSet<u32>, count: u32) -> Result<Vec<bool>, AllocError>
    ensures { IfOk result (λ flags. flags.items ≡ known_flags set.now.keys count) }
{
    let mut flags = Vec::with_capacity(alloc, count as usize)?;
    for number in 0..count {
        flags.push(set.contains(&number))?;
    }
    Ok(flags)
}
