// The ids of modules.
ghost use Rattle.std.specs.Prelude.{◌≡◌, [], ◌∷◌, IfOk};
ghost use Rattle.plan_core.specs.NaturalIds as spec;

use indexmap::IndexSet;
use std::alloc::{AllocError, Global};

/// The natural ids of `count` modules, where those of one set are in chunks.
#[tactic(auto, using(crate::proofs::Ranges::placed_counts, crate::proofs::Ranges::other_counts, crate::proofs::Ranges::placed_ids, crate::proofs::Ranges::other_ids))]
pub fn natural_ids(
    alloc: Global,
    placed: &IndexSet<u32>,
    count: u32,
) -> Result<Vec<u32>, AllocError>
    ensures { IfOk result (λ ids. ids.items ≡ spec.natural_ids (placed.now.keys ∷ []) count) }
{
    let mut ids = Vec::with_capacity(alloc, count as usize)?;
    let mut next = 0;
    for number in 0..count {
        if placed.contains(&number) {
            ids.push(next)?;
            next += 1;
        } else {
            ids.push(0)?;
        }
    }
    Ok(ids)
}
