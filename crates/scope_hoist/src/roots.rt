// The root of each module.
ghost use Rattle.std.specs.Prelude.{◌≡◌, ◌<◌, ◌^◌, ℕ, Bool, Option, List, [], true, false, None, length, slice_index, slice_index_or, IfOk};
ghost use Rattle.std.specs.List.{All, Contains};
ghost use Rattle.scope_hoist.specs.Standing.{IsGround};
ghost use Rattle.scope_hoist.specs.Rooting.{AreFirstMarks, HaveSets};

use crate::ground::Ground;
use crate::marks::Marks;
use crate::taking::take_set;
use std::alloc::{AllocError, Global};

// The numbers below one, in order: at first each module is its own root.
fn numbers(alloc: Global, count: u32) -> Result<Vec<u32>, AllocError>
    ensures each { IfOk result (λ numbers. length numbers.items ≡ count) }
    ensures numbers { IfOk result (λ numbers. (member : ℕ) → member < count → slice_index numbers.items member ≡ member) }
{
    let mut numbers = Vec::with_capacity(alloc, count as usize)?;
    for number in 0..count {
        numbers.push(number)?;
    }
    Ok(numbers)
}

// The numbers of the modules that a set may take in.
fn joining(alloc: Global, may_join: &[bool]) -> Result<Vec<u32>, AllocError>
    requires { length may_join.now < 2 ^ 32 }
    ensures within { IfOk result (λ joining. All (λ member. member < length may_join.now) joining.items) }
    ensures joining { IfOk result (λ joining. (member : ℕ) → slice_index_or may_join.now member false ≡ true → Contains joining.items member) }
{
    let mut joining = Vec::new(alloc);
    for (member, joins) in may_join.iter().enumerate() {
        if *joins {
            joining.push(member as u32)?;
        }
    }
    Ok(joining)
}

// At first each module is held that a set may take in.
fn first_marks(alloc: Global, may_join: &[bool]) -> Result<Marks, AllocError>
    requires { length may_join.now < 2 ^ 32 }
    ensures { IfOk result (AreFirstMarks may_join.now) }
{
    Ok(Marks {
        held: Vec::from_slice(alloc, may_join)?,
        witness: vec![in alloc; None; may_join.len()]?,
        list: joining(alloc, may_join)?,
    })
}

/// For each module its root. In the order of their numbers the modules that have none become roots; each takes its set,
/// where it may share its scope.
pub fn roots(
    alloc: Global,
    ground: &Ground,
    shares: &[bool],
    may_join: &[bool],
) -> Result<Vec<u32>, AllocError>
    requires ground { IsGround «ground».now }
    requires few { length «ground».now.asks.items < 2 ^ 32 }
    requires shares { length «shares».now ≡ length «ground».now.asks.items }
    requires may_join { length «may_join».now ≡ length «ground».now.asks.items }
    requires sharing { (member : ℕ) → slice_index_or «may_join».now member false ≡ true → slice_index_or «shares».now member false ≡ true }
    ensures { IfOk result (λ roots. HaveSets «ground».now.asks.items «ground».now.homes.items «may_join».now «shares».now roots.items) }
{
    let count = ground.asks.len() as u32;
    let mut roots = numbers(alloc, count)?;
    let mut marks = first_marks(alloc, may_join)?;
    for root in 0..count {
        let place = root as usize;
        if roots[place] == root && shares[place] {
            take_set(alloc, &mut marks, &mut roots, ground, root)?;
        }
    }
    Ok(roots)
}
