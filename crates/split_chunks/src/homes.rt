// The chunks of each module.
ghost use Rattle.std.specs.Prelude.{◌≡◌, ◌<◌, ◌^◌, ℕ, List, [], length, slice_index_or, IfOk, OnOk};
ghost use Rattle.std.specs.List.{All};
ghost use Rattle.std.specs.List.Sorted.{IsStrictlyIncreasing};
ghost use Rattle.split_chunks.specs.Homes.{GainsNumber, AreHomes};

use crate::numbers::Numbers;
use pk_types::Sequence;
use std::alloc::{AllocError, Global};

// So many empty lists.
fn no_homes(alloc: Global, count: usize) -> Result<Vec<Numbers>, AllocError>
    ensures each { IfOk result (λ lists. length lists.items ≡ count) }
    ensures empty { IfOk result (λ lists. (place : ℕ) → slice_index_or lists.items place [] ≡ []) }
{
    let mut lists = Vec::with_capacity(alloc, count)?;
    for _place in 0..count {
        lists.push(Numbers::new(alloc))?;
    }
    Ok(lists)
}

// Adds a number to the lists of these places.
fn add_number(lists: &mut Vec<Numbers>, places: &[u32], number: u32) -> Result<(), AllocError>
    requires within { All (λ place. place < length lists.old.items) places.now }
    requires ascending { IsStrictlyIncreasing places.now }
    ensures { OnOk result (GainsNumber places.now «number» lists.old.items lists.new.items) }
{
    for place in places {
        lists[*place as usize].push(number)?;
    }
    Ok(())
}

/// For each of so many modules the chunks that hold it, by number.
pub fn homes(
    alloc: Global,
    modules: &[Sequence<u32>],
    count: usize,
) -> Result<Vec<Numbers>, AllocError>
    requires within { All (All (λ member. member < count)) modules.now }
    requires ascending { All IsStrictlyIncreasing modules.now }
    requires few { length modules.now < 2 ^ 32 }
    ensures { IfOk result (λ homes. AreHomes modules.now count homes.items) }
{
    let mut homes = no_homes(alloc, count)?;
    for (chunk, members) in modules.iter().enumerate() {
        add_number(&mut homes, members.as_slice(), chunk as u32)?;
    }
    Ok(homes)
}
