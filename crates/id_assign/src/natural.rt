// Ids that count.
ghost use Rattle.std.specs.Prelude.{◌≡◌, ℕ, ◌≤◌, map, length, count_by, IfOk};
ghost use Rattle.std.specs.List.{range_with_len};
ghost use Rattle.pk_types.specs.ModuleIds.{id_count, is_in_chunks, rank_of};
ghost use Rattle.pk_types.specs.Splitting.{chunk_count};
ghost use Rattle.id_assign.specs.Flags.{is_set, rank_among};

use crate::placed::without_entries;
use pk_types::{Chunks, Ids, Sequence};
use std::alloc::{AllocError, Global};

// How many flags are set before each one that is; 0 for the others.
#[tactic(auto, using(crate::proofs::Ranges::set_ranks, crate::proofs::Ranges::unset_ranks, crate::proofs::Ranges::count_passes, crate::proofs::Ranges::count_fails, crate::proofs::Ranges::rank_within))]
fn ranks(alloc: Global, flags: &[bool]) -> Result<Vec<u32>, AllocError>
    requires { count_by (is_set flags.now) (range_with_len 0 (length flags.now)) ≤ id_count }
    ensures { IfOk result (λ ranks. ranks.items ≡ map (rank_among flags.now) (range_with_len 0 (length flags.now))) }
{
    let mut ranks = Vec::with_capacity(alloc, flags.len())?;
    let mut next = 0;
    for is_set in flags {
        if *is_set {
            ranks.push(next)?;
            next += 1;
        } else {
            ranks.push(0)?;
        }
    }
    Ok(ranks)
}

// The numbers from 0 on, so many.
#[tactic(auto, using(crate::proofs::Ranges::range_more))]
fn counted(alloc: Global, count: u32) -> Result<Vec<u32>, AllocError>
    ensures { IfOk result (λ numbers. numbers.items ≡ range_with_len 0 count) }
{
    let mut numbers = Vec::with_capacity(alloc, count as usize)?;
    for number in 0..count {
        numbers.push(number)?;
    }
    Ok(numbers)
}

/// Ids that count, where the flags say which modules stand in chunks.
pub fn natural_ids(alloc: Global, chunks: &Chunks, placed: &[bool]) -> Result<Ids, AllocError>
    requires placed { placed.now ≡ map (is_in_chunks chunks.now) (range_with_len 0 (length placed.now)) }
    requires few { count_by (is_in_chunks chunks.now) (range_with_len 0 (length placed.now)) ≤ id_count }
    requires entries { chunks.now.entries ≤ length chunks.now.modules }
    requires few_chunks { chunk_count chunks.now ≤ id_count }
    ensures modules { IfOk result (λ ids. ids.modules ≡ map (rank_of chunks.now) (range_with_len 0 (length placed.now))) }
    ensures chunks { IfOk result (λ ids. ids.chunks ≡ range_with_len 0 (chunk_count chunks.now)) }
{
    let modules = ranks(alloc, placed)?;
    let chunks = counted(alloc, without_entries(chunks).len() as u32)?;
    Ok(Ids {
        modules: Sequence::from_vec(modules),
        chunks: Sequence::from_vec(chunks),
    })
}
