// The chunks that are left.
ghost use Rattle.std.specs.Prelude.{◌≡◌, ◌+◌, ◌<◌, ◌^◌, ◌&&◌, ℕ, List, [], length, map, filter, if◌then◌else◌, nat_le, slice_index, slice_index_or, IfOk};
ghost use Rattle.std.specs.List.{All, range_with_len};
ghost use Rattle.pk_types.specs.SplitStates.{chunk_at, is_there};
ghost use Rattle.pk_types.specs.Splitting.{chunks_of, chunks_there, list_of, chunk_number};
ghost use Rattle.split_chunks.specs.States.{state_of};
ghost use Rattle.split_chunks.specs.Numbering.{AreNumbers};

use crate::state::State;
use pk_types::{Chunks, Sequence};
use std::alloc::{AllocError, Global};

// Whether the chunk is there: an entry chunk, or one that holds a module.
fn is_left(state: &State, chunk: usize) -> bool
    requires { chunk < length state.now.modules.items }
    ensures { result ≡ is_there (state_of state.now) chunk }
{
    chunk < state.entries as usize || !state.modules[chunk].is_empty()
}

// The number of the chunk behind the one that has this number.
fn following(state: &State, number: u32, chunk: usize) -> u32
    requires inside { chunk < length state.now.modules.items }
    requires few { number + 1 < 2 ^ 32 }
    ensures { result ≡ number + (if nat_le state.now.entries chunk && is_there (state_of state.now) chunk then 1 else 0) }
{
    if chunk >= state.entries as usize && is_left(state, chunk) {
        number + 1
    } else {
        number
    }
}

// The number of each chunk.
fn numbers(alloc: Global, state: &State) -> Result<Vec<u32>, AllocError>
    requires { length state.now.modules.items < 2 ^ 32 }
    ensures { IfOk result (λ numbers. AreNumbers (state_of state.now) numbers.items) }
{
    let mut numbers = Vec::with_capacity(alloc, state.modules.len())?;
    let mut next = 0;
    for chunk in 0..state.modules.len() {
        numbers.push(next)?;
        next = following(state, next, chunk);
    }
    Ok(numbers)
}

// A copy of what a chunk holds.
fn members(alloc: Global, state: &State, chunk: usize) -> Result<Sequence<u32>, AllocError>
    requires { chunk < length state.now.modules.items }
    ensures { IfOk result (λ members. members ≡ chunk_at (state_of state.now) chunk) }
{
    let members = Vec::from_slice(alloc, state.modules[chunk].as_slice())?;
    Ok(Sequence::from_vec(members))
}

// The modules of the chunks that are there.
fn modules(alloc: Global, state: &State) -> Result<Vec<Sequence<u32>>, AllocError>
    ensures { IfOk result (λ modules. modules.items
        ≡ map (chunk_at (state_of state.now)) (chunks_there (state_of state.now) (range_with_len 0 (length state.now.modules.items)))) }
{
    let mut modules = Vec::new(alloc);
    for chunk in 0..state.modules.len() {
        if is_left(state, chunk) {
            modules.push(members(alloc, state, chunk)?)?;
        }
    }
    Ok(modules)
}

// Those of the chunks that are no entry chunks.
fn without_entries(alloc: Global, entries: u32, loads: &[u32]) -> Result<Vec<u32>, AllocError>
    ensures { IfOk result (λ others. others.items ≡ filter (nat_le entries) loads.now) }
{
    loads
        .iter()
        .copied()
        .filter(|chunk| entries <= *chunk)
        .collect(alloc)
}

// The numbers of chunks.
fn numbered(alloc: Global, numbers: &[u32], chunks: &[u32]) -> Result<Vec<u32>, AllocError>
    requires { All (λ chunk. chunk < length numbers.now) chunks.now }
    ensures { IfOk result (λ list. list.items ≡ map (slice_index numbers.now) chunks.now) }
{
    chunks
        .iter()
        .map(|chunk| numbers[*chunk as usize])
        .collect(alloc)
}

// The list of a group that loads these chunks.
fn list(
    alloc: Global,
    state: &State,
    numbers: &[u32],
    loads: &[u32],
) -> Result<Sequence<u32>, AllocError>
    requires loads { All (λ chunk. chunk < length state.now.modules.items) «loads».now }
    requires numbers { AreNumbers (state_of state.now) «numbers».now }
    ensures { IfOk result (λ list. list ≡ list_of (state_of state.now) loads.now) }
{
    let others = without_entries(alloc, state.entries, loads)?;
    let list = numbered(alloc, numbers, others.as_slice())?;
    Ok(Sequence::from_vec(list))
}

// The lists of all groups.
fn lists(alloc: Global, state: &State, numbers: &[u32]) -> Result<Vec<Sequence<u32>>, AllocError>
    requires loads { (group : ℕ) → All (λ chunk. chunk < length state.now.modules.items) (slice_index_or state.now.loads.items group []) }
    requires numbers { AreNumbers (state_of state.now) «numbers».now }
    ensures { IfOk result (λ lists. lists.items ≡ map (list_of (state_of state.now)) state.now.loads.items) }
{
    let mut lists = Vec::with_capacity(alloc, state.loads.len())?;
    for loads in &state.loads {
        lists.push(list(alloc, state, numbers, loads.as_slice())?)?;
    }
    Ok(lists)
}

/// The chunks that are there, with the lists of the groups.
pub fn chunks_of(alloc: Global, state: &State) -> Result<Chunks, AllocError>
    requires loads { (group : ℕ) → All (λ chunk. chunk < length state.now.modules.items) (slice_index_or state.now.loads.items group []) }
    requires short { length state.now.modules.items < 2 ^ 32 }
    ensures { IfOk result (λ chunks. chunks ≡ chunks_of (state_of state.now)) }
{
    let numbers = numbers(alloc, state)?;
    Ok(Chunks {
        modules: Sequence::from_vec(modules(alloc, state)?),
        entries: state.entries,
        lists: Sequence::from_vec(lists(alloc, state, numbers.as_slice())?),
    })
}
