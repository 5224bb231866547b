// Whether groups keep the limits of requests.
ghost use Rattle.std.specs.Prelude.{◌≡◌, ◌==◌, ◌↔◌, ◌&&◌, ◌<◌, ◌^◌, ℕ, IsTrue, List, [], false, not, length, filter, slice_index_or, IfOk};
ghost use Rattle.std.specs.List.{All, list_any};
ghost use Rattle.pk_types.specs.Numbers.{are_same};
ghost use Rattle.pk_types.specs.SplitPicks.{IsSplitChunk, KeepsLimits, stays, loads_after, request_limit};
ghost use Rattle.split_chunks.specs.States.{state_of};
ghost use Rattle.split_chunks.specs.Choices.{candidate_of};
ghost use Rattle.split_chunks.specs.Marked.{AreFlags};
ghost use Rattle.split_chunks.specs.Turns.{MovesSound, IsTurn, holds_just};

use crate::choice::Choice;
use crate::flags::flags;
use crate::numbers::Numbers;
use crate::state::State;
use pk_types::SplitConfig;
use std::alloc::{AllocError, Global};

/// What a pick does to chunks.
#[derive(Drop)]
pub struct Turn {
    /// The chunk that the modules move into.
    pub split: usize,

    /// For each chunk before the pick whether it is one of the candidate's.
    pub chunks: Vec<bool>,

    /// For each chunk after the pick whether it is still there.
    pub stays: Vec<bool>,
}

// Whether the lists are the same.
fn are_same(modules: &[u32], others: &[u32]) -> bool
    ensures { result ≡ are_same modules.now others.now }
{
    modules == others
}

// Whether the chunk is no entry chunk and holds just the modules.
fn is_just(state: &State, choice: &Choice, chunk: u32) -> bool
    requires { chunk < length state.now.modules.items }
    ensures { result ≡ holds_just (state_of state.now) (candidate_of choice.now) chunk }
{
    chunk >= state.entries && state.modules[chunk as usize].as_slice() == choice.modules
}

/// The chunk that the modules move into: one that holds just them, if such are used again, or a new one.
pub fn split_chunk(state: &State, choice: &Choice) -> usize
    requires { MovesSound (state_of state.now) (candidate_of choice.now) }
    ensures { IsSplitChunk (state_of state.now) (candidate_of choice.now) result }
{
    if choice.cache.reuse {
        for chunk in choice.chunks {
            if is_just(state, choice, *chunk) {
                return *chunk as usize;
            }
        }
    }
    state.modules.len()
}

// Whether the chunk is an entry chunk, or holds a module after the pick.
fn is_left(state: &State, choice: &Choice, chunks: &[bool], split: usize, chunk: usize) -> bool
    requires sound { MovesSound (state_of state.now) (candidate_of choice.now) }
    requires chunks { AreFlags choice.now.chunks.now (length state.now.modules.items) «chunks».now }
    requires inside { chunk < length state.now.modules.items }
    ensures { result ≡ stays (state_of state.now) (candidate_of choice.now) split chunk }
{
    if chunk < state.entries as usize || chunk == split {
        return true;
    }
    let modules = state.modules[chunk].as_slice();
    if chunks[chunk] {
        !are_same(modules, choice.modules)
    } else {
        !modules.is_empty()
    }
}

/// What the pick of a candidate does.
pub fn turn_of(alloc: Global, state: &State, choice: &Choice) -> Result<Turn, AllocError>
    requires { MovesSound (state_of state.now) (candidate_of choice.now) }
    ensures { IfOk result (IsTurn (state_of state.now) (candidate_of choice.now)) }
{
    let split = split_chunk(state, choice);
    let chunks = flags(alloc, choice.chunks, state.modules.len())?;
    let mut stays = Vec::with_capacity(alloc, state.modules.len())?;
    for chunk in 0..state.modules.len() {
        stays.push(is_left(state, choice, chunks.as_slice(), split, chunk))?;
    }
    if split == state.modules.len() {
        stays.push(true)?;
    }
    Ok(Turn {
        split,
        chunks,
        stays,
    })
}

// Whether one of the chunks is one of the candidate's.
fn is_met(loads: &[u32], chunks: &[bool]) -> bool
    requires { All (λ chunk. chunk < length «chunks».now) loads.now }
    ensures { result ≡ list_any (λ chunk. slice_index_or chunks.now chunk false) loads.now }
{
    loads.iter().any(|chunk| chunks[*chunk as usize])
}

// Whether the chunk stays and is not the one that the modules move into.
fn stays_beside(turn: &Turn, chunk: u32) -> bool
    requires { chunk < length turn.now.stays.items }
    ensures { result ≡ (not (chunk == turn.now.split) && slice_index_or turn.now.stays.items chunk false) }
{
    chunk as usize != turn.split && turn.stays[chunk as usize]
}

// Those of the chunks that stay, without the one that the modules move into.
fn others_after(alloc: Global, turn: &Turn, loads: &[u32]) -> Result<Vec<u32>, AllocError>
    requires { All (λ chunk. chunk < length turn.now.stays.items) loads.now }
    ensures { IfOk result (λ others. others.items
        ≡ filter (λ chunk. not (chunk == turn.now.split) && slice_index_or turn.now.stays.items chunk false) loads.now) }
{
    loads
        .iter()
        .copied()
        .filter(|chunk| stays_beside(turn, *chunk))
        .collect(alloc)
}

/// The chunks that a group loads after the pick.
pub fn loads_of(
    alloc: Global,
    state: &State,
    choice: &Choice,
    turn: &Turn,
    loads: &[u32],
) -> Result<Numbers, AllocError>
    requires turn { IsTurn (state_of state.now) (candidate_of choice.now) «turn».now }
    requires loads { All (λ chunk. chunk < length state.now.modules.items) «loads».now }
    requires short { length state.now.modules.items < 2 ^ 32 }
    ensures { IfOk result (λ after. after ≡ loads_after (state_of state.now) (candidate_of choice.now) turn.now.split loads.now) }
{
    let mut after = Numbers::from_vec(others_after(alloc, turn, loads)?);
    if is_met(loads, turn.chunks.as_slice()) {
        after.push(turn.split as u32)?;
    }
    after.put_in_order();
    Ok(after)
}

// How many chunks a group may load.
fn limit_of(config: &SplitConfig, state: &State, group: usize) -> u32
    ensures { result ≡ request_limit config.now (state_of state.now) group }
{
    if group < state.entries as usize {
        config.max_initial
    } else {
        config.max_async
    }
}

/// Whether no group with a chunk of the candidate would load more chunks than it may.
pub fn keeps_limits(
    alloc: Global,
    config: &SplitConfig,
    state: &State,
    choice: &Choice,
) -> Result<bool, AllocError>
    requires loads { (group : ℕ) → All (λ chunk. chunk < length state.now.modules.items) (slice_index_or state.now.loads.items group []) }
    requires short { length state.now.modules.items < 2 ^ 32 }
    requires moves { MovesSound (state_of state.now) (candidate_of choice.now) }
    ensures { IfOk result (λ keeps. IsTrue keeps ↔ KeepsLimits config.now (state_of state.now) (candidate_of choice.now)) }
{
    let turn = turn_of(alloc, state, choice)?;
    for (group, loads) in state.loads.iter().enumerate() {
        if is_met(loads.as_slice(), turn.chunks.as_slice()) {
            let after = loads_of(alloc, state, choice, &turn, loads.as_slice())?;
            if after.as_slice().len() > limit_of(config, state, group) as usize {
                return Ok(false);
            }
        }
    }
    Ok(true)
}
