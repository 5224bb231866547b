// The chunks after a pick.
ghost use Rattle.std.specs.Prelude.{◌≡◌, ◌<◌, ◌^◌, ℕ, List, [], false, not, length, filter, slice_index_or, IfOk};
ghost use Rattle.std.specs.List.{All};
ghost use Rattle.pk_types.specs.SplitPicks.{chunk_after, after_pick};
ghost use Rattle.split_chunks.specs.States.{state_of, IsSound};
ghost use Rattle.split_chunks.specs.Choices.{candidate_of};
ghost use Rattle.split_chunks.specs.Marked.{AreFlags};
ghost use Rattle.split_chunks.specs.Turns.{MovesSound, IsTurn};
ghost use Rattle.split_chunks.specs.Picking.{IsAfter};

use crate::choice::Choice;
use crate::flags::flags;
use crate::limits::{Turn, loads_of, turn_of};
use crate::state::State;
use pk_types::Sequence;
use std::alloc::{AllocError, Global};

// The modules that do not move.
fn unmoved(alloc: Global, moved: &[bool], modules: &[u32]) -> Result<Vec<u32>, AllocError>
    requires { All (λ member. member < length moved.now) modules.now }
    ensures { IfOk result (λ unmoved. unmoved.items
        ≡ filter (λ member. not (slice_index_or moved.now member false)) modules.now) }
{
    modules
        .iter()
        .copied()
        .filter(|member| !moved[*member as usize])
        .collect(alloc)
}

// What a chunk holds after the pick.
fn modules_of(
    alloc: Global,
    state: &State,
    choice: &Choice,
    turn: &Turn,
    moved: &[bool],
    chunk: usize,
) -> Result<Sequence<u32>, AllocError>
    requires turn { IsTurn (state_of state.now) (candidate_of choice.now) «turn».now }
    requires moved { AreFlags choice.now.modules.now (length «moved».now) «moved».now }
    requires sound { IsSound (length «moved».now) (state_of state.now) }
    requires inside { chunk < length «turn».now.stays.items }
    ensures { IfOk result (λ modules. modules ≡ chunk_after (state_of state.now) (candidate_of choice.now) turn.now.split chunk) }
{
    if chunk == turn.split {
        return Ok(Sequence::from_vec(Vec::from_slice(alloc, choice.modules)?));
    }
    let modules = state.modules[chunk].as_slice();
    if turn.chunks[chunk] {
        Ok(Sequence::from_vec(unmoved(alloc, moved, modules)?))
    } else {
        Ok(Sequence::from_vec(Vec::from_slice(alloc, modules)?))
    }
}

// What all chunks hold after the pick.
fn all_modules(
    alloc: Global,
    state: &State,
    choice: &Choice,
    turn: &Turn,
    rows: usize,
) -> Result<Vec<Sequence<u32>>, AllocError>
    requires turn { IsTurn (state_of state.now) (candidate_of choice.now) «turn».now }
    requires modules { All (λ member. member < rows) choice.now.modules.now }
    requires sound { IsSound rows (state_of state.now) }
    ensures { IfOk result (λ modules. modules.items ≡ (after_pick (state_of state.now) (candidate_of choice.now) turn.now.split).modules) }
{
    let moved = flags(alloc, choice.modules, rows)?;
    let mut modules = Vec::with_capacity(alloc, turn.stays.len())?;
    for chunk in 0..turn.stays.len() {
        modules.push(modules_of(alloc, state, choice, turn, moved.as_slice(), chunk)?)?;
    }
    Ok(modules)
}

// What all groups load after the pick.
fn all_loads(
    alloc: Global,
    state: &State,
    choice: &Choice,
    turn: &Turn,
) -> Result<Vec<Sequence<u32>>, AllocError>
    requires turn { IsTurn (state_of state.now) (candidate_of choice.now) «turn».now }
    requires loads { (group : ℕ) → All (λ chunk. chunk < length state.now.modules.items) (slice_index_or state.now.loads.items group []) }
    requires short { length state.now.modules.items < 2 ^ 32 }
    ensures { IfOk result (λ loads. loads.items ≡ (after_pick (state_of state.now) (candidate_of choice.now) turn.now.split).loads) }
{
    let mut all = Vec::with_capacity(alloc, state.loads.len())?;
    for loads in &state.loads {
        let after = loads_of(alloc, state, choice, turn, loads.as_slice())?;
        all.push(after.into_sequence())?;
    }
    Ok(all)
}

/// The state after the pick. There is no room for 2^32 chunks.
pub fn apply(
    alloc: Global,
    state: &State,
    choice: &Choice,
    rows: usize,
) -> Result<State, AllocError>
    requires moves { MovesSound (state_of state.now) (candidate_of choice.now) }
    requires modules { All (λ member. member < rows) choice.now.modules.now }
    requires sound { IsSound rows (state_of state.now) }
    ensures { IfOk result (IsAfter (state_of state.now) (candidate_of choice.now)) }
{
    let turn = turn_of(alloc, state, choice)?;
    if turn.stays.len() > u32::MAX as usize {
        return Err(AllocError);
    }
    let mut split = Vec::from_slice(alloc, state.split.as_slice())?;
    split.push(turn.split as u32)?;
    Ok(State {
        entries: state.entries,
        modules: all_modules(alloc, state, choice, &turn, rows)?,
        loads: all_loads(alloc, state, choice, &turn)?,
        split,
    })
}
