// How modules stand in chunks between two picks.
ghost use Rattle.std.specs.Prelude.{◌≡◌, ◌<◌, ◌^◌, ℕ, List, [], length, slice_index_or, IfOk};
ghost use Rattle.pk_types.specs.SplitStates.{first_state, own_chunks};
ghost use Rattle.split_chunks.specs.States.{state_of};

use pk_types::Sequence;
use std::alloc::{AllocError, Global};

/// The chunk of each group comes first, by group, and then those that picks made.
#[derive(Drop)]
pub struct State {
    /// How many groups are groups of entries.
    pub entries: u32,

    /// For each chunk its modules, by number.
    pub modules: Vec<Sequence<u32>>,

    /// For each group the chunks that it loads, by number.
    pub loads: Vec<Sequence<u32>>,

    /// The chunks that picks moved modules into.
    pub split: Vec<u32>,
}

// The chunks that a group loads before the first pick.
fn first_loads(
    alloc: Global,
    entries: u32,
    placed: &[Sequence<u32>],
    group: u32,
) -> Result<Sequence<u32>, AllocError>
    requires { group < length placed.now }
    ensures { IfOk result (λ loads. loads ≡ own_chunks entries placed.now group) }
{
    if group < entries || !placed[group as usize].is_empty() {
        Sequence::one(alloc, group)
    } else {
        Ok(Sequence::new(alloc))
    }
}

/// The chunks before the first pick, of what is placed in each group.
pub fn first(alloc: Global, entries: u32, placed: Vec<Sequence<u32>>) -> Result<State, AllocError>
    requires { length placed.items < 2 ^ 32 }
    ensures { IfOk result (λ state. state_of state ≡ first_state entries placed.items) }
{
    let mut loads = Vec::with_capacity(alloc, placed.len())?;
    for group in 0..placed.len() as u32 {
        loads.push(first_loads(alloc, entries, placed.as_slice(), group)?)?;
    }
    Ok(State {
        entries,
        modules: placed,
        loads,
        split: Vec::new(alloc),
    })
}
