// The modules that a cache group may move, by the set of their chunks.
ghost use Rattle.std.specs.Prelude.{◌≡◌, ◌<◌, ◌^◌, ℕ, List, length, nat_lt, IfOk, OnOk};
ghost use Rattle.pk_types.specs.SplitCandidates.{is_movable, chunks_with};
ghost use Rattle.split_chunks.specs.States.{state_of};
ghost use Rattle.split_chunks.specs.Scenes.{IsScene};
ghost use Rattle.split_chunks.specs.Gathering.{AreGathered, GainsMember, AreOfScene, IsNothing};

use crate::numbers::Numbers;
use crate::scene::{Scene, chunks_for, may_move};
use indexmap::IndexSet;
use pk_types::CacheGroup;
use std::alloc::{AllocError, Global};

/// Sets of chunks, and the modules that stand in just these.
#[derive(Drop)]
pub struct Gathered {
    pub sets: IndexSet<Numbers>,
    pub members: Vec<Numbers>,
}

// Nothing is gathered.
fn nothing(alloc: Global) -> Gathered
    ensures { IsNothing result }
{
    Gathered {
        sets: IndexSet::new(alloc),
        members: Vec::new(alloc),
    }
}

// Whether there is a number.
fn is_filled(numbers: &Numbers) -> bool
    ensures { result ≡ nat_lt 0 (length numbers.now) }
{
    !numbers.as_slice().is_empty()
}

// Adds a module that stands in these chunks.
fn add(alloc: Global, gathered: &mut Gathered, set: Numbers, member: u32) -> Result<(), AllocError>
    requires { length gathered.old.members.items ≡ length gathered.old.sets.keys }
    ensures { OnOk result (GainsMember gathered.old.sets.keys gathered.old.members.items set member gathered.new.sets.keys gathered.new.members.items) }
{
    let (place, is_new) = gathered.sets.insert_full(set)?;
    if is_new {
        gathered.members.push(Numbers::new(alloc))?;
    }
    gathered.members[place].push(member)?;
    Ok(())
}

/// The modules that a cache group may move and that stand in a chunk that it allows, by the set of these chunks.
pub fn gather(alloc: Global, scene: &Scene, cache: &CacheGroup) -> Result<Gathered, AllocError>
    requires scene { IsScene scene.now.graph.now scene.now.state.now scene.now }
    requires few { length scene.now.graph.now.rows < 2 ^ 32 }
    ensures { IfOk result (AreOfScene scene.now.graph.now (state_of scene.now.state.now) cache.now) }
{
    let mut gathered = nothing(alloc);
    for member in 0..scene.graph.rows.len() as u32 {
        if may_move(scene, cache, member) {
            let chunks = chunks_for(alloc, scene, cache, member)?;
            if is_filled(&chunks) {
                add(alloc, &mut gathered, chunks, member)?;
            }
        }
    }
    Ok(gathered)
}
