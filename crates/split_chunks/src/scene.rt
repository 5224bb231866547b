// What is known of the modules before a pick.
ghost use Rattle.std.specs.Prelude.{◌≡◌, ◌<◌, ℕ, List, [], length, slice_get, Some, filter, nat_lt, slice_index_or, IfOk};
ghost use Rattle.std.specs.List.{All, list_any};
ghost use Rattle.pk_types.specs.Numbers.{has};
ghost use Rattle.pk_types.specs.SplitCandidates.{takes, allows, path_of, is_movable, chunks_with};
ghost use Rattle.split_chunks.specs.States.{state_of, IsSound};
ghost use Rattle.split_chunks.specs.Scenes.{IsScene, AreSplit};

use crate::flags::mark;
use crate::homes::homes;
use crate::numbers::Numbers;
use crate::state::State;
use pk_types::{CacheGroup, Graph, Text, Which};
use std::alloc::{AllocError, Global};

/// A graph and how its modules stand.
#[derive(Drop)]
pub struct Scene<'a> {
    pub graph: &'a Graph,
    pub state: &'a State,

    /// For each module the chunks that hold it.
    homes: Vec<Numbers>,

    /// For each module whether it stands in a split chunk.
    split: Vec<bool>,
}

// For each of so many modules whether it stands in a split chunk.
fn split_flags(alloc: Global, state: &State, count: usize) -> Result<Vec<bool>, AllocError>
    requires { IsSound count (state_of state.now) }
    ensures { IfOk result (λ flags. AreSplit (state_of state.now) count flags.items) }
{
    let mut flags = vec![in alloc; false; count]?;
    for chunk in &state.split {
        mark(&mut flags, state.modules[*chunk as usize].as_slice());
    }
    Ok(flags)
}

/// What is known of the modules of a graph.
pub fn scene_of<'a>(
    alloc: Global,
    graph: &'a Graph,
    state: &'a State,
) -> Result<Scene<'a>, AllocError>
    requires { IsSound (length graph.now.rows) (state_of state.now) }
    ensures { IfOk result (IsScene graph.now state.now) }
{
    let count = graph.rows.len();
    Ok(Scene {
        graph,
        state,
        homes: homes(alloc, state.modules.as_slice(), count)?,
        split: split_flags(alloc, state, count)?,
    })
}

// Whether the segment is one of those of the path.
fn has_segment(path: &[u8], segment: &[u8]) -> bool
    ensures { result ≡ takes (Some segment.now) path.now }
{
    path.split(|byte| *byte == b'/').any(|part| segment == part)
}

// Whether a cache group with this test takes a module with this path.
fn is_taken(test: &Option<Text>, path: &[u8]) -> bool
    ensures { result ≡ takes test.now path.now }
{
    match test {
        Some(segment) => has_segment(path, segment.as_slice()),
        None => true,
    }
}

// Whether modules are split from the chunk.
fn is_allowed(which: Which, is_entry: bool) -> bool
    ensures { result ≡ allows which is_entry }
{
    match which {
        Which::Async => !is_entry,
        Which::Initial => is_entry,
        Which::All => true,
    }
}

/// The path of a module.
pub fn path(graph: &Graph, member: u32) -> &[u8]
    requires { member < length graph.now.rows }
    ensures { result.now ≡ path_of graph.now member }
{
    graph.rows.as_slice()[member as usize].label.as_slice()
}

// Those of the chunks that modules are split from.
fn allowed(
    alloc: Global,
    which: Which,
    entries: u32,
    chunks: &[u32],
) -> Result<Vec<u32>, AllocError>
    ensures { IfOk result (λ allowed. allowed.items
        ≡ filter (λ chunk. allows which (nat_lt chunk entries)) chunks.now) }
{
    chunks
        .iter()
        .copied()
        .filter(|chunk| is_allowed(which, *chunk < entries))
        .collect(alloc)
}

/// Whether the cache group may move the module.
pub fn may_move(scene: &Scene, cache: &CacheGroup, member: u32) -> bool
    requires scene { IsScene scene.now.graph.now scene.now.state.now scene.now }
    requires inside { member < length scene.now.graph.now.rows }
    ensures { result ≡ is_movable scene.now.graph.now (state_of scene.now.state.now) cache.now member }
{
    is_taken(&cache.test, path(scene.graph, member)) && !scene.split[member as usize]
}

/// The chunks that hold the module and that the cache group allows.
pub fn chunks_for(
    alloc: Global,
    scene: &Scene,
    cache: &CacheGroup,
    member: u32,
) -> Result<Numbers, AllocError>
    requires scene { IsScene scene.now.graph.now scene.now.state.now scene.now }
    requires inside { member < length scene.now.graph.now.rows }
    ensures { IfOk result (λ chunks. chunks ≡ chunks_with (state_of scene.now.state.now) cache.now member) }
{
    let chunks = allowed(
        alloc,
        cache.chunks,
        scene.state.entries,
        scene.homes[member as usize].as_slice(),
    )?;
    Ok(Numbers::from_vec(chunks))
}
