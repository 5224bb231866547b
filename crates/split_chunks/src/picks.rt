// The picks.
ghost use Rattle.std.specs.Prelude.{◌≡◌, ◌↔◌, ◌<◌, ◌^◌, ℕ, IsTrue, List, [], length, slice_index_or, Option, IfOk};
ghost use Rattle.std.specs.List.{All, Contains};
ghost use Rattle.pk_types.specs.CacheGroups.{AreNamedApart};
ghost use Rattle.pk_types.specs.Fitting.{Fits};
ghost use Rattle.pk_types.specs.SplitCandidates.{Candidate};
ghost use Rattle.pk_types.specs.SplitPicks.{Qualifies};
ghost use Rattle.split_chunks.specs.States.{state_of, IsSound};
ghost use Rattle.pk_types.specs.declared.graph.Graph.{Graph};
ghost use Rattle.split_chunks.specs.Turns.{MovesSound};
ghost use Rattle.split_chunks.specs.Choices.{candidate_of, IsChoice, IsSoFar, IsBetter, Yields};
ghost use Rattle.split_chunks.specs.Gathering.{AreOfScene};
ghost use Rattle.split_chunks.specs.Picking.{IsAlone, AreAllGathered, IsBest, IsStep, IsHeld, IsPickedFrom};

use crate::apply::apply;
use crate::choice::{Choice, bytes_of};
use crate::gather::{Gathered, gather};
use crate::limits::keeps_limits;
use crate::order::is_ahead;
use crate::scene::scene_of;
use crate::state::State;
use pk_types::{CacheGroup, Graph, SplitConfig};
use std::alloc::{AllocError, Global};

// Whether the candidate has one chunk, which holds just its modules.
fn is_alone(state: &State, choice: &Choice) -> bool
    requires { All (λ chunk. chunk < length state.now.modules.items) choice.now.chunks.now }
    ensures { IsTrue result ↔ IsAlone (state_of state.now) (candidate_of choice.now) }
{
    choice.chunks.len() == 1
        && state.modules[choice.chunks[0] as usize].as_slice() == choice.modules
}

// Whether the candidate may be picked.
fn qualifies(
    alloc: Global,
    config: &SplitConfig,
    state: &State,
    choice: &Choice,
) -> Result<bool, AllocError>
    requires loads { (group : ℕ) → All (λ chunk. chunk < length state.now.modules.items) (slice_index_or state.now.loads.items group []) }
    requires short { length state.now.modules.items < 2 ^ 32 }
    requires moves { MovesSound (state_of state.now) (candidate_of choice.now) }
    ensures { IfOk result (λ yes. (graph : Graph) → IsChoice graph config.now (state_of state.now) choice.now
        → IsTrue yes ↔ Qualifies graph config.now (state_of state.now) (candidate_of choice.now)) }
{
    if choice.chunks.len() < choice.cache.min_chunks as usize
        || choice.bytes < u64::from(choice.cache.min_size)
        || is_alone(state, choice)
    {
        return Ok(false);
    }
    if choice.bytes >= u64::from(config.enforce) {
        return Ok(true);
    }
    keeps_limits(alloc, config, state, choice)
}

// The better one of the best so far and one more, if it qualifies.
fn better<'a>(
    alloc: Global,
    graph: &Graph,
    config: &SplitConfig,
    state: &State,
    best: Option<Choice<'a>>,
    choice: Choice<'a>,
) -> Result<Option<Choice<'a>>, AllocError>
    requires fits { Fits graph.now }
    requires named { AreNamedApart config.now.groups }
    requires sound { IsSound (length graph.now.rows) (state_of state.now) }
    requires best { IsSoFar graph.now config.now (state_of state.now) «best» }
    requires choice { IsChoice graph.now config.now (state_of state.now) «choice» }
    ensures { IfOk result (IsBetter graph.now config.now (state_of state.now) best.entry choice.entry) }
{
    if let Some(best) = best {
        if !is_ahead(graph, &choice, &best) {
            return Ok(Some(best));
        }
    }
    if qualifies(alloc, config, state, &choice)? {
        Ok(Some(choice))
    } else {
        Ok(best)
    }
}

// The best of the best so far and the candidates of a cache group.
fn best_of<'a>(
    alloc: Global,
    graph: &Graph,
    config: &SplitConfig,
    state: &State,
    best: Option<Choice<'a>>,
    cache: &'a CacheGroup,
    gathered: &'a Gathered,
) -> Result<Option<Choice<'a>>, AllocError>
    requires fits { Fits graph.now }
    requires named { AreNamedApart config.now.groups }
    requires sound { IsSound (length graph.now.rows) (state_of state.now) }
    requires best { IsSoFar graph.now config.now (state_of state.now) «best» }
    requires cache { Contains config.now.groups «cache».now }
    requires gathered { AreOfScene graph.now (state_of state.now) «cache».now «gathered».now }
    ensures so_far { IfOk result (IsSoFar graph.now config.now (state_of state.now)) }
    ensures yields { IfOk result (λ now. (candidate : Candidate) → Yields graph.now config.now (state_of state.now) best.entry candidate
        → Yields graph.now config.now (state_of state.now) now candidate) }
    ensures all { IfOk result (λ now. (candidate : Candidate) → candidate.cache_group ≡ cache.now → Yields graph.now config.now (state_of state.now) now candidate) }
{
    let mut best = best;
    for (place, set) in gathered.sets.as_slice().iter().enumerate() {
        let modules = gathered.members[place].as_slice();
        let choice = Choice {
            cache,
            chunks: set.as_slice(),
            modules,
            bytes: bytes_of(graph, modules),
        };
        best = better(alloc, graph, config, state, best, choice)?;
    }
    Ok(best)
}

// What each cache group may move.
fn gather_all(
    alloc: Global,
    graph: &Graph,
    config: &SplitConfig,
    state: &State,
) -> Result<Vec<Gathered>, AllocError>
    requires fits { Fits graph.now }
    requires sound { IsSound (length graph.now.rows) (state_of state.now) }
    ensures { IfOk result (λ all. AreAllGathered graph.now config.now (state_of state.now) all.items) }
{
    let scene = scene_of(alloc, graph, state)?;
    let mut all = Vec::with_capacity(alloc, config.groups.len())?;
    for cache in config.groups.as_slice() {
        all.push(gather(alloc, &scene, cache)?)?;
    }
    Ok(all)
}

// The candidate to be picked, if one qualifies.
fn best_of_all<'a>(
    alloc: Global,
    graph: &Graph,
    config: &'a SplitConfig,
    state: &State,
    all: &'a [Gathered],
) -> Result<Option<Choice<'a>>, AllocError>
    requires fits { Fits graph.now }
    requires named { AreNamedApart config.now.groups }
    requires sound { IsSound (length graph.now.rows) (state_of state.now) }
    requires all { AreAllGathered graph.now config.now (state_of state.now) «all».now }
    ensures { IfOk result (λ best. IsBest graph.now config.now (state_of state.now) best) }
{
    let mut best = None;
    for (place, cache) in config.groups.as_slice().iter().enumerate() {
        best = best_of(alloc, graph, config, state, best, cache, &all[place])?;
    }
    Ok(best)
}

// The state after the next pick, if there is one.
fn step(
    alloc: Global,
    graph: &Graph,
    config: &SplitConfig,
    state: &State,
) -> Result<Option<State>, AllocError>
    requires fits { Fits graph.now }
    requires named { AreNamedApart config.now.groups }
    requires sound { IsSound (length graph.now.rows) (state_of state.now) }
    ensures { IfOk result (IsStep graph.now config.now (state_of state.now)) }
{
    let all = gather_all(alloc, graph, config, state)?;
    match best_of_all(alloc, graph, config, state, all.as_slice())? {
        Some(choice) => Ok(Some(apply(alloc, state, &choice, graph.rows.len())?)),
        None => Ok(None),
    }
}

/// Makes picks until no candidate qualifies.
pub fn pick_all(
    alloc: Global,
    graph: &Graph,
    config: &SplitConfig,
    mut state: State,
) -> Result<State, AllocError>
    requires fits { Fits graph.now }
    requires named { AreNamedApart config.now.groups }
    requires held { IsHeld (length graph.now.rows) (state_of «state») }
    ensures picks { IfOk result (λ last. IsPickedFrom graph.now config.now (state_of state) (state_of last)) }
    ensures held { IfOk result (λ last. IsHeld (length graph.now.rows) (state_of last)) }
{
    while let Some(next) = step(alloc, graph, config, &state)? {
        state = next;
    }
    Ok(state)
}
