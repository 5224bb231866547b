// The chunks of groups.
ghost use Rattle.std.specs.Prelude.{◌≡◌, ◌<◌, ℕ, length, IfOk, IfErr, IfSome};
ghost use Rattle.pk_types.specs.Availability.{GroupsFit, HasModulesBelow};
ghost use Rattle.pk_types.specs.CacheGroups.{AreNamedApart, HasGroupsNamedApart};
ghost use Rattle.pk_types.specs.Fitting.{Fits};
ghost use Rattle.pk_types.specs.Splitting.{PicksEndIn};
ghost use Rattle.avail_sets.specs.Rows.{AreAvailable};
ghost use Rattle.split_chunks.specs.GroupChunks.{HasAscendingClosures, AreGroupChunks, AreFew, HasTooManyChunks};
ghost use Rattle.split_chunks.specs.States.{state_of};
ghost use Rattle.split_chunks.specs.Picking.{IsHeld};
ghost use Rattle.split_chunks.specs.declared.fault.SplitFault.TheVariants.{TooMany};

use crate::chunks::chunks_of;
use crate::fault::SplitFault;
use crate::picks::pick_all;
use crate::placed::placed;
use crate::state::{State, first};
use avail_sets::AvailRows;
use pk_types::{Chunks, Config, Graph, Groups, MAX_CHUNKS, SplitConfig};
use std::alloc::{AllocError, Global};

// The state after the last pick, if chunks are split.
fn picked(
    alloc: Global,
    graph: &Graph,
    config: &Option<SplitConfig>,
    state: State,
) -> Result<State, AllocError>
    requires fits { Fits graph.now }
    requires named { IfSome config.now (λ split. AreNamedApart split.groups) }
    requires held { IsHeld (length graph.now.rows) (state_of «state») }
    ensures picks { IfOk result (λ last. PicksEndIn graph.now config.now (state_of state) (state_of last)) }
    ensures held { IfOk result (λ last. IsHeld (length graph.now.rows) (state_of last)) }
{
    match config {
        Some(config) => pick_all(alloc, graph, config, state),
        None => Ok(state),
    }
}

// The chunks, however many there are.
fn all_chunks(
    alloc: Global,
    graph: &Graph,
    groups: &Groups,
    avail: &AvailRows,
    config: &Config,
) -> Result<Chunks, AllocError>
    requires graph { Fits graph.now }
    requires groups { GroupsFit groups.now }
    requires closures { HasAscendingClosures groups.now }
    requires modules { HasModulesBelow groups.now (length graph.now.rows) }
    requires rows { AreAvailable groups.now (length graph.now.rows) avail.now }
    requires named { HasGroupsNamedApart config.now }
    ensures { IfOk result (AreGroupChunks graph.now groups.now config.now.split) }
{
    let placed = placed(alloc, groups, avail, graph.rows.len())?;
    let state = first(alloc, groups.entries, placed)?;
    let last = picked(alloc, graph, &config.split, state)?;
    let chunks = chunks_of(alloc, &last)?;
    Ok(chunks)
}

/// The chunks into which what groups bring is split, with the list of each group.
pub fn split(
    alloc: Global,
    graph: &Graph,
    groups: &Groups,
    avail: &AvailRows,
    config: &Config,
) -> Result<Chunks, SplitFault>
    requires graph { Fits graph.now }
    requires groups { GroupsFit groups.now }
    requires closures { HasAscendingClosures groups.now }
    requires modules { HasModulesBelow groups.now (length graph.now.rows) }
    requires rows { AreAvailable groups.now (length graph.now.rows) avail.now }
    requires named { HasGroupsNamedApart config.now }
    ensures chunks { IfOk result (AreGroupChunks graph.now groups.now config.now.split) }
    ensures few { IfOk result AreFew }
    ensures many { IfErr result (λ fault. fault ≡ TooMany → HasTooManyChunks graph.now groups.now config.now.split) }
{
    let chunks = all_chunks(alloc, graph, groups, avail, config)?;
    if chunks.modules.len().saturating_sub(chunks.entries as usize) > MAX_CHUNKS {
        return Err(SplitFault::TooMany);
    }
    Ok(chunks)
}
