// Lists of modules and chunks, for each module.
ghost use Rattle.std.specs.Prelude.{◌≡◌, ◌↔◌, ◌⊎◌, ◌<◌, ◌^◌, ℕ, List, [], length, slice_index_or, IfOk, OnOk};
ghost use Rattle.std.specs.List.{All, Contains};
ghost use Rattle.chunk_groups.specs.ActiveGraphs.{AreOfGraph};
ghost use Rattle.scope_hoist.specs.Scopes.{AreTransposed, AreRequests, AreHomes, GainsNumber};

use crate::line::Line;
use pk_types::{Active, Chunks, Sequence};
use std::alloc::{AllocError, Global};

// So many empty lines.
fn empty_lines(alloc: Global, count: usize) -> Result<Vec<Line>, AllocError>
    ensures each { IfOk result (λ lines. length lines.items ≡ count) }
    ensures empty { IfOk result (λ lines. (place : ℕ) → slice_index_or lines.items place [] ≡ []) }
{
    let mut lines = Vec::with_capacity(alloc, count)?;
    for _place in 0..count {
        lines.push(Line::new(alloc))?;
    }
    Ok(lines)
}

// Adds a number to the lines of these places.
fn add_number(lines: &mut Vec<Line>, places: &[u32], number: u32) -> Result<(), AllocError>
    requires { All (λ place. place < length lines.old.items) places.now }
    ensures { OnOk result (GainsNumber places.now «number» lines.old.items lines.new.items) }
{
    for place in places {
        lines[*place as usize].push(number)?;
    }
    Ok(())
}

/// For each place below a number the numbers of the lists that hold it.
pub fn transposed(
    alloc: Global,
    lists: &[Sequence<u32>],
    count: usize,
) -> Result<Vec<Line>, AllocError>
    requires within { All (All (λ place. place < count)) lists.now }
    requires few { length lists.now < 2 ^ 32 }
    ensures { IfOk result (λ lines. AreTransposed lists.now count lines.items) }
{
    let mut lines = empty_lines(alloc, count)?;
    for (number, places) in lists.iter().enumerate() {
        add_number(&mut lines, places.as_slice(), number as u32)?;
    }
    Ok(lines)
}

/// For each module the modules that it is a requester of.
pub fn requests(alloc: Global, active: &Active) -> Result<Vec<Sequence<u32>>, AllocError>
    requires { length active.now.reached ≡ length active.now.edges }
    ensures { IfOk result (λ asks. AreRequests active.now asks.items) }
{
    let mut asks = Vec::with_capacity(alloc, active.edges.len())?;
    for (from, is_reached) in active.reached.as_slice().iter().enumerate() {
        if *is_reached {
            let targets = Vec::from_slice(alloc, active.edges.as_slice()[from].as_slice())?;
            asks.push(Sequence::from_vec(targets))?;
        } else {
            asks.push(Sequence::new(alloc))?;
        }
    }
    Ok(asks)
}

/// For each of so many modules the chunks that hold it.
pub fn homes(alloc: Global, chunks: &Chunks, count: usize) -> Result<Vec<Line>, AllocError>
    requires within { All (All (λ member. member < count)) chunks.now.modules }
    requires few { length chunks.now.modules < 2 ^ 32 }
    ensures { IfOk result (λ homes. AreHomes chunks.now count homes.items) }
{
    let mut homes = transposed(alloc, chunks.modules.as_slice(), count)?;
    for member in 0..homes.len() {
        homes[member].put_in_order();
    }
    Ok(homes)
}
