// What a scope runs, in order.
ghost use Rattle.std.specs.Prelude.{◌≡◌, ◌<◌, ◌≤◌, ◌+◌, ℕ, List, [], length, slice_index_or, IfOk, OnOk};
ghost use Rattle.std.specs.List.{All};
ghost use Rattle.pk_types.specs.Places.{ArePlacesIn};
ghost use Rattle.pk_types.specs.HoistSets.{set_of};
ghost use Rattle.scope_hoist.specs.Walks.{Steps, IsWalked};

use crate::met::Met;
use pk_types::{Item, Sequence};
use std::alloc::{AllocError, Global};

// A module whose visit goes on with this edge.
#[derive(Clone, Copy)]
pub struct Frame {
    pub module: u32,
    pub next: usize,
}

// Goes one step on in the innermost visit: along its next edge, or out of it.
fn step(
    stack: &mut Vec<Frame>,
    met: &mut Met,
    items: &mut Vec<Item>,
    edges: &[Sequence<u32>],
    roots: &[u32],
    root: u32,
    frame: Frame,
) -> Result<(), AllocError>
    requires frame { «frame».module < length edges.now }
    requires edges { All (ArePlacesIn edges.now) «edges».now }
    requires roots { length «roots».now ≡ length edges.now }
    ensures { OnOk result (Steps edges.now «roots».now root «frame» met.old met.new stack.old.items stack.new.items items.old.items items.new.items) }
{
    let targets = edges[frame.module as usize].as_slice();
    if frame.next >= targets.len() {
        items.push(Item::Segment(frame.module))?;
        return Ok(());
    }
    let target = targets[frame.next];
    stack.push(Frame {
        module: frame.module,
        next: frame.next + 1,
    })?;
    if met.has(target) {
        return Ok(());
    }
    met.meet(target)?;
    if roots[target as usize] == root {
        stack.push(Frame {
            module: target,
            next: 0,
        })?;
    } else {
        items.push(Item::Evaluate(target))?;
    }
    Ok(())
}

/// The items of a root.
pub fn items_of(
    alloc: Global,
    met: &mut Met,
    edges: &[Sequence<u32>],
    roots: &[u32],
    root: u32,
) -> Result<Vec<Item>, AllocError>
    requires root { «root» < length edges.now }
    requires edges { All (ArePlacesIn edges.now) «edges».now }
    requires roots { length «roots».now ≡ length edges.now }
    ensures { IfOk result (λ items. IsWalked edges.now «roots».now «root» items.items) }
{
    met.clear();
    met.meet(root)?;
    let mut items = Vec::new(alloc);
    let mut stack = Vec::new(alloc);
    stack.push(Frame {
        module: root,
        next: 0,
    })?;
    while let Some(frame) = stack.pop() {
        step(&mut stack, met, &mut items, edges, roots, root, frame)?;
    }
    Ok(items)
}
