// The scopes of modules that are not concatenated.
ghost use Rattle.std.specs.Prelude.{◌≡◌, ◌<◌, ◌^◌, length, IfOk};
ghost use Rattle.plan_core.specs.Scopes.{items_along, AreOwnScopes};

use pk_types::{Hoists, Item, Sequence};
use std::alloc::{AllocError, Global};

// What the scope of a module runs, whose edges lead to the targets.
fn scope_items(alloc: Global, number: u32, targets: &[u32]) -> Result<Sequence<Item>, AllocError>
    ensures { IfOk result (λ items. items ≡ items_along targets.now number) }
{
    let mut items = Vec::with_capacity(alloc, 1)?;
    for target in targets {
        if *target != number {
            items.push(Item::Evaluate(*target))?;
        }
    }
    items.push(Item::Segment(number))?;
    Ok(Sequence::from_vec(items))
}

/// A scope for each module, of which the edges are given by number.
pub fn own_scopes(alloc: Global, edges: &[Sequence<u32>]) -> Result<Hoists, AllocError>
    requires { length edges.now < 2 ^ 32 }
    ensures { IfOk result (AreOwnScopes edges.now) }
{
    let mut root = Vec::with_capacity(alloc, edges.len())?;
    let mut items = Vec::with_capacity(alloc, edges.len())?;
    for (number, targets) in edges.iter().enumerate() {
        root.push(number as u32)?;
        items.push(scope_items(alloc, number as u32, targets.as_slice())?)?;
    }
    Ok(Hoists {
        root: Sequence::from_vec(root),
        items: Sequence::from_vec(items),
    })
}
