// The set of a root is taken.
ghost use Rattle.std.specs.Prelude.{◌≡◌, ◌<◌, ◌+◌, ℕ, Bool, List, [], length, OnOk};
ghost use Rattle.std.specs.List.{All, Contains};
ghost use Rattle.scope_hoist.specs.Standing.{IsGround, AreStanding, AreKnown, IsHeld};
ghost use Rattle.scope_hoist.specs.Taking.{Collects, AreCollected, TakesSet, AreRootsBefore};

use crate::gone::{look_at_all, pass_all_on};
use crate::ground::Ground;
use crate::held::hold_all;
use crate::marks::{Marks, are_together};
use std::alloc::{AllocError, Global};

// Takes a module into the set of a root, if it is held in the chunks of the root. It stays held in others.
fn collect_one(
    marks: &mut Marks,
    rest: &mut Vec<u32>,
    roots: &mut Vec<u32>,
    ground: &Ground,
    root: u32,
    member: u32,
) -> Result<(), AllocError>
    requires member { «member» < length marks.old.held.items }
    requires root { «member» < length roots.old.items }
    requires home { «member» < length «ground».now.homes.items }
    requires root_home { «root» < length «ground».now.homes.items }
    ensures { OnOk result
        (Collects «ground».now.homes.items «root» «member» marks.old marks.new roots.old.items roots.new.items rest.old.items rest.new.items) }
{
    let place = member as usize;
    if !marks.held[place] {
        return Ok(());
    }
    if are_together(ground.homes.as_slice(), member, root) {
        marks.held[place] = false;
        roots[place] = root;
        return Ok(());
    }
    rest.push(member)?;
    Ok(())
}

// Takes the modules into the set of a root that are held in its chunks.
fn collect(
    alloc: Global,
    marks: &mut Marks,
    roots: &mut Vec<u32>,
    ground: &Ground,
    root: u32,
) -> Result<(), AllocError>
    requires ground { IsGround «ground».now }
    requires standing { AreStanding «ground».now.asks.items «ground».now.homes.items marks.old }
    requires each { length roots.old.items ≡ length «ground».now.asks.items }
    requires root { «root» < length «ground».now.asks.items }
    ensures { OnOk result (AreCollected «ground».now.homes.items «root» marks.old marks.new roots.old.items roots.new.items) }
{
    let mut rest = Vec::new(alloc);
    for place in 0..marks.list.len() {
        let member = marks.list[place];
        collect_one(marks, &mut rest, roots, ground, root, member)?;
    }
    marks.list = rest;
    Ok(())
}

/// Takes the set of a root.
pub fn take_set(
    alloc: Global,
    marks: &mut Marks,
    roots: &mut Vec<u32>,
    ground: &Ground,
    root: u32,
) -> Result<(), AllocError>
    requires ground { IsGround «ground».now }
    requires standing { AreStanding «ground».now.asks.items «ground».now.homes.items marks.old }
    requires each { length roots.old.items ≡ length «ground».now.asks.items }
    requires root { «root» < length «ground».now.asks.items }
    requires before { AreRootsBefore roots.old.items «root» }
    ensures standing { OnOk result (AreStanding «ground».now.asks.items «ground».now.homes.items marks.new) }
    ensures known { OnOk result ((may_join : List Bool) → AreKnown may_join roots.old.items «root» [] marks.old
        → AreKnown may_join roots.new.items («root» + 1) [] marks.new) }
    ensures takes { OnOk result ((may_join : List Bool) → AreKnown may_join roots.old.items «root» [] marks.old
        → TakesSet «ground».now.asks.items «ground».now.homes.items may_join roots.old.items roots.new.items «root») }
{
    hold_all(marks, ground.asks.as_slice(), ground.homes.as_slice(), root)?;
    let gone = look_at_all(alloc, marks, ground, root)?;
    pass_all_on(marks, gone, ground, root)?;
    collect(alloc, marks, roots, ground, root)?;
    Ok(())
}
