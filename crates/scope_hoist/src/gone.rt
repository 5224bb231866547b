// The modules that are not in the set of a root.
ghost use Rattle.std.specs.Prelude.{◌≡◌, ◌↔◌, ◌<◌, ◌+◌, ℕ, List, [], ◌∷◌, ◌++◌, length, IfOk, OnOk, IfSome, IfNone};
ghost use Rattle.std.specs.List.{All, Contains};
ghost use Rattle.pk_types.specs.Places.{ArePlacesIn};
ghost use Rattle.scope_hoist.specs.Standing.{IsGround, AreStanding, AreApart, AreTogether, IsHeld, IsFound};
ghost use Rattle.scope_hoist.specs.Going.{AreOwed, LooksAt, PassesOn, AreGoing, IsSettled};

use crate::ground::Ground;
use crate::line::Line;
use crate::marks::{Marks, are_together, let_go};
use std::alloc::{AllocError, Global};

// The first of these requesters that is not held, or is in other chunks.
fn outsider(marks: &Marks, homes: &[Line], requesters: &[u32], member: u32) -> Option<u32>
    requires member { «member» < length homes.now }
    requires held { length marks.now.held.items ≡ length homes.now }
    requires requesters { ArePlacesIn homes.now requesters.now }
    ensures some { IfSome result (λ from. Contains requesters.now from) }
    ensures out { IfSome result (λ from. IsHeld marks.now from → ¬ AreTogether homes.now from «member») }
    ensures none { IfNone result ((from : ℕ) → Contains requesters.now from
        → IsHeld marks.now from × AreTogether homes.now from «member») }
{
    for from in requesters {
        if !marks.held[*from as usize] || !are_together(homes, *from, member) {
            return Some(*from);
        }
    }
    None
}

// Lets a held module go that an outsider asks for, if it isn't the root.
fn look_at(
    marks: &mut Marks,
    gone: &mut Vec<u32>,
    ground: &Ground,
    root: u32,
    member: u32,
) -> Result<(), AllocError>
    requires ground { IsGround «ground».now }
    requires member { «member» < length «ground».now.asks.items }
    requires held { length marks.old.held.items ≡ length «ground».now.asks.items }
    requires witness { length marks.old.witness.items ≡ length «ground».now.asks.items }
    ensures { OnOk result
        (LooksAt «ground».now.asks.items «ground».now.homes.items root «member» marks.old marks.new gone.old.items gone.new.items) }
{
    let place = member as usize;
    if member == root || !marks.held[place] {
        return Ok(());
    }
    let requesters = ground.requesters[place].as_slice();
    if let Some(from) = outsider(marks, ground.homes.as_slice(), requesters, member) {
        gone.push(member)?;
        let_go(marks, member, from);
    }
    Ok(())
}

/// Lets each held module go that an outsider asks for, but for the root.
pub fn look_at_all(
    alloc: Global,
    marks: &mut Marks,
    ground: &Ground,
    root: u32,
) -> Result<Vec<u32>, AllocError>
    requires ground { IsGround «ground».now }
    requires standing { AreStanding «ground».now.asks.items «ground».now.homes.items marks.old }
    requires apart { AreApart «ground».now.homes.items marks.old }
    requires root { IsHeld marks.old «root» }
    ensures { IfOk result (λ gone. AreGoing «ground».now.asks.items «ground».now.homes.items «root» marks.old marks.new gone.items []) }
{
    let mut gone = Vec::new(alloc);
    for place in 0..marks.list.len() {
        let member = marks.list[place];
        look_at(marks, &mut gone, ground, root, member)?;
    }
    Ok(gone)
}

// Lets the held modules go that one asks for that went, but for the root.
fn pass_on(
    marks: &mut Marks,
    gone: &mut Vec<u32>,
    ground: &Ground,
    root: u32,
    from: u32,
) -> Result<(), AllocError>
    requires ground { IsGround «ground».now }
    requires standing { AreStanding «ground».now.asks.items «ground».now.homes.items marks.old }
    requires apart { AreApart «ground».now.homes.items marks.old }
    requires from { «from» < length «ground».now.asks.items }
    requires out { ¬ IsHeld marks.old «from» }
    ensures { OnOk result
        (PassesOn «ground».now.asks.items «ground».now.homes.items root «from» marks.old marks.new gone.old.items gone.new.items) }
{
    for target in ground.asks[from as usize].as_slice() {
        if *target != root && marks.held[*target as usize] {
            gone.push(*target)?;
            let_go(marks, *target, from);
        }
    }
    Ok(())
}

/// Lets all go that is asked for by what went, but for the root.
pub fn pass_all_on(
    marks: &mut Marks,
    mut gone: Vec<u32>,
    ground: &Ground,
    root: u32,
) -> Result<(), AllocError>
    requires ground { IsGround «ground».now }
    requires standing { AreStanding «ground».now.asks.items «ground».now.homes.items marks.old }
    requires apart { AreApart «ground».now.homes.items marks.old }
    requires root { IsHeld marks.old «root» }
    requires owed { AreOwed «ground».now.asks.items «ground».now.homes.items «root» marks.old gone.items [] }
    ensures { OnOk result (IsSettled «ground».now.asks.items «ground».now.homes.items «root» marks.old marks.new) }
{
    let mut place = 0;
    while place < gone.len() {
        let from = gone[place];
        pass_on(marks, &mut gone, ground, root, from)?;
        place += 1;
    }
    Ok(())
}
