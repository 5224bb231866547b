// How modules stand while sets are taken.
ghost use Rattle.std.specs.Prelude.{◌≡◌, ◌↔◌, ◌<◌, ℕ, IsTrue, length, IfOk, OnOk, slice_index, replicate};
ghost use Rattle.scope_hoist.specs.Standing.{AreTogether, IsHeld, IsLedBy};
ghost use Rattle.scope_hoist.specs.Steps.{Holds, LetsGo};

use crate::line::Line;
use std::alloc::AllocError;

/// For each module whether it is held, where it may be in the next set, and else the requester that it is led by, if it
/// is in no set.
#[derive(Drop)]
pub struct Marks {
    pub held: Vec<bool>,
    pub witness: Vec<Option<u32>>,

    /// The modules that are held, and others.
    pub list: Vec<u32>,
}

/// Whether the same chunks hold two modules.
pub fn are_together(homes: &[Line], number: u32, other: u32) -> bool
    requires number { «number» < length homes.now }
    requires other { «other» < length homes.now }
    ensures { IsTrue result ↔ AreTogether homes.now «number» «other» }
{
    homes[number as usize].as_slice() == homes[other as usize].as_slice()
}

/// Whether a module is led by this requester.
pub fn is_led_by(marks: &Marks, member: u32, from: u32) -> bool
    requires { member < length marks.now.witness.items }
    ensures { IsTrue result ↔ IsLedBy marks.now member «from» }
{
    match marks.witness[member as usize] {
        Some(witness) => witness == from,
        None => false,
    }
}

/// Holds a module.
pub fn hold(marks: &mut Marks, member: u32) -> Result<(), AllocError>
    requires held { member < length marks.old.held.items }
    requires witness { member < length marks.old.witness.items }
    ensures { OnOk result (Holds marks.old marks.new member) }
{
    marks.list.push(member)?;
    marks.held[member as usize] = true;
    marks.witness[member as usize] = None;
    Ok(())
}

/// Lets a module go, led by this requester.
pub fn let_go(marks: &mut Marks, member: u32, from: u32)
    requires held { member < length marks.old.held.items }
    requires witness { member < length marks.old.witness.items }
    ensures { LetsGo marks.old marks.new member «from» }
{
    marks.held[member as usize] = false;
    marks.witness[member as usize] = Some(from);
}
