// The modules that may be in the set of a root.
ghost use Rattle.std.specs.Prelude.{◌≡◌, ◌<◌, ℕ, List, [], ◌∷◌, length, OnOk};
ghost use Rattle.std.specs.List.{All, Contains};
ghost use Rattle.pk_types.specs.Places.{ArePlacesIn};
ghost use Rattle.scope_hoist.specs.Standing.{AreStanding, AreApart, IsHeld, IsLedBy, IsFound};
ghost use Rattle.scope_hoist.specs.Steps.{HoldsMore, LeadsNone, HoldsAll};

use crate::line::Line;
use crate::marks::{Marks, are_together, hold, is_led_by};
use pk_types::Sequence;
use std::alloc::AllocError;

// Holds the modules that are led by one, if they are in the same chunks.
fn take_back(
    marks: &mut Marks,
    asks: &[Sequence<u32>],
    homes: &[Line],
    from: u32,
) -> Result<(), AllocError>
    requires from { «from» < length asks.now }
    requires asks { All (ArePlacesIn asks.now) asks.now }
    requires homes { length homes.now ≡ length asks.now }
    requires standing { AreStanding asks.now homes.now marks.old }
    ensures standing { OnOk result (AreStanding asks.now homes.now marks.new) }
    ensures more { OnOk result (HoldsMore marks.old marks.new) }
    ensures none { OnOk result (LeadsNone homes.now marks.new «from») }
{
    for target in asks[from as usize].as_slice() {
        if is_led_by(marks, *target, from) && are_together(homes, from, *target) {
            hold(marks, *target)?;
        }
    }
    Ok(())
}

/// Holds the root and all that is led by it, or by what is held, in the same chunks.
pub fn hold_all(
    marks: &mut Marks,
    asks: &[Sequence<u32>],
    homes: &[Line],
    root: u32,
) -> Result<(), AllocError>
    requires root { «root» < length asks.now }
    requires asks { All (ArePlacesIn asks.now) asks.now }
    requires homes { length homes.now ≡ length asks.now }
    requires standing { AreStanding asks.now homes.now marks.old }
    ensures standing { OnOk result (AreStanding asks.now homes.now marks.new) }
    ensures apart { OnOk result (AreApart homes.now marks.new) }
    ensures holds { OnOk result (HoldsAll marks.old marks.new «root») }
{
    hold(marks, root)?;
    let mut place = 0;
    while place < marks.list.len() {
        let from = marks.list[place];
        take_back(marks, asks, homes, from)?;
        place += 1;
    }
    Ok(())
}
