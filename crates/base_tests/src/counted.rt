// How a program counts steps: it picks the ledger at the call, for a blank of its own.
ghost use Rattle.std.specs.Prelude.{◌≡◌, ◌<◌};

use pk_base::Steps;
use std::marker::Brand;
use std::sync::ledger::{Blank, Ledger};

fn raise_twice<L: Ledger>(blank: Blank, by: u64)
    requires name { blank.name ≡ L.name }
    requires parts { blank.parts ≡ L.parts }
    requires some { 0 < blank.parts }
{
    let mut steps = Steps::<L>::start(blank);
    steps.raise(by);
    steps.raise(by);
}

/// Counts twice `by` steps on a blank ledger.
pub fn count_on_a_blank(by: u64) {
    raise_twice::<Brand>(Blank::new(1), by);
}
