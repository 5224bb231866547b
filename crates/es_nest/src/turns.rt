//! Lists, turn by turn.
ghost use Rattle.std.specs.Prelude.{◌≡◌, ◌≤◌, ℕ, length, IfOk};
ghost use Rattle.es_cursor.specs.Standing.{Stands};
ghost use Rattle.es_nest.specs.Turns.{TakesTurns, TracesTurns};

use es_cursor::Cursor;
use es_grammar::Stop;
use es_outline::Outline;
use es_reader::ParseFault;
use es_trace::{Joins, Listed, NamesListed, Suffixes, Turn};

/// What a turn of a list has to know, a place at least.
pub trait Placed {
    ghost place: { Self → ℕ };
}

/// The parts of a list from a place on: turns, one behind the other, until one says that the list ends.
pub fn all_turns<
    S: Placed + Copy,
    F: Fn(&mut Cursor, &mut Outline, S) -> Result<Turn<S>, ParseFault>,
>(cursor: &mut Cursor, outline: &mut Outline, turn: &F, first: S) -> Result<S, ParseFault>
    requires stands { Stands cursor.old (S.Placed.place first) }
    requires takes { TakesTurns S S.Placed.place (F.pre turn.now) (F.post turn.now) }
    ensures traces { TracesTurns (F.post turn.now) cursor.old outline.old.marks first
        outline.new.marks result }
    ensures within { IfOk result (λ s. S.Placed.place s ≤ length cursor.old) }
    ensures same { cursor.new ≡ cursor.old }
    ensures kept { outline.new.kept ≡ outline.old.kept }
{
    let mut state = first;
    for _turn in 0..cursor.len() + 1 {
        match turn(cursor, outline, state)? {
            Turn::Ended(last) => return Ok(last),
            Turn::More(next) => state = next,
        }
    }
    Err(ParseFault::Syntax)
}

impl Placed for u32 {
    ghost place = { λ at. at };
}

impl Placed for Stop {
    ghost place = { λ stop. stop.at };
}

impl Placed for Listed {
    ghost place = { λ listed. listed.at };
}

impl Placed for Suffixes {
    ghost place = { λ suffixes. suffixes.at };
}

impl Placed for Joins {
    ghost place = { λ joins. joins.at.at };
}

impl Placed for NamesListed {
    ghost place = { λ names. names.at };
}
