//! What stands behind a part of a list.
ghost use Rattle.std.specs.Prelude.{◌≡◌, ◌≤◌, length, IfOk};
ghost use Rattle.es_trace.specs.Basics.{Traces};
ghost use Rattle.es_trace.specs.Lists as spec;
ghost use Rattle.es_cursor.specs.Standing.{Stands};
ghost use Rattle.es_nest.specs.Turns.{state_of};

use es_cursor::Cursor;
use es_grammar::{Ending, Stop};
use es_outline::Outline;
use es_reader::ParseFault;
use es_trace::{Listed, Turn};
use es_tree::Goal;

/// Before the first part of a list with commas.
pub fn first_at(at: u32) -> Listed
    ensures { result ≡ spec.first_at at }
{
    Listed { at, ready: true }
}

/// The comma behind a part of a list, where the list goes on.
#[tactic(auto, unfolding(es_trace::specs::Lists::comma_behind))]
pub fn comma_behind(
    cursor: &mut Cursor,
    outline: &mut Outline,
    at: u32,
) -> Result<Turn<Listed>, ParseFault>
    requires stands { Stands cursor.old at }
    ensures traces { Traces (spec.comma_behind cursor.old outline.old.marks at)
        outline.new.marks result }
    ensures within { IfOk result (λ turn. (state_of turn).at ≤ length cursor.old) }
    ensures same { cursor.new ≡ cursor.old }
    ensures kept { outline.new.kept ≡ outline.old.kept }
{
    let token = cursor.token(Goal::Operator, at)?;
    if cursor.is_mark(b",", token) {
        outline.one(token)?;
        return Ok(Turn::More(first_at(token.end)));
    }
    Ok(Turn::Ended(Listed { at, ready: false }))
}

/// The same where it matters in what the list ends.
#[tactic(auto, unfolding(es_trace::specs::Lists::comma_or_end))]
pub fn comma_or_end(
    cursor: &mut Cursor,
    outline: &mut Outline,
    stop: Stop,
) -> Result<Turn<Stop>, ParseFault>
    requires stands { Stands cursor.old stop.at }
    ensures traces { Traces (spec.comma_or_end cursor.old outline.old.marks stop)
        outline.new.marks result }
    ensures within { IfOk result (λ turn. (state_of turn).at ≤ length cursor.old) }
    ensures same { cursor.new ≡ cursor.old }
    ensures kept { outline.new.kept ≡ outline.old.kept }
{
    let token = cursor.token(Goal::Operator, stop.at)?;
    if cursor.is_mark(b",", token) {
        outline.one(token)?;
        return Ok(Turn::More(Stop {
            at: token.end,
            ending: Ending::Other,
        }));
    }
    Ok(Turn::Ended(stop))
}
