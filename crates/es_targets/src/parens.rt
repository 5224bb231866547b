//! A Name or a member in parentheses, which may be assigned to.
ghost use Rattle.std.specs.Prelude.{◌≡◌, ◌≤◌, length, IfOk};
ghost use Rattle.es_trace.specs.Basics.{Traces};
ghost use Rattle.es_trace.specs.Targets as spec;
ghost use Rattle.es_trace.specs.Tying.{tracers_to};
ghost use Rattle.es_cursor.specs.Standing.{Lies, Stands};
ghost use Rattle.es_nest.specs.Ties.{Ties};

use crate::bare::try_bare;
use es_cursor::Cursor;
use es_grammar::{Context, Stop};
use es_nest::Knot;
use es_outline::{Outline, Role};
use es_reader::ParseFault;
use es_trace::Rule;
use es_tree::{Goal, Token};

// So many closing parentheses.
fn closing(
    cursor: &mut Cursor,
    outline: &mut Outline,
    count: usize,
    at: u32,
) -> Result<u32, ParseFault>
    requires stands { Stands cursor.old at }
    ensures traces { Traces (spec.closing cursor.old count outline.old.marks at) outline.new.marks
        result }
    ensures within { IfOk result (λ end. end ≤ length cursor.old) }
    ensures same { cursor.new ≡ cursor.old }
    ensures kept { outline.new.kept ≡ outline.old.kept }
{
    let mut place = at;
    for _turn in 0..count {
        let right = cursor.mark(Goal::Operator, b")", place)?;
        outline.role(Role::Closes, right)?;
        place = right.end;
    }
    Ok(place)
}

/// A Name or a member in parentheses, the first of which was seen.
#[tactic(auto, unfolding(es_trace::specs::Targets::trace_paren_target))]
pub fn trace_paren_target<
    K: Fn(&mut Cursor, &mut Outline, Rule, Context, u32) -> Result<Stop, ParseFault>,
>(
    cursor: &mut Cursor,
    outline: &mut Outline,
    knot: &Knot<K>,
    c: Context,
    left: Token,
) -> Result<u32, ParseFault>
    requires lies { Lies cursor.old left }
    requires ties { Ties (K.pre knot.now.call.now) (K.post knot.now.call.now) knot.now.nest }
    ensures traces { Traces (spec.trace_paren_target cursor.old (tracers_to cursor.old
        knot.now.nest) c outline.old.marks left) outline.new.marks result }
    ensures within { IfOk result (λ end. end ≤ length cursor.old) }
    ensures same { cursor.new ≡ cursor.old }
    ensures kept { outline.new.kept ≡ outline.old.kept }
{
    outline.role(Role::Opens, left)?;
    let mut place = left.end;
    for turn in 0..cursor.len() + 1 {
        match try_bare(cursor, outline, knot, c, place) {
            Ok(end) => return closing(cursor, outline, turn + 1, end),
            Err(ParseFault::Syntax) => {
                let deeper = cursor.mark(Goal::Operand, b"(", place)?;
                outline.role(Role::Opens, deeper)?;
                place = deeper.end;
            }
            Err(fault) => return Err(fault),
        }
    }
    Err(ParseFault::Syntax)
}
