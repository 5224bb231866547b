//! Array patterns of bindings.
ghost use Rattle.std.specs.Prelude.{◌≡◌, ◌≤◌, codes, length, IfOk};
ghost use Rattle.es_trace.specs.Basics.{Traces};
ghost use Rattle.es_trace.specs.Functions as spec;
ghost use Rattle.es_trace.specs.Tying.{tracers_to};
ghost use Rattle.es_cursor.specs.Standing.{Lies, Stands};
ghost use Rattle.es_nest.specs.Ties.{Ties};
ghost use Rattle.es_reader.specs.Functions as tests;
ghost use Rattle.es_trace.specs.Lists as lists;
ghost use Rattle.es_trace.specs.Loops as loops;
ghost use Rattle.es_nest.specs.Turns.{state_of};

use crate::binds::{trace_bind, trace_part};
use es_begins::ends_parts;
use es_cursor::Cursor;
use es_grammar::{Context, Stop};
use es_nest::{Knot, all_turns, comma_behind, first_at};
use es_outline::{Outline, Part};
use es_reader::ParseFault;
use es_trace::{Listed, Rule, Turn};
use es_tree::{Goal, Token};

// A turn of the elements.
#[tactic(auto, unfolding(es_trace::specs::Lists::elements_turn, es_trace::specs::Lists::element_or_hole, es_trace::specs::Lists::list_part))]
fn element_turn<K: Fn(&mut Cursor, &mut Outline, Rule, Context, u32) -> Result<Stop, ParseFault>>(
    cursor: &mut Cursor,
    outline: &mut Outline,
    knot: &Knot<K>,
    c: Context,
    state: Listed,
) -> Result<Turn<Listed>, ParseFault>
    requires stands { Stands cursor.old state.at }
    requires ties { Ties (K.pre knot.now.call.now) (K.post knot.now.call.now) knot.now.nest }
    ensures traces { Traces (lists.elements_turn cursor.old (tests.ends_parts cursor.old (codes
        "]")) (spec.trace_part cursor.old (tracers_to cursor.old knot.now.nest) c)
        outline.old.marks state) outline.new.marks result }
    ensures within { IfOk result (λ turn. (state_of turn).at ≤ length cursor.old) }
    ensures same { cursor.new ≡ cursor.old }
    ensures kept { outline.new.kept ≡ outline.old.kept }
{
    let token = cursor.token(Goal::Operator, state.at)?;
    if ends_parts(cursor, b"]", token) {
        return Ok(Turn::Ended(state));
    }
    if cursor.is_mark(b",", token) {
        outline.one(token)?;
        return Ok(Turn::More(first_at(token.end)));
    }
    let end = trace_part(cursor, outline, knot, c, state.at)?;
    comma_behind(cursor, outline, end)
}

// The elements, up to `]` or `...`.
fn element_list<K: Fn(&mut Cursor, &mut Outline, Rule, Context, u32) -> Result<Stop, ParseFault>>(
    cursor: &mut Cursor,
    outline: &mut Outline,
    knot: &Knot<K>,
    c: Context,
    at: u32,
) -> Result<Listed, ParseFault>
    requires stands { Stands cursor.old at }
    requires ties { Ties (K.pre knot.now.call.now) (K.post knot.now.call.now) knot.now.nest }
    ensures traces { Traces (loops.all_turns cursor.old (lists.elements_turn cursor.old
        (tests.ends_parts cursor.old (codes "]")) (spec.trace_part cursor.old (tracers_to
        cursor.old knot.now.nest) c)) outline.old.marks (lists.first_at at)) outline.new.marks
        result }
    ensures within { IfOk result (λ listed. listed.at ≤ length cursor.old) }
    ensures same { cursor.new ≡ cursor.old }
    ensures kept { outline.new.kept ≡ outline.old.kept }
{
    let turn = |cursor: &mut Cursor, outline: &mut Outline, state: Listed| {
        element_turn(cursor, outline, knot, c, state)
    };
    all_turns(cursor, outline, &turn, first_at(at))
}

// The mark that closes a pattern.
#[tactic(auto, unfolding(es_trace::specs::Functions::pattern_end))]
pub(crate) fn pattern_end(
    cursor: &mut Cursor,
    outline: &mut Outline,
    closing: &[u8],
    at: u32,
) -> Result<u32, ParseFault>
    requires stands { Stands cursor.old at }
    ensures traces { Traces (spec.pattern_end cursor.old closing.now outline.old.marks at)
        outline.new.marks result }
    ensures within { IfOk result (λ end. end ≤ length cursor.old) }
    ensures same { cursor.new ≡ cursor.old }
    ensures kept { outline.new.kept ≡ outline.old.kept }
{
    let right = cursor.mark(Goal::Operator, closing, at)?;
    outline.one(right)?;
    outline.end(Part::Pattern)?;
    Ok(right.end)
}

// An array pattern, whose `[` was seen.
#[tactic(auto, unfolding(es_trace::specs::Functions::trace_array_bind, es_trace::specs::Functions::array_behind, es_trace::specs::Functions::array_with_rest, es_trace::specs::Lists::rest_behind))]
pub(crate) fn trace_array_bind<
    K: Fn(&mut Cursor, &mut Outline, Rule, Context, u32) -> Result<Stop, ParseFault>,
>(
    cursor: &mut Cursor,
    outline: &mut Outline,
    knot: &Knot<K>,
    c: Context,
    left: Token,
) -> Result<u32, ParseFault>
    requires lies { Lies cursor.old left }
    requires ties { Ties (K.pre knot.now.call.now) (K.post knot.now.call.now) knot.now.nest }
    ensures traces { Traces (spec.trace_array_bind cursor.old (tracers_to cursor.old
        knot.now.nest) c outline.old.marks left) outline.new.marks result }
    ensures within { IfOk result (λ end. end ≤ length cursor.old) }
    ensures same { cursor.new ≡ cursor.old }
    ensures kept { outline.new.kept ≡ outline.old.kept }
{
    outline.begin(Part::Pattern)?;
    outline.one(left)?;
    let list = element_list(cursor, outline, knot, c, left.end)?;
    let token = cursor.token(Goal::Operand, list.at)?;
    if cursor.is_mark(b"...", token) && list.ready {
        outline.one(token)?;
        let end = trace_bind(cursor, outline, knot, c, token.end)?;
        return pattern_end(cursor, outline, b"]", end);
    }
    pattern_end(cursor, outline, b"]", list.at)
}
