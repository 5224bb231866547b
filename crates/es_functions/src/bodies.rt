//! Items in braces, and parameters with a body.
ghost use Rattle.std.specs.Prelude.{◌≡◌, ◌≤◌, codes, length, IfOk};
ghost use Rattle.es_trace.specs.Basics.{Traces};
ghost use Rattle.es_trace.specs.Functions as spec;
ghost use Rattle.es_trace.specs.Tying.{tracers_to};
ghost use Rattle.es_cursor.specs.Standing.{Lies, Stands};
ghost use Rattle.es_nest.specs.Ties.{Ties};
ghost use Rattle.es_reader.specs.Basics as basics;
ghost use Rattle.es_trace.specs.Lists as lists;
ghost use Rattle.es_trace.specs.Loops as loops;
ghost use Rattle.es_nest.specs.Turns.{state_of};

use crate::params::trace_params;
use es_begins::belongs;
use es_cursor::Cursor;
use es_grammar::{Context, Stop};
use es_nest::{Knot, all_turns};
use es_outline::{Outline, Part};
use es_reader::ParseFault;
use es_trace::{Rule, Turn};
use es_tree::{Goal, Token};

/// An item behind which nothing belongs to it.
#[tactic(auto, unfolding(es_trace::specs::Functions::trace_closed_item))]
pub fn trace_closed_item<
    K: Fn(&mut Cursor, &mut Outline, Rule, Context, u32) -> Result<Stop, ParseFault>,
>(
    cursor: &mut Cursor,
    outline: &mut Outline,
    knot: &Knot<K>,
    c: Context,
    at: u32,
) -> Result<u32, ParseFault>
    requires stands { Stands cursor.old at }
    requires ties { Ties (K.pre knot.now.call.now) (K.post knot.now.call.now) knot.now.nest }
    ensures traces { Traces (spec.trace_closed_item cursor.old (tracers_to cursor.old
        knot.now.nest) c outline.old.marks at) outline.new.marks result }
    ensures within { IfOk result (λ end. end ≤ length cursor.old) }
    ensures same { cursor.new ≡ cursor.old }
    ensures kept { outline.new.kept ≡ outline.old.kept }
{
    let end = knot.item(cursor, outline, c, at)?;
    match cursor.peek(Goal::Operand, end) {
        Some(next) => {
            if belongs(cursor, next) {
                return Err(ParseFault::Syntax);
            }
            Ok(end)
        }
        None => Ok(end),
    }
}

// A turn of the items.
#[tactic(auto, unfolding(es_trace::specs::Lists::chain_turn, es_trace::specs::Lists::next_part))]
fn item_turn<K: Fn(&mut Cursor, &mut Outline, Rule, Context, u32) -> Result<Stop, ParseFault>>(
    cursor: &mut Cursor,
    outline: &mut Outline,
    knot: &Knot<K>,
    c: Context,
    at: u32,
) -> Result<Turn<u32>, ParseFault>
    requires stands { Stands cursor.old at }
    requires ties { Ties (K.pre knot.now.call.now) (K.post knot.now.call.now) knot.now.nest }
    ensures traces { Traces (lists.chain_turn cursor.old (basics.is_mark cursor.old (codes "}"))
        (spec.trace_closed_item cursor.old (tracers_to cursor.old knot.now.nest) c)
        outline.old.marks at) outline.new.marks result }
    ensures within { IfOk result (λ turn. state_of turn ≤ length cursor.old) }
    ensures same { cursor.new ≡ cursor.old }
    ensures kept { outline.new.kept ≡ outline.old.kept }
{
    let token = cursor.token(Goal::Operand, at)?;
    if cursor.is_mark(b"}", token) {
        return Ok(Turn::Ended(at));
    }
    let end = trace_closed_item(cursor, outline, knot, c, at)?;
    Ok(Turn::More(end))
}

// The items, up to `}`.
fn item_list<K: Fn(&mut Cursor, &mut Outline, Rule, Context, u32) -> Result<Stop, ParseFault>>(
    cursor: &mut Cursor,
    outline: &mut Outline,
    knot: &Knot<K>,
    c: Context,
    at: u32,
) -> Result<u32, ParseFault>
    requires stands { Stands cursor.old at }
    requires ties { Ties (K.pre knot.now.call.now) (K.post knot.now.call.now) knot.now.nest }
    ensures traces { Traces (loops.all_turns cursor.old (lists.chain_turn cursor.old
        (basics.is_mark cursor.old (codes "}")) (spec.trace_closed_item cursor.old (tracers_to
        cursor.old knot.now.nest) c)) outline.old.marks at) outline.new.marks result }
    ensures within { IfOk result (λ end. end ≤ length cursor.old) }
    ensures same { cursor.new ≡ cursor.old }
    ensures kept { outline.new.kept ≡ outline.old.kept }
{
    let turn = |cursor: &mut Cursor, outline: &mut Outline, place: u32| {
        item_turn(cursor, outline, knot, c, place)
    };
    all_turns(cursor, outline, &turn, at)
}

/// A body, whose `{` was seen.
#[tactic(auto, unfolding(es_trace::specs::Functions::body_behind))]
pub fn body_behind<
    K: Fn(&mut Cursor, &mut Outline, Rule, Context, u32) -> Result<Stop, ParseFault>,
>(
    cursor: &mut Cursor,
    outline: &mut Outline,
    knot: &Knot<K>,
    c: Context,
    left: Token,
) -> Result<u32, ParseFault>
    requires lies { Lies cursor.old left }
    requires ties { Ties (K.pre knot.now.call.now) (K.post knot.now.call.now) knot.now.nest }
    ensures traces { Traces (spec.body_behind cursor.old (tracers_to cursor.old knot.now.nest) c
        outline.old.marks left) outline.new.marks result }
    ensures within { IfOk result (λ end. end ≤ length cursor.old) }
    ensures same { cursor.new ≡ cursor.old }
    ensures kept { outline.new.kept ≡ outline.old.kept }
{
    outline.one(left)?;
    let end = item_list(cursor, outline, knot, c, left.end)?;
    let right = cursor.mark(Goal::Operand, b"}", end)?;
    outline.one(right)?;
    Ok(right.end)
}

/// `{`, items and `}`.
#[tactic(auto, unfolding(es_trace::specs::Functions::trace_body))]
pub fn trace_body<K: Fn(&mut Cursor, &mut Outline, Rule, Context, u32) -> Result<Stop, ParseFault>>(
    cursor: &mut Cursor,
    outline: &mut Outline,
    knot: &Knot<K>,
    c: Context,
    at: u32,
) -> Result<u32, ParseFault>
    requires stands { Stands cursor.old at }
    requires ties { Ties (K.pre knot.now.call.now) (K.post knot.now.call.now) knot.now.nest }
    ensures traces { Traces (spec.trace_body cursor.old (tracers_to cursor.old knot.now.nest) c
        outline.old.marks at) outline.new.marks result }
    ensures within { IfOk result (λ end. end ≤ length cursor.old) }
    ensures same { cursor.new ≡ cursor.old }
    ensures kept { outline.new.kept ≡ outline.old.kept }
{
    let left = cursor.mark(Goal::Operand, b"{", at)?;
    body_behind(cursor, outline, knot, c, left)
}

// The body of a function, with which the function ends.
#[tactic(auto, unfolding(es_trace::specs::Functions::function_body))]
pub(crate) fn function_body<
    K: Fn(&mut Cursor, &mut Outline, Rule, Context, u32) -> Result<Stop, ParseFault>,
>(
    cursor: &mut Cursor,
    outline: &mut Outline,
    knot: &Knot<K>,
    c: Context,
    at: u32,
) -> Result<u32, ParseFault>
    requires stands { Stands cursor.old at }
    requires ties { Ties (K.pre knot.now.call.now) (K.post knot.now.call.now) knot.now.nest }
    ensures traces { Traces (spec.function_body cursor.old (tracers_to cursor.old knot.now.nest)
        c outline.old.marks at) outline.new.marks result }
    ensures within { IfOk result (λ end. end ≤ length cursor.old) }
    ensures same { cursor.new ≡ cursor.old }
    ensures kept { outline.new.kept ≡ outline.old.kept }
{
    outline.begin(Part::FunctionBody)?;
    let end = trace_body(cursor, outline, knot, c, at)?;
    outline.end(Part::FunctionBody)?;
    outline.end(Part::Function)?;
    Ok(end)
}

/// The parameters and the body of a function.
#[tactic(auto, unfolding(es_trace::specs::Functions::trace_callable))]
pub fn trace_callable<
    K: Fn(&mut Cursor, &mut Outline, Rule, Context, u32) -> Result<Stop, ParseFault>,
>(
    cursor: &mut Cursor,
    outline: &mut Outline,
    knot: &Knot<K>,
    c: Context,
    at: u32,
) -> Result<u32, ParseFault>
    requires stands { Stands cursor.old at }
    requires ties { Ties (K.pre knot.now.call.now) (K.post knot.now.call.now) knot.now.nest }
    ensures traces { Traces (spec.trace_callable cursor.old (tracers_to cursor.old
        knot.now.nest) c outline.old.marks at) outline.new.marks result }
    ensures within { IfOk result (λ end. end ≤ length cursor.old) }
    ensures same { cursor.new ≡ cursor.old }
    ensures kept { outline.new.kept ≡ outline.old.kept }
{
    let left = cursor.mark(Goal::Operator, b"(", at)?;
    outline.begin(Part::Function)?;
    outline.one(left)?;
    let behind = trace_params(cursor, outline, knot, c, left.end)?;
    let right = cursor.mark(Goal::Operator, b")", behind)?;
    outline.one(right)?;
    function_body(cursor, outline, knot, c, right.end)
}
