//! Expressions with commas, and templates.
ghost use Rattle.std.specs.Prelude.{◌≡◌, ◌≤◌, length, IfOk};
ghost use Rattle.es_trace.specs.Basics.{Traces};
ghost use Rattle.es_trace.specs.Expressions as spec;
ghost use Rattle.es_trace.specs.Lists as lists;
ghost use Rattle.es_trace.specs.Tying.{tracers_to};
ghost use Rattle.es_cursor.specs.Standing.{Lies, Stands};
ghost use Rattle.es_nest.specs.Ties.{Ties};
ghost use Rattle.es_nest.specs.Turns.{state_of};

use es_begins::{bracketed, is_closed, is_piece, opens};
use es_cursor::Cursor;
use es_grammar::{Context, Ending, Stop};
use es_nest::{Knot, all_turns, comma_or_end};
use es_outline::Outline;
use es_reader::ParseFault;
use es_trace::{Rule, Turn};
use es_tree::{Goal, Token};

// An assignment of an expression, and the comma behind it.
#[tactic(auto, unfolding(es_trace::specs::Lists::ended_turn))]
fn expr_turn<K: Fn(&mut Cursor, &mut Outline, Rule, Context, u32) -> Result<Stop, ParseFault>>(
    cursor: &mut Cursor,
    outline: &mut Outline,
    knot: &Knot<K>,
    c: Context,
    start: Stop,
) -> Result<Turn<Stop>, ParseFault>
    requires stands { Stands cursor.old start.at }
    requires ties { Ties (K.pre knot.now.call.now) (K.post knot.now.call.now) knot.now.nest }
    ensures traces { Traces (lists.ended_turn cursor.old
        ((tracers_to cursor.old knot.now.nest).assign c) outline.old.marks start)
        outline.new.marks result }
    ensures within { IfOk result (λ turn. (state_of turn).at ≤ length cursor.old) }
    ensures same { cursor.new ≡ cursor.old }
    ensures kept { outline.new.kept ≡ outline.old.kept }
{
    let stop = knot.assign(cursor, outline, c, start.at)?;
    comma_or_end(cursor, outline, stop)
}

/// Assignments with commas.
#[tactic(auto, unfolding(es_trace::specs::Expressions::trace_expr))]
pub fn trace_expr<K: Fn(&mut Cursor, &mut Outline, Rule, Context, u32) -> Result<Stop, ParseFault>>(
    cursor: &mut Cursor,
    outline: &mut Outline,
    knot: &Knot<K>,
    c: Context,
    at: u32,
) -> Result<Stop, ParseFault>
    requires stands { Stands cursor.old at }
    requires ties { Ties (K.pre knot.now.call.now) (K.post knot.now.call.now) knot.now.nest }
    ensures traces { Traces (spec.trace_expr cursor.old (tracers_to cursor.old knot.now.nest) c
        outline.old.marks at) outline.new.marks result }
    ensures within { IfOk result (λ end. end.at ≤ length cursor.old) }
    ensures same { cursor.new ≡ cursor.old }
    ensures kept { outline.new.kept ≡ outline.old.kept }
{
    let start = Stop {
        at,
        ending: Ending::Other,
    };
    let turn = |cursor: &mut Cursor, outline: &mut Outline, stop: Stop| {
        expr_turn(cursor, outline, knot, c, stop)
    };
    all_turns(cursor, outline, &turn, start)
}

/// An expression that the token behind it closes.
#[tactic(auto, unfolding(es_trace::specs::Expressions::trace_closed_expr))]
pub fn trace_closed_expr<
    K: Fn(&mut Cursor, &mut Outline, Rule, Context, u32) -> Result<Stop, ParseFault>,
>(
    cursor: &mut Cursor,
    outline: &mut Outline,
    knot: &Knot<K>,
    c: Context,
    at: u32,
) -> Result<u32, ParseFault>
    requires stands { Stands cursor.old at }
    requires ties { Ties (K.pre knot.now.call.now) (K.post knot.now.call.now) knot.now.nest }
    ensures traces { Traces (spec.trace_closed_expr cursor.old
        (tracers_to cursor.old knot.now.nest) c outline.old.marks at) outline.new.marks result }
    ensures within { IfOk result (λ end. end ≤ length cursor.old) }
    ensures same { cursor.new ≡ cursor.old }
    ensures kept { outline.new.kept ≡ outline.old.kept }
{
    let stop = trace_expr(cursor, outline, knot, c, at)?;
    if is_closed(cursor, stop) {
        return Ok(stop.at);
    }
    Err(ParseFault::Syntax)
}

// An expression of a template, with the template token behind it.
#[tactic(auto, unfolding(es_trace::specs::Expressions::pieces_turn, es_trace::specs::Expressions::piece_behind))]
fn pieces_turn<K: Fn(&mut Cursor, &mut Outline, Rule, Context, u32) -> Result<Stop, ParseFault>>(
    cursor: &mut Cursor,
    outline: &mut Outline,
    knot: &Knot<K>,
    c: Context,
    at: u32,
) -> Result<Turn<u32>, ParseFault>
    requires stands { Stands cursor.old at }
    requires ties { Ties (K.pre knot.now.call.now) (K.post knot.now.call.now) knot.now.nest }
    ensures traces { Traces (spec.pieces_turn cursor.old (tracers_to cursor.old knot.now.nest) c
        outline.old.marks at) outline.new.marks result }
    ensures within { IfOk result (λ turn. state_of turn ≤ length cursor.old) }
    ensures same { cursor.new ≡ cursor.old }
    ensures kept { outline.new.kept ≡ outline.old.kept }
{
    let end = trace_closed_expr(cursor, outline, knot, bracketed(c), at)?;
    let token = cursor.token(Goal::Template, end)?;
    if !is_piece(cursor, token) {
        return Err(ParseFault::Syntax);
    }
    outline.one(token)?;
    if opens(cursor, token) {
        return Ok(Turn::More(token.end));
    }
    Ok(Turn::Ended(token.end))
}

/// A template, whose first token was seen.
#[tactic(auto, unfolding(es_trace::specs::Expressions::template_from))]
pub(crate) fn template_from<
    K: Fn(&mut Cursor, &mut Outline, Rule, Context, u32) -> Result<Stop, ParseFault>,
>(
    cursor: &mut Cursor,
    outline: &mut Outline,
    knot: &Knot<K>,
    c: Context,
    head: Token,
) -> Result<u32, ParseFault>
    requires lies { Lies cursor.old head }
    requires ties { Ties (K.pre knot.now.call.now) (K.post knot.now.call.now) knot.now.nest }
    ensures traces { Traces (spec.template_from cursor.old (tracers_to cursor.old knot.now.nest) c
        outline.old.marks head) outline.new.marks result }
    ensures within { IfOk result (λ end. end ≤ length cursor.old) }
    ensures same { cursor.new ≡ cursor.old }
    ensures kept { outline.new.kept ≡ outline.old.kept }
{
    outline.one(head)?;
    if !opens(cursor, head) {
        return Ok(head.end);
    }
    let turn = |cursor: &mut Cursor, outline: &mut Outline, place: u32| {
        pieces_turn(cursor, outline, knot, c, place)
    };
    all_turns(cursor, outline, &turn, head.end)
}
