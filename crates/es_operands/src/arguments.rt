//! Arguments, and what stands in brackets.
ghost use Rattle.std.specs.Prelude.{◌≡◌, ◌≤◌, length, IfOk};
ghost use Rattle.es_trace.specs.Basics.{Traces};
ghost use Rattle.es_trace.specs.Expressions as spec;
ghost use Rattle.es_trace.specs.Tying.{tracers_to};
ghost use Rattle.es_cursor.specs.Standing.{Lies, Stands};
ghost use Rattle.es_nest.specs.Ties.{Ties};
ghost use Rattle.es_nest.specs.Turns.{state_of};

use crate::exprs::trace_closed_expr;
use es_begins::bracketed;
use es_cursor::Cursor;
use es_grammar::{Context, Stop};
use es_nest::{Knot, all_turns, comma_behind, first_at};
use es_outline::{Outline, Role};
use es_reader::ParseFault;
use es_trace::{Listed, Rule, Turn};
use es_tree::{Goal, Token};

/// The mark that has to stand there.
#[tactic(auto, unfolding(es_trace::specs::Expressions::trace_mark))]
pub(crate) fn trace_mark(
    cursor: &mut Cursor,
    outline: &mut Outline,
    closing: &[u8],
    at: u32,
) -> Result<u32, ParseFault>
    requires stands { Stands cursor.old at }
    ensures traces { Traces (spec.trace_mark cursor.old closing.now outline.old.marks at)
        outline.new.marks result }
    ensures within { IfOk result (λ end. end ≤ length cursor.old) }
    ensures same { cursor.new ≡ cursor.old }
    ensures kept { outline.new.kept ≡ outline.old.kept }
{
    let right = cursor.mark(Goal::Operator, closing, at)?;
    outline.one(right)?;
    Ok(right.end)
}

/// An expression in brackets, from behind the left one on. The right one gets the role.
#[tactic(auto, unfolding(es_trace::specs::Expressions::expr_to))]
pub(crate) fn expr_to<
    K: Fn(&mut Cursor, &mut Outline, Rule, Context, u32) -> Result<Stop, ParseFault>,
>(
    cursor: &mut Cursor,
    outline: &mut Outline,
    knot: &Knot<K>,
    c: Context,
    role: Role,
    closing: &[u8],
    at: u32,
) -> Result<u32, ParseFault>
    requires stands { Stands cursor.old at }
    requires ties { Ties (K.pre knot.now.call.now) (K.post knot.now.call.now) knot.now.nest }
    ensures traces { Traces (spec.expr_to cursor.old (tracers_to cursor.old knot.now.nest) c
        role closing.now outline.old.marks at) outline.new.marks result }
    ensures within { IfOk result (λ end. end ≤ length cursor.old) }
    ensures same { cursor.new ≡ cursor.old }
    ensures kept { outline.new.kept ≡ outline.old.kept }
{
    let end = trace_closed_expr(cursor, outline, knot, bracketed(c), at)?;
    let right = cursor.mark(Goal::Operator, closing, end)?;
    outline.role(role, right)?;
    Ok(right.end)
}

/// An assignment within brackets, behind a token that was seen.
#[tactic(auto, unfolding(es_trace::specs::Expressions::value_behind, es_trace::specs::Expressions::trace_value))]
pub(crate) fn value_behind<
    K: Fn(&mut Cursor, &mut Outline, Rule, Context, u32) -> Result<Stop, ParseFault>,
>(
    cursor: &mut Cursor,
    outline: &mut Outline,
    knot: &Knot<K>,
    c: Context,
    token: Token,
) -> Result<u32, ParseFault>
    requires lies { Lies cursor.old token }
    requires ties { Ties (K.pre knot.now.call.now) (K.post knot.now.call.now) knot.now.nest }
    ensures traces { Traces (spec.value_behind (tracers_to cursor.old knot.now.nest) c
        outline.old.marks token) outline.new.marks result }
    ensures within { IfOk result (λ end. end ≤ length cursor.old) }
    ensures same { cursor.new ≡ cursor.old }
    ensures kept { outline.new.kept ≡ outline.old.kept }
{
    outline.one(token)?;
    let stop = knot.assign(cursor, outline, bracketed(c), token.end)?;
    Ok(stop.at)
}

/// `...`, if it is there, and an assignment.
#[tactic(auto, unfolding(es_trace::specs::Expressions::trace_argument, es_trace::specs::Expressions::trace_value))]
pub(crate) fn trace_argument<
    K: Fn(&mut Cursor, &mut Outline, Rule, Context, u32) -> Result<Stop, ParseFault>,
>(
    cursor: &mut Cursor,
    outline: &mut Outline,
    knot: &Knot<K>,
    c: Context,
    at: u32,
) -> Result<u32, ParseFault>
    requires stands { Stands cursor.old at }
    requires ties { Ties (K.pre knot.now.call.now) (K.post knot.now.call.now) knot.now.nest }
    ensures traces { Traces (spec.trace_argument cursor.old (tracers_to cursor.old knot.now.nest) c
        outline.old.marks at) outline.new.marks result }
    ensures within { IfOk result (λ end. end ≤ length cursor.old) }
    ensures same { cursor.new ≡ cursor.old }
    ensures kept { outline.new.kept ≡ outline.old.kept }
{
    let token = cursor.token(Goal::Operand, at)?;
    if cursor.is_mark(b"...", token) {
        return value_behind(cursor, outline, knot, c, token);
    }
    let stop = knot.assign(cursor, outline, bracketed(c), at)?;
    Ok(stop.at)
}

// A turn of the list of arguments.
#[tactic(auto, unfolding(es_trace::specs::Lists::list_turn, es_trace::specs::Lists::list_part))]
fn arguments_turn<K: Fn(&mut Cursor, &mut Outline, Rule, Context, u32) -> Result<Stop, ParseFault>>(
    cursor: &mut Cursor,
    outline: &mut Outline,
    knot: &Knot<K>,
    c: Context,
    state: Listed,
) -> Result<Turn<Listed>, ParseFault>
    requires stands { Stands cursor.old state.at }
    requires ties { Ties (K.pre knot.now.call.now) (K.post knot.now.call.now) knot.now.nest }
    ensures traces { Traces (spec.arguments_turn cursor.old (tracers_to cursor.old knot.now.nest) c
        outline.old.marks state) outline.new.marks result }
    ensures within { IfOk result (λ turn. (state_of turn).at ≤ length cursor.old) }
    ensures same { cursor.new ≡ cursor.old }
    ensures kept { outline.new.kept ≡ outline.old.kept }
{
    let token = cursor.token(Goal::Operand, state.at)?;
    if cursor.is_mark(b")", token) {
        return Ok(Turn::Ended(state));
    }
    let end = trace_argument(cursor, outline, knot, c, state.at)?;
    comma_behind(cursor, outline, end)
}

/// Arguments, whose `(` was seen.
#[tactic(auto, unfolding(es_trace::specs::Expressions::args_behind))]
pub(crate) fn args_behind<
    K: Fn(&mut Cursor, &mut Outline, Rule, Context, u32) -> Result<Stop, ParseFault>,
>(
    cursor: &mut Cursor,
    outline: &mut Outline,
    knot: &Knot<K>,
    c: Context,
    left: Token,
) -> Result<u32, ParseFault>
    requires lies { Lies cursor.old left }
    requires ties { Ties (K.pre knot.now.call.now) (K.post knot.now.call.now) knot.now.nest }
    ensures traces { Traces (spec.args_behind cursor.old (tracers_to cursor.old knot.now.nest) c
        outline.old.marks left) outline.new.marks result }
    ensures within { IfOk result (λ end. end ≤ length cursor.old) }
    ensures same { cursor.new ≡ cursor.old }
    ensures kept { outline.new.kept ≡ outline.old.kept }
{
    outline.one(left)?;
    let turn = |cursor: &mut Cursor, outline: &mut Outline, state: Listed| {
        arguments_turn(cursor, outline, knot, c, state)
    };
    let listed = all_turns(cursor, outline, &turn, first_at(left.end))?;
    trace_mark(cursor, outline, b")", listed.at)
}

/// Arguments.
#[tactic(auto, unfolding(es_trace::specs::Expressions::trace_args))]
pub(crate) fn trace_args<
    K: Fn(&mut Cursor, &mut Outline, Rule, Context, u32) -> Result<Stop, ParseFault>,
>(
    cursor: &mut Cursor,
    outline: &mut Outline,
    knot: &Knot<K>,
    c: Context,
    at: u32,
) -> Result<u32, ParseFault>
    requires stands { Stands cursor.old at }
    requires ties { Ties (K.pre knot.now.call.now) (K.post knot.now.call.now) knot.now.nest }
    ensures traces { Traces (spec.trace_args cursor.old (tracers_to cursor.old knot.now.nest) c
        outline.old.marks at) outline.new.marks result }
    ensures within { IfOk result (λ end. end ≤ length cursor.old) }
    ensures same { cursor.new ≡ cursor.old }
    ensures kept { outline.new.kept ≡ outline.old.kept }
{
    let left = cursor.mark(Goal::Operator, b"(", at)?;
    args_behind(cursor, outline, knot, c, left)
}
