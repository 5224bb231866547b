//! Operands with operators between them, and what `?` chooses by them.
ghost use Rattle.std.specs.Prelude.{◌≡◌, ◌≤◌, Some, length, IfOk};
ghost use Rattle.es_tree.specs.declared.tokens.Goal.TheVariants.{Operand as AtOperand};
ghost use Rattle.es_reader.specs.Basics.{token as spec_token};
ghost use Rattle.es_trace.specs.Basics.{Traces};
ghost use Rattle.es_trace.specs.Operators as spec;
ghost use Rattle.es_trace.specs.Tying.{tracers_to};
ghost use Rattle.es_trace.specs.Loops as loops;
ghost use Rattle.es_cursor.specs.Standing.{Lies, Stands};
ghost use Rattle.es_nest.specs.Turns.{state_of};
ghost use Rattle.es_nest.specs.Ties.{Ties};

use crate::operands::operand_from;
use es_begins::{bracketed, is, is_loose, is_operator, is_private, shape_of};
use es_cursor::Cursor;
use es_grammar::{Context, Ending, Stop};
use es_nest::{Knot, all_turns};
use es_outline::Outline;
use es_reader::{ParseFault, Shape};
use es_trace::{Joins, Rule, Turn};
use es_tree::{Goal, Token};

// An operand of a list, by its first token: it may be a private name.
#[tactic(auto, unfolding(es_trace::specs::Operators::listed_from))]
fn listed_from<K: Fn(&mut Cursor, &mut Outline, Rule, Context, u32) -> Result<Stop, ParseFault>>(
    cursor: &mut Cursor,
    outline: &mut Outline,
    knot: &Knot<K>,
    c: Context,
    at: u32,
    token: Token,
) -> Result<Stop, ParseFault>
    requires stands { Stands cursor.old at }
    requires lies { Lies cursor.old token }
    requires first { spec_token cursor.old AtOperand at ≡ Some token }
    requires ties { Ties (K.pre knot.now.call.now) (K.post knot.now.call.now) knot.now.nest }
    ensures traces { Traces (spec.listed_from cursor.old (tracers_to cursor.old knot.now.nest) c
        outline.old.marks at token) outline.new.marks result }
    ensures within { IfOk result (λ end. end.at ≤ length cursor.old) }
    ensures same { cursor.new ≡ cursor.old }
    ensures kept { outline.new.kept ≡ outline.old.kept }
{
    if is_private(token) {
        outline.one(token)?;
        return Ok(Stop {
            at: token.end,
            ending: Ending::Expression,
        });
    }
    operand_from(cursor, outline, knot, c, at, token)
}

// Whether the last operand may stand before this operator.
fn suits(cursor: &Cursor, state: Joins, op: Token) -> bool
    requires { Lies cursor.now op }
    ensures { result ≡ spec.suits cursor.now state.is_loose state.shape (Some op) }
{
    match state.shape {
        Shape::Signed => !is(cursor.spelled(op), b"**"),
        Shape::Private => is(cursor.spelled(op), b"in") && state.is_loose,
        Shape::Plain => true,
    }
}

// Whether it is `??`.
#[tactic(auto, unfolding(es_trace::specs::Operators::is_coalescing))]
fn is_coalescing(cursor: &Cursor, op: Token) -> bool
    requires { Lies cursor.now op }
    ensures { result ≡ spec.is_coalescing cursor.now op }
{
    is(cursor.spelled(op), b"??")
}

// Whether it is `||` or `&&`.
#[tactic(auto, unfolding(es_trace::specs::Operators::is_logical))]
fn is_logical(cursor: &Cursor, op: Token) -> bool
    requires { Lies cursor.now op }
    ensures { result ≡ spec.is_logical cursor.now op }
{
    let mark = cursor.spelled(op);
    is(mark, b"||") || is(mark, b"&&")
}

// Behind one more operator and an operand.
fn joins_behind(cursor: &Cursor, state: Joins, op: Token, at: Stop, shape: Shape) -> Joins
    requires { Lies cursor.now op }
    ensures { result ≡ spec.joins_behind cursor.now state op at shape }
{
    Joins {
        at,
        is_loose: is_loose(cursor, Some(op)),
        shape,
        has_coalescing: state.has_coalescing || is_coalescing(cursor, op),
        has_logical: state.has_logical || is_logical(cursor, op),
    }
}

// One more operator and operand, or the end of the list.
#[tactic(auto, unfolding(es_trace::specs::Operators::joined_turn, es_trace::specs::Operators::joined_behind, es_trace::specs::Operators::joined_ended, es_trace::specs::Operators::next_joined, es_trace::specs::Operators::joined_by))]
fn joined_turn<K: Fn(&mut Cursor, &mut Outline, Rule, Context, u32) -> Result<Stop, ParseFault>>(
    cursor: &mut Cursor,
    outline: &mut Outline,
    knot: &Knot<K>,
    c: Context,
    state: Joins,
) -> Result<Turn<Joins>, ParseFault>
    requires stands { Stands cursor.old state.at.at }
    requires ties { Ties (K.pre knot.now.call.now) (K.post knot.now.call.now) knot.now.nest }
    ensures traces { Traces (spec.joined_turn cursor.old (tracers_to cursor.old knot.now.nest) c
        outline.old.marks state) outline.new.marks result }
    ensures within { IfOk result (λ turn. (state_of turn).at.at ≤ length cursor.old) }
    ensures same { cursor.new ≡ cursor.old }
    ensures kept { outline.new.kept ≡ outline.old.kept }
{
    let op = cursor.token(Goal::Operator, state.at.at)?;
    if !is_operator(cursor, c, op) {
        return match state.shape {
            Shape::Private => Err(ParseFault::Syntax),
            Shape::Signed | Shape::Plain => Ok(Turn::Ended(state)),
        };
    }
    if !suits(cursor, state, op) {
        return Err(ParseFault::Syntax);
    }
    let token = cursor.token(Goal::Operand, op.end)?;
    outline.one(op)?;
    let at = listed_from(cursor, outline, knot, c, op.end, token)?;
    let shape = shape_of(cursor, c, token);
    Ok(Turn::More(joins_behind(cursor, state, op, at, shape)))
}

// All operators and operands behind the first operand.
fn joined_list<K: Fn(&mut Cursor, &mut Outline, Rule, Context, u32) -> Result<Stop, ParseFault>>(
    cursor: &mut Cursor,
    outline: &mut Outline,
    knot: &Knot<K>,
    c: Context,
    first: Joins,
) -> Result<Joins, ParseFault>
    requires stands { Stands cursor.old first.at.at }
    requires ties { Ties (K.pre knot.now.call.now) (K.post knot.now.call.now) knot.now.nest }
    ensures traces { Traces (loops.all_turns cursor.old (spec.joined_turn cursor.old (tracers_to
        cursor.old knot.now.nest) c) outline.old.marks first) outline.new.marks result }
    ensures within { IfOk result (λ last. last.at.at ≤ length cursor.old) }
    ensures same { cursor.new ≡ cursor.old }
    ensures kept { outline.new.kept ≡ outline.old.kept }
{
    let turn = |cursor: &mut Cursor, outline: &mut Outline, state: Joins| {
        joined_turn(cursor, outline, knot, c, state)
    };
    all_turns(cursor, outline, &turn, first)
}

// Operands with operators between them, from behind the first one on.
#[tactic(auto, unfolding(es_trace::specs::Operators::binary_behind))]
fn binary_behind<K: Fn(&mut Cursor, &mut Outline, Rule, Context, u32) -> Result<Stop, ParseFault>>(
    cursor: &mut Cursor,
    outline: &mut Outline,
    knot: &Knot<K>,
    c: Context,
    shape: Shape,
    stop: Stop,
) -> Result<Stop, ParseFault>
    requires stands { Stands cursor.old stop.at }
    requires ties { Ties (K.pre knot.now.call.now) (K.post knot.now.call.now) knot.now.nest }
    ensures traces { Traces (spec.binary_behind cursor.old (tracers_to cursor.old knot.now.nest) c
        outline.old.marks shape stop) outline.new.marks result }
    ensures within { IfOk result (λ end. end.at ≤ length cursor.old) }
    ensures same { cursor.new ≡ cursor.old }
    ensures kept { outline.new.kept ≡ outline.old.kept }
{
    let first = Joins {
        at: stop,
        is_loose: true,
        shape,
        has_coalescing: false,
        has_logical: false,
    };
    let last = joined_list(cursor, outline, knot, c, first)?;
    if last.has_coalescing && last.has_logical {
        return Err(ParseFault::Syntax);
    }
    Ok(last.at)
}

// A conditional expression, from behind its first operand on.
#[tactic(auto, unfolding(es_trace::specs::Operators::cond_from, es_trace::specs::Operators::cond_behind, es_trace::specs::Operators::arms_behind))]
pub(crate) fn cond_from<
    K: Fn(&mut Cursor, &mut Outline, Rule, Context, u32) -> Result<Stop, ParseFault>,
>(
    cursor: &mut Cursor,
    outline: &mut Outline,
    knot: &Knot<K>,
    c: Context,
    shape: Shape,
    stop: Stop,
) -> Result<Stop, ParseFault>
    requires stands { Stands cursor.old stop.at }
    requires ties { Ties (K.pre knot.now.call.now) (K.post knot.now.call.now) knot.now.nest }
    ensures traces { Traces (spec.cond_from cursor.old (tracers_to cursor.old knot.now.nest) c
        outline.old.marks shape stop) outline.new.marks result }
    ensures within { IfOk result (λ end. end.at ≤ length cursor.old) }
    ensures same { cursor.new ≡ cursor.old }
    ensures kept { outline.new.kept ≡ outline.old.kept }
{
    let end = binary_behind(cursor, outline, knot, c, shape, stop)?;
    let token = cursor.token(Goal::Operator, end.at)?;
    if !cursor.is_mark(b"?", token) {
        return Ok(end);
    }
    outline.one(token)?;
    let when_true = knot.assign(cursor, outline, bracketed(c), token.end)?;
    let colon = cursor.mark(Goal::Operator, b":", when_true.at)?;
    outline.one(colon)?;
    knot.assign(cursor, outline, c, colon.end)
}

// A conditional expression, by its first token.
#[tactic(auto, unfolding(es_trace::specs::Operators::cond_by))]
pub(crate) fn cond_by<
    K: Fn(&mut Cursor, &mut Outline, Rule, Context, u32) -> Result<Stop, ParseFault>,
>(
    cursor: &mut Cursor,
    outline: &mut Outline,
    knot: &Knot<K>,
    c: Context,
    at: u32,
    token: Token,
) -> Result<Stop, ParseFault>
    requires stands { Stands cursor.old at }
    requires lies { Lies cursor.old token }
    requires first { spec_token cursor.old AtOperand at ≡ Some token }
    requires ties { Ties (K.pre knot.now.call.now) (K.post knot.now.call.now) knot.now.nest }
    ensures traces { Traces (spec.cond_by cursor.old (tracers_to cursor.old knot.now.nest) c
        outline.old.marks at token) outline.new.marks result }
    ensures within { IfOk result (λ end. end.at ≤ length cursor.old) }
    ensures same { cursor.new ≡ cursor.old }
    ensures kept { outline.new.kept ≡ outline.old.kept }
{
    let stop = listed_from(cursor, outline, knot, c, at, token)?;
    let shape = shape_of(cursor, c, token);
    cond_from(cursor, outline, knot, c, shape, stop)
}
