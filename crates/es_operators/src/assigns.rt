//! Assignments, by their first token.
ghost use Rattle.std.specs.Prelude.{◌≡◌, ◌≤◌, Some, length, IfOk};
ghost use Rattle.es_tree.specs.declared.tokens.Goal.TheVariants.{Operand as AtOperand};
ghost use Rattle.es_reader.specs.Basics.{token as spec_token};
ghost use Rattle.es_trace.specs.Basics.{Traces};
ghost use Rattle.es_trace.specs.Operators as spec;
ghost use Rattle.es_trace.specs.Tying.{tracers_to};
ghost use Rattle.es_cursor.specs.Standing.{Lies, Stands};
ghost use Rattle.es_nest.specs.Ties.{Ties};

use crate::arrows::{arrow_body, try_async_head, try_bracket_head};
use crate::conditions::cond_by;
use crate::targets::plain_assign;
use es_begins::{begins_nothing, begins_other, is_arrow, is_yield};
use es_cursor::Cursor;
use es_grammar::{Context, Ending, Stop};
use es_nest::Knot;
use es_outline::{Outline, Part, Role};
use es_reader::ParseFault;
use es_trace::Rule;
use es_tree::{Goal, Token};

// An assignment that begins with a Name.
#[tactic(auto, unfolding(es_trace::specs::Operators::named_assign, es_trace::specs::Operators::named_by, es_trace::specs::Operators::async_assign))]
fn named_assign<K: Fn(&mut Cursor, &mut Outline, Rule, Context, u32) -> Result<Stop, ParseFault>>(
    cursor: &mut Cursor,
    outline: &mut Outline,
    knot: &Knot<K>,
    c: Context,
    at: u32,
    name: Token,
) -> Result<Stop, ParseFault>
    requires stands { Stands cursor.old at }
    requires lies { Lies cursor.old name }
    requires first { spec_token cursor.old AtOperand at ≡ Some name }
    requires ties { Ties (K.pre knot.now.call.now) (K.post knot.now.call.now) knot.now.nest }
    ensures traces { Traces (spec.named_assign cursor.old (tracers_to cursor.old knot.now.nest) c
        outline.old.marks at name) outline.new.marks result }
    ensures within { IfOk result (λ end. end.at ≤ length cursor.old) }
    ensures same { cursor.new ≡ cursor.old }
    ensures kept { outline.new.kept ≡ outline.old.kept }
{
    let behind = cursor.token(Goal::Operator, name.end)?;
    if is_arrow(cursor, behind) {
        outline.begin(Part::Arrow)?;
        outline.role(Role::Bound, name)?;
        outline.one(behind)?;
        return arrow_body(cursor, outline, knot, c, false, behind.end);
    }
    if !cursor.is_word(b"async", name) {
        return plain_assign(cursor, outline, knot, c, at, name);
    }
    match try_async_head(cursor, outline, knot, c, at, name) {
        Ok(end) => arrow_body(cursor, outline, knot, c, true, end),
        Err(ParseFault::Syntax) => plain_assign(cursor, outline, knot, c, at, name),
        Err(fault) => Err(fault),
    }
}

// An assignment that begins with `(`.
#[tactic(auto, unfolding(es_trace::specs::Operators::bracket_assign))]
fn bracket_assign<K: Fn(&mut Cursor, &mut Outline, Rule, Context, u32) -> Result<Stop, ParseFault>>(
    cursor: &mut Cursor,
    outline: &mut Outline,
    knot: &Knot<K>,
    c: Context,
    at: u32,
    left: Token,
) -> Result<Stop, ParseFault>
    requires stands { Stands cursor.old at }
    requires lies { Lies cursor.old left }
    requires first { spec_token cursor.old AtOperand at ≡ Some left }
    requires ties { Ties (K.pre knot.now.call.now) (K.post knot.now.call.now) knot.now.nest }
    ensures traces { Traces (spec.bracket_assign cursor.old (tracers_to cursor.old knot.now.nest) c
        outline.old.marks at left) outline.new.marks result }
    ensures within { IfOk result (λ end. end.at ≤ length cursor.old) }
    ensures same { cursor.new ≡ cursor.old }
    ensures kept { outline.new.kept ≡ outline.old.kept }
{
    match try_bracket_head(cursor, outline, knot, c, at, left) {
        Ok(end) => arrow_body(cursor, outline, knot, c, false, end),
        Err(ParseFault::Syntax) => plain_assign(cursor, outline, knot, c, at, left),
        Err(fault) => Err(fault),
    }
}

// `yield`, and the value behind it.
#[tactic(auto, unfolding(es_trace::specs::Operators::yield_assign, es_trace::specs::Operators::yield_by))]
fn yield_assign<K: Fn(&mut Cursor, &mut Outline, Rule, Context, u32) -> Result<Stop, ParseFault>>(
    cursor: &mut Cursor,
    outline: &mut Outline,
    knot: &Knot<K>,
    c: Context,
    word: Token,
) -> Result<Stop, ParseFault>
    requires lies { Lies cursor.old word }
    requires ties { Ties (K.pre knot.now.call.now) (K.post knot.now.call.now) knot.now.nest }
    ensures traces { Traces (spec.yield_assign cursor.old (tracers_to cursor.old knot.now.nest) c
        outline.old.marks word) outline.new.marks result }
    ensures within { IfOk result (λ end. end.at ≤ length cursor.old) }
    ensures same { cursor.new ≡ cursor.old }
    ensures kept { outline.new.kept ≡ outline.old.kept }
{
    let token = cursor.token(Goal::Operand, word.end)?;
    outline.one(word)?;
    if begins_nothing(cursor, token) {
        return Ok(Stop {
            at: word.end,
            ending: Ending::BlockArrow,
        });
    }
    if cursor.is_mark(b"*", token) {
        outline.one(token)?;
        return knot.assign(cursor, outline, c, token.end);
    }
    knot.assign(cursor, outline, c, word.end)
}

/// An assignment.
#[tactic(auto, unfolding(es_trace::specs::Operators::trace_assign, es_trace::specs::Operators::assign_from))]
pub fn trace_assign<
    K: Fn(&mut Cursor, &mut Outline, Rule, Context, u32) -> Result<Stop, ParseFault>,
>(
    cursor: &mut Cursor,
    outline: &mut Outline,
    knot: &Knot<K>,
    c: Context,
    at: u32,
) -> Result<Stop, ParseFault>
    requires stands { Stands cursor.old at }
    requires ties { Ties (K.pre knot.now.call.now) (K.post knot.now.call.now) knot.now.nest }
    ensures traces { Traces (spec.trace_assign cursor.old (tracers_to cursor.old knot.now.nest) c
        outline.old.marks at) outline.new.marks result }
    ensures within { IfOk result (λ end. end.at ≤ length cursor.old) }
    ensures same { cursor.new ≡ cursor.old }
    ensures kept { outline.new.kept ≡ outline.old.kept }
{
    let token = cursor.token(Goal::Operand, at)?;
    if cursor.is_name(c, token)? {
        return named_assign(cursor, outline, knot, c, at, token);
    }
    if cursor.is_mark(b"(", token) {
        return bracket_assign(cursor, outline, knot, c, at, token);
    }
    if begins_other(cursor, c, token) {
        return cond_by(cursor, outline, knot, c, at, token);
    }
    if is_yield(cursor, c, token) {
        return yield_assign(cursor, outline, knot, c, token);
    }
    plain_assign(cursor, outline, knot, c, at, token)
}
