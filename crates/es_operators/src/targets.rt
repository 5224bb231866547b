//! Assignments to targets.
ghost use Rattle.std.specs.Prelude.{◌≡◌, ◌≤◌, Some, length, take, IfOk};
ghost use Rattle.es_tree.specs.declared.tokens.Goal.TheVariants.{Operand as AtOperand};
ghost use Rattle.es_reader.specs.Basics.{token as spec_token};
ghost use Rattle.es_trace.specs.Basics.{Traces};
ghost use Rattle.es_trace.specs.Expressions.{trace_parts as spec_parts};
ghost use Rattle.es_trace.specs.Operators as spec;
ghost use Rattle.es_trace.specs.Tying.{tracers_to};
ghost use Rattle.es_operators.specs.Giving as giving;
ghost use Rattle.es_cursor.specs.Standing.{Lies, Stands};
ghost use Rattle.es_nest.specs.Ties.{Ties};

use crate::conditions::cond_from;
use crate::operands::{operand_behind, other_postfix};
use es_begins::{begins_pattern, is_assignment, is_postfix};
use es_cursor::{Attempt, Cursor, Passed};
use es_grammar::{Context, Ending, Stop};
use es_nest::Knot;
use es_operands::trace_parts;
use es_outline::{Mark, Outline};
use es_reader::{ParseFault, Shape};
use es_targets::trace_paren_target;
use es_trace::{Chain, Rule};
use es_tree::{Goal, Token};

// The operator behind a target, and a value.
#[tactic(auto, unfolding(es_trace::specs::Operators::target_assign))]
fn target_assign<K: Fn(&mut Cursor, &mut Outline, Rule, Context, u32) -> Result<Stop, ParseFault>>(
    cursor: &mut Cursor,
    outline: &mut Outline,
    knot: &Knot<K>,
    c: Context,
    op: Token,
) -> Result<Stop, ParseFault>
    requires lies { Lies cursor.old op }
    requires ties { Ties (K.pre knot.now.call.now) (K.post knot.now.call.now) knot.now.nest }
    ensures traces { Traces (spec.target_assign cursor.old (tracers_to cursor.old knot.now.nest) c
        outline.old.marks op) outline.new.marks result }
    ensures within { IfOk result (λ end. end.at ≤ length cursor.old) }
    ensures same { cursor.new ≡ cursor.old }
    ensures kept { outline.new.kept ≡ outline.old.kept }
{
    if cursor.is_mark(b"=", op) {
        outline.one(op)?;
        return knot.assign(cursor, outline, c, op.end);
    }
    outline.put(Mark::Updated)?;
    outline.one(op)?;
    knot.assign(cursor, outline, c, op.end)
}

// A target in parentheses, the first of which was seen, and what is done with it.
#[tactic(auto, unfolding(es_trace::specs::Operators::paren_assign, es_trace::specs::Operators::paren_by))]
fn paren_assign<K: Fn(&mut Cursor, &mut Outline, Rule, Context, u32) -> Result<Stop, ParseFault>>(
    cursor: &mut Cursor,
    outline: &mut Outline,
    knot: &Knot<K>,
    c: Context,
    left: Token,
) -> Result<Stop, ParseFault>
    requires lies { Lies cursor.old left }
    requires ties { Ties (K.pre knot.now.call.now) (K.post knot.now.call.now) knot.now.nest }
    ensures traces { Traces (spec.paren_assign cursor.old (tracers_to cursor.old knot.now.nest) c
        outline.old.marks left) outline.new.marks result }
    ensures within { IfOk result (λ end. end.at ≤ length cursor.old) }
    ensures same { cursor.new ≡ cursor.old }
    ensures kept { outline.new.kept ≡ outline.old.kept }
{
    let end = trace_paren_target(cursor, outline, knot, c, left)?;
    let op = cursor.token(Goal::Operator, end)?;
    if is_assignment(cursor, op) {
        return target_assign(cursor, outline, knot, c, op);
    }
    if !is_postfix(cursor, op) {
        return Err(ParseFault::Syntax);
    }
    outline.put(Mark::Updated)?;
    outline.one(op)?;
    let stop = Stop {
        at: op.end,
        ending: Ending::Postfix,
    };
    cond_from(cursor, outline, knot, c, Shape::Plain, stop)
}

// An assignment to what is no target in itself, by its first token.
#[tactic(auto, unfolding(es_trace::specs::Operators::other_assign, es_trace::specs::Operators::pattern_assign))]
fn other_assign<K: Fn(&mut Cursor, &mut Outline, Rule, Context, u32) -> Result<Stop, ParseFault>>(
    cursor: &mut Cursor,
    outline: &mut Outline,
    knot: &Knot<K>,
    c: Context,
    at: u32,
    token: Token,
) -> Result<Stop, ParseFault>
    requires stands { Stands cursor.old at }
    requires lies { Lies cursor.old token }
    requires ties { Ties (K.pre knot.now.call.now) (K.post knot.now.call.now) knot.now.nest }
    ensures traces { Traces (spec.other_assign cursor.old (tracers_to cursor.old knot.now.nest) c
        outline.old.marks at token) outline.new.marks result }
    ensures within { IfOk result (λ end. end.at ≤ length cursor.old) }
    ensures same { cursor.new ≡ cursor.old }
    ensures kept { outline.new.kept ≡ outline.old.kept }
{
    if cursor.is_mark(b"(", token) {
        return paren_assign(cursor, outline, knot, c, token);
    }
    if !begins_pattern(cursor, token) {
        return Err(ParseFault::Syntax);
    }
    let end = knot.target_pattern(cursor, outline, c, at)?;
    let op = cursor.mark(Goal::Operator, b"=", end)?;
    outline.one(op)?;
    knot.assign(cursor, outline, c, op.end)
}

// An assignment that begins with an LHS, which was read since the outline was kept. Where that is
// no target, that is remembered, the outline is taken back, and what stands there is read anew.
#[tactic(auto, unfolding(es_trace::specs::Operators::assign_behind, es_trace::specs::Operators::chain_assign, es_trace::specs::Operators::operand_assign))]
fn assign_behind<K: Fn(&mut Cursor, &mut Outline, Rule, Context, u32) -> Result<Stop, ParseFault>>(
    cursor: &mut Cursor,
    outline: &mut Outline,
    knot: &Knot<K>,
    c: Context,
    at: u32,
    token: Token,
    chain: Chain,
    before: usize,
) -> Result<Stop, ParseFault>
    requires stands { Stands cursor.old at }
    requires lies { Lies cursor.old token }
    requires first { spec_token cursor.old AtOperand at ≡ Some token }
    requires behind { Stands cursor.old chain.at }
    requires inside { before ≤ length outline.old.kept }
    requires comes { spec_parts cursor.old (tracers_to cursor.old knot.now.nest) c outline.old.kept at
        ≡ Some (outline.old.marks, chain) }
    requires ties { Ties (K.pre knot.now.call.now) (K.post knot.now.call.now) knot.now.nest }
    ensures traces { Traces (spec.assign_behind cursor.old (tracers_to cursor.old knot.now.nest) c
        outline.old.kept outline.old.marks at token chain) outline.new.marks result }
    ensures within { IfOk result (λ end. end.at ≤ length cursor.old) }
    ensures same { cursor.new ≡ cursor.old }
    ensures kept { outline.new.kept ≡ take before outline.old.kept }
{
    let Some(behind) = cursor.peek(Goal::Operator, chain.at) else {
        outline.settle(before);
        return Err(ParseFault::Syntax);
    };
    if !is_assignment(cursor, behind) {
        let updated = Passed {
            attempt: Attempt::Postfix,
            nest: knot.nest,
            context: c,
            at,
        };
        let stop = operand_behind(cursor, outline, knot, c, token, chain, before, updated)?;
        return cond_from(cursor, outline, knot, c, Shape::Plain, stop);
    }
    if chain.is_name || chain.is_member {
        outline.settle(before);
        outline.put(Mark::Assigned)?;
        return target_assign(cursor, outline, knot, c, behind);
    }
    outline.undo(before);
    cursor.pass(Passed {
        attempt: Attempt::Assign,
        nest: knot.nest,
        context: c,
        at,
    })?;
    other_assign(cursor, outline, knot, c, at, token)
}

// An assignment that is no arrow, by its first token, read for the first time.
#[tactic(auto, unfolding(es_trace::specs::Operators::plain_assign))]
fn try_assign<K: Fn(&mut Cursor, &mut Outline, Rule, Context, u32) -> Result<Stop, ParseFault>>(
    cursor: &mut Cursor,
    outline: &mut Outline,
    knot: &Knot<K>,
    c: Context,
    at: u32,
    token: Token,
) -> Result<Stop, ParseFault>
    requires stands { Stands cursor.old at }
    requires lies { Lies cursor.old token }
    requires first { spec_token cursor.old AtOperand at ≡ Some token }
    requires ties { Ties (K.pre knot.now.call.now) (K.post knot.now.call.now) knot.now.nest }
    ensures traces { Traces (spec.plain_assign cursor.old (tracers_to cursor.old knot.now.nest) c
        outline.old.marks at token) outline.new.marks result }
    ensures within { IfOk result (λ end. end.at ≤ length cursor.old) }
    ensures same { cursor.new ≡ cursor.old }
    ensures kept { outline.new.kept ≡ outline.old.kept }
{
    let before = outline.keep();
    match trace_parts(cursor, outline, knot, c, at) {
        Ok(chain) => assign_behind(cursor, outline, knot, c, at, token, chain, before),
        Err(ParseFault::Syntax) => {
            outline.undo(before);
            cursor.pass(Passed {
                attempt: Attempt::Assign,
                nest: knot.nest,
                context: c,
                at,
            })?;
            other_assign(cursor, outline, knot, c, at, token)
        }
        Err(fault) => {
            outline.undo(before);
            Err(fault)
        }
    }
}

// What is assigned to nothing, as a target in parentheses with `++` or `--` behind it.
#[tactic(auto, unfolding(crate::specs::Giving::postfix_assign))]
fn postfix_assign<K: Fn(&mut Cursor, &mut Outline, Rule, Context, u32) -> Result<Stop, ParseFault>>(
    cursor: &mut Cursor,
    outline: &mut Outline,
    knot: &Knot<K>,
    c: Context,
    token: Token,
) -> Result<Stop, ParseFault>
    requires lies { Lies cursor.old token }
    requires ties { Ties (K.pre knot.now.call.now) (K.post knot.now.call.now) knot.now.nest }
    ensures traces { Traces (giving.postfix_assign cursor.old (tracers_to cursor.old knot.now.nest) c
        outline.old.marks token) outline.new.marks result }
    ensures within { IfOk result (λ end. end.at ≤ length cursor.old) }
    ensures same { cursor.new ≡ cursor.old }
    ensures kept { outline.new.kept ≡ outline.old.kept }
{
    let stop = other_postfix(cursor, outline, knot, c, token)?;
    cond_from(cursor, outline, knot, c, Shape::Plain, stop)
}

// An assignment that is no arrow, by its first token, which begins an LHS or a target.
pub(crate) fn plain_assign<
    K: Fn(&mut Cursor, &mut Outline, Rule, Context, u32) -> Result<Stop, ParseFault>,
>(
    cursor: &mut Cursor,
    outline: &mut Outline,
    knot: &Knot<K>,
    c: Context,
    at: u32,
    token: Token,
) -> Result<Stop, ParseFault>
    requires stands { Stands cursor.old at }
    requires lies { Lies cursor.old token }
    requires first { spec_token cursor.old AtOperand at ≡ Some token }
    requires ties { Ties (K.pre knot.now.call.now) (K.post knot.now.call.now) knot.now.nest }
    ensures traces { Traces (spec.plain_assign cursor.old (tracers_to cursor.old knot.now.nest) c
        outline.old.marks at token) outline.new.marks result }
    ensures within { IfOk result (λ end. end.at ≤ length cursor.old) }
    ensures same { cursor.new ≡ cursor.old }
    ensures kept { outline.new.kept ≡ outline.old.kept }
{
    let assigned = Passed {
        attempt: Attempt::Assign,
        nest: knot.nest,
        context: c,
        at,
    };
    if cursor.has_passed(assigned) {
        return other_assign(cursor, outline, knot, c, at, token);
    }
    let updated = Passed {
        attempt: Attempt::Postfix,
        nest: knot.nest,
        context: c,
        at,
    };
    if cursor.has_passed(updated) {
        return postfix_assign(cursor, outline, knot, c, token);
    }
    try_assign(cursor, outline, knot, c, at, token)
}
