//! Operands: what a prefix or a postfix makes of a LeftHandSideExpression.
ghost use Rattle.std.specs.Prelude.{◌≡◌, ◌≤◌, Some, length, take, IfOk};
ghost use Rattle.es_tree.specs.declared.tokens.Goal.TheVariants.{Operand as AtOperand};
ghost use Rattle.es_reader.specs.Basics.{token as spec_token};
ghost use Rattle.es_trace.specs.Basics.{Traces};
ghost use Rattle.es_trace.specs.Operators as spec;
ghost use Rattle.es_trace.specs.Tying.{tracers_to};
ghost use Rattle.es_operators.specs.Giving.{GivesWayAtPostfix};
ghost use Rattle.es_cursor.specs.Standing.{Lies, Stands};
ghost use Rattle.es_nest.specs.Ties.{Ties};

use es_begins::{begins_prefixed, is_await, is_postfix, is_sign, is_update};
use es_cursor::{Attempt, Cursor, Passed};
use es_grammar::{Context, Ending, Stop};
use es_nest::Knot;
use es_operands::trace_parts;
use es_outline::{Mark, Outline, Role};
use es_reader::ParseFault;
use es_targets::{trace_paren_target, trace_simple_target};
use es_trace::{Chain, Rule};
use es_tree::{Goal, Token};

// A target in parentheses with `++` or `--` behind it, by its first token.
#[tactic(auto, unfolding(es_trace::specs::Operators::other_postfix, es_trace::specs::Operators::paren_postfix, es_trace::specs::Operators::postfix_behind))]
pub(crate) fn other_postfix<
    K: Fn(&mut Cursor, &mut Outline, Rule, Context, u32) -> Result<Stop, ParseFault>,
>(
    cursor: &mut Cursor,
    outline: &mut Outline,
    knot: &Knot<K>,
    c: Context,
    token: Token,
) -> Result<Stop, ParseFault>
    requires lies { Lies cursor.old token }
    requires ties { Ties (K.pre knot.now.call.now) (K.post knot.now.call.now) knot.now.nest }
    ensures traces { Traces (spec.other_postfix cursor.old (tracers_to cursor.old knot.now.nest) c
        outline.old.marks token) outline.new.marks result }
    ensures within { IfOk result (λ end. end.at ≤ length cursor.old) }
    ensures same { cursor.new ≡ cursor.old }
    ensures kept { outline.new.kept ≡ outline.old.kept }
{
    if !cursor.is_mark(b"(", token) {
        return Err(ParseFault::Syntax);
    }
    let end = trace_paren_target(cursor, outline, knot, c, token)?;
    let op = cursor.token(Goal::Operator, end)?;
    if !is_postfix(cursor, op) {
        return Err(ParseFault::Syntax);
    }
    outline.put(Mark::Updated)?;
    outline.one(op)?;
    Ok(Stop {
        at: op.end,
        ending: Ending::Postfix,
    })
}

// An operand that begins with an LHS, which was read since the outline was kept. Where that is
// no target, that is remembered, the outline is taken back, and what stands there is read anew.
#[tactic(auto, unfolding(es_trace::specs::Operators::operand_behind, es_trace::specs::Operators::chain_postfix))]
pub(crate) fn operand_behind<
    K: Fn(&mut Cursor, &mut Outline, Rule, Context, u32) -> Result<Stop, ParseFault>,
>(
    cursor: &mut Cursor,
    outline: &mut Outline,
    knot: &Knot<K>,
    c: Context,
    token: Token,
    chain: Chain,
    before: usize,
    passed: Passed,
) -> Result<Stop, ParseFault>
    requires lies { Lies cursor.old token }
    requires stands { Stands cursor.old chain.at }
    requires inside { before ≤ length outline.old.kept }
    requires gives { GivesWayAtPostfix cursor.old chain passed }
    requires ties { Ties (K.pre knot.now.call.now) (K.post knot.now.call.now) knot.now.nest }
    ensures traces { Traces (spec.operand_behind cursor.old (tracers_to cursor.old knot.now.nest) c
        outline.old.kept outline.old.marks token chain) outline.new.marks result }
    ensures within { IfOk result (λ end. end.at ≤ length cursor.old) }
    ensures same { cursor.new ≡ cursor.old }
    ensures kept { outline.new.kept ≡ take before outline.old.kept }
{
    let Some(behind) = cursor.peek(Goal::Operator, chain.at) else {
        outline.settle(before);
        return Err(ParseFault::Syntax);
    };
    if !is_postfix(cursor, behind) {
        outline.settle(before);
        return Ok(Stop {
            at: chain.at,
            ending: Ending::Expression,
        });
    }
    if chain.is_name || chain.is_member {
        outline.settle(before);
        outline.put(Mark::Assigned)?;
        outline.put(Mark::Updated)?;
        outline.one(behind)?;
        return Ok(Stop {
            at: behind.end,
            ending: Ending::Postfix,
        });
    }
    outline.undo(before);
    cursor.pass(passed)?;
    other_postfix(cursor, outline, knot, c, token)
}

// An operand without a prefix, by its first token, read for the first time.
#[tactic(auto, unfolding(es_trace::specs::Operators::plain_operand))]
fn try_operand<K: Fn(&mut Cursor, &mut Outline, Rule, Context, u32) -> Result<Stop, ParseFault>>(
    cursor: &mut Cursor,
    outline: &mut Outline,
    knot: &Knot<K>,
    c: Context,
    at: u32,
    token: Token,
) -> Result<Stop, ParseFault>
    requires stands { Stands cursor.old at }
    requires lies { Lies cursor.old token }
    requires first { spec_token cursor.old AtOperand at ≡ Some token }
    requires ties { Ties (K.pre knot.now.call.now) (K.post knot.now.call.now) knot.now.nest }
    ensures traces { Traces (spec.plain_operand cursor.old (tracers_to cursor.old knot.now.nest) c
        outline.old.marks at token) outline.new.marks result }
    ensures within { IfOk result (λ end. end.at ≤ length cursor.old) }
    ensures same { cursor.new ≡ cursor.old }
    ensures kept { outline.new.kept ≡ outline.old.kept }
{
    let passed = Passed {
        attempt: Attempt::Operand,
        nest: knot.nest,
        context: c,
        at,
    };
    let before = outline.keep();
    match trace_parts(cursor, outline, knot, c, at) {
        Ok(chain) => operand_behind(cursor, outline, knot, c, token, chain, before, passed),
        Err(ParseFault::Syntax) => {
            outline.undo(before);
            cursor.pass(passed)?;
            other_postfix(cursor, outline, knot, c, token)
        }
        Err(fault) => {
            outline.undo(before);
            Err(fault)
        }
    }
}

// An operand without a prefix, by its first token.
fn plain_operand<K: Fn(&mut Cursor, &mut Outline, Rule, Context, u32) -> Result<Stop, ParseFault>>(
    cursor: &mut Cursor,
    outline: &mut Outline,
    knot: &Knot<K>,
    c: Context,
    at: u32,
    token: Token,
) -> Result<Stop, ParseFault>
    requires stands { Stands cursor.old at }
    requires lies { Lies cursor.old token }
    requires first { spec_token cursor.old AtOperand at ≡ Some token }
    requires ties { Ties (K.pre knot.now.call.now) (K.post knot.now.call.now) knot.now.nest }
    ensures traces { Traces (spec.plain_operand cursor.old (tracers_to cursor.old knot.now.nest) c
        outline.old.marks at token) outline.new.marks result }
    ensures within { IfOk result (λ end. end.at ≤ length cursor.old) }
    ensures same { cursor.new ≡ cursor.old }
    ensures kept { outline.new.kept ≡ outline.old.kept }
{
    let passed = Passed {
        attempt: Attempt::Operand,
        nest: knot.nest,
        context: c,
        at,
    };
    if cursor.has_passed(passed) {
        return other_postfix(cursor, outline, knot, c, token);
    }
    try_operand(cursor, outline, knot, c, at, token)
}

// An operand, by its first token.
#[tactic(auto, unfolding(es_trace::specs::Operators::operand_from))]
pub(crate) fn operand_from<
    K: Fn(&mut Cursor, &mut Outline, Rule, Context, u32) -> Result<Stop, ParseFault>,
>(
    cursor: &mut Cursor,
    outline: &mut Outline,
    knot: &Knot<K>,
    c: Context,
    at: u32,
    token: Token,
) -> Result<Stop, ParseFault>
    requires stands { Stands cursor.old at }
    requires lies { Lies cursor.old token }
    requires first { spec_token cursor.old AtOperand at ≡ Some token }
    requires ties { Ties (K.pre knot.now.call.now) (K.post knot.now.call.now) knot.now.nest }
    ensures traces { Traces (spec.operand_from cursor.old (tracers_to cursor.old knot.now.nest) c
        outline.old.marks at token) outline.new.marks result }
    ensures within { IfOk result (λ end. end.at ≤ length cursor.old) }
    ensures same { cursor.new ≡ cursor.old }
    ensures kept { outline.new.kept ≡ outline.old.kept }
{
    if begins_prefixed(cursor, c, token) {
        return knot.prefixed(cursor, outline, c, at);
    }
    plain_operand(cursor, outline, knot, c, at, token)
}

// An operand.
#[tactic(auto, unfolding(es_trace::specs::Operators::trace_operand))]
fn trace_operand<K: Fn(&mut Cursor, &mut Outline, Rule, Context, u32) -> Result<Stop, ParseFault>>(
    cursor: &mut Cursor,
    outline: &mut Outline,
    knot: &Knot<K>,
    c: Context,
    at: u32,
) -> Result<Stop, ParseFault>
    requires stands { Stands cursor.old at }
    requires ties { Ties (K.pre knot.now.call.now) (K.post knot.now.call.now) knot.now.nest }
    ensures traces { Traces (spec.trace_operand cursor.old (tracers_to cursor.old knot.now.nest) c
        outline.old.marks at) outline.new.marks result }
    ensures within { IfOk result (λ end. end.at ≤ length cursor.old) }
    ensures same { cursor.new ≡ cursor.old }
    ensures kept { outline.new.kept ≡ outline.old.kept }
{
    let token = cursor.token(Goal::Operand, at)?;
    operand_from(cursor, outline, knot, c, at, token)
}

/// An operand with a prefix.
#[tactic(auto, unfolding(es_trace::specs::Operators::trace_prefixed, es_trace::specs::Operators::prefixed_from, es_trace::specs::Operators::update_operand))]
pub fn trace_prefixed<
    K: Fn(&mut Cursor, &mut Outline, Rule, Context, u32) -> Result<Stop, ParseFault>,
>(
    cursor: &mut Cursor,
    outline: &mut Outline,
    knot: &Knot<K>,
    c: Context,
    at: u32,
) -> Result<Stop, ParseFault>
    requires stands { Stands cursor.old at }
    requires ties { Ties (K.pre knot.now.call.now) (K.post knot.now.call.now) knot.now.nest }
    ensures traces { Traces (spec.trace_prefixed cursor.old (tracers_to cursor.old knot.now.nest) c
        outline.old.marks at) outline.new.marks result }
    ensures within { IfOk result (λ end. end.at ≤ length cursor.old) }
    ensures same { cursor.new ≡ cursor.old }
    ensures kept { outline.new.kept ≡ outline.old.kept }
{
    let token = cursor.token(Goal::Operand, at)?;
    if is_sign(cursor, token) {
        outline.role(Role::Prefix, token)?;
        return trace_operand(cursor, outline, knot, c, token.end);
    }
    if is_await(cursor, c, token) {
        outline.role(Role::Await, token)?;
        return trace_operand(cursor, outline, knot, c, token.end);
    }
    if !is_update(cursor, token) {
        return Err(ParseFault::Syntax);
    }
    outline.one(token)?;
    let end = trace_simple_target(cursor, outline, knot, c, token.end)?;
    outline.put(Mark::Updated)?;
    Ok(Stop {
        at: end,
        ending: Ending::Expression,
    })
}
