//! Targets: Names, members and patterns.
ghost use Rattle.std.specs.Prelude.{◌≡◌, ◌≤◌, length, IfOk, OnErr};
ghost use Rattle.es_trace.specs.Basics.{Traces};
ghost use Rattle.es_trace.specs.Targets as spec;
ghost use Rattle.es_trace.specs.Tying.{tracers_to};
ghost use Rattle.es_cursor.specs.Standing.{Stands};
ghost use Rattle.es_nest.specs.Ties.{Ties};

use crate::bare::{trace_bare, try_bare};
use crate::parens::trace_paren_target;
use es_begins::{begins_pattern, begins_suffix};
use es_cursor::{Attempt, Cursor, Passed};
use es_grammar::{Context, Stop};
use es_nest::Knot;
use es_outline::Outline;
use es_reader::ParseFault;
use es_trace::Rule;
use es_tree::Goal;

/// A Name or a member, either in parentheses.
#[tactic(auto, unfolding(es_trace::specs::Targets::trace_simple_target))]
pub fn trace_simple_target<
    K: Fn(&mut Cursor, &mut Outline, Rule, Context, u32) -> Result<Stop, ParseFault>,
>(
    cursor: &mut Cursor,
    outline: &mut Outline,
    knot: &Knot<K>,
    c: Context,
    at: u32,
) -> Result<u32, ParseFault>
    requires stands { Stands cursor.old at }
    requires ties { Ties (K.pre knot.now.call.now) (K.post knot.now.call.now) knot.now.nest }
    ensures traces { Traces (spec.trace_simple_target cursor.old (tracers_to cursor.old
        knot.now.nest) c outline.old.marks at) outline.new.marks result }
    ensures within { IfOk result (λ end. end ≤ length cursor.old) }
    ensures same { cursor.new ≡ cursor.old }
    ensures kept { outline.new.kept ≡ outline.old.kept }
{
    let token = cursor.token(Goal::Operand, at)?;
    if !cursor.is_mark(b"(", token) {
        return trace_bare(cursor, outline, knot, c, at);
    }
    match try_bare(cursor, outline, knot, c, at) {
        Ok(end) => Ok(end),
        Err(ParseFault::Syntax) => trace_paren_target(cursor, outline, knot, c, token),
        Err(fault) => Err(fault),
    }
}

// A pattern, unless a suffix stands behind it.
#[tactic(auto, unfolding(es_trace::specs::Targets::pattern_alone))]
fn pattern_alone<K: Fn(&mut Cursor, &mut Outline, Rule, Context, u32) -> Result<Stop, ParseFault>>(
    cursor: &mut Cursor,
    outline: &mut Outline,
    knot: &Knot<K>,
    c: Context,
    at: u32,
) -> Result<u32, ParseFault>
    requires stands { Stands cursor.old at }
    requires ties { Ties (K.pre knot.now.call.now) (K.post knot.now.call.now) knot.now.nest }
    ensures traces { Traces (spec.pattern_alone cursor.old (tracers_to cursor.old knot.now.nest) c
        outline.old.marks at) outline.new.marks result }
    ensures within { IfOk result (λ end. end ≤ length cursor.old) }
    ensures same { cursor.new ≡ cursor.old }
    ensures kept { outline.new.kept ≡ outline.old.kept }
{
    let end = knot.target_pattern(cursor, outline, c, at)?;
    let token = cursor.token(Goal::Operator, end)?;
    if begins_suffix(cursor, token) {
        return Err(ParseFault::Syntax);
    }
    Ok(end)
}

// The same where something else may stand there: then the outline is as it was.
fn pattern_or_back<
    K: Fn(&mut Cursor, &mut Outline, Rule, Context, u32) -> Result<Stop, ParseFault>,
>(
    cursor: &mut Cursor,
    outline: &mut Outline,
    knot: &Knot<K>,
    c: Context,
    at: u32,
) -> Result<u32, ParseFault>
    requires stands { Stands cursor.old at }
    requires ties { Ties (K.pre knot.now.call.now) (K.post knot.now.call.now) knot.now.nest }
    ensures traces { Traces (spec.pattern_alone cursor.old (tracers_to cursor.old knot.now.nest) c
        outline.old.marks at) outline.new.marks result }
    ensures within { IfOk result (λ end. end ≤ length cursor.old) }
    ensures same { cursor.new ≡ cursor.old }
    ensures kept { outline.new.kept ≡ outline.old.kept }
    ensures back { OnErr result (outline.new.marks ≡ outline.old.marks) }
{
    let before = outline.keep();
    match pattern_alone(cursor, outline, knot, c, at) {
        Ok(end) => {
            outline.settle(before);
            Ok(end)
        }
        Err(fault) => {
            outline.undo(before);
            Err(fault)
        }
    }
}

// The same, remembered where it was tried in vain.
fn try_pattern_alone<
    K: Fn(&mut Cursor, &mut Outline, Rule, Context, u32) -> Result<Stop, ParseFault>,
>(
    cursor: &mut Cursor,
    outline: &mut Outline,
    knot: &Knot<K>,
    c: Context,
    at: u32,
) -> Result<u32, ParseFault>
    requires stands { Stands cursor.old at }
    requires ties { Ties (K.pre knot.now.call.now) (K.post knot.now.call.now) knot.now.nest }
    ensures traces { Traces (spec.pattern_alone cursor.old (tracers_to cursor.old knot.now.nest) c
        outline.old.marks at) outline.new.marks result }
    ensures within { IfOk result (λ end. end ≤ length cursor.old) }
    ensures same { cursor.new ≡ cursor.old }
    ensures kept { outline.new.kept ≡ outline.old.kept }
    ensures back { OnErr result (outline.new.marks ≡ outline.old.marks) }
{
    let passed = Passed {
        attempt: Attempt::Pattern,
        nest: knot.nest,
        context: c,
        at,
    };
    if cursor.has_passed(passed) {
        return Err(ParseFault::Syntax);
    }
    match pattern_or_back(cursor, outline, knot, c, at) {
        Ok(end) => Ok(end),
        Err(ParseFault::Syntax) => {
            cursor.pass(passed)?;
            Err(ParseFault::Syntax)
        }
        Err(fault) => Err(fault),
    }
}

/// A target of an assignment: a Name, a member, either in parentheses, or a pattern.
#[tactic(auto, unfolding(es_trace::specs::Targets::trace_target))]
pub fn trace_target<
    K: Fn(&mut Cursor, &mut Outline, Rule, Context, u32) -> Result<Stop, ParseFault>,
>(
    cursor: &mut Cursor,
    outline: &mut Outline,
    knot: &Knot<K>,
    c: Context,
    at: u32,
) -> Result<u32, ParseFault>
    requires stands { Stands cursor.old at }
    requires ties { Ties (K.pre knot.now.call.now) (K.post knot.now.call.now) knot.now.nest }
    ensures traces { Traces (spec.trace_target cursor.old (tracers_to cursor.old knot.now.nest) c
        outline.old.marks at) outline.new.marks result }
    ensures within { IfOk result (λ end. end ≤ length cursor.old) }
    ensures same { cursor.new ≡ cursor.old }
    ensures kept { outline.new.kept ≡ outline.old.kept }
{
    let token = cursor.token(Goal::Operand, at)?;
    if !begins_pattern(cursor, token) {
        return trace_simple_target(cursor, outline, knot, c, at);
    }
    match try_pattern_alone(cursor, outline, knot, c, at) {
        Ok(end) => Ok(end),
        Err(ParseFault::Syntax) => trace_bare(cursor, outline, knot, c, at),
        Err(fault) => Err(fault),
    }
}
