//! LeftHandSideExpressions: a base and its suffixes, and `new`.
ghost use Rattle.std.specs.Prelude.{◌≡◌, ◌≤◌, length, IfOk};
ghost use Rattle.es_trace.specs.Basics.{Traces};
ghost use Rattle.es_trace.specs.Expressions as spec;
ghost use Rattle.es_trace.specs.Loops.{all_turns as turns};
ghost use Rattle.es_trace.specs.Tying.{tracers_to};
ghost use Rattle.es_cursor.specs.Standing.{Lies, Stands};
ghost use Rattle.es_nest.specs.Ties.{Ties};

use crate::arguments::args_behind;
use crate::bases::{base_from, import_base};
use crate::suffixes::{members_turn, no_suffixes, suffixes_turn};
use es_begins::begins_with_name;
use es_cursor::Cursor;
use es_grammar::{Context, Stop};
use es_nest::{Knot, all_turns};
use es_outline::{Outline, Role};
use es_reader::ParseFault;
use es_trace::{Chain, Rule, Suffixes};
use es_tree::{Goal, Token};

// What it is, by whether its base is a Name, and by its suffixes.
fn chain(is_name: bool, suffixes: Suffixes) -> Chain
    ensures { result ≡ spec.chain is_name suffixes }
{
    Chain {
        at: suffixes.at,
        is_name: is_name && suffixes.is_empty,
        is_member: suffixes.end_with_member,
    }
}

// Suffixes, as far as they go.
fn trace_suffixes<K: Fn(&mut Cursor, &mut Outline, Rule, Context, u32) -> Result<Stop, ParseFault>>(
    cursor: &mut Cursor,
    outline: &mut Outline,
    knot: &Knot<K>,
    c: Context,
    at: u32,
) -> Result<Suffixes, ParseFault>
    requires stands { Stands cursor.old at }
    requires ties { Ties (K.pre knot.now.call.now) (K.post knot.now.call.now) knot.now.nest }
    ensures traces { Traces (turns cursor.old (spec.suffixes_turn cursor.old (tracers_to
        cursor.old knot.now.nest) c) outline.old.marks (spec.no_suffixes at)) outline.new.marks
        result }
    ensures within { IfOk result (λ x. x.at ≤ length cursor.old) }
    ensures same { cursor.new ≡ cursor.old }
    ensures kept { outline.new.kept ≡ outline.old.kept }
{
    let turn = |cursor: &mut Cursor, outline: &mut Outline, state: Suffixes| suffixes_turn(
        cursor, outline, knot, c, state,
    );
    all_turns(cursor, outline, &turn, no_suffixes(at))
}

// The suffixes behind a base.
#[tactic(auto, unfolding(es_trace::specs::Expressions::parts_behind))]
fn parts_behind<K: Fn(&mut Cursor, &mut Outline, Rule, Context, u32) -> Result<Stop, ParseFault>>(
    cursor: &mut Cursor,
    outline: &mut Outline,
    knot: &Knot<K>,
    c: Context,
    is_name: bool,
    at: u32,
) -> Result<Chain, ParseFault>
    requires stands { Stands cursor.old at }
    requires ties { Ties (K.pre knot.now.call.now) (K.post knot.now.call.now) knot.now.nest }
    ensures traces { Traces (spec.parts_behind cursor.old (tracers_to cursor.old knot.now.nest) c
        is_name outline.old.marks at) outline.new.marks result }
    ensures within { IfOk result (λ x. x.at ≤ length cursor.old) }
    ensures same { cursor.new ≡ cursor.old }
    ensures kept { outline.new.kept ≡ outline.old.kept }
{
    let suffixes = trace_suffixes(cursor, outline, knot, c, at)?;
    if suffixes.has_plain_templates {
        return Ok(chain(is_name, suffixes));
    }
    Err(ParseFault::Syntax)
}

// `super`, which was seen, and the suffixes behind it.
#[tactic(auto, unfolding(es_trace::specs::Expressions::super_parts))]
fn super_parts<K: Fn(&mut Cursor, &mut Outline, Rule, Context, u32) -> Result<Stop, ParseFault>>(
    cursor: &mut Cursor,
    outline: &mut Outline,
    knot: &Knot<K>,
    c: Context,
    token: Token,
) -> Result<Chain, ParseFault>
    requires lies { Lies cursor.old token }
    requires ties { Ties (K.pre knot.now.call.now) (K.post knot.now.call.now) knot.now.nest }
    ensures traces { Traces (spec.super_parts cursor.old (tracers_to cursor.old knot.now.nest) c
        outline.old.marks token) outline.new.marks result }
    ensures within { IfOk result (λ x. x.at ≤ length cursor.old) }
    ensures same { cursor.new ≡ cursor.old }
    ensures kept { outline.new.kept ≡ outline.old.kept }
{
    outline.one(token)?;
    let suffixes = trace_suffixes(cursor, outline, knot, c, token.end)?;
    if suffixes.follow_super && suffixes.has_plain_templates {
        return Ok(chain(false, suffixes));
    }
    Err(ParseFault::Syntax)
}

/// The parts of a LeftHandSideExpression.
#[tactic(auto, unfolding(es_trace::specs::Expressions::trace_parts, es_trace::specs::Expressions::parts_from, es_trace::specs::Expressions::import_parts, es_trace::specs::Expressions::other_parts))]
pub fn trace_parts<
    K: Fn(&mut Cursor, &mut Outline, Rule, Context, u32) -> Result<Stop, ParseFault>,
>(
    cursor: &mut Cursor,
    outline: &mut Outline,
    knot: &Knot<K>,
    c: Context,
    at: u32,
) -> Result<Chain, ParseFault>
    requires stands { Stands cursor.old at }
    requires ties { Ties (K.pre knot.now.call.now) (K.post knot.now.call.now) knot.now.nest }
    ensures traces { Traces (spec.trace_parts cursor.old (tracers_to cursor.old knot.now.nest) c
        outline.old.marks at) outline.new.marks result }
    ensures within { IfOk result (λ x. x.at ≤ length cursor.old) }
    ensures same { cursor.new ≡ cursor.old }
    ensures kept { outline.new.kept ≡ outline.old.kept }
{
    let token = cursor.token(Goal::Operand, at)?;
    if begins_with_name(cursor, c, token)? {
        outline.role(Role::Reference, token)?;
        return parts_behind(cursor, outline, knot, c, true, token.end);
    }
    if cursor.is_word(b"super", token) {
        return super_parts(cursor, outline, knot, c, token);
    }
    if cursor.is_word(b"import", token) {
        let end = import_base(cursor, outline, knot, c, token)?;
        return parts_behind(cursor, outline, knot, c, false, end);
    }
    let end = base_from(cursor, outline, knot, c, at, token)?;
    parts_behind(cursor, outline, knot, c, false, end)
}

/// A LeftHandSideExpression.
#[tactic(auto, unfolding(es_trace::specs::Expressions::trace_lhs))]
pub fn trace_lhs<K: Fn(&mut Cursor, &mut Outline, Rule, Context, u32) -> Result<Stop, ParseFault>>(
    cursor: &mut Cursor,
    outline: &mut Outline,
    knot: &Knot<K>,
    c: Context,
    at: u32,
) -> Result<u32, ParseFault>
    requires stands { Stands cursor.old at }
    requires ties { Ties (K.pre knot.now.call.now) (K.post knot.now.call.now) knot.now.nest }
    ensures traces { Traces (spec.trace_lhs cursor.old (tracers_to cursor.old knot.now.nest) c
        outline.old.marks at) outline.new.marks result }
    ensures within { IfOk result (λ end. end ≤ length cursor.old) }
    ensures same { cursor.new ≡ cursor.old }
    ensures kept { outline.new.kept ≡ outline.old.kept }
{
    let chain = trace_parts(cursor, outline, knot, c, at)?;
    Ok(chain.at)
}

// Suffixes of the callee of `new`, as far as they go.
fn trace_members<K: Fn(&mut Cursor, &mut Outline, Rule, Context, u32) -> Result<Stop, ParseFault>>(
    cursor: &mut Cursor,
    outline: &mut Outline,
    knot: &Knot<K>,
    c: Context,
    at: u32,
) -> Result<Suffixes, ParseFault>
    requires stands { Stands cursor.old at }
    requires ties { Ties (K.pre knot.now.call.now) (K.post knot.now.call.now) knot.now.nest }
    ensures traces { Traces (turns cursor.old (spec.members_turn cursor.old (tracers_to
        cursor.old knot.now.nest) c) outline.old.marks (spec.no_suffixes at)) outline.new.marks
        result }
    ensures within { IfOk result (λ x. x.at ≤ length cursor.old) }
    ensures same { cursor.new ≡ cursor.old }
    ensures kept { outline.new.kept ≡ outline.old.kept }
{
    let turn = |cursor: &mut Cursor, outline: &mut Outline, state: Suffixes| members_turn(
        cursor, outline, knot, c, state,
    );
    all_turns(cursor, outline, &turn, no_suffixes(at))
}

// The callee of `new`.
#[tactic(auto, unfolding(es_trace::specs::Expressions::trace_callee, es_trace::specs::Expressions::callee_from, es_trace::specs::Expressions::other_callee, es_trace::specs::Expressions::callee_behind, es_trace::specs::Expressions::super_callee))]
fn trace_callee<K: Fn(&mut Cursor, &mut Outline, Rule, Context, u32) -> Result<Stop, ParseFault>>(
    cursor: &mut Cursor,
    outline: &mut Outline,
    knot: &Knot<K>,
    c: Context,
    at: u32,
) -> Result<u32, ParseFault>
    requires stands { Stands cursor.old at }
    requires ties { Ties (K.pre knot.now.call.now) (K.post knot.now.call.now) knot.now.nest }
    ensures traces { Traces (spec.trace_callee cursor.old (tracers_to cursor.old knot.now.nest) c
        outline.old.marks at) outline.new.marks result }
    ensures within { IfOk result (λ end. end ≤ length cursor.old) }
    ensures same { cursor.new ≡ cursor.old }
    ensures kept { outline.new.kept ≡ outline.old.kept }
{
    let token = cursor.token(Goal::Operand, at)?;
    if begins_with_name(cursor, c, token)? {
        outline.role(Role::Reference, token)?;
        let suffixes = trace_members(cursor, outline, knot, c, token.end)?;
        return Ok(suffixes.at);
    }
    if cursor.is_word(b"super", token) {
        outline.one(token)?;
        let suffixes = trace_members(cursor, outline, knot, c, token.end)?;
        if suffixes.follow_super {
            return Ok(suffixes.at);
        }
        return Err(ParseFault::Syntax);
    }
    let end = base_from(cursor, outline, knot, c, at, token)?;
    let suffixes = trace_members(cursor, outline, knot, c, end)?;
    Ok(suffixes.at)
}

/// `new`, its callee, and its arguments where they stand there.
#[tactic(auto, unfolding(es_trace::specs::Expressions::trace_new, es_trace::specs::Expressions::new_behind))]
pub fn trace_new<K: Fn(&mut Cursor, &mut Outline, Rule, Context, u32) -> Result<Stop, ParseFault>>(
    cursor: &mut Cursor,
    outline: &mut Outline,
    knot: &Knot<K>,
    c: Context,
    at: u32,
) -> Result<u32, ParseFault>
    requires stands { Stands cursor.old at }
    requires ties { Ties (K.pre knot.now.call.now) (K.post knot.now.call.now) knot.now.nest }
    ensures traces { Traces (spec.trace_new cursor.old (tracers_to cursor.old knot.now.nest) c
        outline.old.marks at) outline.new.marks result }
    ensures within { IfOk result (λ end. end ≤ length cursor.old) }
    ensures same { cursor.new ≡ cursor.old }
    ensures kept { outline.new.kept ≡ outline.old.kept }
{
    let new = cursor.word(Goal::Operand, b"new", at)?;
    outline.role(Role::New, new)?;
    let end = trace_callee(cursor, outline, knot, c, new.end)?;
    let token = cursor.token(Goal::Operator, end)?;
    if cursor.is_mark(b"(", token) {
        return args_behind(cursor, outline, knot, c, token);
    }
    Ok(end)
}
