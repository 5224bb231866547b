//! Patterns of targets.
ghost use Rattle.std.specs.Prelude.{◌≡◌, ◌≤◌, length, IfOk};
ghost use Rattle.es_trace.specs.Basics.{Traces};
ghost use Rattle.es_trace.specs.Targets as spec;
ghost use Rattle.es_trace.specs.Tying.{tracers_to};
ghost use Rattle.es_trace.specs.Loops as loops;
ghost use Rattle.es_trace.specs.Lists as lists;
ghost use Rattle.es_cursor.specs.Standing.{Lies, Stands};
ghost use Rattle.es_nest.specs.Turns.{state_of};
ghost use Rattle.es_nest.specs.Ties.{Ties};

use crate::parts::{trace_target_part, trace_target_property};
use crate::simple::{trace_simple_target, trace_target};
use es_begins::{bracketed, ends_parts};
use es_cursor::Cursor;
use es_grammar::{Context, Stop};
use es_nest::{Knot, all_turns, comma_behind, first_at};
use es_outline::Outline;
use es_reader::ParseFault;
use es_trace::{Listed, Rule, Turn};
use es_tree::{Goal, Token};

// One more element of an array pattern or hole, or the end of the list.
#[tactic(auto, unfolding(es_trace::specs::Targets::array_turn, es_trace::specs::Lists::elements_turn, es_trace::specs::Lists::element_or_hole, es_trace::specs::Lists::list_part))]
fn array_turn<K: Fn(&mut Cursor, &mut Outline, Rule, Context, u32) -> Result<Stop, ParseFault>>(
    cursor: &mut Cursor,
    outline: &mut Outline,
    knot: &Knot<K>,
    c: Context,
    state: Listed,
) -> Result<Turn<Listed>, ParseFault>
    requires stands { Stands cursor.old state.at }
    requires ties { Ties (K.pre knot.now.call.now) (K.post knot.now.call.now) knot.now.nest }
    ensures traces { Traces (spec.array_turn cursor.old (tracers_to cursor.old knot.now.nest) c
        outline.old.marks state) outline.new.marks result }
    ensures within { IfOk result (λ turn. (state_of turn).at ≤ length cursor.old) }
    ensures same { cursor.new ≡ cursor.old }
    ensures kept { outline.new.kept ≡ outline.old.kept }
{
    let token = cursor.token(Goal::Operator, state.at)?;
    if ends_parts(cursor, b"]", token) {
        return Ok(Turn::Ended(state));
    }
    if cursor.is_mark(b",", token) {
        outline.one(token)?;
        return Ok(Turn::More(first_at(token.end)));
    }
    let end = trace_target_part(cursor, outline, knot, c, state.at)?;
    comma_behind(cursor, outline, end)
}

// The elements of an array pattern.
fn array_list<K: Fn(&mut Cursor, &mut Outline, Rule, Context, u32) -> Result<Stop, ParseFault>>(
    cursor: &mut Cursor,
    outline: &mut Outline,
    knot: &Knot<K>,
    c: Context,
    at: u32,
) -> Result<Listed, ParseFault>
    requires stands { Stands cursor.old at }
    requires ties { Ties (K.pre knot.now.call.now) (K.post knot.now.call.now) knot.now.nest }
    ensures traces { Traces (loops.all_turns cursor.old (spec.array_turn cursor.old (tracers_to
        cursor.old knot.now.nest) c) outline.old.marks (lists.first_at at)) outline.new.marks
        result }
    ensures within { IfOk result (λ end. end.at ≤ length cursor.old) }
    ensures same { cursor.new ≡ cursor.old }
    ensures kept { outline.new.kept ≡ outline.old.kept }
{
    let turn = |cursor: &mut Cursor, outline: &mut Outline, state: Listed| {
        array_turn(cursor, outline, knot, c, state)
    };
    all_turns(cursor, outline, &turn, first_at(at))
}

// An array pattern, whose `[` was seen.
#[tactic(auto, unfolding(es_trace::specs::Targets::trace_array_target, es_trace::specs::Targets::array_behind, es_trace::specs::Targets::array_with_rest, es_trace::specs::Targets::array_without_rest, es_trace::specs::Lists::rest_behind))]
fn array_target<K: Fn(&mut Cursor, &mut Outline, Rule, Context, u32) -> Result<Stop, ParseFault>>(
    cursor: &mut Cursor,
    outline: &mut Outline,
    knot: &Knot<K>,
    c: Context,
    left: Token,
) -> Result<u32, ParseFault>
    requires lies { Lies cursor.old left }
    requires ties { Ties (K.pre knot.now.call.now) (K.post knot.now.call.now) knot.now.nest }
    ensures traces { Traces (spec.trace_array_target cursor.old (tracers_to cursor.old
        knot.now.nest) c outline.old.marks left) outline.new.marks result }
    ensures within { IfOk result (λ end. end ≤ length cursor.old) }
    ensures same { cursor.new ≡ cursor.old }
    ensures kept { outline.new.kept ≡ outline.old.kept }
{
    outline.one(left)?;
    let list = array_list(cursor, outline, knot, c, left.end)?;
    let token = cursor.token(Goal::Operand, list.at)?;
    let end = if cursor.is_mark(b"...", token) && list.ready {
        outline.one(token)?;
        trace_target(cursor, outline, knot, bracketed(c), token.end)?
    } else {
        list.at
    };
    let right = cursor.mark(Goal::Operator, b"]", end)?;
    outline.one(right)?;
    Ok(right.end)
}

// One more property of an object pattern, or the end of the list.
#[tactic(auto, unfolding(es_trace::specs::Targets::object_turn, es_trace::specs::Lists::list_turn, es_trace::specs::Lists::list_part))]
fn object_turn<K: Fn(&mut Cursor, &mut Outline, Rule, Context, u32) -> Result<Stop, ParseFault>>(
    cursor: &mut Cursor,
    outline: &mut Outline,
    knot: &Knot<K>,
    c: Context,
    state: Listed,
) -> Result<Turn<Listed>, ParseFault>
    requires stands { Stands cursor.old state.at }
    requires ties { Ties (K.pre knot.now.call.now) (K.post knot.now.call.now) knot.now.nest }
    ensures traces { Traces (spec.object_turn cursor.old (tracers_to cursor.old knot.now.nest) c
        outline.old.marks state) outline.new.marks result }
    ensures within { IfOk result (λ turn. (state_of turn).at ≤ length cursor.old) }
    ensures same { cursor.new ≡ cursor.old }
    ensures kept { outline.new.kept ≡ outline.old.kept }
{
    let token = cursor.token(Goal::Operand, state.at)?;
    if ends_parts(cursor, b"}", token) {
        return Ok(Turn::Ended(state));
    }
    let end = trace_target_property(cursor, outline, knot, c, state.at)?;
    comma_behind(cursor, outline, end)
}

// The properties of an object pattern.
fn object_list<K: Fn(&mut Cursor, &mut Outline, Rule, Context, u32) -> Result<Stop, ParseFault>>(
    cursor: &mut Cursor,
    outline: &mut Outline,
    knot: &Knot<K>,
    c: Context,
    at: u32,
) -> Result<Listed, ParseFault>
    requires stands { Stands cursor.old at }
    requires ties { Ties (K.pre knot.now.call.now) (K.post knot.now.call.now) knot.now.nest }
    ensures traces { Traces (loops.all_turns cursor.old (spec.object_turn cursor.old (tracers_to
        cursor.old knot.now.nest) c) outline.old.marks (lists.first_at at)) outline.new.marks
        result }
    ensures within { IfOk result (λ end. end.at ≤ length cursor.old) }
    ensures same { cursor.new ≡ cursor.old }
    ensures kept { outline.new.kept ≡ outline.old.kept }
{
    let turn = |cursor: &mut Cursor, outline: &mut Outline, state: Listed| {
        object_turn(cursor, outline, knot, c, state)
    };
    all_turns(cursor, outline, &turn, first_at(at))
}

// An object pattern, whose `{` was seen.
#[tactic(auto, unfolding(es_trace::specs::Targets::trace_object_target, es_trace::specs::Targets::object_behind, es_trace::specs::Targets::object_with_rest, es_trace::specs::Targets::object_without_rest, es_trace::specs::Lists::rest_behind))]
fn object_target<K: Fn(&mut Cursor, &mut Outline, Rule, Context, u32) -> Result<Stop, ParseFault>>(
    cursor: &mut Cursor,
    outline: &mut Outline,
    knot: &Knot<K>,
    c: Context,
    left: Token,
) -> Result<u32, ParseFault>
    requires lies { Lies cursor.old left }
    requires ties { Ties (K.pre knot.now.call.now) (K.post knot.now.call.now) knot.now.nest }
    ensures traces { Traces (spec.trace_object_target cursor.old (tracers_to cursor.old
        knot.now.nest) c outline.old.marks left) outline.new.marks result }
    ensures within { IfOk result (λ end. end ≤ length cursor.old) }
    ensures same { cursor.new ≡ cursor.old }
    ensures kept { outline.new.kept ≡ outline.old.kept }
{
    outline.one(left)?;
    let list = object_list(cursor, outline, knot, c, left.end)?;
    let token = cursor.token(Goal::Operand, list.at)?;
    let end = if cursor.is_mark(b"...", token) && list.ready {
        outline.one(token)?;
        trace_simple_target(cursor, outline, knot, bracketed(c), token.end)?
    } else {
        list.at
    };
    let right = cursor.mark(Goal::Operator, b"}", end)?;
    outline.one(right)?;
    Ok(right.end)
}

/// A pattern of targets.
#[tactic(auto, unfolding(es_trace::specs::Targets::trace_target_pattern))]
pub fn trace_target_pattern<
    K: Fn(&mut Cursor, &mut Outline, Rule, Context, u32) -> Result<Stop, ParseFault>,
>(
    cursor: &mut Cursor,
    outline: &mut Outline,
    knot: &Knot<K>,
    c: Context,
    at: u32,
) -> Result<u32, ParseFault>
    requires stands { Stands cursor.old at }
    requires ties { Ties (K.pre knot.now.call.now) (K.post knot.now.call.now) knot.now.nest }
    ensures traces { Traces (spec.trace_target_pattern cursor.old (tracers_to cursor.old
        knot.now.nest) c outline.old.marks at) outline.new.marks result }
    ensures within { IfOk result (λ end. end ≤ length cursor.old) }
    ensures same { cursor.new ≡ cursor.old }
    ensures kept { outline.new.kept ≡ outline.old.kept }
{
    let token = cursor.token(Goal::Operand, at)?;
    if cursor.is_mark(b"[", token) {
        return array_target(cursor, outline, knot, c, token);
    }
    if cursor.is_mark(b"{", token) {
        return object_target(cursor, outline, knot, c, token);
    }
    Err(ParseFault::Syntax)
}
