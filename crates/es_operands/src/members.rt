//! Members of objects.
ghost use Rattle.std.specs.Prelude.{◌≡◌, ◌≤◌, length, IfOk};
ghost use Rattle.es_trace.specs.Basics.{Traces};
ghost use Rattle.es_trace.specs.Expressions as spec;
ghost use Rattle.es_trace.specs.Tying.{tracers_to};
ghost use Rattle.es_cursor.specs.Standing.{Lies, Stands};
ghost use Rattle.es_nest.specs.Ties.{Ties};
ghost use Rattle.es_nest.specs.Turns.{state_of};

use crate::arguments::{trace_mark, value_behind};
use es_begins::begins_method;
use es_cursor::Cursor;
use es_functions::{method_behind, trace_key, trace_method};
use es_grammar::{Context, Stop};
use es_nest::{Knot, all_turns, comma_behind, first_at};
use es_outline::{Mark, Outline, Role};
use es_reader::ParseFault;
use es_trace::{Listed, Rule, Turn};
use es_tree::{Goal, Token};

// A member that begins with a key that is no Name.
#[tactic(auto, unfolding(es_trace::specs::Expressions::keyed_member, es_trace::specs::Expressions::keyed_by))]
fn keyed_member<K: Fn(&mut Cursor, &mut Outline, Rule, Context, u32) -> Result<Stop, ParseFault>>(
    cursor: &mut Cursor,
    outline: &mut Outline,
    knot: &Knot<K>,
    c: Context,
    at: u32,
) -> Result<u32, ParseFault>
    requires stands { Stands cursor.old at }
    requires ties { Ties (K.pre knot.now.call.now) (K.post knot.now.call.now) knot.now.nest }
    ensures traces { Traces (spec.keyed_member cursor.old (tracers_to cursor.old knot.now.nest) c
        outline.old.marks at) outline.new.marks result }
    ensures within { IfOk result (λ end. end ≤ length cursor.old) }
    ensures same { cursor.new ≡ cursor.old }
    ensures kept { outline.new.kept ≡ outline.old.kept }
{
    let end = trace_key(cursor, outline, knot, c, at)?;
    let next = cursor.token(Goal::Operator, end)?;
    if cursor.is_mark(b":", next) {
        return value_behind(cursor, outline, knot, c, next);
    }
    if cursor.is_mark(b"(", next) {
        return method_behind(cursor, outline, knot, c, false, false, end);
    }
    Err(ParseFault::Syntax)
}

// A member that begins with a Name: it is a key where `:` or `(` stands behind it.
#[tactic(auto, unfolding(es_trace::specs::Expressions::named_member, es_trace::specs::Expressions::named_by))]
fn named_member<K: Fn(&mut Cursor, &mut Outline, Rule, Context, u32) -> Result<Stop, ParseFault>>(
    cursor: &mut Cursor,
    outline: &mut Outline,
    knot: &Knot<K>,
    c: Context,
    name: Token,
) -> Result<u32, ParseFault>
    requires lies { Lies cursor.old name }
    requires ties { Ties (K.pre knot.now.call.now) (K.post knot.now.call.now) knot.now.nest }
    ensures traces { Traces (spec.named_member cursor.old (tracers_to cursor.old knot.now.nest) c
        outline.old.marks name) outline.new.marks result }
    ensures within { IfOk result (λ end. end ≤ length cursor.old) }
    ensures same { cursor.new ≡ cursor.old }
    ensures kept { outline.new.kept ≡ outline.old.kept }
{
    let next = cursor.token(Goal::Operator, name.end)?;
    if cursor.is_mark(b":", next) {
        outline.one(name)?;
        return value_behind(cursor, outline, knot, c, next);
    }
    if cursor.is_mark(b"(", next) {
        outline.one(name)?;
        return method_behind(cursor, outline, knot, c, false, false, name.end);
    }
    outline.put(Mark::Shorthand)?;
    outline.role(Role::Reference, name)?;
    Ok(name.end)
}

// A member.
#[tactic(auto, unfolding(es_trace::specs::Expressions::trace_member))]
fn trace_member<K: Fn(&mut Cursor, &mut Outline, Rule, Context, u32) -> Result<Stop, ParseFault>>(
    cursor: &mut Cursor,
    outline: &mut Outline,
    knot: &Knot<K>,
    c: Context,
    at: u32,
) -> Result<u32, ParseFault>
    requires stands { Stands cursor.old at }
    requires ties { Ties (K.pre knot.now.call.now) (K.post knot.now.call.now) knot.now.nest }
    ensures traces { Traces (spec.trace_member cursor.old (tracers_to cursor.old knot.now.nest) c
        outline.old.marks at) outline.new.marks result }
    ensures within { IfOk result (λ end. end ≤ length cursor.old) }
    ensures same { cursor.new ≡ cursor.old }
    ensures kept { outline.new.kept ≡ outline.old.kept }
{
    let token = cursor.token(Goal::Operand, at)?;
    if cursor.is_mark(b"...", token) {
        return value_behind(cursor, outline, knot, c, token);
    }
    if begins_method(cursor, token) {
        return trace_method(cursor, outline, knot, c, at);
    }
    if cursor.is_name(c, token)? {
        return named_member(cursor, outline, knot, c, token);
    }
    keyed_member(cursor, outline, knot, c, at)
}

// A turn of the list of members.
#[tactic(auto, unfolding(es_trace::specs::Lists::list_turn, es_trace::specs::Lists::list_part))]
fn object_turn<K: Fn(&mut Cursor, &mut Outline, Rule, Context, u32) -> Result<Stop, ParseFault>>(
    cursor: &mut Cursor,
    outline: &mut Outline,
    knot: &Knot<K>,
    c: Context,
    state: Listed,
) -> Result<Turn<Listed>, ParseFault>
    requires stands { Stands cursor.old state.at }
    requires ties { Ties (K.pre knot.now.call.now) (K.post knot.now.call.now) knot.now.nest }
    ensures traces { Traces (spec.object_turn cursor.old (tracers_to cursor.old knot.now.nest) c
        outline.old.marks state) outline.new.marks result }
    ensures within { IfOk result (λ turn. (state_of turn).at ≤ length cursor.old) }
    ensures same { cursor.new ≡ cursor.old }
    ensures kept { outline.new.kept ≡ outline.old.kept }
{
    let token = cursor.token(Goal::Operand, state.at)?;
    if cursor.is_mark(b"}", token) {
        return Ok(Turn::Ended(state));
    }
    let end = trace_member(cursor, outline, knot, c, state.at)?;
    comma_behind(cursor, outline, end)
}

/// An object, whose `{` was seen.
#[tactic(auto, unfolding(es_trace::specs::Expressions::trace_object))]
pub(crate) fn trace_object<
    K: Fn(&mut Cursor, &mut Outline, Rule, Context, u32) -> Result<Stop, ParseFault>,
>(
    cursor: &mut Cursor,
    outline: &mut Outline,
    knot: &Knot<K>,
    c: Context,
    left: Token,
) -> Result<u32, ParseFault>
    requires lies { Lies cursor.old left }
    requires ties { Ties (K.pre knot.now.call.now) (K.post knot.now.call.now) knot.now.nest }
    ensures traces { Traces (spec.trace_object cursor.old (tracers_to cursor.old knot.now.nest) c
        outline.old.marks left) outline.new.marks result }
    ensures within { IfOk result (λ end. end ≤ length cursor.old) }
    ensures same { cursor.new ≡ cursor.old }
    ensures kept { outline.new.kept ≡ outline.old.kept }
{
    outline.one(left)?;
    let turn = |cursor: &mut Cursor, outline: &mut Outline, state: Listed| object_turn(
        cursor, outline, knot, c, state,
    );
    let listed = all_turns(cursor, outline, &turn, first_at(left.end))?;
    trace_mark(cursor, outline, b"}", listed.at)
}
