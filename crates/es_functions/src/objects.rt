//! Object patterns of bindings.
ghost use Rattle.std.specs.Prelude.{◌≡◌, ◌≤◌, codes, length, IfOk};
ghost use Rattle.es_trace.specs.Basics.{Traces};
ghost use Rattle.es_trace.specs.Functions as spec;
ghost use Rattle.es_trace.specs.Tying.{tracers_to};
ghost use Rattle.es_cursor.specs.Standing.{Lies, Stands};
ghost use Rattle.es_nest.specs.Ties.{Ties};
ghost use Rattle.es_reader.specs.Functions as tests;
ghost use Rattle.es_trace.specs.Lists as lists;
ghost use Rattle.es_trace.specs.Loops as loops;
ghost use Rattle.es_nest.specs.Turns.{state_of};

use crate::arrays::{pattern_end, trace_array_bind};
use crate::binds::{initializer_behind, trace_part};
use crate::keys::trace_property_key;
use es_begins::{bracketed, ends_parts};
use es_cursor::Cursor;
use es_grammar::{Context, Stop};
use es_nest::{Knot, all_turns, comma_behind, first_at};
use es_outline::{Mark, Outline, Part, Role};
use es_reader::ParseFault;
use es_trace::{Listed, Rule, Turn};
use es_tree::{Goal, Token};

// A property that begins with a name.
#[tactic(auto, unfolding(es_trace::specs::Functions::named_property, es_trace::specs::Functions::property_by, es_trace::specs::Functions::property_initialised))]
fn named_property<K: Fn(&mut Cursor, &mut Outline, Rule, Context, u32) -> Result<Stop, ParseFault>>(
    cursor: &mut Cursor,
    outline: &mut Outline,
    knot: &Knot<K>,
    c: Context,
    name: Token,
) -> Result<u32, ParseFault>
    requires lies { Lies cursor.old name }
    requires ties { Ties (K.pre knot.now.call.now) (K.post knot.now.call.now) knot.now.nest }
    ensures traces { Traces (spec.named_property cursor.old (tracers_to cursor.old
        knot.now.nest) c outline.old.marks name) outline.new.marks result }
    ensures within { IfOk result (λ end. end ≤ length cursor.old) }
    ensures same { cursor.new ≡ cursor.old }
    ensures kept { outline.new.kept ≡ outline.old.kept }
{
    let next = cursor.token(Goal::Operator, name.end)?;
    if cursor.is_mark(b":", next) {
        outline.one(name)?;
        outline.one(next)?;
        return trace_part(cursor, outline, knot, c, next.end);
    }
    outline.put(Mark::Shorthand)?;
    outline.role(Role::Bound, name)?;
    if cursor.is_mark(b"=", next) {
        let stop = initializer_behind(cursor, outline, knot, bracketed(c), next)?;
        return Ok(stop.at);
    }
    Ok(name.end)
}

// A property of an object pattern.
#[tactic(auto, unfolding(es_trace::specs::Functions::trace_bind_property, es_trace::specs::Functions::keyed_property))]
fn trace_bind_property<
    K: Fn(&mut Cursor, &mut Outline, Rule, Context, u32) -> Result<Stop, ParseFault>,
>(
    cursor: &mut Cursor,
    outline: &mut Outline,
    knot: &Knot<K>,
    c: Context,
    at: u32,
) -> Result<u32, ParseFault>
    requires stands { Stands cursor.old at }
    requires ties { Ties (K.pre knot.now.call.now) (K.post knot.now.call.now) knot.now.nest }
    ensures traces { Traces (spec.trace_bind_property cursor.old (tracers_to cursor.old
        knot.now.nest) c outline.old.marks at) outline.new.marks result }
    ensures within { IfOk result (λ end. end ≤ length cursor.old) }
    ensures same { cursor.new ≡ cursor.old }
    ensures kept { outline.new.kept ≡ outline.old.kept }
{
    let token = cursor.token(Goal::Operand, at)?;
    if cursor.is_name(c, token)? {
        return named_property(cursor, outline, knot, c, token);
    }
    let behind = trace_property_key(cursor, outline, knot, c, at)?;
    trace_part(cursor, outline, knot, c, behind)
}

// A turn of the properties.
#[tactic(auto, unfolding(es_trace::specs::Lists::list_turn, es_trace::specs::Lists::list_part))]
fn property_turn<K: Fn(&mut Cursor, &mut Outline, Rule, Context, u32) -> Result<Stop, ParseFault>>(
    cursor: &mut Cursor,
    outline: &mut Outline,
    knot: &Knot<K>,
    c: Context,
    state: Listed,
) -> Result<Turn<Listed>, ParseFault>
    requires stands { Stands cursor.old state.at }
    requires ties { Ties (K.pre knot.now.call.now) (K.post knot.now.call.now) knot.now.nest }
    ensures traces { Traces (lists.list_turn cursor.old (tests.ends_parts cursor.old (codes
        "}")) (spec.trace_bind_property cursor.old (tracers_to cursor.old knot.now.nest) c)
        outline.old.marks state) outline.new.marks result }
    ensures within { IfOk result (λ turn. (state_of turn).at ≤ length cursor.old) }
    ensures same { cursor.new ≡ cursor.old }
    ensures kept { outline.new.kept ≡ outline.old.kept }
{
    let token = cursor.token(Goal::Operand, state.at)?;
    if ends_parts(cursor, b"}", token) {
        return Ok(Turn::Ended(state));
    }
    let end = trace_bind_property(cursor, outline, knot, c, state.at)?;
    comma_behind(cursor, outline, end)
}

// The properties, up to `}` or `...`.
fn property_list<K: Fn(&mut Cursor, &mut Outline, Rule, Context, u32) -> Result<Stop, ParseFault>>(
    cursor: &mut Cursor,
    outline: &mut Outline,
    knot: &Knot<K>,
    c: Context,
    at: u32,
) -> Result<Listed, ParseFault>
    requires stands { Stands cursor.old at }
    requires ties { Ties (K.pre knot.now.call.now) (K.post knot.now.call.now) knot.now.nest }
    ensures traces { Traces (loops.all_turns cursor.old (lists.list_turn cursor.old
        (tests.ends_parts cursor.old (codes "}")) (spec.trace_bind_property cursor.old
        (tracers_to cursor.old knot.now.nest) c)) outline.old.marks (lists.first_at at))
        outline.new.marks result }
    ensures within { IfOk result (λ listed. listed.at ≤ length cursor.old) }
    ensures same { cursor.new ≡ cursor.old }
    ensures kept { outline.new.kept ≡ outline.old.kept }
{
    let turn = |cursor: &mut Cursor, outline: &mut Outline, state: Listed| {
        property_turn(cursor, outline, knot, c, state)
    };
    all_turns(cursor, outline, &turn, first_at(at))
}

// An object pattern, whose `{` was seen.
#[tactic(auto, unfolding(es_trace::specs::Functions::trace_object_bind, es_trace::specs::Functions::object_behind, es_trace::specs::Functions::object_with_rest, es_trace::specs::Functions::trace_name_bind, es_trace::specs::Lists::rest_behind))]
fn trace_object_bind<
    K: Fn(&mut Cursor, &mut Outline, Rule, Context, u32) -> Result<Stop, ParseFault>,
>(
    cursor: &mut Cursor,
    outline: &mut Outline,
    knot: &Knot<K>,
    c: Context,
    left: Token,
) -> Result<u32, ParseFault>
    requires lies { Lies cursor.old left }
    requires ties { Ties (K.pre knot.now.call.now) (K.post knot.now.call.now) knot.now.nest }
    ensures traces { Traces (spec.trace_object_bind cursor.old (tracers_to cursor.old
        knot.now.nest) c outline.old.marks left) outline.new.marks result }
    ensures within { IfOk result (λ end. end ≤ length cursor.old) }
    ensures same { cursor.new ≡ cursor.old }
    ensures kept { outline.new.kept ≡ outline.old.kept }
{
    outline.begin(Part::Pattern)?;
    outline.one(left)?;
    let list = property_list(cursor, outline, knot, c, left.end)?;
    let token = cursor.token(Goal::Operand, list.at)?;
    if cursor.is_mark(b"...", token) && list.ready {
        outline.one(token)?;
        let name = cursor.name(Goal::Operand, c, token.end)?;
        outline.role(Role::Bound, name)?;
        return pattern_end(cursor, outline, b"}", name.end);
    }
    pattern_end(cursor, outline, b"}", list.at)
}

/// A pattern of bindings.
#[tactic(auto, unfolding(es_trace::specs::Functions::trace_bind_pattern))]
pub fn trace_bind_pattern<
    K: Fn(&mut Cursor, &mut Outline, Rule, Context, u32) -> Result<Stop, ParseFault>,
>(
    cursor: &mut Cursor,
    outline: &mut Outline,
    knot: &Knot<K>,
    c: Context,
    at: u32,
) -> Result<u32, ParseFault>
    requires stands { Stands cursor.old at }
    requires ties { Ties (K.pre knot.now.call.now) (K.post knot.now.call.now) knot.now.nest }
    ensures traces { Traces (spec.trace_bind_pattern cursor.old (tracers_to cursor.old
        knot.now.nest) c outline.old.marks at) outline.new.marks result }
    ensures within { IfOk result (λ end. end ≤ length cursor.old) }
    ensures same { cursor.new ≡ cursor.old }
    ensures kept { outline.new.kept ≡ outline.old.kept }
{
    let token = cursor.token(Goal::Operand, at)?;
    if cursor.is_mark(b"[", token) {
        return trace_array_bind(cursor, outline, knot, c, token);
    }
    if cursor.is_mark(b"{", token) {
        return trace_object_bind(cursor, outline, knot, c, token);
    }
    Err(ParseFault::Syntax)
}
