//! Parts of patterns: elements of arrays and properties of objects.
ghost use Rattle.std.specs.Prelude.{◌≡◌, ◌≤◌, length, IfOk};
ghost use Rattle.es_trace.specs.Basics.{Traces};
ghost use Rattle.es_trace.specs.Targets as spec;
ghost use Rattle.es_trace.specs.Tying.{tracers_to};
ghost use Rattle.es_cursor.specs.Standing.{Lies, Stands};
ghost use Rattle.es_nest.specs.Ties.{Ties};

use crate::simple::trace_target;
use es_begins::bracketed;
use es_cursor::Cursor;
use es_functions::{initializer_behind, trace_property_key};
use es_grammar::{Context, Stop};
use es_nest::Knot;
use es_outline::{Mark, Outline, Role};
use es_reader::ParseFault;
use es_trace::Rule;
use es_tree::{Goal, Token};

// What may stand behind a target, by the token that stands there.
#[tactic(auto, unfolding(es_trace::specs::Targets::part_by, es_trace::specs::Targets::part_initialised))]
fn part_by<K: Fn(&mut Cursor, &mut Outline, Rule, Context, u32) -> Result<Stop, ParseFault>>(
    cursor: &mut Cursor,
    outline: &mut Outline,
    knot: &Knot<K>,
    c: Context,
    at: u32,
    behind: Token,
) -> Result<u32, ParseFault>
    requires stands { Stands cursor.old at }
    requires lies { Lies cursor.old behind }
    requires ties { Ties (K.pre knot.now.call.now) (K.post knot.now.call.now) knot.now.nest }
    ensures traces { Traces (spec.part_by cursor.old (tracers_to cursor.old knot.now.nest) c
        outline.old.marks at behind) outline.new.marks result }
    ensures within { IfOk result (λ end. end ≤ length cursor.old) }
    ensures same { cursor.new ≡ cursor.old }
    ensures kept { outline.new.kept ≡ outline.old.kept }
{
    if cursor.is_mark(b"=", behind) {
        let stop = initializer_behind(cursor, outline, knot, bracketed(c), behind)?;
        return Ok(stop.at);
    }
    Ok(at)
}

// An element of an array pattern, or what a key names.
#[tactic(auto, unfolding(es_trace::specs::Targets::trace_target_part, es_trace::specs::Targets::part_behind))]
pub(crate) fn trace_target_part<
    K: Fn(&mut Cursor, &mut Outline, Rule, Context, u32) -> Result<Stop, ParseFault>,
>(
    cursor: &mut Cursor,
    outline: &mut Outline,
    knot: &Knot<K>,
    c: Context,
    at: u32,
) -> Result<u32, ParseFault>
    requires stands { Stands cursor.old at }
    requires ties { Ties (K.pre knot.now.call.now) (K.post knot.now.call.now) knot.now.nest }
    ensures traces { Traces (spec.trace_target_part cursor.old (tracers_to cursor.old
        knot.now.nest) c outline.old.marks at) outline.new.marks result }
    ensures within { IfOk result (λ end. end ≤ length cursor.old) }
    ensures same { cursor.new ≡ cursor.old }
    ensures kept { outline.new.kept ≡ outline.old.kept }
{
    let end = trace_target(cursor, outline, knot, bracketed(c), at)?;
    let behind = cursor.token(Goal::Operator, end)?;
    part_by(cursor, outline, knot, c, end, behind)
}

// A Name of an object pattern: the key, or a shorthand.
#[tactic(auto, unfolding(es_trace::specs::Targets::named_target, es_trace::specs::Targets::named_by))]
fn named_target<K: Fn(&mut Cursor, &mut Outline, Rule, Context, u32) -> Result<Stop, ParseFault>>(
    cursor: &mut Cursor,
    outline: &mut Outline,
    knot: &Knot<K>,
    c: Context,
    name: Token,
) -> Result<u32, ParseFault>
    requires lies { Lies cursor.old name }
    requires ties { Ties (K.pre knot.now.call.now) (K.post knot.now.call.now) knot.now.nest }
    ensures traces { Traces (spec.named_target cursor.old (tracers_to cursor.old knot.now.nest) c
        outline.old.marks name) outline.new.marks result }
    ensures within { IfOk result (λ end. end ≤ length cursor.old) }
    ensures same { cursor.new ≡ cursor.old }
    ensures kept { outline.new.kept ≡ outline.old.kept }
{
    let behind = cursor.token(Goal::Operator, name.end)?;
    if cursor.is_mark(b":", behind) {
        outline.one(name)?;
        outline.one(behind)?;
        return trace_target_part(cursor, outline, knot, c, behind.end);
    }
    outline.put(Mark::Shorthand)?;
    outline.role(Role::Reference, name)?;
    outline.put(Mark::Assigned)?;
    part_by(cursor, outline, knot, c, name.end, behind)
}

// A property of an object pattern.
#[tactic(auto, unfolding(es_trace::specs::Targets::trace_target_property, es_trace::specs::Targets::keyed_target))]
pub(crate) fn trace_target_property<
    K: Fn(&mut Cursor, &mut Outline, Rule, Context, u32) -> Result<Stop, ParseFault>,
>(
    cursor: &mut Cursor,
    outline: &mut Outline,
    knot: &Knot<K>,
    c: Context,
    at: u32,
) -> Result<u32, ParseFault>
    requires stands { Stands cursor.old at }
    requires ties { Ties (K.pre knot.now.call.now) (K.post knot.now.call.now) knot.now.nest }
    ensures traces { Traces (spec.trace_target_property cursor.old (tracers_to cursor.old
        knot.now.nest) c outline.old.marks at) outline.new.marks result }
    ensures within { IfOk result (λ end. end ≤ length cursor.old) }
    ensures same { cursor.new ≡ cursor.old }
    ensures kept { outline.new.kept ≡ outline.old.kept }
{
    let token = cursor.token(Goal::Operand, at)?;
    if cursor.is_name(c, token)? {
        return named_target(cursor, outline, knot, c, token);
    }
    let end = trace_property_key(cursor, outline, knot, c, at)?;
    trace_target_part(cursor, outline, knot, c, end)
}
