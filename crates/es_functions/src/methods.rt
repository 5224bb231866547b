//! Methods of objects and of classes.
ghost use Rattle.std.specs.Prelude.{◌≡◌, ◌≤◌, length, IfOk};
ghost use Rattle.es_trace.specs.Basics.{Traces};
ghost use Rattle.es_trace.specs.Functions as spec;
ghost use Rattle.es_trace.specs.Tying.{tracers_to};
ghost use Rattle.es_cursor.specs.Standing.{Lies, Stands};
ghost use Rattle.es_nest.specs.Ties.{Ties};
ghost use Rattle.es_functions.specs.Keys.{a_key};

use crate::binds::trace_part;
use crate::bodies::{function_body, trace_callable};
use crate::funcs::read_star;
use crate::keys::{Keys, key_of};
use es_begins::{begins_accessor, begins_async_method, in_function};
use es_cursor::Cursor;
use es_grammar::{Context, Stop};
use es_nest::Knot;
use es_outline::{Outline, Part};
use es_reader::ParseFault;
use es_trace::Rule;
use es_tree::{Goal, Token};

/// A method from behind its key on.
#[tactic(auto, unfolding(es_trace::specs::Functions::method_behind))]
pub fn method_behind<
    K: Fn(&mut Cursor, &mut Outline, Rule, Context, u32) -> Result<Stop, ParseFault>,
>(
    cursor: &mut Cursor,
    outline: &mut Outline,
    knot: &Knot<K>,
    c: Context,
    is_async: bool,
    is_generator: bool,
    at: u32,
) -> Result<u32, ParseFault>
    requires stands { Stands cursor.old at }
    requires ties { Ties (K.pre knot.now.call.now) (K.post knot.now.call.now) knot.now.nest }
    ensures traces { Traces (spec.method_behind cursor.old (tracers_to cursor.old knot.now.nest)
        c is_async is_generator outline.old.marks at) outline.new.marks result }
    ensures within { IfOk result (λ end. end ≤ length cursor.old) }
    ensures same { cursor.new ≡ cursor.old }
    ensures kept { outline.new.kept ≡ outline.old.kept }
{
    let inner = in_function(is_async, is_generator, c);
    trace_callable(cursor, outline, knot, inner, at)
}

// A method behind `async`, if that is there.
#[tactic(auto, unfolding(es_trace::specs::Functions::trace_starred_method))]
fn trace_starred_method<
    K: Fn(&mut Cursor, &mut Outline, Rule, Context, u32) -> Result<Stop, ParseFault>,
>(
    cursor: &mut Cursor,
    outline: &mut Outline,
    knot: &Knot<K>,
    c: Context,
    keys: Keys,
    is_async: bool,
    at: u32,
) -> Result<u32, ParseFault>
    requires stands { Stands cursor.old at }
    requires ties { Ties (K.pre knot.now.call.now) (K.post knot.now.call.now) knot.now.nest }
    ensures traces { Traces (spec.trace_starred_method cursor.old (tracers_to cursor.old
        knot.now.nest) c (a_key keys cursor.old (tracers_to cursor.old knot.now.nest) c)
        is_async outline.old.marks at) outline.new.marks result }
    ensures within { IfOk result (λ end. end ≤ length cursor.old) }
    ensures same { cursor.new ≡ cursor.old }
    ensures kept { outline.new.kept ≡ outline.old.kept }
{
    let (star, behind) = read_star(cursor, at)?;
    outline.maybe(star)?;
    let end = key_of(cursor, outline, knot, c, keys, behind)?;
    method_behind(cursor, outline, knot, c, is_async, star.is_some(), end)
}

// A getter, whose `get` was seen.
#[tactic(auto, unfolding(es_trace::specs::Functions::trace_getter))]
fn trace_getter<K: Fn(&mut Cursor, &mut Outline, Rule, Context, u32) -> Result<Stop, ParseFault>>(
    cursor: &mut Cursor,
    outline: &mut Outline,
    knot: &Knot<K>,
    c: Context,
    keys: Keys,
    word: Token,
) -> Result<u32, ParseFault>
    requires lies { Lies cursor.old word }
    requires ties { Ties (K.pre knot.now.call.now) (K.post knot.now.call.now) knot.now.nest }
    ensures traces { Traces (spec.trace_getter cursor.old (tracers_to cursor.old knot.now.nest)
        c (a_key keys cursor.old (tracers_to cursor.old knot.now.nest) c) outline.old.marks
        word) outline.new.marks result }
    ensures within { IfOk result (λ end. end ≤ length cursor.old) }
    ensures same { cursor.new ≡ cursor.old }
    ensures kept { outline.new.kept ≡ outline.old.kept }
{
    outline.one(word)?;
    let behind = key_of(cursor, outline, knot, c, keys, word.end)?;
    let left = cursor.mark(Goal::Operator, b"(", behind)?;
    let right = cursor.mark(Goal::Operand, b")", left.end)?;
    outline.begin(Part::Function)?;
    outline.one(left)?;
    outline.one(right)?;
    function_body(
        cursor,
        outline,
        knot,
        in_function(false, false, c),
        right.end,
    )
}

// A setter, whose `set` was seen.
#[tactic(auto, unfolding(es_trace::specs::Functions::trace_setter))]
fn trace_setter<K: Fn(&mut Cursor, &mut Outline, Rule, Context, u32) -> Result<Stop, ParseFault>>(
    cursor: &mut Cursor,
    outline: &mut Outline,
    knot: &Knot<K>,
    c: Context,
    keys: Keys,
    word: Token,
) -> Result<u32, ParseFault>
    requires lies { Lies cursor.old word }
    requires ties { Ties (K.pre knot.now.call.now) (K.post knot.now.call.now) knot.now.nest }
    ensures traces { Traces (spec.trace_setter cursor.old (tracers_to cursor.old knot.now.nest)
        c (a_key keys cursor.old (tracers_to cursor.old knot.now.nest) c) outline.old.marks
        word) outline.new.marks result }
    ensures within { IfOk result (λ end. end ≤ length cursor.old) }
    ensures same { cursor.new ≡ cursor.old }
    ensures kept { outline.new.kept ≡ outline.old.kept }
{
    outline.one(word)?;
    let behind = key_of(cursor, outline, knot, c, keys, word.end)?;
    let left = cursor.mark(Goal::Operator, b"(", behind)?;
    outline.begin(Part::Function)?;
    outline.one(left)?;
    let inner = in_function(false, false, c);
    let behind = trace_part(cursor, outline, knot, inner, left.end)?;
    let right = cursor.mark(Goal::Operator, b")", behind)?;
    outline.one(right)?;
    function_body(cursor, outline, knot, inner, right.end)
}

// A method with the keys of an object or of a class.
#[tactic(auto, unfolding(es_trace::specs::Functions::trace_method))]
pub(crate) fn method_with_keys<
    K: Fn(&mut Cursor, &mut Outline, Rule, Context, u32) -> Result<Stop, ParseFault>,
>(
    cursor: &mut Cursor,
    outline: &mut Outline,
    knot: &Knot<K>,
    c: Context,
    keys: Keys,
    at: u32,
) -> Result<u32, ParseFault>
    requires stands { Stands cursor.old at }
    requires ties { Ties (K.pre knot.now.call.now) (K.post knot.now.call.now) knot.now.nest }
    ensures traces { Traces (spec.trace_method cursor.old (tracers_to cursor.old knot.now.nest)
        c (a_key keys cursor.old (tracers_to cursor.old knot.now.nest) c) outline.old.marks at)
        outline.new.marks result }
    ensures within { IfOk result (λ end. end ≤ length cursor.old) }
    ensures same { cursor.new ≡ cursor.old }
    ensures kept { outline.new.kept ≡ outline.old.kept }
{
    let token = cursor.token(Goal::Operand, at)?;
    if begins_accessor(cursor, b"get", token) {
        return trace_getter(cursor, outline, knot, c, keys, token);
    }
    if begins_accessor(cursor, b"set", token) {
        return trace_setter(cursor, outline, knot, c, keys, token);
    }
    if begins_async_method(cursor, token) {
        outline.one(token)?;
        return trace_starred_method(cursor, outline, knot, c, keys, true, token.end);
    }
    trace_starred_method(cursor, outline, knot, c, keys, false, at)
}

/// A method of an object.
pub fn trace_method<
    K: Fn(&mut Cursor, &mut Outline, Rule, Context, u32) -> Result<Stop, ParseFault>,
>(
    cursor: &mut Cursor,
    outline: &mut Outline,
    knot: &Knot<K>,
    c: Context,
    at: u32,
) -> Result<u32, ParseFault>
    requires stands { Stands cursor.old at }
    requires ties { Ties (K.pre knot.now.call.now) (K.post knot.now.call.now) knot.now.nest }
    ensures traces { Traces (spec.trace_method cursor.old (tracers_to cursor.old knot.now.nest)
        c (spec.trace_key cursor.old (tracers_to cursor.old knot.now.nest) c) outline.old.marks
        at) outline.new.marks result }
    ensures within { IfOk result (λ end. end ≤ length cursor.old) }
    ensures same { cursor.new ≡ cursor.old }
    ensures kept { outline.new.kept ≡ outline.old.kept }
{
    method_with_keys(cursor, outline, knot, c, Keys::OfObject, at)
}
