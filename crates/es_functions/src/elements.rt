//! Elements of classes.
ghost use Rattle.std.specs.Prelude.{◌≡◌, ◌≤◌, length, IfOk};
ghost use Rattle.es_trace.specs.Basics.{Traces};
ghost use Rattle.es_trace.specs.Functions as spec;
ghost use Rattle.es_trace.specs.Tying.{tracers_to};
ghost use Rattle.es_cursor.specs.Standing.{Lies, Stands};
ghost use Rattle.es_nest.specs.Ties.{Ties};

use crate::binds::initializer_behind;
use crate::bodies::trace_body;
use crate::keys::{Keys, trace_element_key};
use crate::methods::{method_behind, method_with_keys};
use es_begins::{begins_method, begins_starred_key, in_class, read_semi};
use es_cursor::Cursor;
use es_grammar::{Context, Ending, Stop};
use es_nest::Knot;
use es_outline::{Outline, Part};
use es_reader::ParseFault;
use es_trace::Rule;
use es_tree::{Goal, Token, TokenKind};

// What a field ends in that is its key alone, by the key's first token.
fn key_ending(cursor: &Cursor, token: Token) -> Ending
    requires { Lies cursor.now token }
    ensures { result ≡ spec.key_ending cursor.now token token.kind }
{
    match token.kind {
        TokenKind::IdName => match cursor.spelled(token) {
            b"get" | b"set" => Ending::AccessorKey,
            b"static" => Ending::StaticKey,
            _ => Ending::FieldKey,
        },
        _ => Ending::FieldKey,
    }
}

// A method or a field, by the token behind its key, which ended so.
#[tactic(auto, unfolding(es_trace::specs::Functions::element_by, es_trace::specs::Functions::field_initialised, es_trace::specs::Functions::plain_field))]
fn element_by<K: Fn(&mut Cursor, &mut Outline, Rule, Context, u32) -> Result<Stop, ParseFault>>(
    cursor: &mut Cursor,
    outline: &mut Outline,
    knot: &Knot<K>,
    c: Context,
    stop: Stop,
    next: Token,
) -> Result<u32, ParseFault>
    requires stands { Stands cursor.old stop.at }
    requires lies { Lies cursor.old next }
    requires ties { Ties (K.pre knot.now.call.now) (K.post knot.now.call.now) knot.now.nest }
    ensures traces { Traces (spec.element_by cursor.old (tracers_to cursor.old knot.now.nest) c
        outline.old.marks stop next) outline.new.marks result }
    ensures within { IfOk result (λ end. end ≤ length cursor.old) }
    ensures same { cursor.new ≡ cursor.old }
    ensures kept { outline.new.kept ≡ outline.old.kept }
{
    if cursor.is_mark(b"(", next) {
        return method_behind(cursor, outline, knot, c, false, false, stop.at);
    }
    if cursor.is_mark(b"=", next) {
        let value = initializer_behind(cursor, outline, knot, in_class(c), next)?;
        let (semi, end) = read_semi(cursor, value)?;
        outline.semicolon(semi)?;
        return Ok(end);
    }
    let (semi, end) = read_semi(cursor, stop)?;
    outline.semicolon(semi)?;
    Ok(end)
}

// A method or a field that begins with its key.
#[tactic(auto, unfolding(es_trace::specs::Functions::keyed_element, es_trace::specs::Functions::key_behind))]
fn keyed_element<K: Fn(&mut Cursor, &mut Outline, Rule, Context, u32) -> Result<Stop, ParseFault>>(
    cursor: &mut Cursor,
    outline: &mut Outline,
    knot: &Knot<K>,
    c: Context,
    at: u32,
) -> Result<u32, ParseFault>
    requires stands { Stands cursor.old at }
    requires ties { Ties (K.pre knot.now.call.now) (K.post knot.now.call.now) knot.now.nest }
    ensures traces { Traces (spec.keyed_element cursor.old (tracers_to cursor.old knot.now.nest)
        c outline.old.marks at) outline.new.marks result }
    ensures within { IfOk result (λ end. end ≤ length cursor.old) }
    ensures same { cursor.new ≡ cursor.old }
    ensures kept { outline.new.kept ≡ outline.old.kept }
{
    let first = cursor.token(Goal::Operand, at)?;
    let end = trace_element_key(cursor, outline, knot, c, at)?;
    let next = cursor.token(Goal::Operator, end)?;
    let ending = key_ending(cursor, first);
    element_by(cursor, outline, knot, c, Stop { at: end, ending }, next)
}

// An element, whose first token behind `static` was seen.
#[tactic(auto, unfolding(es_trace::specs::Functions::element_behind))]
fn element_behind<K: Fn(&mut Cursor, &mut Outline, Rule, Context, u32) -> Result<Stop, ParseFault>>(
    cursor: &mut Cursor,
    outline: &mut Outline,
    knot: &Knot<K>,
    c: Context,
    at: u32,
    token: Token,
) -> Result<u32, ParseFault>
    requires stands { Stands cursor.old at }
    requires lies { Lies cursor.old token }
    requires ties { Ties (K.pre knot.now.call.now) (K.post knot.now.call.now) knot.now.nest }
    ensures traces { Traces (spec.element_behind cursor.old (tracers_to cursor.old
        knot.now.nest) c outline.old.marks at token) outline.new.marks result }
    ensures within { IfOk result (λ end. end ≤ length cursor.old) }
    ensures same { cursor.new ≡ cursor.old }
    ensures kept { outline.new.kept ≡ outline.old.kept }
{
    if begins_method(cursor, token) {
        return method_with_keys(cursor, outline, knot, c, Keys::OfClass, at);
    }
    keyed_element(cursor, outline, knot, c, at)
}

// An element that begins with `static`, which may be its key.
#[tactic(auto, unfolding(es_trace::specs::Functions::static_element, es_trace::specs::Functions::static_by, es_trace::specs::Functions::static_block))]
fn static_element<K: Fn(&mut Cursor, &mut Outline, Rule, Context, u32) -> Result<Stop, ParseFault>>(
    cursor: &mut Cursor,
    outline: &mut Outline,
    knot: &Knot<K>,
    c: Context,
    word: Token,
    at: u32,
) -> Result<u32, ParseFault>
    requires lies { Lies cursor.old word }
    requires stands { Stands cursor.old at }
    requires ties { Ties (K.pre knot.now.call.now) (K.post knot.now.call.now) knot.now.nest }
    ensures traces { Traces (spec.static_element cursor.old (tracers_to cursor.old
        knot.now.nest) c outline.old.marks word at) outline.new.marks result }
    ensures within { IfOk result (λ end. end ≤ length cursor.old) }
    ensures same { cursor.new ≡ cursor.old }
    ensures kept { outline.new.kept ≡ outline.old.kept }
{
    let next = cursor.token(Goal::Operand, word.end)?;
    if cursor.is_mark(b"{", next) {
        outline.one(word)?;
        outline.begin(Part::StaticBlock)?;
        let end = trace_body(cursor, outline, knot, in_class(c), word.end)?;
        outline.end(Part::StaticBlock)?;
        return Ok(end);
    }
    if begins_starred_key(cursor, next) {
        outline.one(word)?;
        return element_behind(cursor, outline, knot, c, word.end, next);
    }
    keyed_element(cursor, outline, knot, c, at)
}

// An element of a class.
#[tactic(auto, unfolding(es_trace::specs::Functions::trace_element))]
pub(crate) fn trace_element<
    K: Fn(&mut Cursor, &mut Outline, Rule, Context, u32) -> Result<Stop, ParseFault>,
>(
    cursor: &mut Cursor,
    outline: &mut Outline,
    knot: &Knot<K>,
    c: Context,
    at: u32,
) -> Result<u32, ParseFault>
    requires stands { Stands cursor.old at }
    requires ties { Ties (K.pre knot.now.call.now) (K.post knot.now.call.now) knot.now.nest }
    ensures traces { Traces (spec.trace_element cursor.old (tracers_to cursor.old knot.now.nest)
        c outline.old.marks at) outline.new.marks result }
    ensures within { IfOk result (λ end. end ≤ length cursor.old) }
    ensures same { cursor.new ≡ cursor.old }
    ensures kept { outline.new.kept ≡ outline.old.kept }
{
    let token = cursor.token(Goal::Operand, at)?;
    if cursor.is_mark(b";", token) {
        outline.one(token)?;
        return Ok(token.end);
    }
    if cursor.is_word(b"static", token) {
        return static_element(cursor, outline, knot, c, token, at);
    }
    element_behind(cursor, outline, knot, c, at, token)
}
