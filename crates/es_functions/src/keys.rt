//! Keys of properties, of members and of elements of classes.
ghost use Rattle.std.specs.Prelude.{◌≡◌, ◌≤◌, length, IfOk};
ghost use Rattle.es_trace.specs.Basics.{Traces};
ghost use Rattle.es_trace.specs.Functions as spec;
ghost use Rattle.es_trace.specs.Tying.{tracers_to};
ghost use Rattle.es_cursor.specs.Standing.{Lies, Stands};
ghost use Rattle.es_nest.specs.Ties.{Ties};
ghost use Rattle.es_functions.specs.Keys.{a_key};

use es_begins::bracketed;
use es_cursor::Cursor;
use es_grammar::{Context, Stop};
use es_nest::Knot;
use es_outline::Outline;
use es_reader::ParseFault;
use es_trace::Rule;
use es_tree::{Goal, Token, TokenKind};

/// Whose keys are traced.
#[derive(Clone, Copy, Debug, PartialEq, Eq)]
pub(crate) enum Keys {
    OfObject,
    /// They may be private.
    OfClass,
}

// `[` that was seen, an assignment and `]`.
#[tactic(auto, unfolding(es_trace::specs::Functions::trace_computed_key))]
fn trace_computed_key<
    K: Fn(&mut Cursor, &mut Outline, Rule, Context, u32) -> Result<Stop, ParseFault>,
>(
    cursor: &mut Cursor,
    outline: &mut Outline,
    knot: &Knot<K>,
    c: Context,
    left: Token,
) -> Result<u32, ParseFault>
    requires lies { Lies cursor.old left }
    requires ties { Ties (K.pre knot.now.call.now) (K.post knot.now.call.now) knot.now.nest }
    ensures traces { Traces (spec.trace_computed_key cursor.old (tracers_to cursor.old
        knot.now.nest) c outline.old.marks left) outline.new.marks result }
    ensures within { IfOk result (λ end. end ≤ length cursor.old) }
    ensures same { cursor.new ≡ cursor.old }
    ensures kept { outline.new.kept ≡ outline.old.kept }
{
    outline.one(left)?;
    let stop = knot.assign(cursor, outline, bracketed(c), left.end)?;
    let right = cursor.mark(Goal::Operator, b"]", stop.at)?;
    outline.one(right)?;
    Ok(right.end)
}

/// The key of a property of an object.
#[tactic(auto, unfolding(es_trace::specs::Functions::trace_key))]
pub fn trace_key<K: Fn(&mut Cursor, &mut Outline, Rule, Context, u32) -> Result<Stop, ParseFault>>(
    cursor: &mut Cursor,
    outline: &mut Outline,
    knot: &Knot<K>,
    c: Context,
    at: u32,
) -> Result<u32, ParseFault>
    requires stands { Stands cursor.old at }
    requires ties { Ties (K.pre knot.now.call.now) (K.post knot.now.call.now) knot.now.nest }
    ensures traces { Traces (spec.trace_key cursor.old (tracers_to cursor.old knot.now.nest) c
        outline.old.marks at) outline.new.marks result }
    ensures within { IfOk result (λ end. end ≤ length cursor.old) }
    ensures same { cursor.new ≡ cursor.old }
    ensures kept { outline.new.kept ≡ outline.old.kept }
{
    let token = cursor.token(Goal::Operand, at)?;
    match token.kind {
        TokenKind::IdName | TokenKind::String | TokenKind::Number => {
            outline.one(token)?;
            Ok(token.end)
        }
        TokenKind::Punctuator => {
            if cursor.is_mark(b"[", token) {
                return trace_computed_key(cursor, outline, knot, c, token);
            }
            Err(ParseFault::Syntax)
        }
        _ => Err(ParseFault::Syntax),
    }
}

/// The key of an element of a class, which may be private.
#[tactic(auto, unfolding(es_trace::specs::Functions::trace_element_key, es_trace::specs::Functions::trace_key))]
pub fn trace_element_key<
    K: Fn(&mut Cursor, &mut Outline, Rule, Context, u32) -> Result<Stop, ParseFault>,
>(
    cursor: &mut Cursor,
    outline: &mut Outline,
    knot: &Knot<K>,
    c: Context,
    at: u32,
) -> Result<u32, ParseFault>
    requires stands { Stands cursor.old at }
    requires ties { Ties (K.pre knot.now.call.now) (K.post knot.now.call.now) knot.now.nest }
    ensures traces { Traces (spec.trace_element_key cursor.old (tracers_to cursor.old
        knot.now.nest) c outline.old.marks at) outline.new.marks result }
    ensures within { IfOk result (λ end. end ≤ length cursor.old) }
    ensures same { cursor.new ≡ cursor.old }
    ensures kept { outline.new.kept ≡ outline.old.kept }
{
    let token = cursor.token(Goal::Operand, at)?;
    match token.kind {
        TokenKind::Private => {
            outline.one(token)?;
            Ok(token.end)
        }
        _ => trace_key(cursor, outline, knot, c, at),
    }
}

// A key of an object or of a class.
pub(crate) fn key_of<
    K: Fn(&mut Cursor, &mut Outline, Rule, Context, u32) -> Result<Stop, ParseFault>,
>(
    cursor: &mut Cursor,
    outline: &mut Outline,
    knot: &Knot<K>,
    c: Context,
    keys: Keys,
    at: u32,
) -> Result<u32, ParseFault>
    requires stands { Stands cursor.old at }
    requires ties { Ties (K.pre knot.now.call.now) (K.post knot.now.call.now) knot.now.nest }
    ensures traces { Traces (a_key keys cursor.old (tracers_to cursor.old knot.now.nest) c
        outline.old.marks at) outline.new.marks result }
    ensures within { IfOk result (λ end. end ≤ length cursor.old) }
    ensures same { cursor.new ≡ cursor.old }
    ensures kept { outline.new.kept ≡ outline.old.kept }
{
    match keys {
        Keys::OfObject => trace_key(cursor, outline, knot, c, at),
        Keys::OfClass => trace_element_key(cursor, outline, knot, c, at),
    }
}

/// A key and `:`, in a pattern.
#[tactic(auto, unfolding(es_trace::specs::Functions::trace_property_key))]
pub fn trace_property_key<
    K: Fn(&mut Cursor, &mut Outline, Rule, Context, u32) -> Result<Stop, ParseFault>,
>(
    cursor: &mut Cursor,
    outline: &mut Outline,
    knot: &Knot<K>,
    c: Context,
    at: u32,
) -> Result<u32, ParseFault>
    requires stands { Stands cursor.old at }
    requires ties { Ties (K.pre knot.now.call.now) (K.post knot.now.call.now) knot.now.nest }
    ensures traces { Traces (spec.trace_property_key cursor.old (tracers_to cursor.old
        knot.now.nest) c outline.old.marks at) outline.new.marks result }
    ensures within { IfOk result (λ end. end ≤ length cursor.old) }
    ensures same { cursor.new ≡ cursor.old }
    ensures kept { outline.new.kept ≡ outline.old.kept }
{
    let end = trace_key(cursor, outline, knot, c, at)?;
    let colon = cursor.mark(Goal::Operator, b":", end)?;
    outline.one(colon)?;
    Ok(colon.end)
}
