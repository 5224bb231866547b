//! Blocks and `try`.
ghost use Rattle.std.specs.Prelude.{◌≡◌, ◌≤◌, length, IfOk};
ghost use Rattle.es_trace.specs.Basics.{Traces};
ghost use Rattle.es_trace.specs.Statements as spec;
ghost use Rattle.es_trace.specs.Tying.{tracers_to};
ghost use Rattle.es_cursor.specs.Standing.{Lies, Stands};
ghost use Rattle.es_nest.specs.Ties.{Ties};

use es_begins::bracketed;
use es_cursor::Cursor;
use es_functions::{body_behind, trace_bind, trace_body};
use es_grammar::{Context, Stop};
use es_nest::Knot;
use es_outline::{Outline, Part};
use es_reader::ParseFault;
use es_trace::Rule;
use es_tree::{Goal, Token};

// A block.
#[tactic(auto, unfolding(es_trace::specs::Statements::trace_block))]
fn trace_block<K: Fn(&mut Cursor, &mut Outline, Rule, Context, u32) -> Result<Stop, ParseFault>>(
    cursor: &mut Cursor,
    outline: &mut Outline,
    knot: &Knot<K>,
    c: Context,
    at: u32,
) -> Result<u32, ParseFault>
    requires stands { Stands cursor.old at }
    requires ties { Ties (K.pre knot.now.call.now) (K.post knot.now.call.now) knot.now.nest }
    ensures traces { Traces (spec.trace_block cursor.old (tracers_to cursor.old knot.now.nest)
        c outline.old.marks at) outline.new.marks result }
    ensures within { IfOk result (λ end. end ≤ length cursor.old) }
    ensures same { cursor.new ≡ cursor.old }
    ensures kept { outline.new.kept ≡ outline.old.kept }
{
    outline.begin(Part::Block)?;
    let end = trace_body(cursor, outline, knot, c, at)?;
    outline.end(Part::Block)?;
    Ok(end)
}

/// A block, whose `{` was seen.
#[tactic(auto, unfolding(es_trace::specs::Statements::block_behind))]
pub(crate) fn block_behind<
    K: Fn(&mut Cursor, &mut Outline, Rule, Context, u32) -> Result<Stop, ParseFault>,
>(
    cursor: &mut Cursor,
    outline: &mut Outline,
    knot: &Knot<K>,
    c: Context,
    left: Token,
) -> Result<u32, ParseFault>
    requires lies { Lies cursor.old left }
    requires ties { Ties (K.pre knot.now.call.now) (K.post knot.now.call.now) knot.now.nest }
    ensures traces { Traces (spec.block_behind cursor.old (tracers_to cursor.old knot.now.nest)
        c outline.old.marks left) outline.new.marks result }
    ensures within { IfOk result (λ end. end ≤ length cursor.old) }
    ensures same { cursor.new ≡ cursor.old }
    ensures kept { outline.new.kept ≡ outline.old.kept }
{
    outline.begin(Part::Block)?;
    let end = body_behind(cursor, outline, knot, c, left)?;
    outline.end(Part::Block)?;
    Ok(end)
}

// The parameter of `catch` in parentheses, if one stands there.
#[tactic(auto, unfolding(es_trace::specs::Statements::trace_catch_parameter, es_trace::specs::Statements::parameter_behind))]
fn trace_catch_parameter<
    K: Fn(&mut Cursor, &mut Outline, Rule, Context, u32) -> Result<Stop, ParseFault>,
>(
    cursor: &mut Cursor,
    outline: &mut Outline,
    knot: &Knot<K>,
    c: Context,
    at: u32,
) -> Result<u32, ParseFault>
    requires stands { Stands cursor.old at }
    requires ties { Ties (K.pre knot.now.call.now) (K.post knot.now.call.now) knot.now.nest }
    ensures traces { Traces (spec.trace_catch_parameter cursor.old (tracers_to cursor.old
        knot.now.nest) c outline.old.marks at) outline.new.marks result }
    ensures within { IfOk result (λ end. end ≤ length cursor.old) }
    ensures same { cursor.new ≡ cursor.old }
    ensures kept { outline.new.kept ≡ outline.old.kept }
{
    let left = cursor.token(Goal::Operand, at)?;
    if cursor.is_mark(b"(", left) {
        outline.one(left)?;
        let end = trace_bind(cursor, outline, knot, bracketed(c), left.end)?;
        let right = cursor.mark(Goal::Operator, b")", end)?;
        outline.one(right)?;
        return Ok(right.end);
    }
    Ok(at)
}

// `finally` and a block, if it stands there.
#[tactic(auto, unfolding(es_trace::specs::Statements::trace_optional_finally))]
fn trace_optional_finally<
    K: Fn(&mut Cursor, &mut Outline, Rule, Context, u32) -> Result<Stop, ParseFault>,
>(
    cursor: &mut Cursor,
    outline: &mut Outline,
    knot: &Knot<K>,
    c: Context,
    at: u32,
) -> Result<u32, ParseFault>
    requires stands { Stands cursor.old at }
    requires ties { Ties (K.pre knot.now.call.now) (K.post knot.now.call.now) knot.now.nest }
    ensures traces { Traces (spec.trace_optional_finally cursor.old (tracers_to cursor.old
        knot.now.nest) c outline.old.marks at) outline.new.marks result }
    ensures within { IfOk result (λ end. end ≤ length cursor.old) }
    ensures same { cursor.new ≡ cursor.old }
    ensures kept { outline.new.kept ≡ outline.old.kept }
{
    match cursor.peek(Goal::Operand, at) {
        Some(token) if cursor.is_word(b"finally", token) => {
            outline.one(token)?;
            trace_block(cursor, outline, knot, c, token.end)
        }
        _ => Ok(at),
    }
}

// `catch`, which was seen, and what stands behind it.
#[tactic(auto, unfolding(es_trace::specs::Statements::try_catch))]
fn try_catch<K: Fn(&mut Cursor, &mut Outline, Rule, Context, u32) -> Result<Stop, ParseFault>>(
    cursor: &mut Cursor,
    outline: &mut Outline,
    knot: &Knot<K>,
    c: Context,
    catch: Token,
) -> Result<u32, ParseFault>
    requires lies { Lies cursor.old catch }
    requires ties { Ties (K.pre knot.now.call.now) (K.post knot.now.call.now) knot.now.nest }
    ensures traces { Traces (spec.try_catch cursor.old (tracers_to cursor.old knot.now.nest) c
        outline.old.marks catch) outline.new.marks result }
    ensures within { IfOk result (λ end. end ≤ length cursor.old) }
    ensures same { cursor.new ≡ cursor.old }
    ensures kept { outline.new.kept ≡ outline.old.kept }
{
    outline.one(catch)?;
    outline.begin(Part::Catch)?;
    let left = trace_catch_parameter(cursor, outline, knot, c, catch.end)?;
    let end = trace_block(cursor, outline, knot, c, left)?;
    outline.end(Part::Catch)?;
    trace_optional_finally(cursor, outline, knot, c, end)
}

/// `try`, which was seen.
#[tactic(auto, unfolding(es_trace::specs::Statements::try_stmt))]
pub(crate) fn try_stmt<
    K: Fn(&mut Cursor, &mut Outline, Rule, Context, u32) -> Result<Stop, ParseFault>,
>(
    cursor: &mut Cursor,
    outline: &mut Outline,
    knot: &Knot<K>,
    c: Context,
    word: Token,
) -> Result<u32, ParseFault>
    requires lies { Lies cursor.old word }
    requires ties { Ties (K.pre knot.now.call.now) (K.post knot.now.call.now) knot.now.nest }
    ensures traces { Traces (spec.try_stmt cursor.old (tracers_to cursor.old knot.now.nest) c
        outline.old.marks word) outline.new.marks result }
    ensures within { IfOk result (λ end. end ≤ length cursor.old) }
    ensures same { cursor.new ≡ cursor.old }
    ensures kept { outline.new.kept ≡ outline.old.kept }
{
    outline.one(word)?;
    let end = trace_block(cursor, outline, knot, c, word.end)?;
    let token = cursor.token(Goal::Operand, end)?;
    if cursor.is_word(b"catch", token) {
        return try_catch(cursor, outline, knot, c, token);
    }
    if cursor.is_word(b"finally", token) {
        outline.one(token)?;
        return trace_block(cursor, outline, knot, c, token.end);
    }
    Err(ParseFault::Syntax)
}
