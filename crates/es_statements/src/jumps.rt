//! Jumps, and statements that are an expression.
ghost use Rattle.std.specs.Prelude.{◌≡◌, ◌≤◌, length, IfOk};
ghost use Rattle.es_trace.specs.Basics.{Traces};
ghost use Rattle.es_trace.specs.Statements as spec;
ghost use Rattle.es_trace.specs.Tying.{tracers_to};
ghost use Rattle.es_cursor.specs.Standing.{Lies, Stands};
ghost use Rattle.es_nest.specs.Ties.{Ties};

use es_begins::{begins_value, bracketed, is_closed, is_label, read_semi};
use es_cursor::Cursor;
use es_grammar::{Context, Ending, Stop};
use es_nest::Knot;
use es_operands::trace_expr;
use es_outline::{Outline, Role};
use es_reader::ParseFault;
use es_trace::Rule;
use es_tree::{Goal, Token};

/// A semicolon behind what ended so.
#[tactic(auto, unfolding(es_trace::specs::Statements::semi_behind))]
pub(crate) fn semi_behind(
    cursor: &mut Cursor,
    outline: &mut Outline,
    stop: Stop,
) -> Result<u32, ParseFault>
    requires stands { Stands cursor.old stop.at }
    ensures traces { Traces (spec.semi_behind cursor.old outline.old.marks stop)
        outline.new.marks result }
    ensures within { IfOk result (λ end. end ≤ length cursor.old) }
    ensures same { cursor.new ≡ cursor.old }
    ensures kept { outline.new.kept ≡ outline.old.kept }
{
    let (semi, end) = read_semi(cursor, stop)?;
    outline.semicolon(semi)?;
    Ok(end)
}

// A label on the line of the word before it, if one stands there.
#[tactic(auto, unfolding(es_trace::specs::Statements::trace_label))]
fn trace_label(
    cursor: &mut Cursor,
    outline: &mut Outline,
    c: Context,
    at: u32,
) -> Result<u32, ParseFault>
    requires stands { Stands cursor.old at }
    ensures traces { Traces (spec.trace_label cursor.old c outline.old.marks at)
        outline.new.marks result }
    ensures within { IfOk result (λ end. end ≤ length cursor.old) }
    ensures same { cursor.new ≡ cursor.old }
    ensures kept { outline.new.kept ≡ outline.old.kept }
{
    match cursor.peek(Goal::Operand, at) {
        Some(token) => {
            if is_label(cursor, c, token)? {
                outline.role(Role::Label, token)?;
                return Ok(token.end);
            }
            Ok(at)
        }
        None => Ok(at),
    }
}

/// `continue` or `break`, which was seen.
#[tactic(auto, unfolding(es_trace::specs::Statements::jump_behind))]
pub(crate) fn jump_behind(
    cursor: &mut Cursor,
    outline: &mut Outline,
    c: Context,
    word: Token,
) -> Result<u32, ParseFault>
    requires lies { Lies cursor.old word }
    ensures traces { Traces (spec.jump_behind cursor.old c outline.old.marks word)
        outline.new.marks result }
    ensures within { IfOk result (λ end. end ≤ length cursor.old) }
    ensures same { cursor.new ≡ cursor.old }
    ensures kept { outline.new.kept ≡ outline.old.kept }
{
    outline.one(word)?;
    let at = trace_label(cursor, outline, c, word.end)?;
    semi_behind(
        cursor,
        outline,
        Stop {
            at,
            ending: Ending::Other,
        },
    )
}

/// An expression that is closed, and its semicolon.
#[tactic(auto, unfolding(es_trace::specs::Statements::expr_stmt))]
pub(crate) fn expr_stmt<
    K: Fn(&mut Cursor, &mut Outline, Rule, Context, u32) -> Result<Stop, ParseFault>,
>(
    cursor: &mut Cursor,
    outline: &mut Outline,
    knot: &Knot<K>,
    c: Context,
    at: u32,
) -> Result<u32, ParseFault>
    requires stands { Stands cursor.old at }
    requires ties { Ties (K.pre knot.now.call.now) (K.post knot.now.call.now) knot.now.nest }
    ensures traces { Traces (spec.expr_stmt cursor.old (tracers_to cursor.old knot.now.nest) c
        outline.old.marks at) outline.new.marks result }
    ensures within { IfOk result (λ end. end ≤ length cursor.old) }
    ensures same { cursor.new ≡ cursor.old }
    ensures kept { outline.new.kept ≡ outline.old.kept }
{
    let stop = trace_expr(cursor, outline, knot, bracketed(c), at)?;
    if is_closed(cursor, stop) {
        return semi_behind(cursor, outline, stop);
    }
    Err(ParseFault::Syntax)
}

/// `throw` or `return`, which was seen, and a value on its line.
#[tactic(auto, unfolding(es_trace::specs::Statements::value_behind))]
pub(crate) fn value_behind<
    K: Fn(&mut Cursor, &mut Outline, Rule, Context, u32) -> Result<Stop, ParseFault>,
>(
    cursor: &mut Cursor,
    outline: &mut Outline,
    knot: &Knot<K>,
    c: Context,
    word: Token,
) -> Result<u32, ParseFault>
    requires lies { Lies cursor.old word }
    requires ties { Ties (K.pre knot.now.call.now) (K.post knot.now.call.now) knot.now.nest }
    ensures traces { Traces (spec.value_behind cursor.old (tracers_to cursor.old knot.now.nest)
        c outline.old.marks word) outline.new.marks result }
    ensures within { IfOk result (λ end. end ≤ length cursor.old) }
    ensures same { cursor.new ≡ cursor.old }
    ensures kept { outline.new.kept ≡ outline.old.kept }
{
    let token = cursor.token(Goal::Operand, word.end)?;
    if token.newline {
        return Err(ParseFault::Syntax);
    }
    outline.one(word)?;
    expr_stmt(cursor, outline, knot, c, word.end)
}

/// A word that was seen, and its semicolon.
#[tactic(auto, unfolding(es_trace::specs::Statements::word_alone))]
pub(crate) fn word_alone(
    cursor: &mut Cursor,
    outline: &mut Outline,
    word: Token,
) -> Result<u32, ParseFault>
    requires lies { Lies cursor.old word }
    ensures traces { Traces (spec.word_alone cursor.old outline.old.marks word)
        outline.new.marks result }
    ensures within { IfOk result (λ end. end ≤ length cursor.old) }
    ensures same { cursor.new ≡ cursor.old }
    ensures kept { outline.new.kept ≡ outline.old.kept }
{
    outline.one(word)?;
    semi_behind(
        cursor,
        outline,
        Stop {
            at: word.end,
            ending: Ending::Other,
        },
    )
}

/// `return`, which was seen, and its value.
#[tactic(auto, unfolding(es_trace::specs::Statements::return_stmt))]
pub(crate) fn return_stmt<
    K: Fn(&mut Cursor, &mut Outline, Rule, Context, u32) -> Result<Stop, ParseFault>,
>(
    cursor: &mut Cursor,
    outline: &mut Outline,
    knot: &Knot<K>,
    c: Context,
    word: Token,
) -> Result<u32, ParseFault>
    requires lies { Lies cursor.old word }
    requires ties { Ties (K.pre knot.now.call.now) (K.post knot.now.call.now) knot.now.nest }
    ensures traces { Traces (spec.return_stmt cursor.old (tracers_to cursor.old knot.now.nest)
        c outline.old.marks word) outline.new.marks result }
    ensures within { IfOk result (λ end. end ≤ length cursor.old) }
    ensures same { cursor.new ≡ cursor.old }
    ensures kept { outline.new.kept ≡ outline.old.kept }
{
    match cursor.peek(Goal::Operand, word.end) {
        Some(token) if begins_value(cursor, token) => value_behind(cursor, outline, knot, c, word),
        _ => word_alone(cursor, outline, word),
    }
}
