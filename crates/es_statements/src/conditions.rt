//! Conditions, and statements that have one.
ghost use Rattle.std.specs.Prelude.{◌≡◌, ◌≤◌, length, IfOk};
ghost use Rattle.es_trace.specs.Basics.{Traces};
ghost use Rattle.es_trace.specs.Statements as spec;
ghost use Rattle.es_trace.specs.Tying.{tracers_to};
ghost use Rattle.es_cursor.specs.Standing.{Lies, Stands};
ghost use Rattle.es_nest.specs.Ties.{Ties};

use es_begins::{bracketed, read_free_semi};
use es_cursor::Cursor;
use es_grammar::{Context, Stop};
use es_nest::Knot;
use es_operands::trace_closed_expr;
use es_outline::Outline;
use es_reader::ParseFault;
use es_trace::Rule;
use es_tree::{Goal, Token};

/// An expression in parentheses.
#[tactic(auto, unfolding(es_trace::specs::Statements::trace_condition))]
pub(crate) fn trace_condition<
    K: Fn(&mut Cursor, &mut Outline, Rule, Context, u32) -> Result<Stop, ParseFault>,
>(
    cursor: &mut Cursor,
    outline: &mut Outline,
    knot: &Knot<K>,
    c: Context,
    at: u32,
) -> Result<u32, ParseFault>
    requires stands { Stands cursor.old at }
    requires ties { Ties (K.pre knot.now.call.now) (K.post knot.now.call.now) knot.now.nest }
    ensures traces { Traces (spec.trace_condition cursor.old (tracers_to cursor.old
        knot.now.nest) c outline.old.marks at) outline.new.marks result }
    ensures within { IfOk result (λ end. end ≤ length cursor.old) }
    ensures same { cursor.new ≡ cursor.old }
    ensures kept { outline.new.kept ≡ outline.old.kept }
{
    let left = cursor.mark(Goal::Operand, b"(", at)?;
    outline.one(left)?;
    let end = trace_closed_expr(cursor, outline, knot, bracketed(c), left.end)?;
    let right = cursor.mark(Goal::Operator, b")", end)?;
    outline.one(right)?;
    Ok(right.end)
}

/// The same, and a statement.
#[tactic(auto, unfolding(es_trace::specs::Statements::condition_and_stmt))]
pub(crate) fn condition_and_stmt<
    K: Fn(&mut Cursor, &mut Outline, Rule, Context, u32) -> Result<Stop, ParseFault>,
>(
    cursor: &mut Cursor,
    outline: &mut Outline,
    knot: &Knot<K>,
    c: Context,
    at: u32,
) -> Result<u32, ParseFault>
    requires stands { Stands cursor.old at }
    requires ties { Ties (K.pre knot.now.call.now) (K.post knot.now.call.now) knot.now.nest }
    ensures traces { Traces (spec.condition_and_stmt cursor.old (tracers_to cursor.old
        knot.now.nest) c outline.old.marks at) outline.new.marks result }
    ensures within { IfOk result (λ end. end ≤ length cursor.old) }
    ensures same { cursor.new ≡ cursor.old }
    ensures kept { outline.new.kept ≡ outline.old.kept }
{
    let end = trace_condition(cursor, outline, knot, c, at)?;
    knot.stmt(cursor, outline, c, end)
}

// `else` and a statement, wherever `else` stands.
#[tactic(auto, unfolding(es_trace::specs::Statements::trace_else))]
fn trace_else<K: Fn(&mut Cursor, &mut Outline, Rule, Context, u32) -> Result<Stop, ParseFault>>(
    cursor: &mut Cursor,
    outline: &mut Outline,
    knot: &Knot<K>,
    c: Context,
    at: u32,
) -> Result<u32, ParseFault>
    requires stands { Stands cursor.old at }
    requires ties { Ties (K.pre knot.now.call.now) (K.post knot.now.call.now) knot.now.nest }
    ensures traces { Traces (spec.trace_else cursor.old (tracers_to cursor.old knot.now.nest) c
        outline.old.marks at) outline.new.marks result }
    ensures within { IfOk result (λ end. end ≤ length cursor.old) }
    ensures same { cursor.new ≡ cursor.old }
    ensures kept { outline.new.kept ≡ outline.old.kept }
{
    match cursor.peek(Goal::Operand, at) {
        Some(token) if cursor.is_word(b"else", token) => {
            outline.one(token)?;
            knot.stmt(cursor, outline, c, token.end)
        }
        _ => Ok(at),
    }
}

/// `if`, which was seen.
#[tactic(auto, unfolding(es_trace::specs::Statements::if_stmt))]
pub(crate) fn if_stmt<
    K: Fn(&mut Cursor, &mut Outline, Rule, Context, u32) -> Result<Stop, ParseFault>,
>(
    cursor: &mut Cursor,
    outline: &mut Outline,
    knot: &Knot<K>,
    c: Context,
    word: Token,
) -> Result<u32, ParseFault>
    requires lies { Lies cursor.old word }
    requires ties { Ties (K.pre knot.now.call.now) (K.post knot.now.call.now) knot.now.nest }
    ensures traces { Traces (spec.if_stmt cursor.old (tracers_to cursor.old knot.now.nest) c
        outline.old.marks word) outline.new.marks result }
    ensures within { IfOk result (λ end. end ≤ length cursor.old) }
    ensures same { cursor.new ≡ cursor.old }
    ensures kept { outline.new.kept ≡ outline.old.kept }
{
    outline.one(word)?;
    let end = condition_and_stmt(cursor, outline, knot, c, word.end)?;
    trace_else(cursor, outline, knot, c, end)
}

/// `do`, which was seen.
#[tactic(auto, unfolding(es_trace::specs::Statements::do_stmt))]
pub(crate) fn do_stmt<
    K: Fn(&mut Cursor, &mut Outline, Rule, Context, u32) -> Result<Stop, ParseFault>,
>(
    cursor: &mut Cursor,
    outline: &mut Outline,
    knot: &Knot<K>,
    c: Context,
    word: Token,
) -> Result<u32, ParseFault>
    requires lies { Lies cursor.old word }
    requires ties { Ties (K.pre knot.now.call.now) (K.post knot.now.call.now) knot.now.nest }
    ensures traces { Traces (spec.do_stmt cursor.old (tracers_to cursor.old knot.now.nest) c
        outline.old.marks word) outline.new.marks result }
    ensures within { IfOk result (λ end. end ≤ length cursor.old) }
    ensures same { cursor.new ≡ cursor.old }
    ensures kept { outline.new.kept ≡ outline.old.kept }
{
    outline.one(word)?;
    let body = knot.stmt(cursor, outline, c, word.end)?;
    let again = cursor.word(Goal::Operand, b"while", body)?;
    outline.one(again)?;
    let right = trace_condition(cursor, outline, knot, c, again.end)?;
    let (semi, end) = read_free_semi(cursor, right);
    outline.semicolon(semi)?;
    Ok(end)
}
