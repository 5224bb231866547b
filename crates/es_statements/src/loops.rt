//! `for` from behind its head or its declarations on.
ghost use Rattle.std.specs.Prelude.{◌≡◌, ◌≤◌, length, IfOk};
ghost use Rattle.es_trace.specs.Basics.{Traces};
ghost use Rattle.es_trace.specs.Statements as spec;
ghost use Rattle.es_trace.specs.Tying.{tracers_to};
ghost use Rattle.es_cursor.specs.Standing.{Lies, Stands};
ghost use Rattle.es_nest.specs.Ties.{Ties};

use es_begins::bracketed;
use es_cursor::Cursor;
use es_grammar::{Context, Stop};
use es_nest::Knot;
use es_operands::trace_closed_expr;
use es_outline::Outline;
use es_reader::ParseFault;
use es_trace::Rule;
use es_tree::{Goal, Token};

// `)` and the statement behind it.
#[tactic(auto, unfolding(es_trace::specs::Statements::for_body))]
fn for_body<K: Fn(&mut Cursor, &mut Outline, Rule, Context, u32) -> Result<Stop, ParseFault>>(
    cursor: &mut Cursor,
    outline: &mut Outline,
    knot: &Knot<K>,
    c: Context,
    at: u32,
) -> Result<u32, ParseFault>
    requires stands { Stands cursor.old at }
    requires ties { Ties (K.pre knot.now.call.now) (K.post knot.now.call.now) knot.now.nest }
    ensures traces { Traces (spec.for_body cursor.old (tracers_to cursor.old knot.now.nest) c
        outline.old.marks at) outline.new.marks result }
    ensures within { IfOk result (λ end. end ≤ length cursor.old) }
    ensures same { cursor.new ≡ cursor.old }
    ensures kept { outline.new.kept ≡ outline.old.kept }
{
    let right = cursor.mark(Goal::Operator, b")", at)?;
    outline.one(right)?;
    knot.stmt(cursor, outline, c, right.end)
}

/// `of`, which was seen, and what stands behind it.
#[tactic(auto, unfolding(es_trace::specs::Statements::of_behind))]
pub(crate) fn of_behind<
    K: Fn(&mut Cursor, &mut Outline, Rule, Context, u32) -> Result<Stop, ParseFault>,
>(
    cursor: &mut Cursor,
    outline: &mut Outline,
    knot: &Knot<K>,
    c: Context,
    middle: Token,
) -> Result<u32, ParseFault>
    requires lies { Lies cursor.old middle }
    requires ties { Ties (K.pre knot.now.call.now) (K.post knot.now.call.now) knot.now.nest }
    ensures traces { Traces (spec.of_behind cursor.old (tracers_to cursor.old knot.now.nest) c
        outline.old.marks middle) outline.new.marks result }
    ensures within { IfOk result (λ end. end ≤ length cursor.old) }
    ensures same { cursor.new ≡ cursor.old }
    ensures kept { outline.new.kept ≡ outline.old.kept }
{
    outline.one(middle)?;
    let stop = knot.assign(cursor, outline, bracketed(c), middle.end)?;
    for_body(cursor, outline, knot, c, stop.at)
}

/// `in`, which was seen, and what stands behind it.
#[tactic(auto, unfolding(es_trace::specs::Statements::in_behind))]
pub(crate) fn in_behind<
    K: Fn(&mut Cursor, &mut Outline, Rule, Context, u32) -> Result<Stop, ParseFault>,
>(
    cursor: &mut Cursor,
    outline: &mut Outline,
    knot: &Knot<K>,
    c: Context,
    middle: Token,
) -> Result<u32, ParseFault>
    requires lies { Lies cursor.old middle }
    requires ties { Ties (K.pre knot.now.call.now) (K.post knot.now.call.now) knot.now.nest }
    ensures traces { Traces (spec.in_behind cursor.old (tracers_to cursor.old knot.now.nest) c
        outline.old.marks middle) outline.new.marks result }
    ensures within { IfOk result (λ end. end ≤ length cursor.old) }
    ensures same { cursor.new ≡ cursor.old }
    ensures kept { outline.new.kept ≡ outline.old.kept }
{
    outline.one(middle)?;
    let end = trace_closed_expr(cursor, outline, knot, bracketed(c), middle.end)?;
    for_body(cursor, outline, knot, c, end)
}

/// `of` or `in` behind a head, and what stands behind it.
#[tactic(auto, unfolding(es_trace::specs::Statements::for_each))]
pub(crate) fn for_each<
    K: Fn(&mut Cursor, &mut Outline, Rule, Context, u32) -> Result<Stop, ParseFault>,
>(
    cursor: &mut Cursor,
    outline: &mut Outline,
    knot: &Knot<K>,
    c: Context,
    at: u32,
) -> Result<u32, ParseFault>
    requires stands { Stands cursor.old at }
    requires ties { Ties (K.pre knot.now.call.now) (K.post knot.now.call.now) knot.now.nest }
    ensures traces { Traces (spec.for_each cursor.old (tracers_to cursor.old knot.now.nest) c
        outline.old.marks at) outline.new.marks result }
    ensures within { IfOk result (λ end. end ≤ length cursor.old) }
    ensures same { cursor.new ≡ cursor.old }
    ensures kept { outline.new.kept ≡ outline.old.kept }
{
    let token = cursor.token(Goal::Operator, at)?;
    if cursor.is_word(b"of", token) {
        return of_behind(cursor, outline, knot, c, token);
    }
    if cursor.is_word(b"in", token) {
        return in_behind(cursor, outline, knot, c, token);
    }
    Err(ParseFault::Syntax)
}

// An expression, unless the mark behind it stands already.
#[tactic(auto, unfolding(es_trace::specs::Statements::trace_optional_expr))]
fn trace_optional_expr<
    K: Fn(&mut Cursor, &mut Outline, Rule, Context, u32) -> Result<Stop, ParseFault>,
>(
    cursor: &mut Cursor,
    outline: &mut Outline,
    knot: &Knot<K>,
    c: Context,
    closing: &[u8],
    at: u32,
) -> Result<u32, ParseFault>
    requires stands { Stands cursor.old at }
    requires ties { Ties (K.pre knot.now.call.now) (K.post knot.now.call.now) knot.now.nest }
    ensures traces { Traces (spec.trace_optional_expr cursor.old (tracers_to cursor.old
        knot.now.nest) c closing.now outline.old.marks at) outline.new.marks result }
    ensures within { IfOk result (λ end. end ≤ length cursor.old) }
    ensures same { cursor.new ≡ cursor.old }
    ensures kept { outline.new.kept ≡ outline.old.kept }
{
    let token = cursor.token(Goal::Operand, at)?;
    if cursor.is_mark(closing, token) {
        return Ok(at);
    }
    trace_closed_expr(cursor, outline, knot, bracketed(c), at)
}

/// `;` behind what is done first, and what stands behind it.
#[tactic(auto, unfolding(es_trace::specs::Statements::for_loop))]
pub(crate) fn for_loop<
    K: Fn(&mut Cursor, &mut Outline, Rule, Context, u32) -> Result<Stop, ParseFault>,
>(
    cursor: &mut Cursor,
    outline: &mut Outline,
    knot: &Knot<K>,
    c: Context,
    at: u32,
) -> Result<u32, ParseFault>
    requires stands { Stands cursor.old at }
    requires ties { Ties (K.pre knot.now.call.now) (K.post knot.now.call.now) knot.now.nest }
    ensures traces { Traces (spec.for_loop cursor.old (tracers_to cursor.old knot.now.nest) c
        outline.old.marks at) outline.new.marks result }
    ensures within { IfOk result (λ end. end ≤ length cursor.old) }
    ensures same { cursor.new ≡ cursor.old }
    ensures kept { outline.new.kept ≡ outline.old.kept }
{
    let first = cursor.mark(Goal::Operator, b";", at)?;
    outline.one(first)?;
    let test = trace_optional_expr(cursor, outline, knot, c, b";", first.end)?;
    let second = cursor.mark(Goal::Operator, b";", test)?;
    outline.one(second)?;
    let update = trace_optional_expr(cursor, outline, knot, c, b")", second.end)?;
    for_body(cursor, outline, knot, c, update)
}
