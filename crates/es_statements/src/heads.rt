//! `for` and its heads.
ghost use Rattle.std.specs.Prelude.{◌≡◌, ◌≤◌, length, IfOk, OnOk};
ghost use Rattle.es_trace.specs.Basics.{Traces};
ghost use Rattle.es_trace.specs.Statements as spec;
ghost use Rattle.es_trace.specs.Tying.{tracers_to};
ghost use Rattle.es_cursor.specs.Standing.{Lies, Stands};
ghost use Rattle.es_nest.specs.Ties.{Ties};
ghost use Rattle.es_statements.specs.Behind.{BehindFor, BehindParen};

use crate::declarations::{decls_behind, trace_binding};
use crate::loops::{for_each, for_loop, in_behind, of_behind};
use es_begins::{is_declaration_word, without_in};
use es_cursor::{Attempt, Cursor, Passed};
use es_functions::trace_bind;
use es_grammar::{Context, Stop};
use es_nest::Knot;
use es_operands::trace_expr;
use es_outline::{Mark, Outline, Part, Role};
use es_reader::ParseFault;
use es_targets::trace_target;
use es_trace::Rule;
use es_tree::{Goal, Token};
use std::alloc::AllocError;

// Ends the declaration of a head.
fn iterated(outline: &mut Outline) -> Result<(), AllocError>
    ensures marks { OnOk result (outline.new.marks ≡ spec.iterated outline.old.marks) }
    ensures kept { outline.new.kept ≡ outline.old.kept }
{
    outline.put(Mark::Iterated)?;
    outline.end(Part::Declaration)
}

// `var`, `let` or `const`, which was seen, and a name or a pattern.
#[tactic(auto, unfolding(es_trace::specs::Statements::bind_head))]
fn bind_head<K: Fn(&mut Cursor, &mut Outline, Rule, Context, u32) -> Result<Stop, ParseFault>>(
    cursor: &mut Cursor,
    outline: &mut Outline,
    knot: &Knot<K>,
    c: Context,
    word: Token,
) -> Result<u32, ParseFault>
    requires lies { Lies cursor.old word }
    requires ties { Ties (K.pre knot.now.call.now) (K.post knot.now.call.now) knot.now.nest }
    ensures traces { Traces (spec.bind_head cursor.old (tracers_to cursor.old knot.now.nest) c
        outline.old.marks word) outline.new.marks result }
    ensures within { IfOk result (λ end. end ≤ length cursor.old) }
    ensures same { cursor.new ≡ cursor.old }
    ensures kept { outline.new.kept ≡ outline.old.kept }
{
    outline.begin(Part::Declaration)?;
    outline.one(word)?;
    let end = trace_bind(cursor, outline, knot, c, word.end)?;
    iterated(outline)?;
    Ok(end)
}

// Declarations, of which the first name or pattern was read, and what stands behind them.
#[tactic(auto, unfolding(es_trace::specs::Statements::for_declared))]
fn for_declared<K: Fn(&mut Cursor, &mut Outline, Rule, Context, u32) -> Result<Stop, ParseFault>>(
    cursor: &mut Cursor,
    outline: &mut Outline,
    knot: &Knot<K>,
    c: Context,
    is_const: bool,
    binding: (u32, bool),
    token: Token,
) -> Result<u32, ParseFault>
    requires stands { Stands cursor.old binding.0 }
    requires lies { Lies cursor.old token }
    requires ties { Ties (K.pre knot.now.call.now) (K.post knot.now.call.now) knot.now.nest }
    ensures traces { Traces (spec.for_declared cursor.old (tracers_to cursor.old knot.now.nest)
        c is_const outline.old.marks binding token) outline.new.marks result }
    ensures within { IfOk result (λ end. end ≤ length cursor.old) }
    ensures same { cursor.new ≡ cursor.old }
    ensures kept { outline.new.kept ≡ outline.old.kept }
{
    let stop = decls_behind(
        cursor,
        outline,
        knot,
        without_in(c),
        is_const,
        binding,
        token,
    )?;
    outline.end(Part::Declaration)?;
    for_loop(cursor, outline, knot, c, stop.at)
}

// A head or declarations, whose word was seen.
#[tactic(auto, unfolding(es_trace::specs::Statements::for_binding, es_trace::specs::Statements::for_binding_by))]
fn for_binding<K: Fn(&mut Cursor, &mut Outline, Rule, Context, u32) -> Result<Stop, ParseFault>>(
    cursor: &mut Cursor,
    outline: &mut Outline,
    knot: &Knot<K>,
    c: Context,
    word: Token,
) -> Result<u32, ParseFault>
    requires lies { Lies cursor.old word }
    requires ties { Ties (K.pre knot.now.call.now) (K.post knot.now.call.now) knot.now.nest }
    ensures traces { Traces (spec.for_binding cursor.old (tracers_to cursor.old knot.now.nest)
        c outline.old.marks word) outline.new.marks result }
    ensures within { IfOk result (λ end. end ≤ length cursor.old) }
    ensures same { cursor.new ≡ cursor.old }
    ensures kept { outline.new.kept ≡ outline.old.kept }
{
    let is_const = cursor.is_word(b"const", word);
    outline.begin(Part::Declaration)?;
    outline.one(word)?;
    let binding = trace_binding(cursor, outline, knot, without_in(c), word.end)?;
    let token = cursor.token(Goal::Operator, binding.0)?;
    if cursor.is_word(b"of", token) {
        iterated(outline)?;
        return of_behind(cursor, outline, knot, c, token);
    }
    if cursor.is_word(b"in", token) {
        iterated(outline)?;
        return in_behind(cursor, outline, knot, c, token);
    }
    for_declared(cursor, outline, knot, c, is_const, binding, token)
}

// An expression before `;`.
#[tactic(auto, unfolding(es_trace::specs::Statements::init_expr))]
fn init_expr<K: Fn(&mut Cursor, &mut Outline, Rule, Context, u32) -> Result<Stop, ParseFault>>(
    cursor: &mut Cursor,
    outline: &mut Outline,
    knot: &Knot<K>,
    c: Context,
    at: u32,
) -> Result<u32, ParseFault>
    requires stands { Stands cursor.old at }
    requires ties { Ties (K.pre knot.now.call.now) (K.post knot.now.call.now) knot.now.nest }
    ensures traces { Traces (spec.init_expr cursor.old (tracers_to cursor.old knot.now.nest) c
        outline.old.marks at) outline.new.marks result }
    ensures within { IfOk result (λ end. end ≤ length cursor.old) }
    ensures same { cursor.new ≡ cursor.old }
    ensures kept { outline.new.kept ≡ outline.old.kept }
{
    let stop = trace_expr(cursor, outline, knot, c, at)?;
    let token = cursor.token(Goal::Operator, stop.at)?;
    if cursor.is_mark(b";", token) {
        return Ok(stop.at);
    }
    Err(ParseFault::Syntax)
}

// A target, and what is gone through.
#[tactic(auto, unfolding(es_trace::specs::Statements::for_target))]
fn for_target<K: Fn(&mut Cursor, &mut Outline, Rule, Context, u32) -> Result<Stop, ParseFault>>(
    cursor: &mut Cursor,
    outline: &mut Outline,
    knot: &Knot<K>,
    c: Context,
    at: u32,
) -> Result<u32, ParseFault>
    requires stands { Stands cursor.old at }
    requires ties { Ties (K.pre knot.now.call.now) (K.post knot.now.call.now) knot.now.nest }
    ensures traces { Traces (spec.for_target cursor.old (tracers_to cursor.old knot.now.nest) c
        outline.old.marks at) outline.new.marks result }
    ensures within { IfOk result (λ end. end ≤ length cursor.old) }
    ensures same { cursor.new ≡ cursor.old }
    ensures kept { outline.new.kept ≡ outline.old.kept }
{
    let end = trace_target(cursor, outline, knot, without_in(c), at)?;
    for_each(cursor, outline, knot, c, end)
}

// An expression where `;` stands behind it, read for the first time. Where none does, that is
// remembered, the outline is taken back, and what stands there is read anew as a target.
#[tactic(auto, unfolding(es_trace::specs::Statements::for_expr))]
fn try_init<K: Fn(&mut Cursor, &mut Outline, Rule, Context, u32) -> Result<Stop, ParseFault>>(
    cursor: &mut Cursor,
    outline: &mut Outline,
    knot: &Knot<K>,
    c: Context,
    at: u32,
) -> Result<u32, ParseFault>
    requires stands { Stands cursor.old at }
    requires ties { Ties (K.pre knot.now.call.now) (K.post knot.now.call.now) knot.now.nest }
    ensures traces { Traces (spec.for_expr cursor.old (tracers_to cursor.old knot.now.nest) c
        outline.old.marks at) outline.new.marks result }
    ensures within { IfOk result (λ end. end ≤ length cursor.old) }
    ensures same { cursor.new ≡ cursor.old }
    ensures kept { outline.new.kept ≡ outline.old.kept }
{
    let before = outline.keep();
    match init_expr(cursor, outline, knot, without_in(c), at) {
        Ok(end) => {
            outline.settle(before);
            for_loop(cursor, outline, knot, c, end)
        }
        Err(ParseFault::Syntax) => {
            outline.undo(before);
            cursor.pass(Passed {
                attempt: Attempt::Init,
                nest: knot.nest,
                context: c,
                at,
            })?;
            for_target(cursor, outline, knot, c, at)
        }
        Err(ParseFault::NoMemory) => {
            outline.undo(before);
            Err(ParseFault::NoMemory)
        }
    }
}

// An expression where `;` stands behind it, and otherwise a target.
fn for_expr<K: Fn(&mut Cursor, &mut Outline, Rule, Context, u32) -> Result<Stop, ParseFault>>(
    cursor: &mut Cursor,
    outline: &mut Outline,
    knot: &Knot<K>,
    c: Context,
    at: u32,
) -> Result<u32, ParseFault>
    requires stands { Stands cursor.old at }
    requires behind { BehindParen outline.old.marks at }
    requires ties { Ties (K.pre knot.now.call.now) (K.post knot.now.call.now) knot.now.nest }
    ensures traces { Traces (spec.for_expr cursor.old (tracers_to cursor.old knot.now.nest) c
        outline.old.marks at) outline.new.marks result }
    ensures within { IfOk result (λ end. end ≤ length cursor.old) }
    ensures same { cursor.new ≡ cursor.old }
    ensures kept { outline.new.kept ≡ outline.old.kept }
{
    let passed = Passed {
        attempt: Attempt::Init,
        nest: knot.nest,
        context: c,
        at,
    };
    if cursor.has_passed(passed) {
        return for_target(cursor, outline, knot, c, at);
    }
    try_init(cursor, outline, knot, c, at)
}

// `(`, which was seen, and what stands behind it.
#[tactic(auto, unfolding(es_trace::specs::Statements::for_paren, es_trace::specs::Statements::for_paren_by))]
fn for_paren<K: Fn(&mut Cursor, &mut Outline, Rule, Context, u32) -> Result<Stop, ParseFault>>(
    cursor: &mut Cursor,
    outline: &mut Outline,
    knot: &Knot<K>,
    c: Context,
    left: Token,
) -> Result<u32, ParseFault>
    requires lies { Lies cursor.old left }
    requires behind { BehindFor outline.old.marks }
    requires ties { Ties (K.pre knot.now.call.now) (K.post knot.now.call.now) knot.now.nest }
    ensures traces { Traces (spec.for_paren cursor.old (tracers_to cursor.old knot.now.nest) c
        outline.old.marks left) outline.new.marks result }
    ensures within { IfOk result (λ end. end ≤ length cursor.old) }
    ensures same { cursor.new ≡ cursor.old }
    ensures kept { outline.new.kept ≡ outline.old.kept }
{
    outline.one(left)?;
    let token = cursor.token(Goal::Operand, left.end)?;
    if cursor.is_mark(b";", token) {
        return for_loop(cursor, outline, knot, c, left.end);
    }
    if is_declaration_word(cursor, token) {
        return for_binding(cursor, outline, knot, c, token);
    }
    for_expr(cursor, outline, knot, c, left.end)
}

// A head.
#[tactic(auto, unfolding(es_trace::specs::Statements::trace_head))]
fn trace_head<K: Fn(&mut Cursor, &mut Outline, Rule, Context, u32) -> Result<Stop, ParseFault>>(
    cursor: &mut Cursor,
    outline: &mut Outline,
    knot: &Knot<K>,
    c: Context,
    at: u32,
) -> Result<u32, ParseFault>
    requires stands { Stands cursor.old at }
    requires ties { Ties (K.pre knot.now.call.now) (K.post knot.now.call.now) knot.now.nest }
    ensures traces { Traces (spec.trace_head cursor.old (tracers_to cursor.old knot.now.nest) c
        outline.old.marks at) outline.new.marks result }
    ensures within { IfOk result (λ end. end ≤ length cursor.old) }
    ensures same { cursor.new ≡ cursor.old }
    ensures kept { outline.new.kept ≡ outline.old.kept }
{
    let token = cursor.token(Goal::Operand, at)?;
    if is_declaration_word(cursor, token) {
        return bind_head(cursor, outline, knot, c, token);
    }
    trace_target(cursor, outline, knot, c, at)
}

// `await`, which was seen, and what stands behind it.
#[tactic(auto, unfolding(es_trace::specs::Statements::for_await))]
fn for_await<K: Fn(&mut Cursor, &mut Outline, Rule, Context, u32) -> Result<Stop, ParseFault>>(
    cursor: &mut Cursor,
    outline: &mut Outline,
    knot: &Knot<K>,
    c: Context,
    word: Token,
) -> Result<u32, ParseFault>
    requires lies { Lies cursor.old word }
    requires ties { Ties (K.pre knot.now.call.now) (K.post knot.now.call.now) knot.now.nest }
    ensures traces { Traces (spec.for_await cursor.old (tracers_to cursor.old knot.now.nest) c
        outline.old.marks word) outline.new.marks result }
    ensures within { IfOk result (λ end. end ≤ length cursor.old) }
    ensures same { cursor.new ≡ cursor.old }
    ensures kept { outline.new.kept ≡ outline.old.kept }
{
    outline.role(Role::Await, word)?;
    let left = cursor.mark(Goal::Operand, b"(", word.end)?;
    outline.one(left)?;
    let end = trace_head(cursor, outline, knot, without_in(c), left.end)?;
    let middle = cursor.word(Goal::Operator, b"of", end)?;
    of_behind(cursor, outline, knot, c, middle)
}

// What stands behind `for`, by the token there.
#[tactic(auto, unfolding(es_trace::specs::Statements::for_by))]
fn for_by<K: Fn(&mut Cursor, &mut Outline, Rule, Context, u32) -> Result<Stop, ParseFault>>(
    cursor: &mut Cursor,
    outline: &mut Outline,
    knot: &Knot<K>,
    c: Context,
    token: Token,
) -> Result<u32, ParseFault>
    requires lies { Lies cursor.old token }
    requires behind { BehindFor outline.old.marks }
    requires ties { Ties (K.pre knot.now.call.now) (K.post knot.now.call.now) knot.now.nest }
    ensures traces { Traces (spec.for_by cursor.old (tracers_to cursor.old knot.now.nest) c
        outline.old.marks token) outline.new.marks result }
    ensures within { IfOk result (λ end. end ≤ length cursor.old) }
    ensures same { cursor.new ≡ cursor.old }
    ensures kept { outline.new.kept ≡ outline.old.kept }
{
    if cursor.is_mark(b"(", token) {
        return for_paren(cursor, outline, knot, c, token);
    }
    if c.has_await && cursor.is_word(b"await", token) {
        return for_await(cursor, outline, knot, c, token);
    }
    Err(ParseFault::Syntax)
}

/// `for`, which was seen.
#[tactic(auto, unfolding(es_trace::specs::Statements::for_stmt))]
pub(crate) fn for_stmt<
    K: Fn(&mut Cursor, &mut Outline, Rule, Context, u32) -> Result<Stop, ParseFault>,
>(
    cursor: &mut Cursor,
    outline: &mut Outline,
    knot: &Knot<K>,
    c: Context,
    word: Token,
) -> Result<u32, ParseFault>
    requires lies { Lies cursor.old word }
    requires ties { Ties (K.pre knot.now.call.now) (K.post knot.now.call.now) knot.now.nest }
    ensures traces { Traces (spec.for_stmt cursor.old (tracers_to cursor.old knot.now.nest) c
        outline.old.marks word) outline.new.marks result }
    ensures within { IfOk result (λ end. end ≤ length cursor.old) }
    ensures same { cursor.new ≡ cursor.old }
    ensures kept { outline.new.kept ≡ outline.old.kept }
{
    outline.begin(Part::For)?;
    outline.one(word)?;
    let token = cursor.token(Goal::Operand, word.end)?;
    let end = for_by(cursor, outline, knot, c, token)?;
    outline.end(Part::For)?;
    Ok(end)
}
