//! Primaries, but for Names and objects.
ghost use Rattle.std.specs.Prelude.{◌≡◌, ◌≤◌, length, IfOk};
ghost use Rattle.es_trace.specs.Basics.{Traces};
ghost use Rattle.es_trace.specs.Expressions as spec;
ghost use Rattle.es_trace.specs.Tying.{tracers_to};
ghost use Rattle.es_cursor.specs.Standing.{Lies, Stands};
ghost use Rattle.es_nest.specs.Ties.{Ties};
ghost use Rattle.es_nest.specs.Turns.{state_of};

use crate::arguments::{expr_to, trace_argument, trace_mark};
use crate::exprs::template_from;
use crate::members::trace_object;
use es_begins::{begins_function, is_literal_word};
use es_cursor::Cursor;
use es_functions::{trace_class, trace_func};
use es_grammar::{Context, Stop};
use es_nest::{Knot, all_turns, comma_behind, first_at};
use es_outline::{Outline, Part, Role};
use es_reader::ParseFault;
use es_trace::{Listed, Rule, Turn};
use es_tree::{Goal, Token, TokenKind};

// A turn of the list of elements.
#[tactic(auto, unfolding(es_trace::specs::Lists::elements_turn, es_trace::specs::Lists::element_or_hole, es_trace::specs::Lists::list_part))]
fn array_turn<K: Fn(&mut Cursor, &mut Outline, Rule, Context, u32) -> Result<Stop, ParseFault>>(
    cursor: &mut Cursor,
    outline: &mut Outline,
    knot: &Knot<K>,
    c: Context,
    state: Listed,
) -> Result<Turn<Listed>, ParseFault>
    requires stands { Stands cursor.old state.at }
    requires ties { Ties (K.pre knot.now.call.now) (K.post knot.now.call.now) knot.now.nest }
    ensures traces { Traces (spec.array_turn cursor.old (tracers_to cursor.old knot.now.nest) c
        outline.old.marks state) outline.new.marks result }
    ensures within { IfOk result (λ turn. (state_of turn).at ≤ length cursor.old) }
    ensures same { cursor.new ≡ cursor.old }
    ensures kept { outline.new.kept ≡ outline.old.kept }
{
    let token = cursor.token(Goal::Operator, state.at)?;
    if cursor.is_mark(b"]", token) {
        return Ok(Turn::Ended(state));
    }
    if cursor.is_mark(b",", token) {
        outline.one(token)?;
        return Ok(Turn::More(first_at(token.end)));
    }
    let end = trace_argument(cursor, outline, knot, c, state.at)?;
    comma_behind(cursor, outline, end)
}

// An array, whose `[` was seen.
#[tactic(auto, unfolding(es_trace::specs::Expressions::trace_array))]
fn trace_array<K: Fn(&mut Cursor, &mut Outline, Rule, Context, u32) -> Result<Stop, ParseFault>>(
    cursor: &mut Cursor,
    outline: &mut Outline,
    knot: &Knot<K>,
    c: Context,
    left: Token,
) -> Result<u32, ParseFault>
    requires lies { Lies cursor.old left }
    requires ties { Ties (K.pre knot.now.call.now) (K.post knot.now.call.now) knot.now.nest }
    ensures traces { Traces (spec.trace_array cursor.old (tracers_to cursor.old knot.now.nest) c
        outline.old.marks left) outline.new.marks result }
    ensures within { IfOk result (λ end. end ≤ length cursor.old) }
    ensures same { cursor.new ≡ cursor.old }
    ensures kept { outline.new.kept ≡ outline.old.kept }
{
    outline.one(left)?;
    let turn = |cursor: &mut Cursor, outline: &mut Outline, state: Listed| array_turn(
        cursor, outline, knot, c, state,
    );
    let listed = all_turns(cursor, outline, &turn, first_at(left.end))?;
    trace_mark(cursor, outline, b"]", listed.at)
}

// A primary that begins with a word.
#[tactic(auto, unfolding(es_trace::specs::Expressions::word_primary, es_trace::specs::Expressions::func_primary, es_trace::specs::Expressions::class_primary))]
fn word_primary<K: Fn(&mut Cursor, &mut Outline, Rule, Context, u32) -> Result<Stop, ParseFault>>(
    cursor: &mut Cursor,
    outline: &mut Outline,
    knot: &Knot<K>,
    c: Context,
    at: u32,
    token: Token,
) -> Result<u32, ParseFault>
    requires stands { Stands cursor.old at }
    requires lies { Lies cursor.old token }
    requires ties { Ties (K.pre knot.now.call.now) (K.post knot.now.call.now) knot.now.nest }
    ensures traces { Traces (spec.word_primary cursor.old (tracers_to cursor.old knot.now.nest) c
        outline.old.marks at token) outline.new.marks result }
    ensures within { IfOk result (λ end. end ≤ length cursor.old) }
    ensures same { cursor.new ≡ cursor.old }
    ensures kept { outline.new.kept ≡ outline.old.kept }
{
    if begins_function(cursor, token) {
        outline.begin(Part::FunctionExpression)?;
        let end = trace_func(cursor, outline, knot, c, false, at)?;
        outline.end(Part::FunctionExpression)?;
        return Ok(end);
    }
    if cursor.is_word(b"this", token) || is_literal_word(cursor, token) {
        outline.one(token)?;
        return Ok(token.end);
    }
    if cursor.is_word(b"class", token) {
        outline.begin(Part::ClassExpression)?;
        let end = trace_class(cursor, outline, knot, c, false, at)?;
        outline.end(Part::ClassExpression)?;
        return Ok(end);
    }
    Err(ParseFault::Syntax)
}

// A primary that begins with a mark.
#[tactic(auto, unfolding(es_trace::specs::Expressions::mark_primary))]
fn mark_primary<K: Fn(&mut Cursor, &mut Outline, Rule, Context, u32) -> Result<Stop, ParseFault>>(
    cursor: &mut Cursor,
    outline: &mut Outline,
    knot: &Knot<K>,
    c: Context,
    token: Token,
) -> Result<u32, ParseFault>
    requires lies { Lies cursor.old token }
    requires ties { Ties (K.pre knot.now.call.now) (K.post knot.now.call.now) knot.now.nest }
    ensures traces { Traces (spec.mark_primary cursor.old (tracers_to cursor.old knot.now.nest) c
        outline.old.marks token) outline.new.marks result }
    ensures within { IfOk result (λ end. end ≤ length cursor.old) }
    ensures same { cursor.new ≡ cursor.old }
    ensures kept { outline.new.kept ≡ outline.old.kept }
{
    if cursor.is_mark(b"(", token) {
        outline.role(Role::Opens, token)?;
        return expr_to(cursor, outline, knot, c, Role::Closes, b")", token.end);
    }
    if cursor.is_mark(b"[", token) {
        return trace_array(cursor, outline, knot, c, token);
    }
    if cursor.is_mark(b"{", token) {
        return trace_object(cursor, outline, knot, c, token);
    }
    Err(ParseFault::Syntax)
}

/// A primary, whose first token was seen.
pub(crate) fn primary_from<
    K: Fn(&mut Cursor, &mut Outline, Rule, Context, u32) -> Result<Stop, ParseFault>,
>(
    cursor: &mut Cursor,
    outline: &mut Outline,
    knot: &Knot<K>,
    c: Context,
    at: u32,
    token: Token,
) -> Result<u32, ParseFault>
    requires stands { Stands cursor.old at }
    requires lies { Lies cursor.old token }
    requires ties { Ties (K.pre knot.now.call.now) (K.post knot.now.call.now) knot.now.nest }
    ensures traces { Traces (spec.primary_by cursor.old (tracers_to cursor.old knot.now.nest) c
        outline.old.marks at token token.kind) outline.new.marks result }
    ensures within { IfOk result (λ end. end ≤ length cursor.old) }
    ensures same { cursor.new ≡ cursor.old }
    ensures kept { outline.new.kept ≡ outline.old.kept }
{
    match token.kind {
        TokenKind::IdName => word_primary(cursor, outline, knot, c, at, token),
        TokenKind::Number | TokenKind::String | TokenKind::Regex => {
            outline.one(token)?;
            Ok(token.end)
        }
        TokenKind::Template => template_from(cursor, outline, knot, c, token),
        TokenKind::Punctuator => mark_primary(cursor, outline, knot, c, token),
        _ => Err(ParseFault::Syntax),
    }
}
