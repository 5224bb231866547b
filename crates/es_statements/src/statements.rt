//! Statements and items, by the words that they begin with.
ghost use Rattle.std.specs.Prelude.{◌≡◌, ◌≤◌, length, IfOk};
ghost use Rattle.es_trace.specs.Basics.{Traces};
ghost use Rattle.es_trace.specs.Statements as spec;
ghost use Rattle.es_trace.specs.Tying.{tracers_to};
ghost use Rattle.es_cursor.specs.Standing.{Lies, Stands};
ghost use Rattle.es_nest.specs.Ties.{Ties};

use crate::blocks::{block_behind, try_stmt};
use crate::conditions::{condition_and_stmt, do_stmt, if_stmt};
use crate::declarations::{lex_behind, var_behind};
use crate::heads::for_stmt;
use crate::jumps::{expr_stmt, jump_behind, return_stmt, value_behind, word_alone};
use crate::switches::switch_stmt;
use es_begins::{begins_declaration, bracketed, is_lexical_word};
use es_cursor::Cursor;
use es_functions::{trace_class, trace_func};
use es_grammar::{Context, Stop};
use es_nest::Knot;
use es_outline::{Outline, Role};
use es_reader::ParseFault;
use es_trace::Rule;
use es_tree::{Goal, Token};

// A statement with a label, or one that is an expression.
#[tactic(auto, unfolding(es_trace::specs::Statements::plain_stmt, es_trace::specs::Statements::name_stmt))]
fn plain_stmt<K: Fn(&mut Cursor, &mut Outline, Rule, Context, u32) -> Result<Stop, ParseFault>>(
    cursor: &mut Cursor,
    outline: &mut Outline,
    knot: &Knot<K>,
    c: Context,
    at: u32,
    token: Token,
) -> Result<u32, ParseFault>
    requires stands { Stands cursor.old at }
    requires lies { Lies cursor.old token }
    requires ties { Ties (K.pre knot.now.call.now) (K.post knot.now.call.now) knot.now.nest }
    ensures traces { Traces (spec.plain_stmt cursor.old (tracers_to cursor.old knot.now.nest) c
        outline.old.marks at token) outline.new.marks result }
    ensures within { IfOk result (λ end. end ≤ length cursor.old) }
    ensures same { cursor.new ≡ cursor.old }
    ensures kept { outline.new.kept ≡ outline.old.kept }
{
    if begins_declaration(cursor, token) {
        return Err(ParseFault::Syntax);
    }
    if cursor.is_name(c, token)? {
        let next = cursor.token(Goal::Operator, token.end)?;
        if cursor.is_mark(b":", next) {
            outline.role(Role::Label, token)?;
            outline.one(next)?;
            return knot.stmt(cursor, outline, c, next.end);
        }
    }
    expr_stmt(cursor, outline, knot, c, at)
}

// A statement that begins with none of the words before.
#[tactic(auto, unfolding(es_trace::specs::Statements::other_stmt))]
fn other_stmt<K: Fn(&mut Cursor, &mut Outline, Rule, Context, u32) -> Result<Stop, ParseFault>>(
    cursor: &mut Cursor,
    outline: &mut Outline,
    knot: &Knot<K>,
    c: Context,
    at: u32,
    token: Token,
) -> Result<u32, ParseFault>
    requires stands { Stands cursor.old at }
    requires lies { Lies cursor.old token }
    requires ties { Ties (K.pre knot.now.call.now) (K.post knot.now.call.now) knot.now.nest }
    ensures traces { Traces (spec.other_stmt cursor.old (tracers_to cursor.old knot.now.nest) c
        outline.old.marks at token) outline.new.marks result }
    ensures within { IfOk result (λ end. end ≤ length cursor.old) }
    ensures same { cursor.new ≡ cursor.old }
    ensures kept { outline.new.kept ≡ outline.old.kept }
{
    if cursor.is_word(b"with", token) {
        outline.role(Role::With, token)?;
        return condition_and_stmt(cursor, outline, knot, c, token.end);
    }
    if cursor.is_word(b"switch", token) {
        return switch_stmt(cursor, outline, knot, c, token);
    }
    if cursor.is_word(b"throw", token) {
        return value_behind(cursor, outline, knot, c, token);
    }
    if cursor.is_word(b"try", token) {
        return try_stmt(cursor, outline, knot, c, token);
    }
    if cursor.is_word(b"debugger", token) {
        return word_alone(cursor, outline, token);
    }
    plain_stmt(cursor, outline, knot, c, at, token)
}

// The same for jumps.
#[tactic(auto, unfolding(es_trace::specs::Statements::jump_stmt))]
fn jump_stmt<K: Fn(&mut Cursor, &mut Outline, Rule, Context, u32) -> Result<Stop, ParseFault>>(
    cursor: &mut Cursor,
    outline: &mut Outline,
    knot: &Knot<K>,
    c: Context,
    at: u32,
    token: Token,
) -> Result<u32, ParseFault>
    requires stands { Stands cursor.old at }
    requires lies { Lies cursor.old token }
    requires ties { Ties (K.pre knot.now.call.now) (K.post knot.now.call.now) knot.now.nest }
    ensures traces { Traces (spec.jump_stmt cursor.old (tracers_to cursor.old knot.now.nest) c
        outline.old.marks at token) outline.new.marks result }
    ensures within { IfOk result (λ end. end ≤ length cursor.old) }
    ensures same { cursor.new ≡ cursor.old }
    ensures kept { outline.new.kept ≡ outline.old.kept }
{
    if cursor.is_word(b"continue", token) || cursor.is_word(b"break", token) {
        return jump_behind(cursor, outline, c, token);
    }
    if cursor.is_word(b"return", token) {
        if c.has_return {
            return return_stmt(cursor, outline, knot, c, token);
        }
        return Err(ParseFault::Syntax);
    }
    other_stmt(cursor, outline, knot, c, at, token)
}

// A statement that begins with a word or an expression.
#[tactic(auto, unfolding(es_trace::specs::Statements::word_stmt))]
fn word_stmt<K: Fn(&mut Cursor, &mut Outline, Rule, Context, u32) -> Result<Stop, ParseFault>>(
    cursor: &mut Cursor,
    outline: &mut Outline,
    knot: &Knot<K>,
    c: Context,
    at: u32,
    token: Token,
) -> Result<u32, ParseFault>
    requires stands { Stands cursor.old at }
    requires lies { Lies cursor.old token }
    requires ties { Ties (K.pre knot.now.call.now) (K.post knot.now.call.now) knot.now.nest }
    ensures traces { Traces (spec.word_stmt cursor.old (tracers_to cursor.old knot.now.nest) c
        outline.old.marks at token) outline.new.marks result }
    ensures within { IfOk result (λ end. end ≤ length cursor.old) }
    ensures same { cursor.new ≡ cursor.old }
    ensures kept { outline.new.kept ≡ outline.old.kept }
{
    if cursor.is_word(b"var", token) {
        return var_behind(cursor, outline, knot, bracketed(c), token);
    }
    if cursor.is_word(b"if", token) {
        return if_stmt(cursor, outline, knot, c, token);
    }
    if cursor.is_word(b"for", token) {
        return for_stmt(cursor, outline, knot, c, token);
    }
    if cursor.is_word(b"while", token) {
        outline.one(token)?;
        return condition_and_stmt(cursor, outline, knot, c, token.end);
    }
    if cursor.is_word(b"do", token) {
        return do_stmt(cursor, outline, knot, c, token);
    }
    jump_stmt(cursor, outline, knot, c, at, token)
}

// A statement, whose first token was seen.
#[tactic(auto, unfolding(es_trace::specs::Statements::stmt_by))]
fn stmt_by<K: Fn(&mut Cursor, &mut Outline, Rule, Context, u32) -> Result<Stop, ParseFault>>(
    cursor: &mut Cursor,
    outline: &mut Outline,
    knot: &Knot<K>,
    c: Context,
    at: u32,
    token: Token,
) -> Result<u32, ParseFault>
    requires stands { Stands cursor.old at }
    requires lies { Lies cursor.old token }
    requires ties { Ties (K.pre knot.now.call.now) (K.post knot.now.call.now) knot.now.nest }
    ensures traces { Traces (spec.stmt_by cursor.old (tracers_to cursor.old knot.now.nest) c
        outline.old.marks at token) outline.new.marks result }
    ensures within { IfOk result (λ end. end ≤ length cursor.old) }
    ensures same { cursor.new ≡ cursor.old }
    ensures kept { outline.new.kept ≡ outline.old.kept }
{
    if cursor.is_mark(b"{", token) {
        return block_behind(cursor, outline, knot, c, token);
    }
    if cursor.is_mark(b";", token) {
        outline.one(token)?;
        return Ok(token.end);
    }
    word_stmt(cursor, outline, knot, c, at, token)
}

/// A statement.
#[tactic(auto, unfolding(es_trace::specs::Statements::trace_stmt))]
pub fn trace_stmt<K: Fn(&mut Cursor, &mut Outline, Rule, Context, u32) -> Result<Stop, ParseFault>>(
    cursor: &mut Cursor,
    outline: &mut Outline,
    knot: &Knot<K>,
    c: Context,
    at: u32,
) -> Result<u32, ParseFault>
    requires stands { Stands cursor.old at }
    requires ties { Ties (K.pre knot.now.call.now) (K.post knot.now.call.now) knot.now.nest }
    ensures traces { Traces (spec.trace_stmt cursor.old (tracers_to cursor.old knot.now.nest) c
        outline.old.marks at) outline.new.marks result }
    ensures within { IfOk result (λ end. end ≤ length cursor.old) }
    ensures same { cursor.new ≡ cursor.old }
    ensures kept { outline.new.kept ≡ outline.old.kept }
{
    let token = cursor.token(Goal::Operand, at)?;
    stmt_by(cursor, outline, knot, c, at, token)
}

/// A function or a class, whose first token was seen, and which has a name where `named` says so.
#[tactic(auto, unfolding(es_trace::specs::Statements::declaration_item))]
pub fn declaration_item<
    K: Fn(&mut Cursor, &mut Outline, Rule, Context, u32) -> Result<Stop, ParseFault>,
>(
    cursor: &mut Cursor,
    outline: &mut Outline,
    knot: &Knot<K>,
    c: Context,
    named: bool,
    at: u32,
    token: Token,
) -> Result<u32, ParseFault>
    requires stands { Stands cursor.old at }
    requires lies { Lies cursor.old token }
    requires ties { Ties (K.pre knot.now.call.now) (K.post knot.now.call.now) knot.now.nest }
    ensures traces { Traces (spec.declaration_item cursor.old (tracers_to cursor.old
        knot.now.nest) c named outline.old.marks at token) outline.new.marks result }
    ensures within { IfOk result (λ end. end ≤ length cursor.old) }
    ensures same { cursor.new ≡ cursor.old }
    ensures kept { outline.new.kept ≡ outline.old.kept }
{
    if cursor.is_word(b"class", token) {
        return trace_class(cursor, outline, knot, c, named, at);
    }
    trace_func(cursor, outline, knot, c, named, at)
}

/// A statement or a declaration.
#[tactic(auto, unfolding(es_trace::specs::Statements::trace_item, es_trace::specs::Statements::item_by))]
pub fn trace_item<K: Fn(&mut Cursor, &mut Outline, Rule, Context, u32) -> Result<Stop, ParseFault>>(
    cursor: &mut Cursor,
    outline: &mut Outline,
    knot: &Knot<K>,
    c: Context,
    at: u32,
) -> Result<u32, ParseFault>
    requires stands { Stands cursor.old at }
    requires ties { Ties (K.pre knot.now.call.now) (K.post knot.now.call.now) knot.now.nest }
    ensures traces { Traces (spec.trace_item cursor.old (tracers_to cursor.old knot.now.nest) c
        outline.old.marks at) outline.new.marks result }
    ensures within { IfOk result (λ end. end ≤ length cursor.old) }
    ensures same { cursor.new ≡ cursor.old }
    ensures kept { outline.new.kept ≡ outline.old.kept }
{
    let token = cursor.token(Goal::Operand, at)?;
    if is_lexical_word(cursor, token) {
        let is_const = cursor.is_word(b"const", token);
        return lex_behind(cursor, outline, knot, bracketed(c), is_const, token);
    }
    if begins_declaration(cursor, token) {
        return declaration_item(cursor, outline, knot, c, true, at, token);
    }
    stmt_by(cursor, outline, knot, c, at, token)
}
