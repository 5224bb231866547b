//! Tests of expressions: templates, suffixes, words that stand alone, and patterns.
ghost use Rattle.std.specs.Prelude.{◌≡◌, Some};
ghost use Rattle.es_grammar.specs.Expressions as grammar;
ghost use Rattle.es_reader.specs.Basics as basics;
ghost use Rattle.es_reader.specs.Basics.{Reads};
ghost use Rattle.es_reader.specs.Expressions as spec;
ghost use Rattle.es_reader.specs.Targets as targets;
ghost use Rattle.es_cursor.specs.Standing.{Lies};

use crate::functions::begins_async_function;
use crate::kinds::is_template;
use es_cursor::Cursor;
use es_grammar::Context;
use es_reader::ParseFault;
use es_tree::{Token, TokenKind};

/// Whether an expression follows this token of a template.
pub fn opens(cursor: &Cursor, token: Token) -> bool
    requires { Lies cursor.now token }
    ensures { result ≡ grammar.opens cursor.now token }
{
    cursor.spelled(token).ends_with(b"${")
}

/// Whether it is a token of a template that goes on behind an expression.
#[tactic(auto, unfolding(es_reader::specs::Expressions::is_piece))]
pub fn is_piece(cursor: &Cursor, token: Token) -> bool
    requires { Lies cursor.now token }
    ensures { result ≡ spec.is_piece cursor.now token }
{
    is_template(token) && cursor.spelled(token).starts_with(b"}")
}

/// Whether it begins a suffix that the callee of `new` may have.
#[tactic(auto, unfolding(es_reader::specs::Expressions::begins_member, es_reader::specs::Basics::is_one_mark))]
pub fn begins_member(cursor: &Cursor, token: Token) -> bool
    requires { Lies cursor.now token }
    ensures { result ≡ spec.begins_member cursor.now token }
{
    match token.kind {
        TokenKind::Punctuator => match cursor.spelled(token) {
            b"." | b"[" => true,
            _ => false,
        },
        TokenKind::Template => true,
        _ => false,
    }
}

/// Whether it begins any other suffix.
#[tactic(auto, unfolding(es_reader::specs::Expressions::begins_call, es_reader::specs::Basics::is_one_mark))]
pub fn begins_call(cursor: &Cursor, token: Token) -> bool
    requires { Lies cursor.now token }
    ensures { result ≡ spec.begins_call cursor.now token }
{
    match token.kind {
        TokenKind::Punctuator => match cursor.spelled(token) {
            b"(" | b"?." => true,
            _ => false,
        },
        _ => false,
    }
}

/// Whether it begins a suffix.
#[tactic(auto, unfolding(es_reader::specs::Expressions::begins_suffix))]
pub fn begins_suffix(cursor: &Cursor, token: Token) -> bool
    requires { Lies cursor.now token }
    ensures { result ≡ spec.begins_suffix cursor.now token }
{
    begins_member(cursor, token) || begins_call(cursor, token)
}

/// Whether it is `null`, `true` or `false`.
#[tactic(auto, unfolding(es_reader::specs::Basics::is_one_word, es_grammar::specs::Expressions::literal_words))]
pub fn is_literal_word(cursor: &Cursor, token: Token) -> bool
    requires { Lies cursor.now token }
    ensures { result ≡ basics.is_one_word cursor.now grammar.literal_words token }
{
    match token.kind {
        TokenKind::IdName => match cursor.spelled(token) {
            b"null" | b"true" | b"false" => true,
            _ => false,
        },
        _ => false,
    }
}

/// Whether it begins a function.
#[tactic(auto, unfolding(es_reader::specs::Expressions::begins_function))]
pub fn begins_function(cursor: &mut Cursor, token: Token) -> bool
    requires { Lies cursor.old token }
    ensures is { result ≡ spec.begins_function cursor.old token }
    ensures kept { cursor.new ≡ cursor.old }
{
    cursor.is_word(b"function", token) || begins_async_function(cursor, token)
}

/// Whether it is a Name that doesn't begin a function.
#[tactic(auto, unfolding(es_reader::specs::Expressions::begins_with_name))]
pub fn begins_with_name(cursor: &mut Cursor, c: Context, token: Token) -> Result<bool, ParseFault>
    requires { Lies cursor.old token }
    ensures reads { Reads (Some (spec.begins_with_name cursor.old c token)) result }
    ensures kept { cursor.new ≡ cursor.old }
{
    if !cursor.is_name(c, token)? {
        return Ok(false);
    }
    Ok(!begins_async_function(cursor, token))
}

/// Whether it begins a pattern.
#[tactic(auto, unfolding(es_reader::specs::Targets::begins_pattern))]
pub fn begins_pattern(cursor: &Cursor, token: Token) -> bool
    requires { Lies cursor.now token }
    ensures { result ≡ targets.begins_pattern cursor.now token }
{
    cursor.is_mark(b"[", token) || cursor.is_mark(b"{", token)
}
