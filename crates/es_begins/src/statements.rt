//! Tests of statements and declarations.
ghost use Rattle.std.specs.Prelude.{◌≡◌, [], ◌∷◌, Some, codes};
ghost use Rattle.es_grammar.specs.Statements.{declaration_words};
ghost use Rattle.es_reader.specs.Basics as basics;
ghost use Rattle.es_reader.specs.Basics.{Reads};
ghost use Rattle.es_reader.specs.Statements as spec;
ghost use Rattle.es_cursor.specs.Standing.{Lies};

use crate::functions::begins_async_function;
use crate::semis::closes_value;
use es_cursor::Cursor;
use es_grammar::Context;
use es_reader::ParseFault;
use es_tree::{Token, TokenKind};

/// Whether it is `var`, `let` or `const`.
#[tactic(auto, unfolding(es_reader::specs::Basics::is_one_word, es_grammar::specs::Statements::declaration_words))]
pub fn is_declaration_word(cursor: &Cursor, token: Token) -> bool
    requires { Lies cursor.now token }
    ensures { result ≡ basics.is_one_word cursor.now declaration_words token }
{
    match token.kind {
        TokenKind::IdName => match cursor.spelled(token) {
            b"var" | b"let" | b"const" => true,
            _ => false,
        },
        _ => false,
    }
}

/// Whether it is `let` or `const`.
#[tactic(auto, unfolding(es_reader::specs::Basics::is_one_word))]
pub fn is_lexical_word(cursor: &Cursor, token: Token) -> bool
    requires { Lies cursor.now token }
    ensures { result ≡ basics.is_one_word cursor.now (codes "let" ∷ codes "const" ∷ []) token }
{
    match token.kind {
        TokenKind::IdName => match cursor.spelled(token) {
            b"let" | b"const" => true,
            _ => false,
        },
        _ => false,
    }
}

/// Whether the items of a clause of `switch` end before it.
#[tactic(auto, unfolding(es_reader::specs::Statements::ends_clause, es_reader::specs::Basics::is_mark, es_reader::specs::Basics::is_one_word))]
pub fn ends_clause(cursor: &Cursor, token: Token) -> bool
    requires { Lies cursor.now token }
    ensures { result ≡ spec.ends_clause cursor.now token }
{
    match token.kind {
        TokenKind::Punctuator => match cursor.spelled(token) {
            b"}" => true,
            _ => false,
        },
        TokenKind::IdName => match cursor.spelled(token) {
            b"case" | b"default" => true,
            _ => false,
        },
        _ => false,
    }
}

/// Whether clauses with `case` end before it.
pub fn ends_cases(cursor: &Cursor, token: Token) -> bool
    requires { Lies cursor.now token }
    ensures { result ≡ spec.ends_cases cursor.now token }
{
    !cursor.is_word(b"case", token)
}

/// Whether it is a Name on the line of what stands before it.
pub fn is_label(cursor: &Cursor, c: Context, token: Token) -> Result<bool, ParseFault>
    requires { Lies cursor.now token }
    ensures { Reads (Some (spec.is_label cursor.now c token)) result }
{
    if token.newline {
        return Ok(false);
    }
    cursor.is_name(c, token)
}

/// Whether a value of `return` begins with it.
pub fn begins_value(cursor: &Cursor, token: Token) -> bool
    requires { Lies cursor.now token }
    ensures { result ≡ spec.begins_value cursor.now token }
{
    !(token.newline || closes_value(cursor, token))
}

#[tactic(auto, unfolding(es_reader::specs::Basics::is_one_word))]
fn is_function_or_class(cursor: &Cursor, token: Token) -> bool
    requires { Lies cursor.now token }
    ensures { result ≡ basics.is_one_word cursor.now (codes "function" ∷ codes "class" ∷ []) token }
{
    match token.kind {
        TokenKind::IdName => match cursor.spelled(token) {
            b"function" | b"class" => true,
            _ => false,
        },
        _ => false,
    }
}

/// Whether it begins a function or a class.
#[tactic(auto, unfolding(es_reader::specs::Statements::begins_declaration))]
pub fn begins_declaration(cursor: &mut Cursor, token: Token) -> bool
    requires { Lies cursor.old token }
    ensures is { result ≡ spec.begins_declaration cursor.old token }
    ensures kept { cursor.new ≡ cursor.old }
{
    is_function_or_class(cursor, token) || begins_async_function(cursor, token)
}
