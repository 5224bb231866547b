//! What the first token of an operand tells of it.
ghost use Rattle.std.specs.Prelude.{◌≡◌};
ghost use Rattle.es_reader.specs.Shapes as spec;
ghost use Rattle.es_cursor.specs.Standing.{Lies};

use crate::kinds::is_private;
use es_cursor::Cursor;
use es_grammar::Context;
use es_reader::Shape;
use es_tree::{Token, TokenKind};

/// Whether it is `await` where that is an operator.
#[tactic(auto, unfolding(es_reader::specs::Shapes::is_await))]
pub fn is_await(cursor: &Cursor, c: Context, token: Token) -> bool
    requires { Lies cursor.now token }
    ensures { result ≡ spec.is_await cursor.now c token }
{
    c.has_await && cursor.is_word(b"await", token)
}

/// Whether it is `delete`, `void`, `typeof`, `+`, `-`, `~` or `!`.
#[tactic(auto, unfolding(es_reader::specs::Shapes::is_sign, es_reader::specs::Basics::is_one_mark, es_reader::specs::Basics::is_one_word, es_grammar::specs::Operators::prefix_words, es_grammar::specs::Operators::prefix_marks))]
pub fn is_sign(cursor: &Cursor, token: Token) -> bool
    requires { Lies cursor.now token }
    ensures { result ≡ spec.is_sign cursor.now token }
{
    match token.kind {
        TokenKind::IdName => match cursor.spelled(token) {
            b"delete" | b"void" | b"typeof" => true,
            _ => false,
        },
        TokenKind::Punctuator => match cursor.spelled(token) {
            b"+" | b"-" | b"~" | b"!" => true,
            _ => false,
        },
        _ => false,
    }
}

/// Whether it is `++` or `--`.
#[tactic(auto, unfolding(es_reader::specs::Shapes::is_update, es_reader::specs::Basics::is_one_mark, es_grammar::specs::Operators::update_marks))]
pub fn is_update(cursor: &Cursor, token: Token) -> bool
    requires { Lies cursor.now token }
    ensures { result ≡ spec.is_update cursor.now token }
{
    match token.kind {
        TokenKind::Punctuator => match cursor.spelled(token) {
            b"++" | b"--" => true,
            _ => false,
        },
        _ => false,
    }
}

/// Whether it is a prefix operator.
#[tactic(auto, unfolding(es_reader::specs::Shapes::begins_prefixed))]
pub fn begins_prefixed(cursor: &Cursor, c: Context, token: Token) -> bool
    requires { Lies cursor.now token }
    ensures { result ≡ spec.begins_prefixed cursor.now c token }
{
    is_sign(cursor, token) || is_await(cursor, c, token) || is_update(cursor, token)
}

/// What it tells of the operand that it begins.
#[tactic(auto, unfolding(es_reader::specs::Shapes::shape_of))]
pub fn shape_of(cursor: &Cursor, c: Context, token: Token) -> Shape
    requires { Lies cursor.now token }
    ensures { result ≡ spec.shape_of cursor.now c token }
{
    if is_private(token) {
        Shape::Private
    } else if is_sign(cursor, token) || is_await(cursor, c, token) {
        Shape::Signed
    } else {
        Shape::Plain
    }
}
