//! Tests of operators, arrows and assignments.
ghost use Rattle.std.specs.Prelude.{◌≡◌, ◌||◌, IfSome};
ghost use Rattle.es_reader.specs.Operators as spec;
ghost use Rattle.es_cursor.specs.Standing.{Lies};

use crate::kinds::{is_end, is_private};
use crate::shapes::{begins_prefixed, is_update};
use crate::spelling::{is, is_assignment_mark, is_binary_mark, is_loose_mark};
use es_cursor::Cursor;
use es_grammar::Context;
use es_reader::Shape;
use es_tree::{Token, TokenKind};

/// Whether it is `++` or `--` on the line of what stands before it.
pub fn is_postfix(cursor: &Cursor, token: Token) -> bool
    requires { Lies cursor.now token }
    ensures { result ≡ spec.is_postfix cursor.now token }
{
    is_update(cursor, token) && !token.newline
}

/// Whether it is an operator between two operands.
#[tactic(auto, unfolding(es_reader::specs::Operators::is_operator, es_reader::specs::Basics::is_one_mark, es_reader::specs::Basics::is_word))]
pub fn is_operator(cursor: &Cursor, c: Context, token: Token) -> bool
    requires { Lies cursor.now token }
    ensures { result ≡ spec.is_operator cursor.now c token }
{
    match token.kind {
        TokenKind::Punctuator => is_binary_mark(cursor.spelled(token)),
        TokenKind::IdName => {
            let word = cursor.spelled(token);
            is(word, b"instanceof") || c.has_in && is(word, b"in")
        }
        _ => false,
    }
}

/// Whether a private name may stand behind this operator.
pub fn is_loose(cursor: &Cursor, op: Option<Token>) -> bool
    requires { IfSome op (Lies cursor.now) }
    ensures { result ≡ spec.is_loose cursor.now op }
{
    match op {
        Some(token) => is_loose_mark(cursor.spelled(token)),
        None => true,
    }
}

fn is_spelled(cursor: &Cursor, word: &[u8], op: Option<Token>) -> bool
    requires { IfSome op (Lies cursor.now) }
    ensures { result ≡ spec.is_spelled cursor.now word.now op }
{
    match op {
        Some(token) => is(cursor.spelled(token), word),
        None => false,
    }
}

/// Whether an operand of this shape may stand behind one operator and before the other.
pub fn fits(cursor: &Cursor, before: Option<Token>, shape: Shape, behind: Option<Token>) -> bool
    requires before { IfSome before (Lies cursor.now) }
    requires behind { IfSome behind (Lies cursor.now) }
    ensures { result ≡ spec.fits cursor.now before shape behind }
{
    match shape {
        Shape::Signed => !is_spelled(cursor, b"**", behind),
        Shape::Private => is_spelled(cursor, b"in", behind) && is_loose(cursor, before),
        Shape::Plain => true,
    }
}

/// Whether it is `=>` on the line of what stands before it.
#[tactic(auto, unfolding(es_reader::specs::Operators::is_arrow))]
pub fn is_arrow(cursor: &Cursor, token: Token) -> bool
    requires { Lies cursor.now token }
    ensures { result ≡ spec.is_arrow cursor.now token }
{
    cursor.is_mark(b"=>", token) && !token.newline
}

/// Whether it is `=` or another operator that assigns.
#[tactic(auto, unfolding(es_reader::specs::Operators::is_assignment, es_reader::specs::Basics::is_mark, es_reader::specs::Basics::is_one_mark))]
pub fn is_assignment(cursor: &Cursor, token: Token) -> bool
    requires { Lies cursor.now token }
    ensures { result ≡ spec.is_assignment cursor.now token }
{
    match token.kind {
        TokenKind::Punctuator => {
            let mark = cursor.spelled(token);
            is(mark, b"=") || is_assignment_mark(mark)
        }
        _ => false,
    }
}

#[tactic(auto, unfolding(es_reader::specs::Operators::begins_nothing, es_reader::specs::Basics::is_one_mark, es_reader::specs::Basics::is_word))]
fn begins_no_value(cursor: &Cursor, token: Token) -> bool
    requires { Lies cursor.now token }
    ensures { (result || token.newline) ≡ spec.begins_nothing cursor.now token }
{
    match token.kind {
        TokenKind::Punctuator => match cursor.spelled(token) {
            b")" | b"]" | b"}" | b"," | b";" | b":" => true,
            _ => false,
        },
        TokenKind::IdName => is(cursor.spelled(token), b"in"),
        _ => is_end(token),
    }
}

/// Whether no assignment begins with it on the line of `yield`.
pub fn begins_nothing(cursor: &Cursor, token: Token) -> bool
    requires { Lies cursor.now token }
    ensures { result ≡ spec.begins_nothing cursor.now token }
{
    begins_no_value(cursor, token) || token.newline
}

/// Whether it is `yield` where that is an operator.
#[tactic(auto, unfolding(es_reader::specs::Operators::is_yield))]
pub fn is_yield(cursor: &Cursor, c: Context, token: Token) -> bool
    requires { Lies cursor.now token }
    ensures { result ≡ spec.is_yield cursor.now c token }
{
    c.has_yield && cursor.is_word(b"yield", token)
}

/// Whether it begins an operand that is no LeftHandSideExpression.
#[tactic(auto, unfolding(es_reader::specs::Operators::begins_other))]
pub fn begins_other(cursor: &Cursor, c: Context, token: Token) -> bool
    requires { Lies cursor.now token }
    ensures { result ≡ spec.begins_other cursor.now c token }
{
    begins_prefixed(cursor, c, token) || is_private(token)
}
