//! Tests of imports.
ghost use Rattle.std.specs.Prelude.{◌≡◌};
ghost use Rattle.es_reader.specs.Modules as spec;
ghost use Rattle.es_cursor.specs.Standing.{Lies};

use es_cursor::Cursor;
use es_tree::{Goal, Token, TokenKind};

/// Whether `import` before it begins an expression.
#[tactic(auto, unfolding(es_reader::specs::Basics::is_one_mark))]
pub fn begins_import_expr(cursor: &Cursor, token: Token) -> bool
    requires { Lies cursor.now token }
    ensures { result ≡ spec.begins_import_expr cursor.now token }
{
    match token.kind {
        TokenKind::Punctuator => match cursor.spelled(token) {
            b"(" | b"." => true,
            _ => false,
        },
        _ => false,
    }
}

/// Whether it begins an import: it is `import`, and begins no expression.
#[tactic(auto, unfolding(es_reader::specs::Modules::begins_import))]
pub fn begins_import(cursor: &mut Cursor, token: Token) -> bool
    requires { Lies cursor.old token }
    ensures is { result ≡ spec.begins_import cursor.old token }
    ensures kept { cursor.new ≡ cursor.old }
{
    if !cursor.is_word(b"import", token) {
        return false;
    }
    match cursor.peek(Goal::Operand, token.end) {
        Some(next) => !begins_import_expr(cursor, next),
        None => true,
    }
}
