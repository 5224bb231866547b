//! Kinds of tokens.
ghost use Rattle.std.specs.Prelude.{◌≡◌};
ghost use Rattle.es_reader.specs.Shapes.{is_private_kind};
ghost use Rattle.es_reader.specs.Expressions.{is_template_kind};
ghost use Rattle.es_reader.specs.Operators.{ends_kind};
ghost use Rattle.es_reader.specs.Modules as spec;

use es_tree::{Token, TokenKind};

/// Whether it is a private name.
pub fn is_private(token: Token) -> bool
    ensures { result ≡ is_private_kind token.kind }
{
    match token.kind {
        TokenKind::Private => true,
        _ => false,
    }
}

/// Whether it is a template, or a part of one.
pub fn is_template(token: Token) -> bool
    ensures { result ≡ is_template_kind token.kind }
{
    match token.kind {
        TokenKind::Template => true,
        _ => false,
    }
}

/// Whether it is an identifier name, a reserved word or not.
pub fn is_id(token: Token) -> bool
    ensures { result ≡ spec.is_id token }
{
    match token.kind {
        TokenKind::IdName => true,
        _ => false,
    }
}

/// Whether it is a string.
pub fn is_string(token: Token) -> bool
    ensures { result ≡ spec.is_string token }
{
    match token.kind {
        TokenKind::String => true,
        _ => false,
    }
}

/// Whether it is the end of the text.
pub fn is_end(token: Token) -> bool
    ensures end { result ≡ spec.is_end token }
    ensures ends { result ≡ ends_kind token.kind }
{
    match token.kind {
        TokenKind::End => true,
        _ => false,
    }
}
