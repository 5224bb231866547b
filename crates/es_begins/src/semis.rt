//! Semicolons, where they may be left out, and where an expression is closed.
ghost use Rattle.std.specs.Prelude.{◌≡◌, [], ◌∷◌, Some, IfOk, bytes_eq, codes};
ghost use Rattle.std.specs.List.{list_any};
ghost use Rattle.es_grammar.specs.Reading.{spelled};
ghost use Rattle.es_grammar.specs.Semicolons as gap;
ghost use Rattle.es_reader.specs.Basics.{Reads};
ghost use Rattle.es_reader.specs.Semis as spec;
ghost use Rattle.es_cursor.specs.Standing.{EndsIn, Lies, Stands};

use crate::spelling::{is, is_assignment_mark, is_binary_mark};
use es_cursor::Cursor;
use es_grammar::{Ending, Stop};
use es_reader::ParseFault;
use es_tree::{Goal, Token, TokenKind};

fn is_link(mark: &[u8]) -> bool
    ensures { result ≡ list_any (bytes_eq mark.now) (codes "," ∷ codes "?" ∷ []) }
{
    match mark {
        b"," | b"?" => true,
        _ => false,
    }
}

fn begins_suffix_or_set(mark: &[u8]) -> bool
    ensures { result ≡ list_any (bytes_eq mark.now) (codes "=" ∷ codes "." ∷ codes "?." ∷ codes "(" ∷ codes "[" ∷ []) }
{
    match mark {
        b"=" | b"." | b"?." | b"(" | b"[" => true,
        _ => false,
    }
}

#[tactic(auto, using(crate::proofs::Lists::any_of_both))]
fn goes_on_with(ending: Ending, mark: &[u8]) -> bool
    ensures { result ≡ list_any (bytes_eq mark.now) (gap.marks_behind ending) }
{
    match ending {
        Ending::Expression => {
            is_link(mark)
                || begins_suffix_or_set(mark)
                || is_binary_mark(mark)
                || is_assignment_mark(mark)
        }
        Ending::Postfix => is_link(mark) || is_binary_mark(mark),
        Ending::BlockArrow => match mark {
            b"," => true,
            _ => false,
        },
        Ending::DeclaredName => match mark {
            b"=" | b"," => true,
            _ => false,
        },
        Ending::FieldKey => match mark {
            b"=" | b"(" => true,
            _ => false,
        },
        Ending::AccessorKey => match mark {
            b"=" | b"(" | b"[" => true,
            _ => false,
        },
        Ending::StaticKey => match mark {
            b"=" | b"(" | b"[" | b"*" | b"{" => true,
            _ => false,
        },
        _ => false,
    }
}

#[tactic(auto, unfolding(es_grammar::specs::Semicolons::binary_words))]
fn is_binary_word(word: &[u8]) -> bool
    ensures { result ≡ list_any (bytes_eq word.now) gap.binary_words }
{
    is(word, b"in") || is(word, b"instanceof")
}

fn is_from(word: &[u8]) -> bool
    ensures { result ≡ list_any (bytes_eq word.now) (codes "from" ∷ []) }
{
    match word {
        b"from" => true,
        _ => false,
    }
}

fn is_with(word: &[u8]) -> bool
    ensures { result ≡ list_any (bytes_eq word.now) (codes "with" ∷ []) }
{
    match word {
        b"with" => true,
        _ => false,
    }
}

fn goes_on_by(ending: Ending, word: &[u8]) -> bool
    ensures { result ≡ list_any (bytes_eq word.now) (gap.words_behind ending) }
{
    match ending {
        Ending::Expression | Ending::Postfix => is_binary_word(word),
        Ending::ExportedNames => is_from(word),
        Ending::Request => is_with(word),
        _ => false,
    }
}

fn takes_key(ending: Ending) -> bool
    ensures { result ≡ gap.takes_key ending }
{
    match ending {
        Ending::AccessorKey | Ending::StaticKey => true,
        _ => false,
    }
}

fn takes_template(ending: Ending) -> bool
    ensures { result ≡ gap.takes_template ending }
{
    match ending {
        Ending::Expression => true,
        _ => false,
    }
}

// Whether a token with this spelling goes on with what ended.
fn continues(ending: Ending, kind: TokenKind, spelling: &[u8]) -> bool
    ensures { result ≡ gap.continues ending kind spelling.now }
{
    match kind {
        TokenKind::IdName => goes_on_by(ending, spelling) || takes_key(ending),
        TokenKind::Private | TokenKind::Number | TokenKind::String => takes_key(ending),
        TokenKind::Template => takes_template(ending),
        TokenKind::Punctuator => goes_on_with(ending, spelling),
        TokenKind::Regex | TokenKind::End => false,
    }
}

// Whether it stands on a new line, and doesn't go on.
fn is_fresh(cursor: &Cursor, ending: Ending, token: Token) -> bool
    requires { Lies cursor.now token }
    ensures { result ≡ gap.is_fresh cursor.now ending token }
{
    token.newline && !continues(ending, token.kind, cursor.spelled(token))
}

fn closes_statement(cursor: &Cursor, token: Token) -> bool
    requires { Lies cursor.now token }
    ensures { result ≡ gap.closes (codes "}" ∷ []) token.kind (spelled cursor.now token) }
{
    match token.kind {
        TokenKind::Punctuator => match cursor.spelled(token) {
            b"}" => true,
            _ => false,
        },
        TokenKind::End => true,
        _ => false,
    }
}

fn closes_expression(cursor: &Cursor, token: Token) -> bool
    requires { Lies cursor.now token }
    ensures { result ≡ gap.closes (codes ")" ∷ codes "]" ∷ codes "}" ∷ codes ":" ∷ codes ";" ∷ []) token.kind (spelled cursor.now token) }
{
    match token.kind {
        TokenKind::Punctuator => match cursor.spelled(token) {
            b")" | b"]" | b"}" | b":" | b";" => true,
            _ => false,
        },
        TokenKind::End => true,
        _ => false,
    }
}

/// Whether it is `}`, `;` or the end of the text, before which no value stands.
pub fn closes_value(cursor: &Cursor, token: Token) -> bool
    requires { Lies cursor.now token }
    ensures { result ≡ gap.closes (codes "}" ∷ codes ";" ∷ []) token.kind (spelled cursor.now token) }
{
    match token.kind {
        TokenKind::Punctuator => match cursor.spelled(token) {
            b"}" | b";" => true,
            _ => false,
        },
        TokenKind::End => true,
        _ => false,
    }
}

/// Whether a semicolon may be left out before it, behind what ended so.
pub fn ends_statement(cursor: &Cursor, ending: Ending, token: Token) -> bool
    requires { Lies cursor.now token }
    ensures { result ≡ spec.ends cursor.now (codes "}" ∷ []) ending token }
{
    closes_statement(cursor, token) || is_fresh(cursor, ending, token)
}

/// Whether it closes the expression that ended so.
pub fn ends_expression(cursor: &Cursor, ending: Ending, token: Token) -> bool
    requires { Lies cursor.now token }
    ensures { result ≡ spec.ends cursor.now (codes ")" ∷ codes "]" ∷ codes "}" ∷ codes ":" ∷ codes ";" ∷ []) ending token }
{
    closes_expression(cursor, token) || is_fresh(cursor, ending, token)
}

/// Whether the token behind an expression closes it.
#[tactic(auto, unfolding(es_reader::specs::Semis::is_closed))]
pub fn is_closed(cursor: &mut Cursor, s: Stop) -> bool
    requires { Stands cursor.old s.at }
    ensures is { result ≡ spec.is_closed cursor.old s }
    ensures kept { cursor.new ≡ cursor.old }
{
    match cursor.peek(Goal::Operator, s.at) {
        Some(token) => ends_expression(cursor, s.ending, token),
        None => false,
    }
}

/// A semicolon behind what ended so, and where it ends.
#[tactic(auto, unfolding(es_reader::specs::Semis::read_semi))]
pub fn read_semi(cursor: &mut Cursor, s: Stop) -> Result<(Option<Token>, u32), ParseFault>
    requires stands { Stands cursor.old s.at }
    ensures reads { Reads (spec.read_semi cursor.old s) result }
    ensures within { IfOk result (EndsIn cursor.old) }
    ensures kept { cursor.new ≡ cursor.old }
{
    let token = cursor.token(Goal::Operator, s.at)?;
    if cursor.is_mark(b";", token) {
        return Ok((Some(token), token.end));
    }
    if ends_statement(cursor, s.ending, token) {
        return Ok((None, s.at));
    }
    Err(ParseFault::Syntax)
}

/// A semicolon that may always be left out, and where it ends.
#[tactic(auto, unfolding(es_reader::specs::Semis::read_free_semi))]
pub fn read_free_semi(cursor: &mut Cursor, at: u32) -> (Option<Token>, u32)
    requires stands { Stands cursor.old at }
    ensures reads { spec.read_free_semi cursor.old at ≡ Some result }
    ensures within { EndsIn cursor.old result }
    ensures kept { cursor.new ≡ cursor.old }
{
    match cursor.peek(Goal::Operator, at) {
        Some(token) if cursor.is_mark(b";", token) => (Some(token), token.end),
        _ => (None, at),
    }
}
