//! Tests of Functions: parts of patterns and of parameters, keys and methods.
ghost use Rattle.std.specs.Prelude.{◌≡◌};
ghost use Rattle.es_reader.specs.Functions as spec;
ghost use Rattle.es_reader.specs.Lists as lists;
ghost use Rattle.es_cursor.specs.Standing.{Lies};

use es_cursor::Cursor;
use es_tree::{Goal, Separated, Token, TokenKind};

/// Whether the parts of a pattern or of parameters end before it: it is this mark or `...`.
#[tactic(auto, unfolding(es_reader::specs::Basics::is_one_mark))]
pub fn ends_parts(cursor: &Cursor, closing: &[u8], token: Token) -> bool
    requires { Lies cursor.now token }
    ensures { result ≡ spec.ends_parts cursor.now closing.now token }
{
    match token.kind {
        TokenKind::Punctuator => {
            let mark = cursor.spelled(token);
            mark == closing || mark == b"...".as_slice()
        }
        _ => false,
    }
}

/// Whether a part may follow: none stands there, or a comma stands behind the last.
pub fn ends_with_comma<T>(list: &[Separated<T>]) -> bool
    ensures { result ≡ lists.ends_with_comma list.now }
{
    match list.last() {
        Some(last) => last.comma.is_some(),
        None => true,
    }
}

/// Whether it would belong to the item before it.
#[tactic(auto, unfolding(es_reader::specs::Functions::belongs, es_reader::specs::Functions::belonging_words, es_reader::specs::Basics::is_one_word, es_reader::specs::Basics::is_mark))]
pub fn belongs(cursor: &Cursor, token: Token) -> bool
    requires { Lies cursor.now token }
    ensures { result ≡ spec.belongs cursor.now token }
{
    match token.kind {
        TokenKind::IdName => match cursor.spelled(token) {
            b"else" | b"catch" | b"finally" => true,
            _ => false,
        },
        TokenKind::Punctuator => match cursor.spelled(token) {
            b":" => true,
            _ => false,
        },
        _ => false,
    }
}

/// Whether the name is there, where it has to be.
pub fn fits_name(named: bool, name: Option<Token>) -> bool
    ensures { result ≡ spec.fits_name named name }
{
    !named || name.is_some()
}

/// Whether it is `function` on the line of what stands before it.
pub fn is_function_on_line(cursor: &Cursor, token: Token) -> bool
    requires { Lies cursor.now token }
    ensures { result ≡ spec.is_function_on_line cursor.now token }
{
    cursor.is_word(b"function", token) && !token.newline
}

/// Whether it is `async`, with `function` behind it on its line.
#[tactic(auto, unfolding(es_reader::specs::Functions::begins_async_function))]
pub fn begins_async_function(cursor: &mut Cursor, token: Token) -> bool
    requires { Lies cursor.old token }
    ensures is { result ≡ spec.begins_async_function cursor.old token }
    ensures kept { cursor.new ≡ cursor.old }
{
    if !cursor.is_word(b"async", token) {
        return false;
    }
    match cursor.peek(Goal::Operand, token.end) {
        Some(next) => is_function_on_line(cursor, next),
        None => false,
    }
}

/// Whether it begins a key, one of a class.
#[tactic(auto, unfolding(es_reader::specs::Functions::begins_key))]
pub fn begins_key(cursor: &Cursor, token: Token) -> bool
    requires { Lies cursor.now token }
    ensures { result ≡ spec.begins_key cursor.now token }
{
    match token.kind {
        TokenKind::IdName | TokenKind::Private | TokenKind::Number | TokenKind::String => true,
        TokenKind::Punctuator => cursor.is_mark(b"[", token),
        _ => false,
    }
}

/// Whether it begins a key, or is `*`.
#[tactic(auto, unfolding(es_reader::specs::Functions::begins_starred_key))]
pub fn begins_starred_key(cursor: &Cursor, token: Token) -> bool
    requires { Lies cursor.now token }
    ensures { result ≡ spec.begins_starred_key cursor.now token }
{
    cursor.is_mark(b"*", token) || begins_key(cursor, token)
}

/// The same on the line of what stands before it.
pub fn begins_async_key(cursor: &Cursor, token: Token) -> bool
    requires { Lies cursor.now token }
    ensures { result ≡ spec.begins_async_key cursor.now token }
{
    !token.newline && begins_starred_key(cursor, token)
}

/// Whether it is this word, `get` or `set`, with a key behind it.
#[tactic(auto, unfolding(es_reader::specs::Functions::begins_accessor))]
pub fn begins_accessor(cursor: &mut Cursor, accessor: &[u8], token: Token) -> bool
    requires { Lies cursor.old token }
    ensures is { result ≡ spec.begins_accessor cursor.old accessor.now token }
    ensures kept { cursor.new ≡ cursor.old }
{
    if !cursor.is_word(accessor, token) {
        return false;
    }
    match cursor.peek(Goal::Operand, token.end) {
        Some(next) => begins_key(cursor, next),
        None => false,
    }
}

/// Whether it is `async`, with the key of a method behind it on its line.
#[tactic(auto, unfolding(es_reader::specs::Functions::begins_async_method))]
pub fn begins_async_method(cursor: &mut Cursor, token: Token) -> bool
    requires { Lies cursor.old token }
    ensures is { result ≡ spec.begins_async_method cursor.old token }
    ensures kept { cursor.new ≡ cursor.old }
{
    if !cursor.is_word(b"async", token) {
        return false;
    }
    match cursor.peek(Goal::Operand, token.end) {
        Some(next) => begins_async_key(cursor, next),
        None => false,
    }
}

/// Whether it begins a method that doesn't begin with its key.
#[tactic(auto, unfolding(es_reader::specs::Functions::begins_method))]
pub fn begins_method(cursor: &mut Cursor, token: Token) -> bool
    requires { Lies cursor.old token }
    ensures is { result ≡ spec.begins_method cursor.old token }
    ensures kept { cursor.new ≡ cursor.old }
{
    cursor.is_mark(b"*", token)
        || begins_accessor(cursor, b"get", token)
        || begins_accessor(cursor, b"set", token)
        || begins_async_method(cursor, token)
}
