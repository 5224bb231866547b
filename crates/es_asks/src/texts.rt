//! Texts that modules ask for, and attributes of requests.
ghost use Rattle.std.specs.Prelude.{◌≡◌, ◌<◌, ◌^◌, ◌+◌, length, slice_get, IfOk, Some};
ghost use Rattle.std.specs.Str.{bytes_eq};
ghost use Rattle.es_tree.specs.Names.{name_of, string_value};
ghost use Rattle.es_asks.specs.Texts as spec;

use es_outline::{Mark, Role};
use es_scope::Outlined;
use es_tree::{Token, TokenKind};
use std::alloc::{AllocError, Global};

// Whether the token at a place is spelled like this.
fn spells(outlined: &Outlined<'_>, place: usize, word: &[u8]) -> bool
    ensures { result ≡ spec.spells outlined.now place word.now }
{
    outlined.spelled_at(place) == word
}

/// Whether a StringLiteral stands at a place.
pub fn is_string(outlined: &Outlined<'_>, place: usize) -> bool
    ensures { result ≡ spec.is_string outlined.now place }
{
    match outlined.marks().get(place) {
        Some(Mark::Token(_, token)) => matches!(token.kind, TokenKind::String),
        _ => false,
    }
}

// Whether an IdentifierName stands at a place.
fn is_word(outlined: &Outlined<'_>, place: usize) -> bool
    ensures { result ≡ spec.is_word outlined.now place }
{
    match outlined.marks().get(place) {
        Some(Mark::Token(_, token)) => matches!(token.kind, TokenKind::IdName),
        _ => false,
    }
}

// The place of the `)` behind the one argument of a list that begins at a place.
fn close_at(outlined: &Outlined<'_>, left: usize) -> Option<usize>
    requires { left < 2 ^ 33 }
    ensures { result ≡ spec.close_at outlined.now left }
{
    if spells(outlined, left + 2, b")") {
        Some(left + 2)
    } else if spells(outlined, left + 2, b",") && spells(outlined, left + 3, b")") {
        Some(left + 3)
    } else {
        None
    }
}

/// The place of the `)` of an argument list of one StringLiteral, maybe with a comma, that begins at a place.
#[tactic(auto, using(crate::proofs::TextLaws::ends_within))]
pub fn argument_end(outlined: &Outlined<'_>, left: u32) -> Option<u32>
    requires { length outlined.now.marks + 2 < 2 ^ 32 }
    ensures { result ≡ spec.argument_end outlined.now left }
{
    let place = left as usize;
    if spells(outlined, place, b"(") && is_string(outlined, place + 1) {
        let end = close_at(outlined, place)?;
        Some(end as u32)
    } else {
        None
    }
}

/// Whether the word of an `import()` stands at a place.
pub fn is_import_call(outlined: &Outlined<'_>, place: u32) -> bool
    ensures { result ≡ spec.is_call_word (slice_get outlined.now.marks place) }
{
    matches!(
        outlined.marks().get(place as usize),
        Some(Mark::Token(Role::ImportCall, _))
    )
}

/// The place of the `)` of an `import()` of a text that begins at a place.
pub fn import_end(outlined: &Outlined<'_>, place: u32) -> Option<u32>
    requires short { length outlined.now.marks + 2 < 2 ^ 32 }
    requires within { place < length outlined.now.marks }
    ensures { result ≡ spec.import_end outlined.now place }
{
    if is_import_call(outlined, place) {
        argument_end(outlined, place + 1)
    } else {
        None
    }
}

/// Whether a request has import attributes.
pub fn has_attributes(outlined: &Outlined<'_>, request: u32) -> bool
    ensures { result ≡ spec.has_attributes outlined.now request }
{
    matches!(
        outlined.marks().get(request as usize + 1),
        Some(Mark::Token(Role::Attributes, _))
    )
}

/// Whether a request has import attributes without a pair.
pub fn has_no_pair(outlined: &Outlined<'_>, request: u32) -> bool
    ensures { result ≡ spec.has_no_pair outlined.now request }
{
    has_attributes(outlined, request) && spells(outlined, request as usize + 3, b"}")
}

// Whether the value of a string is this, by its spelling.
fn has_value(alloc: Global, spelling: &[u8], text: &[u8]) -> Result<bool, AllocError>
    ensures { IfOk result (λ is. is ≡ bytes_eq (string_value spelling.now) text.now) }
{
    if es_strings::is_plain(spelling) {
        Ok(es_strings::within(spelling) == text)
    } else {
        let value = es_strings::value(alloc, spelling)?;
        Ok(value.as_slice() == text)
    }
}

// Whether an identifier name spells this name.
fn has_name(alloc: Global, spelling: &[u8], text: &[u8]) -> Result<bool, AllocError>
    ensures { IfOk result (λ is. is ≡ bytes_eq (name_of spelling.now) text.now) }
{
    if es_names::is_plain(spelling) {
        Ok(spelling == text)
    } else {
        let name = es_names::name(alloc, spelling)?;
        Ok(name.as_slice() == text)
    }
}

// Whether a StringLiteral of this value stands at a place.
fn is_text_of(
    alloc: Global,
    outlined: &Outlined<'_>,
    place: usize,
    text: &[u8],
) -> Result<bool, AllocError>
    ensures { IfOk result (λ is. is ≡ spec.is_text_of outlined.now place text.now) }
{
    if is_string(outlined, place) {
        has_value(alloc, outlined.spelled_at(place), text)
    } else {
        Ok(false)
    }
}

// Whether a word or a text of this value stands at a place.
fn is_key_of(
    alloc: Global,
    outlined: &Outlined<'_>,
    place: usize,
    text: &[u8],
) -> Result<bool, AllocError>
    ensures { IfOk result (λ is. is ≡ spec.is_key_of outlined.now place text.now) }
{
    if is_text_of(alloc, outlined, place, text)? {
        return Ok(true);
    }
    if is_word(outlined, place) {
        has_name(alloc, outlined.spelled_at(place), text)
    } else {
        Ok(false)
    }
}

// Whether import attributes close behind their first pair.
fn closes_pairs(outlined: &Outlined<'_>, request: u32) -> bool
    ensures { result ≡ spec.closes_pairs outlined.now request }
{
    let place = request as usize + 6;
    spells(outlined, place, b"}")
        || (spells(outlined, place, b",") && spells(outlined, place + 1, b"}"))
}

/// Whether the attributes of a request are the one pair `type: "json"`.
pub fn asks_for_json(
    alloc: Global,
    outlined: &Outlined<'_>,
    request: u32,
) -> Result<bool, AllocError>
    ensures { IfOk result (λ is. is ≡ spec.asks_for_json outlined.now request) }
{
    if !(has_attributes(outlined, request) && closes_pairs(outlined, request)) {
        return Ok(false);
    }
    if !is_key_of(alloc, outlined, request as usize + 3, b"type")? {
        return Ok(false);
    }
    is_text_of(alloc, outlined, request as usize + 5, b"json")
}
