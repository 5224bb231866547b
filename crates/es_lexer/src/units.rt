// The units of which gaps and tokens are made, and runs of them.
ghost use Rattle.std.specs.Prelude.{◌≡◌, ◌≤◌, ◌<◌, length};
ghost use Rattle.es_tree.specs.Characters as characters;
ghost use Rattle.es_tree.specs.Units as spec;
ghost use Rattle.es_lexer.specs.Kinds.{unit_of};

use crate::characters::{is_digit, is_identifier_part, is_identifier_start};
use crate::escapes::{
    begins, hidden_any, hidden_of_line, line_character, string_escape, unicode_escape,
};
use crate::utf8::{behind, byte, character};

/// What a run is made of.
#[derive(Clone, Copy, Debug, PartialEq, Eq)]
pub enum Unit {
    /// Characters of a comment, before `*/`.
    Comment,
    /// Identifier parts without escapes.
    Flag,
    /// Digits below a radix, and `_` before one.
    Digit(u32),
    /// Characters and escapes of a string in these quotes.
    String(u8),
    /// Characters of a template.
    Template,
    /// Characters of a regular expression within brackets.
    Class,
}

#[inline(always)]
#[tactic(auto, unfolding(es_tree::specs::Units::comment_character))]
fn comment_character(text: &[u8]) -> usize
    ensures value { result ≡ spec.comment_character text.now }
    ensures within { result ≤ length text.now }
{
    if begins(text, b'*', b'/') {
        0
    } else {
        character(text).1
    }
}

#[inline(always)]
#[tactic(auto, unfolding(es_tree::specs::Units::of_class))]
fn part_character(text: &[u8]) -> usize
    ensures value { result ≡ spec.of_class characters.is_identifier_part text.now }
    ensures within { result ≤ length text.now }
{
    let (code, size) = character(text);
    if is_identifier_part(code) { size } else { 0 }
}

#[inline(always)]
#[tactic(auto, unfolding(es_tree::specs::Units::name_unit))]
fn name_part(text: &[u8]) -> usize
    ensures value { result ≡ spec.name_unit characters.is_identifier_part text.now }
    ensures within { result ≤ length text.now }
{
    if byte(text, 0) == b'\\' {
        let (code, size) = unicode_escape(text);
        if is_identifier_part(code) { size } else { 0 }
    } else {
        part_character(text)
    }
}

/// How many bytes the start of an identifier has with which a text begins.
#[inline(always)]
#[tactic(auto, unfolding(es_tree::specs::Units::name_unit, es_tree::specs::Units::of_class))]
pub fn name_start(text: &[u8]) -> usize
    ensures value { result ≡ spec.name_unit characters.is_identifier_start text.now }
    ensures within { result ≤ length text.now }
{
    let (code, size) = if byte(text, 0) == b'\\' {
        unicode_escape(text)
    } else {
        character(text)
    };
    if is_identifier_start(code) { size } else { 0 }
}

#[inline(always)]
#[tactic(auto, unfolding(es_tree::specs::Units::digit_unit))]
fn digit_unit(radix: u32, text: &[u8]) -> usize
    ensures value { result ≡ spec.digit_unit radix text.now }
    ensures within { result ≤ length text.now }
{
    if is_digit(radix, byte(text, 0)) {
        1
    } else if byte(text, 0) == b'_' && is_digit(radix, byte(text, 1)) {
        2
    } else {
        0
    }
}

#[inline(always)]
#[tactic(auto, unfolding(es_tree::specs::Units::string_unit))]
fn string_unit(quote: u8, text: &[u8]) -> usize
    ensures value { result ≡ spec.string_unit quote text.now }
    ensures within { result ≤ length text.now }
{
    let c = byte(text, 0);
    if c == quote || c == b'\n' || c == b'\r' {
        0
    } else if c == b'\\' {
        string_escape(text)
    } else {
        character(text).1
    }
}

#[inline(always)]
#[tactic(auto, unfolding(es_tree::specs::Units::template_unit))]
fn template_unit(text: &[u8]) -> usize
    ensures value { result ≡ spec.template_unit text.now }
    ensures within { result ≤ length text.now }
{
    let c = byte(text, 0);
    if c == b'`' || begins(text, b'$', b'{') {
        0
    } else if c == b'\\' {
        hidden_any(text)
    } else {
        character(text).1
    }
}

#[inline(always)]
#[tactic(auto, unfolding(es_tree::specs::Units::class_unit))]
fn class_unit(text: &[u8]) -> usize
    ensures value { result ≡ spec.class_unit text.now }
    ensures within { result ≤ length text.now }
{
    match byte(text, 0) {
        b']' => 0,
        b'\\' => hidden_of_line(text),
        _ => line_character(text),
    }
}

#[inline(always)]
fn size_of(unit: Unit, text: &[u8]) -> usize
    ensures value { result ≡ unit_of unit text.now }
    ensures within { result ≤ length text.now }
{
    match unit {
        Unit::Comment => comment_character(text),
        Unit::Flag => part_character(text),
        Unit::Digit(radix) => digit_unit(radix, text),
        Unit::String(quote) => string_unit(quote, text),
        Unit::Template => template_unit(text),
        Unit::Class => class_unit(text),
    }
}

/// How many bytes of identifier parts, or escapes of them, a text begins with.
#[inline(always)]
pub fn name_length(text: &[u8]) -> usize
    ensures value { result ≡ spec.run (spec.name_unit characters.is_identifier_part) text.now }
    ensures within { result ≤ length text.now }
{
    let mut at = 0;
    'units: loop {
        let size = name_part(behind(text, at));
        if size == 0 {
            return at;
        }
        at += size;
    }
}

/// How many bytes of characters of one line a text begins with.
pub fn line_length(text: &[u8]) -> usize
    ensures value { result ≡ spec.run (spec.of_class characters.is_line_character) text.now }
    ensures within { result ≤ length text.now }
{
    let mut at = 0;
    'units: loop {
        let size = line_character(behind(text, at));
        if size == 0 {
            return at;
        }
        at += size;
    }
}

/// How many bytes of such units a text begins with.
#[inline(always)]
pub fn run(unit: Unit, text: &[u8]) -> usize
    ensures value { result ≡ spec.run (unit_of unit) text.now }
    ensures within { result ≤ length text.now }
{
    let mut at = 0;
    'units: loop {
        let size = size_of(unit, behind(text, at));
        if size == 0 {
            return at;
        }
        at += size;
    }
}

#[tactic(auto, unfolding(es_tree::specs::Units::bracketed))]
fn bracketed(text: &[u8]) -> usize
    requires begun { 0 < length text.now }
    ensures value { result ≡ spec.bracketed text.now }
    ensures within { result ≤ length text.now }
{
    let size = 1 + run(Unit::Class, behind(text, 1));
    if byte(behind(text, size), 0) == b']' {
        size + 1
    } else {
        0
    }
}

/// A character, an escape or a class of a regular expression.
#[tactic(auto, unfolding(es_tree::specs::Units::regex_unit))]
pub fn regex_unit(text: &[u8]) -> usize
    ensures value { result ≡ spec.regex_unit text.now }
    ensures within { result ≤ length text.now }
{
    match byte(text, 0) {
        b'/' => 0,
        b'\\' => hidden_of_line(text),
        b'[' => bracketed(text),
        _ => line_character(text),
    }
}
