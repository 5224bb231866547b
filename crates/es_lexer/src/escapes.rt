// What `\` begins.
ghost use Rattle.std.specs.Prelude.{◌≡◌, ◌≤◌, true, length};
ghost use Rattle.es_tree.specs.Characters as characters;
ghost use Rattle.es_tree.specs.Units as spec;

use crate::characters::{digit_value, is_digit, is_line_character};
use crate::utf8::{behind, byte, character};

#[inline]
pub fn begins(text: &[u8], a: u8, b: u8) -> bool
    ensures { result ≡ spec.begins text.now a b }
{
    byte(text, 0) == a && byte(text, 1) == b
}

#[inline]
#[tactic(auto, unfolding(es_tree::specs::Units::of_class))]
pub fn line_character(text: &[u8]) -> usize
    ensures value { result ≡ spec.of_class characters.is_line_character text.now }
    ensures within { result ≤ length text.now }
{
    let (code, size) = character(text);
    if is_line_character(code) { size } else { 0 }
}

#[tactic(auto, unfolding(es_tree::specs::Units::hex_digit))]
fn hex_digit(text: &[u8]) -> usize
    ensures value { result ≡ spec.hex_digit text.now }
    ensures within { result ≤ length text.now }
{
    if is_digit(16, byte(text, 0)) { 1 } else { 0 }
}

/// How many hexadecimal digits a text begins with.
fn hex_length(text: &[u8]) -> usize
    ensures value { result ≡ spec.run spec.hex_digit text.now }
    ensures within { result ≤ length text.now }
{
    let mut at = 0;
    'units: loop {
        let size = hex_digit(behind(text, at));
        if size == 0 {
            return at;
        }
        at += size;
    }
}

/// The number that hexadecimal digits spell; what is beyond Unicode counts as 0x110000.
#[tactic(auto, unfolding(es_tree::specs::Units::hex_number))]
pub fn hex_number(digits: &[u8]) -> u32
    ensures { result ≡ spec.hex_number 0 digits.now }
{
    let mut so_far: u32 = 0;
    for (i, c) in digits.iter().enumerate() {
        so_far = (16 * so_far + digit_value(*c)).min(0x110000);
    }
    so_far
}

#[tactic(auto, unfolding(es_tree::specs::Units::braced_escape))]
fn braced_escape(text: &[u8]) -> (u32, usize)
    ensures value { result ≡ spec.braced_escape text.now }
    ensures within { result.1 ≤ length text.now }
{
    let rest = behind(text, 3);
    let size = hex_length(rest);
    let (digits, _) = rest.split_at(size);
    let code = hex_number(digits);
    if size > 0 && byte(behind(text, 3 + size), 0) == b'}' && code < 0x110000 {
        (code, size + 4)
    } else {
        (0, 0)
    }
}

#[tactic(auto, unfolding(es_tree::specs::Units::plain_escape))]
fn plain_escape(text: &[u8]) -> (u32, usize)
    ensures value { result ≡ spec.plain_escape text.now }
    ensures within { result.1 ≤ length text.now }
{
    let a = byte(text, 2);
    let b = byte(text, 3);
    let c = byte(text, 4);
    let d = byte(text, 5);
    if is_digit(16, a) && is_digit(16, b) && is_digit(16, c) && is_digit(16, d) {
        let code = digit_value(a) * 4096
            + digit_value(b) * 256
            + digit_value(c) * 16
            + digit_value(d);
        (code, 6)
    } else {
        (0, 0)
    }
}

/// The code point and the bytes of the escape `\u` with which a text begins: no bytes where there is none.
#[tactic(auto, unfolding(es_tree::specs::Units::unicode_escape))]
pub fn unicode_escape(text: &[u8]) -> (u32, usize)
    ensures value { result ≡ spec.unicode_escape text.now }
    ensures within { result.1 ≤ length text.now }
{
    if !begins(text, b'\\', b'u') {
        (0, 0)
    } else if byte(text, 2) == b'{' {
        braced_escape(text)
    } else {
        plain_escape(text)
    }
}

#[tactic(auto, unfolding(es_tree::specs::Units::hidden, es_tree::specs::Units::of_class))]
pub fn hidden_any(text: &[u8]) -> usize
    ensures value { result ≡ spec.hidden (λ _. true) text.now }
    ensures within { result ≤ length text.now }
{
    let (_, size) = character(behind(text, 1));
    if size > 0 { 1 + size } else { 0 }
}

#[tactic(auto, unfolding(es_tree::specs::Units::hidden))]
pub fn hidden_of_line(text: &[u8]) -> usize
    ensures value { result ≡ spec.hidden characters.is_line_character text.now }
    ensures within { result ≤ length text.now }
{
    let size = line_character(behind(text, 1));
    if size > 0 { 1 + size } else { 0 }
}

/// What a string's `\` and what it escapes take.
#[tactic(auto, unfolding(es_tree::specs::Units::string_escape))]
pub fn string_escape(text: &[u8]) -> usize
    ensures value { result ≡ spec.string_escape text.now }
    ensures within { result ≤ length text.now }
{
    let c = byte(text, 1);
    if c == b'\r' && byte(text, 2) == b'\n' {
        3
    } else if c == b'x' {
        if is_digit(16, byte(text, 2)) && is_digit(16, byte(text, 3)) {
            4
        } else {
            0
        }
    } else if c == b'u' {
        unicode_escape(text).1
    } else if is_digit(10, c) {
        if c == b'0' && !is_digit(10, byte(text, 2)) {
            2
        } else {
            0
        }
    } else {
        hidden_any(text)
    }
}
