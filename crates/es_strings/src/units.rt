//! What one unit of a string stands for.
ghost use Rattle.std.specs.Prelude.{◌≡◌, ◌<◌, ◌≤◌, length, drop, OnSome, IfSome};
ghost use Rattle.std.specs.Char as char;
ghost use Rattle.es_tree.specs.Characters as characters;
ghost use Rattle.es_tree.specs.Names as spec;
ghost use Rattle.es_tree.specs.Units.{unicode_escape as spec_escape};
ghost use Rattle.es_tree.specs.Utf8.{byte as spec_byte, character as spec_character};
ghost use Rattle.es_strings.specs.Decoding.{meaning};

use es_lexer::{character, unicode_escape};

/// What a unit stands for: a code point, or nothing where a line goes on; and the bytes that it takes.
#[derive(Clone, Copy)]
pub(crate) struct Meaning {
    pub code: Option<u32>,
    pub size: usize,
}

// The byte at an index, or 0 behind the end.
fn byte(text: &[u8], i: usize) -> u8
    ensures { result ≡ spec_byte text.now i }
{
    if i < text.len() { text[i] } else { 0 }
}

// The value of a digit of any base up to 36; 36 for what is none.
fn digit_value(c: u8) -> u32
    ensures value { result ≡ char.digit_value c }
    ensures small { result ≤ 36 }
{
    match c {
        b'0'..=b'9' => (c - b'0') as u32,
        b'A'..=b'Z' => (c - b'A') as u32 + 10,
        b'a'..=b'z' => (c - b'a') as u32 + 10,
        _ => 36,
    }
}

#[tactic(auto, unfolding(es_tree::specs::Characters::is_line_terminator))]
fn is_line_terminator(code: u32) -> bool
    ensures { result ≡ characters.is_line_terminator code }
{
    code == 0xA || code == 0xD || code == 0x2028 || code == 0x2029
}

// What one character stands for behind `\`.
#[tactic(auto, unfolding(es_tree::specs::Names::single_escape))]
fn single_escape(code: u32) -> u32
    requires { code < 0x110000 }
    ensures value { result ≡ spec.single_escape code }
    ensures small { result < 0x110000 }
{
    match code {
        0x62 => 0x08,
        0x74 => 0x09,
        0x6E => 0x0A,
        0x76 => 0x0B,
        0x66 => 0x0C,
        0x72 => 0x0D,
        0x30 => 0,
        _ => code,
    }
}

// The character at the front.
#[tactic(auto, using(es_names::proofs::Points::character_is_small))]
fn front(text: &[u8]) -> (u32, usize)
    ensures value { result ≡ spec_character text.now }
    ensures small { result.0 < 0x110000 }
    ensures within { result.1 ≤ length text.now }
{
    character(text)
}

// What an escape by `\u` stands for.
#[tactic(auto, using(es_names::proofs::Points::escape_is_small))]
fn by_number(text: &[u8]) -> (u32, usize)
    ensures value { result ≡ spec_escape text.now }
    ensures small { result.0 < 0x110000 }
{
    unicode_escape(text)
}

// What an escape stands for.
#[tactic(auto, unfolding(es_tree::specs::Names::escape_meaning))]
fn escape(text: &[u8]) -> Meaning
    ensures value { spec.escape_meaning text.now ≡ meaning result }
    ensures small { IfSome result.code (λ code. code < 0x110000) }
{
    let (_, hidden) = text.split_at(text.len().min(1));
    let (code, size) = front(hidden);
    let first = byte(text, 1);
    if first == b'\r' && byte(text, 2) == b'\n' {
        return Meaning {
            code: None,
            size: 3,
        };
    }
    if is_line_terminator(code) {
        return Meaning {
            code: None,
            size: 1 + size,
        };
    }
    if first == b'x' {
        let code = digit_value(byte(text, 2)) * 16 + digit_value(byte(text, 3));
        return Meaning {
            code: Some(code),
            size: 4,
        };
    }
    if first == b'u' {
        let (code, size) = by_number(text);
        return Meaning {
            code: Some(code),
            size,
        };
    }
    Meaning {
        code: Some(single_escape(code)),
        size: 1 + size,
    }
}

/// What the unit at the front stands for.
#[tactic(auto, unfolding(es_tree::specs::Names::string_meaning))]
pub(crate) fn unit(text: &[u8]) -> Meaning
    ensures value { spec.string_meaning text.now ≡ meaning result }
    ensures small { IfSome result.code (λ code. code < 0x110000) }
{
    if byte(text, 0) == b'\\' {
        return escape(text);
    }
    let (code, size) = front(text);
    Meaning {
        code: Some(code),
        size,
    }
}
