// Numeric literals.
ghost use Rattle.std.specs.Prelude.{◌≡◌, ◌≤◌, length};
ghost use Rattle.es_tree.specs.Lexical as spec;

use crate::characters::is_digit;
use crate::units::{Unit, name_start, run};
use crate::utf8::{behind, byte};

#[tactic(auto, unfolding(es_tree::specs::Lexical::digits_length))]
fn digits_length(radix: u32, text: &[u8]) -> usize
    ensures value { result ≡ spec.digits_length radix text.now }
    ensures within { result ≤ length text.now }
{
    if is_digit(radix, byte(text, 0)) {
        run(Unit::Digit(radix), text)
    } else {
        0
    }
}

#[tactic(auto, unfolding(es_tree::specs::Lexical::exponent_length))]
fn exponent_length(text: &[u8]) -> usize
    ensures value { result ≡ spec.exponent_length text.now }
    ensures within { result ≤ length text.now }
{
    let letter = byte(text, 0);
    if letter != b'e' && letter != b'E' {
        return 0;
    }
    let sign = byte(text, 1);
    let size = if sign == b'+' || sign == b'-' { 2 } else { 1 };
    let digits = digits_length(10, behind(text, size));
    if digits > 0 { size + digits } else { 0 }
}

#[tactic(auto, unfolding(es_tree::specs::Lexical::integer_length))]
fn integer_length(text: &[u8]) -> usize
    ensures value { result ≡ spec.integer_length text.now }
    ensures within { result ≤ length text.now }
{
    if byte(text, 0) == b'0' {
        1
    } else {
        digits_length(10, text)
    }
}

// What an integer has with a fraction and an exponent behind it.
#[tactic(auto, unfolding(es_tree::specs::Lexical::fraction_length))]
fn fraction_length(text: &[u8], whole: usize) -> usize
    requires { whole ≤ length text.now }
    ensures value { result ≡ spec.fraction_length text.now whole }
    ensures within { result ≤ length text.now }
{
    if byte(behind(text, whole), 0) == b'.' {
        let digits = digits_length(10, behind(text, whole + 1));
        if whole + digits == 0 {
            return 0;
        }
        let size = whole + 1 + digits;
        size + exponent_length(behind(text, size))
    } else if whole == 0 {
        0
    } else {
        whole + exponent_length(behind(text, whole))
    }
}

#[tactic(auto, unfolding(es_tree::specs::Lexical::decimal_length))]
fn decimal_length(text: &[u8]) -> usize
    ensures value { result ≡ spec.decimal_length text.now }
    ensures within { result ≤ length text.now }
{
    let whole = integer_length(text);
    if whole > 0 && byte(behind(text, whole), 0) == b'n' {
        whole + 1
    } else {
        fraction_length(text, whole)
    }
}

fn radix_of(c: u8) -> u32
    ensures { result ≡ spec.radix_of c }
{
    match c {
        b'x' | b'X' => 16,
        b'o' | b'O' => 8,
        b'b' | b'B' => 2,
        _ => 0,
    }
}

#[tactic(auto, unfolding(es_tree::specs::Lexical::radix_length))]
fn radix_length(radix: u32, text: &[u8]) -> usize
    ensures value { result ≡ spec.radix_length radix text.now }
    ensures within { result ≤ length text.now }
{
    let digits = digits_length(radix, behind(text, 2));
    if digits == 0 {
        0
    } else if byte(behind(text, 2 + digits), 0) == b'n' {
        2 + digits + 1
    } else {
        2 + digits
    }
}

#[tactic(auto, unfolding(es_tree::specs::Lexical::numeric_length))]
fn numeric_length(text: &[u8]) -> usize
    ensures value { result ≡ spec.numeric_length text.now }
    ensures within { result ≤ length text.now }
{
    let radix = radix_of(byte(text, 1));
    if byte(text, 0) == b'0' && radix > 0 {
        radix_length(radix, text)
    } else {
        decimal_length(text)
    }
}

/// How many bytes the number has with which a text begins: none where a digit or an identifier stands directly behind it.
#[tactic(auto, unfolding(es_tree::specs::Lexical::number_length))]
pub fn number_length(text: &[u8]) -> usize
    ensures value { result ≡ spec.number_length text.now }
    ensures within { result ≤ length text.now }
{
    let size = numeric_length(text);
    let rest = behind(text, size);
    if is_digit(10, byte(rest, 0)) || name_start(rest) > 0 {
        0
    } else {
        size
    }
}
