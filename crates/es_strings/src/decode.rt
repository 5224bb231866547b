//! The value of a string.
ghost use Rattle.std.specs.Prelude.{◌≡◌, ◌<◌, ◌+◌, ◌-◌, ◌*◌, ◌∷◌, ◌++◌, List, ℕ, drop, IfOk, IfSome, OnOk, IsTrue};
ghost use Rattle.es_tree.specs.Names.{
  encoded,
  is_high_surrogate,
  is_low_surrogate,
  string_value,
};
ghost use Rattle.es_strings.specs.Decoding.{IsHigh, points, value_of};

use crate::plain::within;
use crate::units::unit;
use std::alloc::{AllocError, Global};

// Appends a code point in UTF-8.
#[tactic(auto, unfolding(es_tree::specs::Names::encoded))]
fn push(bytes: &mut Vec<u8>, code: u32) -> Result<(), AllocError>
    requires { code < 0x110000 }
    ensures { OnOk result (bytes.new.items ≡ bytes.old.items ++ encoded code) }
{
    if code < 0x80 {
        bytes.push(code as u8)?;
    } else if code < 0x800 {
        bytes.push((0xC0 + code / 64) as u8)?;
        bytes.push((0x80 + code % 64) as u8)?;
    } else if code < 0x10000 {
        bytes.push((0xE0 + code / 4096) as u8)?;
        bytes.push((0x80 + code / 64 % 64) as u8)?;
        bytes.push((0x80 + code % 64) as u8)?;
    } else {
        bytes.push((0xF0 + code / 262144) as u8)?;
        bytes.push((0x80 + code / 4096 % 64) as u8)?;
        bytes.push((0x80 + code / 64 % 64) as u8)?;
        bytes.push((0x80 + code % 64) as u8)?;
    }
    Ok(())
}

fn is_high(code: u32) -> bool
    ensures { result ≡ is_high_surrogate code }
{
    (0xD800..0xDC00).contains(&code)
}

fn is_low(code: u32) -> bool
    ensures { result ≡ is_low_surrogate code }
{
    (0xDC00..0xE000).contains(&code)
}

// The code point of two surrogates.
fn pair(high: u32, low: u32) -> u32
    requires high { IsTrue (is_high_surrogate high) }
    requires low { IsTrue (is_low_surrogate low) }
    ensures value { result ≡ 0x10000 + (high - 0xD800) * 1024 + (low - 0xDC00) }
    ensures small { result < 0x110000 }
{
    0x10000 + (high - 0xD800) * 1024 + (low - 0xDC00)
}

// Appends a code point where none waits, and gives what waits then.
#[tactic(auto, using(crate::proofs::Joined::begins, crate::proofs::Joined::waits_on))]
fn begin(bytes: &mut Vec<u8>, code: u32) -> Result<Option<u32>, AllocError>
    requires { code < 0x110000 }
    ensures waits { IfOk result IsHigh }
    ensures value { IfOk result (λ next. (rest : List ℕ)
        → bytes.old.items ++ value_of (code ∷ rest)
        ≡ bytes.new.items ++ value_of (points next ++ rest)) }
{
    if is_high(code) {
        return Ok(Some(code));
    }
    push(bytes, code)?;
    Ok(None)
}

// The same where a high surrogate may wait.
#[tactic(auto, using(crate::proofs::Joined::paired, crate::proofs::Joined::parted))]
fn put(bytes: &mut Vec<u8>, waits: Option<u32>, code: u32) -> Result<Option<u32>, AllocError>
    requires small { code < 0x110000 }
    requires waits { IsHigh waits }
    ensures waits { IfOk result IsHigh }
    ensures value { IfOk result (λ next. (rest : List ℕ)
        → bytes.old.items ++ value_of (points waits ++ code ∷ rest)
        ≡ bytes.new.items ++ value_of (points next ++ rest)) }
{
    let Some(high) = waits else {
        return begin(bytes, code);
    };
    if is_low(code) {
        push(bytes, pair(high, code))?;
        return Ok(None);
    }
    push(bytes, high)?;
    begin(bytes, code)
}

// The same with what a unit stands for, which may be nothing.
fn put_any(
    bytes: &mut Vec<u8>,
    waits: Option<u32>,
    code: Option<u32>,
) -> Result<Option<u32>, AllocError>
    requires small { IfSome code (λ one. one < 0x110000) }
    requires waits { IsHigh waits }
    ensures waits { IfOk result IsHigh }
    ensures value { IfOk result (λ next. (rest : List ℕ)
        → bytes.old.items ++ value_of (points waits ++ (points code ++ rest))
        ≡ bytes.new.items ++ value_of (points next ++ rest)) }
{
    match code {
        Some(code) => put(bytes, waits, code),
        None => Ok(waits),
    }
}

// Appends what waits at the end.
#[tactic(auto, using(crate::proofs::Joined::last_alone, crate::proofs::Joined::none_waits))]
fn finish(bytes: &mut Vec<u8>, waits: Option<u32>) -> Result<(), AllocError>
    requires { IsHigh waits }
    ensures { OnOk result (bytes.new.items ≡ bytes.old.items ++ value_of (points waits)) }
{
    match waits {
        Some(high) => push(bytes, high),
        None => Ok(()),
    }
}

// What is left behind so many bytes.
fn behind(text: &[u8], size: usize) -> &[u8]
    ensures { result.now ≡ drop size text.now }
{
    &text[size.min(text.len())..]
}

/// The value of a string, by its spelling with the quotes. A surrogate that stays alone has three bytes, which no UTF-8 has.
pub fn value(alloc: Global, spelling: &[u8]) -> Result<Vec<u8>, AllocError>
    ensures { IfOk result (λ value. value.items ≡ string_value spelling.now) }
{
    let mut bytes = Vec::with_capacity(alloc, spelling.len())?;
    let mut rest = within(spelling);
    let mut waits = None;
    while !rest.is_empty() {
        let unit = unit(rest);
        waits = put_any(&mut bytes, waits, unit.code)?;
        rest = behind(rest, unit.size.max(1));
    }
    finish(&mut bytes, waits)?;
    Ok(bytes)
}
