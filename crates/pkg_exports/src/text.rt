ghost use Rattle.std.specs.Prelude.{◌≡◌, ◌++◌, ◌∷◌, false, MatchOption, IfOk};
ghost use Rattle.std.specs.List.{list_any};
ghost use Rattle.std.specs.Str.{bytes_eq};
ghost use Rattle.pkg_manifest.specs.Patterns.{segments};
ghost use Rattle.pkg_exports.specs.Texts.{has, with_part, is_forbidden as forbidden, is_file as file, is_path as path, text_outcome};

use crate::answer::{Table, Target};
use crate::meaning::Outcome;
use pk_types::Text;
use std::alloc::{AllocError, Global};

pub(crate) fn is(text: &[u8], word: &[u8]) -> bool
    ensures { result ≡ bytes_eq text.now word.now }
{
    text == word
}

/// What stands before the first such byte, and what stands behind it where there is one.
pub(crate) fn cut(text: &[u8], byte: u8) -> (&[u8], Option<&[u8]>)
    ensures parts { MatchOption result.1 (text.now ≡ result.0.now) (λ rest. text.now ≡ result.0.now ++ byte ∷ rest.now) }
    ensures first { has byte result.0.now ≡ false }
{
    let mut at = 0;
    while at < text.len() {
        if text[at] == byte {
            return (&text[..at], Some(&text[at + 1..]));
        }
        at += 1;
    }
    (text, None)
}

/// The text with the part in place of each `*`.
fn put_part(alloc: Global, text: &[u8], part: &[u8]) -> Result<Text, AllocError>
    ensures { IfOk result (λ put. put ≡ with_part part.now text.now) }
{
    let mut put = Vec::with_capacity(alloc, text.len())?;
    for byte in text {
        if *byte == b'*' {
            put.extend_from_slice(part)?;
        } else {
            put.push(*byte)?;
        }
    }
    Ok(Text::from_vec(put))
}

fn is_forbidden(segment: &[u8]) -> bool
    ensures { result ≡ forbidden segment.now }
{
    is(segment, b"") || is(segment, b".") || is(segment, b"..") || is(segment, b"node_modules")
}

fn has_forbidden(text: &[u8]) -> bool
    ensures { result ≡ list_any forbidden (segments text.now) }
{
    let mut text = text;
    loop {
        let (segment, rest) = cut(text, b'/');
        if is_forbidden(segment) {
            return true;
        }
        match rest {
            Some(rest) => text = rest,
            None => return false,
        }
    }
}

fn is_file(text: &[u8]) -> bool
    ensures { result ≡ file text.now }
{
    match text.strip_prefix(b"./") {
        Some(rest) => !has_forbidden(rest),
        None => false,
    }
}

fn is_path(text: &[u8]) -> bool
    ensures { result ≡ path text.now }
{
    text.starts_with(b"./") || text.starts_with(b"../") || text.starts_with(b"/")
}

/// What a text stands for, with the part in place of each `*`.
pub(crate) fn of_text(
    alloc: Global,
    text: &[u8],
    part: &[u8],
    table: Table,
) -> Result<Outcome, AllocError>
    ensures { IfOk result (λ outcome. outcome ≡ text_outcome table part.now text.now) }
{
    if is_file(text) {
        let put = put_part(alloc, text, part)?;
        if is_file(put.as_slice()) {
            return Ok(Outcome::Usable(Target::File(put)));
        }
        return Ok(Outcome::Bad);
    }
    match table {
        Table::Exports => Ok(Outcome::Bad),
        Table::Imports => {
            if is_path(text) {
                return Ok(Outcome::Bad);
            }
            let put = put_part(alloc, text, part)?;
            Ok(Outcome::Usable(Target::Bare(put)))
        }
    }
}
