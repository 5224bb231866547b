ghost use Rattle.std.specs.Prelude.{◌≡◌, ◌≤◌, ◌<◌, ◌++◌, List, ℕ, length, drop, IfOk, OnOk, IsTrue};
ghost use Rattle.es_tree.specs.Names.{all_encoded, encoded, name_meaning, name_of, one, points_from};

use es_lexer::{character, unicode_escape};
use std::alloc::{AllocError, Global};

/// Whether a spelling has only ASCII characters and no escape, so that it spells itself.
#[tactic(auto, using(crate::proofs::Plain::spells_itself, crate::proofs::Plain::nothing_spells_itself))]
pub fn is_plain(spelling: &[u8]) -> bool
    ensures { IsTrue result → name_of spelling.now ≡ spelling.now }
{
    let mut rest = spelling;
    while let Some((first, behind)) = rest.split_first() {
        if *first >= 0x80 || *first == b'\\' {
            return false;
        }
        rest = behind;
    }
    true
}

// The code point of a character or an escape, and the bytes that it takes.
#[tactic(auto, unfolding(es_tree::specs::Names::name_meaning), using(crate::proofs::Points::character_is_small, crate::proofs::Points::escape_is_small))]
fn unit(text: &[u8]) -> (u32, usize)
    ensures value { name_meaning text.now ≡ one result }
    ensures small { result.0 < 0x110000 }
    ensures within { result.1 ≤ length text.now }
{
    if text.first() == Some(&b'\\') {
        unicode_escape(text)
    } else {
        character(text)
    }
}

// Appends a code point in UTF-8.
#[tactic(auto, unfolding(es_tree::specs::Names::encoded))]
fn push(bytes: &mut Vec<u8>, code: u32) -> Result<(), AllocError>
    requires { code < 0x110000 }
    ensures { OnOk result (bytes.new.items ≡ bytes.old.items ++ encoded code) }
{
    if code < 0x80 {
        bytes.push(code as u8)?;
    } else if code < 0x800 {
        bytes.push((0xC0 + code / 64) as u8)?;
        bytes.push((0x80 + code % 64) as u8)?;
    } else if code < 0x10000 {
        bytes.push((0xE0 + code / 4096) as u8)?;
        bytes.push((0x80 + code / 64 % 64) as u8)?;
        bytes.push((0x80 + code % 64) as u8)?;
    } else {
        bytes.push((0xF0 + code / 262144) as u8)?;
        bytes.push((0x80 + code / 4096 % 64) as u8)?;
        bytes.push((0x80 + code / 64 % 64) as u8)?;
        bytes.push((0x80 + code % 64) as u8)?;
    }
    Ok(())
}

/// The name that an identifier name spells, in UTF-8.
#[tactic(auto, using(crate::proofs::Plain::unit_by_unit, crate::proofs::Plain::nothing_spells_itself))]
pub fn name(alloc: Global, spelling: &[u8]) -> Result<Vec<u8>, AllocError>
    ensures { IfOk result (λ name. name.items ≡ name_of spelling.now) }
{
    let mut name = Vec::with_capacity(alloc, spelling.len())?;
    let mut rest = spelling;
    while !rest.is_empty() {
        let (code, size) = unit(rest);
        push(&mut name, code)?;
        let (_, behind) = rest.split_at(size.max(1));
        rest = behind;
    }
    Ok(name)
}
