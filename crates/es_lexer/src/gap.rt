// What stands between tokens.
ghost use Rattle.std.specs.Prelude.{◌≡◌, ◌≤◌, length};
ghost use Rattle.es_tree.specs.Characters as characters;
ghost use Rattle.es_tree.specs.Lexical as lexical;
ghost use Rattle.es_tree.specs.Units as spec;

use crate::characters::is_gap_character;
use crate::escapes::begins;
use crate::units::{Unit, line_length, run};
use crate::utf8::{behind, byte, character};

#[inline(always)]
#[tactic(auto, unfolding(es_tree::specs::Units::of_class))]
fn gap_character(text: &[u8]) -> usize
    ensures value { result ≡ spec.of_class characters.is_gap_character text.now }
    ensures within { result ≤ length text.now }
{
    let (code, size) = character(text);
    if is_gap_character(code) { size } else { 0 }
}

#[tactic(auto, unfolding(es_tree::specs::Units::line_comment))]
fn line_comment(text: &[u8]) -> usize
    ensures value { result ≡ spec.line_comment text.now }
    ensures within { result ≤ length text.now }
{
    if begins(text, b'/', b'/') {
        2 + line_length(behind(text, 2))
    } else {
        0
    }
}

#[tactic(auto, unfolding(es_tree::specs::Units::block_comment))]
fn block_comment(text: &[u8]) -> usize
    ensures value { result ≡ spec.block_comment text.now }
    ensures within { result ≤ length text.now }
{
    if !begins(text, b'/', b'*') {
        return 0;
    }
    let size = 2 + run(Unit::Comment, behind(text, 2));
    if begins(behind(text, size), b'*', b'/') {
        size + 2
    } else {
        0
    }
}

#[inline(always)]
#[tactic(auto, unfolding(es_tree::specs::Units::gap_unit))]
fn gap_unit(text: &[u8]) -> usize
    ensures value { result ≡ spec.gap_unit text.now }
    ensures within { result ≤ length text.now }
{
    let size = gap_character(text);
    if size > 0 {
        return size;
    }
    let size = line_comment(text);
    if size > 0 { size } else { block_comment(text) }
}

// How many bytes of white space, line terminators and comments a text begins with.
#[inline(always)]
fn gap_length(text: &[u8]) -> usize
    ensures value { result ≡ spec.run spec.gap_unit text.now }
    ensures within { result ≤ length text.now }
{
    let mut at = 0;
    'units: loop {
        let size = gap_unit(behind(text, at));
        if size == 0 {
            return at;
        }
        at += size;
    }
}

#[tactic(auto, unfolding(es_tree::specs::Lexical::hashbang_length))]
fn hashbang_length(text: &[u8]) -> usize
    ensures value { result ≡ lexical.hashbang_length text.now }
    ensures within { result ≤ length text.now }
{
    let marked = begins(text, 0xEF, 0xBB) && byte(text, 2) == 0xBF;
    let mark = if marked { 3 } else { 0 };
    if begins(behind(text, mark), b'#', b'!') {
        mark + 2 + line_length(behind(text, mark + 2))
    } else {
        0
    }
}

/// Where the gap at a place ends.
#[tactic(auto, unfolding(es_tree::specs::Lexical::gap_end))]
pub fn gap_end(bytes: &[u8], at: usize) -> usize
    requires { at ≤ length bytes.now }
    ensures value { result ≡ lexical.gap_end bytes.now at }
    ensures begins { at ≤ result }
    ensures within { result ≤ length bytes.now }
{
    let start = if at == 0 { hashbang_length(bytes) } else { at };
    start + gap_length(behind(bytes, start))
}

#[tactic(auto, unfolding(es_tree::specs::Lexical::has_line_terminator))]
pub fn has_line_terminator(gap: &[u8]) -> bool
    ensures { result ≡ lexical.has_line_terminator gap.now }
{
    line_length(gap) < gap.len()
}
