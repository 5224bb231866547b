// Punctuators.
ghost use Rattle.std.specs.Prelude.{◌≡◌, ◌≤◌, ◌<◌, length, IsTrue};
ghost use Rattle.es_tree.specs.Marks as spec;

use crate::characters::is_digit;
use crate::utf8::byte;

#[tactic(auto, unfolding(es_tree::specs::Marks::is_single))]
fn is_single(a: u8) -> bool
    ensures value { result ≡ spec.is_single a }
    ensures some { IsTrue result → 0 < a }
{
    a == b'{'
        || a == b'}'
        || a == b'('
        || a == b')'
        || a == b'['
        || a == b']'
        || a == b'.'
        || a == b';'
        || a == b','
        || a == b'<'
        || a == b'>'
        || a == b'+'
        || a == b'-'
        || a == b'*'
        || a == b'/'
        || a == b'%'
        || a == b'&'
        || a == b'|'
        || a == b'^'
        || a == b'!'
        || a == b'~'
        || a == b'?'
        || a == b':'
        || a == b'='
}

#[tactic(auto, unfolding(es_tree::specs::Marks::is_doubled))]
fn is_doubled(a: u8) -> bool
    ensures value { result ≡ spec.is_doubled a }
    ensures some { IsTrue result → 0 < a }
{
    a == b'+'
        || a == b'-'
        || a == b'<'
        || a == b'>'
        || a == b'='
        || a == b'*'
        || a == b'&'
        || a == b'|'
        || a == b'?'
}

#[tactic(auto, unfolding(es_tree::specs::Marks::takes_equals))]
fn takes_equals(a: u8) -> bool
    ensures value { result ≡ spec.takes_equals a }
{
    a == b'<'
        || a == b'>'
        || a == b'='
        || a == b'!'
        || a == b'+'
        || a == b'-'
        || a == b'*'
        || a == b'/'
        || a == b'%'
        || a == b'&'
        || a == b'|'
        || a == b'^'
}

#[tactic(auto, unfolding(es_tree::specs::Marks::is_pair))]
fn is_pair(a: u8, b: u8, c: u8) -> bool
    ensures value { result ≡ spec.is_pair a b c }
    ensures some { IsTrue result → 0 < b }
{
    a == b && is_doubled(a)
        || b == b'=' && takes_equals(a)
        || a == b'=' && b == b'>'
        || a == b'?' && b == b'.' && !is_digit(10, c)
}

#[tactic(auto, unfolding(es_tree::specs::Marks::doubled_takes_equals))]
fn doubled_takes_equals(a: u8) -> bool
    ensures value { result ≡ spec.doubled_takes_equals a }
{
    a == b'*' || a == b'<' || a == b'>' || a == b'&' || a == b'|' || a == b'?'
}

#[tactic(auto, unfolding(es_tree::specs::Marks::is_triple))]
fn is_triple(a: u8, b: u8, c: u8) -> bool
    ensures value { result ≡ spec.is_triple a b c }
    ensures some { IsTrue result → 0 < c }
{
    c == b'=' && (a == b && doubled_takes_equals(a) || b == b'=' && (a == b'=' || a == b'!'))
        || a == b && b == c && (a == b'>' || a == b'.')
}

/// How many bytes the punctuator has with which a text begins: the longest.
#[inline(always)]
#[tactic(auto, unfolding(es_tree::specs::Marks::mark_length))]
pub fn mark_length(text: &[u8]) -> usize
    ensures value { result ≡ spec.mark_length text.now }
    ensures within { result ≤ length text.now }
{
    let a = byte(text, 0);
    let b = byte(text, 1);
    let c = byte(text, 2);
    if a == b'>' && b == b'>' && c == b'>' && byte(text, 3) == b'=' {
        4
    } else if is_triple(a, b, c) {
        3
    } else if is_pair(a, b, c) {
        2
    } else if is_single(a) {
        1
    } else {
        0
    }
}
