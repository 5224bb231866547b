ghost use Rattle.std.specs.Prelude.{◌≡◌, ◌≤◌, ◌<◌, ◌+◌, ◌^◌, length, IfOk, IfErr};
ghost use Rattle.es_tree.specs.Lexical.{token_at, fault_of};
ghost use Rattle.es_tree.specs.Places.{LiesBehind, IsFaultBehind};

use crate::gap::{gap_end, has_line_terminator};
use crate::lexemes::lexeme;
use crate::utf8::{behind, character};
use es_tree::{Goal, LexFault, Token};

fn fault_of(start: u32, text: &[u8], reach: usize) -> LexFault
    requires fits { start + length text.now < 2 ^ 32 }
    ensures { result ≡ fault_of start text.now reach }
{
    if reach < text.len() && character(behind(text, reach)).1 == 0 {
        LexFault::NotUtf8(start + reach as u32)
    } else {
        LexFault::NoToken(start)
    }
}

/// The token of ECMA-262 that stands at a place of a text at a goal, behind white space, line terminators and comments. At the end
/// of the text it is `End`.
///
/// The text is UTF-8. At its start U+FEFF and a first line that begins `#!` are passed over. Where no token of the goal stands, the
/// answer is `NoToken` with the place where it would begin, or `NotUtf8` with the place where reading met bytes that are no UTF-8.
pub fn next_token(bytes: &[u8], at: u32, goal: Goal) -> Result<Token, LexFault>
    requires short { length bytes.now < 2 ^ 32 }
    requires inside { at ≤ length bytes.now }
    ensures exact { result ≡ token_at bytes.now at goal }
    ensures placed { IfOk result (LiesBehind bytes.now at) }
    ensures fault { IfErr result (IsFaultBehind bytes.now at) }
{
    let at = at as usize;
    let start = gap_end(bytes, at);
    let newline = has_line_terminator(&bytes[at..start]);
    let (_, text) = bytes.split_at(start);
    let start = start as u32;
    match lexeme(goal, text) {
        Ok((kind, size)) => Ok(Token {
            kind,
            start,
            end: start + size as u32,
            newline,
        }),
        Err(reach) => Err(fault_of(start, text, reach)),
    }
}
