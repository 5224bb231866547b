//! Counts the tokens of the text on the standard input, by kind. It serves `bench/tokens.py`.
//!
//! The goal of a place is told by the token before it, which serves for texts without braces within templates. A text
//! has at most 100,000,000 bytes.
#![tactic(auto)]

ghost use Rattle.std.specs.Prelude.{◌<◌, ◌^◌, length};

use es_lexer::next_token;
use es_tree::{Goal, Token, TokenKind};
use std::io;
use std::io::Read;

/// What was read, and what tells the next goal.
#[derive(Drop)]
struct Count {
    names: u64,
    numbers: u64,
    strings: u64,
    templates: u64,
    regexes: u64,
    marks: u64,
    newlines: u64,
    behind_operand: bool,
    in_template: bool,
}

impl Count {
    fn new() -> Count {
        Count {
            names: 0,
            numbers: 0,
            strings: 0,
            templates: 0,
            regexes: 0,
            marks: 0,
            newlines: 0,
            behind_operand: false,
            in_template: false,
        }
    }

    fn goal(&self) -> Goal {
        if !self.behind_operand {
            Goal::Operand
        } else if self.in_template {
            Goal::Template
        } else {
            Goal::Operator
        }
    }

    // Counts a token that ends with this byte.
    fn add(&mut self, token: Token, last: u8) {
        if token.newline {
            self.newlines = self.newlines.wrapping_add(1);
        }
        self.behind_operand = true;
        match token.kind {
            TokenKind::IdName | TokenKind::Private => self.names = self.names.wrapping_add(1),
            TokenKind::Number => self.numbers = self.numbers.wrapping_add(1),
            TokenKind::String => self.strings = self.strings.wrapping_add(1),
            TokenKind::Template => {
                self.templates = self.templates.wrapping_add(1);
                self.in_template = last == b'{';
                self.behind_operand = last != b'{';
            }
            TokenKind::Regex => self.regexes = self.regexes.wrapping_add(1),
            TokenKind::Punctuator => {
                self.marks = self.marks.wrapping_add(1);
                self.behind_operand = last == b')' || last == b']' || last == b'}';
            }
            TokenKind::End => {}
        }
    }
}

// The tokens of a text, or the place that the first fault is read from.
fn count_all(text: &[u8]) -> Result<Count, u32>
    requires { length text.now < 2 ^ 32 }
{
    let mut count = Count::new();
    let mut at = 0;
    'tokens: loop {
        let Ok(token) = next_token(text, at, count.goal()) else {
            return Err(at);
        };
        if let TokenKind::End = token.kind {
            return Ok(count);
        }
        count.add(token, text[token.end as usize - 1]);
        at = token.end;
    }
}

fn main(rt: HostRuntime) -> io::Result<()> {
    let mut text = Vec::new(rt.alloc());
    rt.reader().read_to_end(&mut text)?;
    if text.len() > 100_000_000 {
        return println!(rt; "too long");
    }
    match count_all(text.as_slice()) {
        Ok(count) => println!(rt;
            "{} {} {} {} {} {} {}",
            count.names,
            count.numbers,
            count.strings,
            count.templates,
            count.regexes,
            count.marks,
            count.newlines
        ),
        Err(at) => println!(rt; "fault behind {at}"),
    }
}
