//! Parses a table of texts at both goals, and tells where an answer differs from the table's.
//!
//! Each line of the standard input has a letter for the goal Script, one for Module (`y` where the text has a tree, `n` where
//! it has none), a blank, and the text, in which `\n` is a line feed and `\\` a backslash; a line that begins `#` says what
//! the next ones are about. What is wanted comes from acorn and V8, so a line that differs is a fault of the parser or a rule
//! that `docs/GRAMMAR.md` has to name.
#![tactic(auto)]

ghost use Rattle.std.specs.Prelude.{◌<◌, ◌^◌, ◌≡◌, length};

use es_parser::parse;
use es_reader::ParseFault;
use es_tree::ProgramGoal;
use pk_base::Steps;
use std::alloc::{AllocError, Global};
use std::io;
use std::io::Read as _;
use std::marker::Brand;
use std::sync::ledger::{Blank, Ledger};

// The text that a line writes.
fn written(alloc: Global, line: &str) -> Result<Vec<u8>, AllocError> {
    let mut text = Vec::with_capacity(alloc, line.len())?;
    let mut escaped = false;
    for byte in line.as_bytes() {
        if escaped {
            text.push(if *byte == b'n' { b'\n' } else { *byte })?;
            escaped = false;
        } else if *byte == b'\\' {
            escaped = true;
        } else {
            text.push(*byte)?;
        }
    }
    Ok(text)
}

// Whether a text has a tree at a goal; `?` where memory ran out.
fn answer<L: Ledger>(alloc: Global, text: &[u8], goal: ProgramGoal, steps: &mut Steps<L>) -> char
    requires short { length text.now < 2 ^ 32 }
{
    match parse(alloc, text, goal, steps) {
        Ok(_) => 'y',
        Err(ParseFault::Syntax) => 'n',
        Err(ParseFault::NoMemory) => '?',
    }
}

// The answers for a text at both goals.
fn answers<L: Ledger>(alloc: Global, text: &[u8], steps: &mut Steps<L>) -> (char, char) {
    if text.len() > 0xffff_ffff {
        return ('?', '?');
    }
    let script = answer(alloc, text, ProgramGoal::Script, steps);
    let module = answer(alloc, text, ProgramGoal::Module, steps);
    (script, module)
}

// Whether the answers for a line's text differ from what the line wants; if so, this is told.
fn differs<L: Ledger>(
    rt: &impl Print,
    alloc: Global,
    line: &str,
    steps: &mut Steps<L>,
) -> io::Result<bool> {
    let (wanted, rest) = line.split_once(' ').unwrap_or((line, ""));
    let text = written(alloc, rest)?;
    let (script, module) = answers(alloc, text.as_slice(), steps);
    let told = format!(in alloc; "{script}{module}")?;
    if told.as_str() == wanted {
        return Ok(false);
    }
    println!(rt; "{told} and not {wanted}: {rest}")?;
    Ok(true)
}

// Goes through the table.
fn go<L: Ledger>(rt: &HostRuntime, blank: Blank) -> io::Result<()>
    requires name { blank.name ≡ L.name }
    requires parts { blank.parts ≡ L.parts }
    requires some { 0 < blank.parts }
{
    let alloc = rt.alloc();
    let mut steps = Steps::<L>::start(blank);
    let mut input = String::new(alloc);
    rt.reader().read_to_string(&mut input)?;
    let mut texts = 0usize;
    let mut differ = 0usize;
    for line in input.lines() {
        if line.starts_with('#') {
            continue;
        }
        texts = texts.wrapping_add(1);
        if differs(rt, alloc, line, &mut steps)? {
            differ = differ.wrapping_add(1);
        }
    }
    println!(rt; "{texts} texts, {differ} differ")
}

fn main(rt: HostRuntime) -> io::Result<()> {
    go::<Brand>(&rt, Blank::new(1))
}
