//! Parses files at both goals.
//!
//! The standard input has a path of the current folder on each line. For each path a line tells how many tokens its outline
//! has at the goals Script and Module, or why it has none. A file may have 256 MiB.
#![tactic(auto)]

ghost use Rattle.std.specs.Prelude.{◌≡◌, ◌<◌, ◌^◌, length};

use es_outline::Mark;
use es_parser::parse;
use es_reader::ParseFault;
use es_tree::ProgramGoal;
use pk_base::{Files, FolderFiles, Path, Read, Steps};
use std::alloc::{AllocError, Global};
use std::io;
use std::io::Read as _;
use std::marker::Brand;
use std::sync::ledger::{Blank, Ledger};

/// The most bytes of a file.
const MAX_FILE_LEN: u32 = 268_435_456;

// The path that a text is, or the root where it is none.
fn path_of(alloc: Global, text: &str) -> Result<Path, AllocError> {
    match Path::root(alloc).join(text.as_bytes())? {
        Some(path) => Ok(path),
        None => Ok(Path::root(alloc)),
    }
}

// How many of the marks are tokens.
fn count_tokens(marks: &[Mark]) -> usize {
    let mut count = 0usize;
    for mark in marks {
        if let Mark::Token(_, _) = mark {
            count = count.wrapping_add(1);
        }
    }
    count
}

// Tells what a text is at a goal.
fn tell<L: Ledger>(
    rt: &impl Print,
    alloc: Global,
    text: &[u8],
    goal: ProgramGoal,
    steps: &mut Steps<L>,
) -> io::Result<()>
    requires short { length text.now < 2 ^ 32 }
{
    match parse(alloc, text, goal, steps) {
        Ok(outline) => print!(rt; " {} tokens;", count_tokens(outline.marks())),
        Err(ParseFault::Syntax) => print!(rt; " syntax;"),
        Err(ParseFault::NoMemory) => print!(rt; " no memory;"),
    }
}

// Tells what the text of a file is.
fn tell_both<L: Ledger>(
    rt: &impl Print,
    alloc: Global,
    text: &[u8],
    steps: &mut Steps<L>,
) -> io::Result<()> {
    if text.len() > 0xffff_ffff {
        return print!(rt; " too long;");
    }
    tell(rt, alloc, text, ProgramGoal::Script, steps)?;
    tell(rt, alloc, text, ProgramGoal::Module, steps)
}

// Goes through the paths.
fn go<L: Ledger>(rt: &HostRuntime, blank: Blank) -> io::Result<()>
    requires name { blank.name ≡ L.name }
    requires parts { blank.parts ≡ L.parts }
    requires some { 0 < blank.parts }
{
    let alloc = rt.alloc();
    let mut steps = Steps::<L>::start(blank);
    let mut files = FolderFiles::new(rt.clone()?, alloc)?;
    let mut input = String::new(alloc);
    rt.reader().read_to_string(&mut input)?;
    for line in input.lines() {
        print!(rt; "{line}:")?;
        match files.read(&path_of(alloc, line)?, MAX_FILE_LEN) {
            Ok(Read::Bytes(text)) => tell_both(rt, alloc, text.as_slice(), &mut steps)?,
            Ok(Read::Absent) => print!(rt; " absent;")?,
            Ok(Read::Longer) => print!(rt; " too long;")?,
            Err(_) => print!(rt; " not read;")?,
        }
        println!(rt; "")?;
    }
    Ok(())
}

fn main(rt: HostRuntime) -> io::Result<()> {
    go::<Brand>(&rt, Blank::new(1))
}
