//! Tells the facts of modules, or their first faults.
//!
//! Each line of the standard input names a file of the current folder; a line `= name text` gives the text itself, where `\n` is a
//! line feed and `\\` a backslash. By the end of its name a module is one of ECMAScript (`.mjs`), a script (`.cjs`), JSON (`.json`) or either (any
//! other). For each module a line tells its facts, list by list, or its fault with the byte where it stands. A file may have
//! 256 MiB.
#![tactic(auto)]

ghost use Rattle.std.specs.Prelude.{◌≡◌, ◌<◌, ◌^◌, length};

mod printing;
mod words;

use crate::printing::{show_fault, show_parsed};
use crate::words::{kind_of_name, written};
use es_facts::facts;
use pk_base::{Files, FolderFiles, Path, Read, Steps};
use std::alloc::{AllocError, Global};
use std::io;
use std::io::Read as _;
use std::marker::Brand;
use std::sync::ledger::{Blank, Ledger};

/// The most bytes of a file.
const MAX_FILE_LEN: u32 = 268_435_456;

// The path that a text is, or the root where it is none.
fn path_of(alloc: Global, text: &str) -> Result<Path, AllocError> {
    match Path::root(alloc).join(text.as_bytes())? {
        Some(path) => Ok(path),
        None => Ok(Path::root(alloc)),
    }
}

// Tells what a module of this name and text is.
fn tell<L: Ledger>(
    rt: &impl Print,
    alloc: Global,
    name: &str,
    text: &[u8],
    steps: &mut Steps<L>,
) -> io::Result<()> {
    print!(rt; "{name}:")?;
    if text.len() > 0xffff_ffff {
        return println!(rt; " too long");
    }
    match facts(alloc, kind_of_name(name), text, steps) {
        Ok(parsed) => show_parsed(rt, &parsed),
        Err(fault) => show_fault(rt, fault),
    }
}

// Tells what a file is.
fn tell_file<F: Files, L: Ledger>(
    rt: &impl Print,
    alloc: Global,
    files: &mut F,
    name: &str,
    steps: &mut Steps<L>,
) -> io::Result<()> {
    match files.read(&path_of(alloc, name)?, MAX_FILE_LEN) {
        Ok(Read::Bytes(text)) => tell(rt, alloc, name, text.as_slice(), steps),
        Ok(Read::Absent) => println!(rt; "{name}: absent"),
        Ok(Read::Longer) => println!(rt; "{name}: too long"),
        Err(_) => println!(rt; "{name}: not read"),
    }
}

// Tells what the module of a line is.
fn tell_line<F: Files, L: Ledger>(
    rt: &impl Print,
    alloc: Global,
    files: &mut F,
    line: &str,
    steps: &mut Steps<L>,
) -> io::Result<()> {
    let Some(module) = line.strip_prefix("= ") else {
        return tell_file(rt, alloc, files, line, steps);
    };
    let (name, text) = module.split_once(' ').unwrap_or((module, ""));
    tell(rt, alloc, name, written(alloc, text)?.as_slice(), steps)
}

// Goes through the lines.
fn go<L: Ledger>(rt: &HostRuntime, blank: Blank) -> io::Result<()>
    requires name { blank.name ≡ L.name }
    requires parts { blank.parts ≡ L.parts }
    requires some { 0 < blank.parts }
{
    let alloc = rt.alloc();
    let mut steps = Steps::<L>::start(blank);
    let mut files = FolderFiles::new(rt.clone()?, alloc)?;
    let mut input = String::new(alloc);
    rt.reader().read_to_string(&mut input)?;
    for line in input.lines() {
        tell_line(rt, alloc, &mut files, line, &mut steps)?;
    }
    Ok(())
}

fn main(rt: HostRuntime) -> io::Result<()> {
    go::<Brand>(&rt, Blank::new(1))
}
