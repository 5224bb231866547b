//! Builds the trees that the input describes, and prints what each build leaves: the exit status, the lines, the asks,
//! the calls of the store, and of the bundle what stands behind the runtime text.
//!
//! A block of the input is a tree. Each of its lines is a path and a text, in which `|` stands for the end of a line.
//! The builds run over files, a store and streams in memory (`cli_tests`). What must be printed is in `stdout`.
#![tactic(auto)]

use cli_tests::{World, transcript};
use std::alloc::{AllocError, Global};
use std::{io, str};

// A text whose lines end where `|` stands.
fn text_of(alloc: Global, written: &str) -> Result<Vec<u8>, AllocError> {
    let mut text = Vec::from_slice(alloc, written.as_bytes())?;
    for byte in text.iter_mut() {
        if *byte == b'|' {
            *byte = b'\n';
        }
    }
    Ok(text)
}

// What a build of the tree leaves.
fn build(alloc: Global, block: &str) -> Result<Vec<u8>, AllocError> {
    let mut texts = Vec::new(alloc);
    for line in block.lines() {
        if let Some((_, written)) = line.split_once(" = ") {
            texts.push(text_of(alloc, written)?)?;
        }
    }
    let mut files = Vec::new(alloc);
    for (line, text) in block.lines().zip(texts.iter()) {
        if let Some((path, _)) = line.split_once(" = ") {
            files.push((path, text.as_slice()))?;
        }
    }
    let world = World::new(alloc, files.as_slice(), &[], &[], &[])?;
    transcript(alloc, world, &["build"])
}

fn main(rt: HostRuntime) -> io::Result<()> {
    let input = io::read_to_string(rt.alloc(), rt.stdin())?;
    for block in input.split("\n\n") {
        let left = build(rt.alloc(), block)?;
        match str::from_utf8(left.as_slice()) {
            Ok(text) => println!(rt; "{text}")?,
            Err(_) => println!(rt; "no text")?,
        }
    }
    Ok(())
}
