//! Answers questions about manifests: each line of the standard input is a manifest or a question about the last one.
//!
//! It shows what a manifest says, which files have side effects, and what keys of `exports` and `imports` lead to. The
//! table of cases is in `stdin`, and what must be printed in `stdout`.
#![tactic(auto)]

mod bytes;
mod question;
mod show;

use bytes::read_bytes;
use pkg_manifest::{Manifest, ManifestFault, manifest};
use question::{Question, put_answer};
use std::alloc::{AllocError, Global};
use std::io::{BufRead, BufReader, BufWriter, Write};
use std::{io, mem};

// What a line prints, and the manifest that the next lines ask about.
fn answer(
    alloc: Global,
    found: &mut Result<Manifest, ManifestFault>,
    line: &str,
) -> Result<Vec<u8>, AllocError> {
    let mut out = Vec::new(alloc);
    match Question::read(line) {
        None => out.extend_from_slice(b"no question\n")?,
        Some(Question::Manifest(text)) => {
            let text = read_bytes(alloc, text)?;
            let _last = mem::replace(found, manifest(alloc, text.as_slice()));
        }
        Some(question) => {
            put_answer(alloc, &mut out, found, &question)?;
            out.push(b'\n')?;
        }
    }
    Ok(out)
}

fn main(rt: HostRuntime) -> io::Result<()> {
    let alloc = rt.alloc();
    let mut out = BufWriter::new(alloc, io::writer(&rt))?;
    let mut found = manifest(alloc, b"{}");
    for line in BufReader::new(alloc, rt.reader())?.lines(alloc) {
        let line = line?;
        out.write_all(answer(alloc, &mut found, line.as_str())?.as_slice())?;
    }
    out.flush()
}
