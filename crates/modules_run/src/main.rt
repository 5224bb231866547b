//! Reads texts of modules, one a line, and prints behind each its kind, its requests and its body. In a text `|` is LF,
//! and `~` and two digits are a byte. `*9` stands for nine imports, each of them twice, of which the requests are
//! counted.
//!
//! The table of cases is in `stdin`, and what must be printed in `stdout`.
#![tactic(auto)]

mod bytes;

use bare_modules::{ModuleText, read_module};
use bytes::{put_bytes, read_bytes};
use pk_types::Kind;
use std::alloc::{AllocError, Global};
use std::io;
use std::io::{BufRead, BufReader, BufWriter, Write};

const MAX_SIZE: usize = 4_194_304;

fn put_module(out: &mut Vec<u8>, found: &ModuleText) -> Result<(), AllocError> {
    out.extend_from_slice(match found.kind {
        Kind::Es => b"Es".as_slice(),
        Kind::Cjs => b"Cjs".as_slice(),
        Kind::Json => b"Json".as_slice(),
    })?;
    for request in found.requests.as_slice() {
        out.extend_from_slice(b" [")?;
        put_bytes(out, request.as_slice())?;
        out.push(b']')?;
    }
    out.push(b'\t')?;
    put_bytes(out, found.body.as_slice())
}

// So many imports, each of them twice.
fn imports(alloc: Global, count: u32) -> Result<Vec<u8>, AllocError> {
    let mut text = Vec::new(alloc);
    for _ in 0..2 {
        for number in 0..count {
            let line = format!(in alloc; "import './{number}';\n")?;
            text.extend_from_slice(line.as_bytes())?;
        }
    }
    Ok(text)
}

fn read(alloc: Global, text: &[u8]) -> Result<Option<ModuleText>, AllocError> {
    if text.len() > MAX_SIZE {
        return Ok(None);
    }
    read_module(alloc, text)
}

// What is printed behind a line.
fn answer(alloc: Global, line: &str) -> Result<Vec<u8>, AllocError> {
    let mut out = Vec::new(alloc);
    if let Some(count) = line.strip_prefix('*') {
        let text = imports(alloc, count.parse::<u32>().unwrap_or(0))?;
        let count = read(alloc, text.as_slice())?.map_or(0, |found| found.requests.len());
        out.extend_from_slice(format!(in alloc; "{count} requests")?.as_bytes())?;
        return Ok(out);
    }
    let text = read_bytes(alloc, line)?;
    match read(alloc, text.as_slice())? {
        Some(found) => put_module(&mut out, &found)?,
        None => out.extend_from_slice(b"no module")?,
    }
    Ok(out)
}

fn main(rt: HostRuntime) -> io::Result<()> {
    let alloc = rt.alloc();
    let mut out = BufWriter::new(alloc, io::writer(&rt))?;
    for line in BufReader::new(alloc, rt.reader())?.lines(alloc) {
        let line = line?;
        out.write_all(line.as_bytes())?;
        out.write_all(b"\t")?;
        out.write_all(answer(alloc, line.as_str())?.as_slice())?;
        out.write_all(b"\n")?;
    }
    out.flush()
}
