//! Shows the real folder and the standard streams once.
//!
//! It reads paths of its folder `data` up to limits, puts and removes files of the store, and copies the standard input
//! to the standard output. What it must print is in `stdout`.
#![tactic(auto)]

use pk_base::{
    Files, FolderFiles, FolderStore, Path, Read, ReadFail, Sink, Source, StdSink, StdSource, Store,
};
use std::alloc::{AllocError, Global};
use std::io;

// The path that a text is, or the root where it is none.
fn path_of(alloc: Global, text: &str) -> Result<Path, AllocError> {
    match Path::root(alloc).join(text.as_bytes())? {
        Some(path) => Ok(path),
        None => Ok(Path::root(alloc)),
    }
}

// Prints what a read answers.
fn show<F: Files>(rt: &impl Print, files: &mut F, path: &Path, limit: u32) -> io::Result<()> {
    let found = match files.read(path, limit) {
        Ok(Read::Absent) => 0usize,
        Ok(Read::Longer) => 1,
        Ok(Read::Bytes(bytes)) => 100 + bytes.len(),
        Err(ReadFail::Failed) => 2,
        Err(ReadFail::NoMemory) => 3,
    };
    println!(rt; "{} {limit}: {found}", path.text())
}

fn main(rt: HostRuntime) -> io::Result<()> {
    let alloc = rt.alloc();
    let mut files = FolderFiles::new(rt.clone()?, alloc)?;
    for (path, limit) in [
        ("src/a.txt", 5),
        ("src/a.txt", 4),
        ("src/none.txt", 5),
        ("src/inner", 5),
        ("src/a.txt/b", 5),
    ] {
        show(&rt, &mut files, &path_of(alloc, path)?, limit)?;
    }
    show(&rt, &mut files, &Path::root(alloc), 5)?;
    let mut store = FolderStore::new(rt.clone()?, alloc)?;
    println!(rt; "{}", store.put(b"main.js", b"bundle").is_ok())?;
    show(&rt, &mut files, &path_of(alloc, "dist/main.js")?, 9)?;
    println!(rt; "{}", store.put(b"no/folder.js", b"bundle").is_err())?;
    println!(rt; "{}", store.remove(b"main.js").is_ok())?;
    println!(rt; "{}", store.remove(b"main.js").is_ok())?;
    show(&rt, &mut files, &path_of(alloc, "dist/main.js")?, 9)?;
    println!(rt;
        "{} asks, {} calls",
        files.asks().len(),
        store.calls().len()
    )?;
    let mut source = StdSource::new(&rt)?;
    let mut sink = StdSink::new(rt.clone()?)?;
    let mut into = [0u8; 32];
    for _ in 0..4 {
        let Ok(n) = source.take(&mut into) else {
            break;
        };
        println!(rt; "{}", sink.put(&into[..n]).is_ok())?;
    }
    Ok(())
}
