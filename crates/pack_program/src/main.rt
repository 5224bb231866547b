//! The bundler's program: it works on the current folder.
//!
//! It hands `pack_cli::run` the words behind its name, the files beneath the current folder, the folder `dist` there, and
//! the standard streams, and exits with the number of the status. What is promised of a run is said there.
#![tactic(auto)]

ghost use Rattle.std.specs.Prelude.{◌≡◌, ◌<◌};

use pack_cli::{Status, run};
use pk_base::{FolderFiles, FolderStore, StdSink, StdSource, Steps};
use std::alloc::AllocError;
use std::env;
use std::marker::Brand;
use std::process::ExitCode;
use std::sync::ledger::{Blank, Ledger};

// The words behind the program's name. Where they are no text there is no command among them, and so none is answered.
fn words(rt: &HostRuntime) -> Result<Vec<String>, AllocError> {
    let mut words = Vec::new(rt.alloc());
    if let Ok(all) = env::args(rt) {
        for word in all.skip(1) {
            words.push(word)?;
        }
    }
    Ok(words)
}

fn start<L: Ledger>(rt: &HostRuntime, blank: Blank) -> Result<Status, AllocError>
    requires name { blank.name ≡ L.name }
    requires parts { blank.parts ≡ L.parts }
    requires some { 0 < blank.parts }
{
    let alloc = rt.alloc();
    let words = words(rt)?;
    let mut files = FolderFiles::new(rt.clone()?, alloc)?;
    let mut out = FolderStore::new(rt.clone()?, alloc)?;
    let mut input = StdSource::new(rt)?;
    let mut sink = StdSink::new(rt.clone()?)?;
    let mut steps = Steps::<L>::start(blank);
    Ok(run(
        alloc, &words, &mut files, &mut out, &mut input, &mut sink, &mut steps,
    ))
}

fn main(rt: HostRuntime) -> ExitCode {
    match start::<Brand>(&rt, Blank::new(1)) {
        Ok(status) => ExitCode::from(status.number()),
        Err(_) => ExitCode::from(Status::NoMemory.number()),
    }
}
