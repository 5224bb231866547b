// The program's one call.
ghost use Rattle.std.specs.Prelude.{◌≡◌, List, ℕ, map, string_bytes};
ghost use Rattle.pk_base.specs.Meanings.{SourceMeaning};
ghost use Rattle.pack_cli.specs.Run.{command_of, BuildMeets, PutsLines, RunMeets};

use crate::faults::RoundFault;
use crate::print::refused_line;
use crate::rounds::round;
use crate::status::Status;
use pk_base::{Failed, Files, Sink, Source, Steps, Store};
use std::alloc::Global;
use std::sync::ledger::Ledger;

const USAGE: &[u8] = b"usage: pack build or watch or replay ENTRY or trace ENTRY or gen N\n";

/// What the words ask for.
#[derive(Clone, Copy, Debug, PartialEq, Eq)]
pub enum Command {
    /// One build of the present tree.
    Build,
}

fn read_words(words: &[String]) -> Option<Command>
    ensures { result ≡ command_of (map string_bytes words.now) }
{
    match words {
        [word] if word.as_str() == "build" => Some(Command::Build),
        _ => None,
    }
}

// Prints lines, and answers the status or that they could not be printed.
fn print<K: Sink>(sink: &mut K, lines: &[u8], status: Status) -> Status
    ensures { PutsLines lines.now status result (K.means sink.old) (K.means sink.new) }
{
    match sink.put(lines) {
        Ok(()) => status,
        Err(Failed) => Status::SinkFault,
    }
}

// One build of the present tree.
fn build<F: Files, O: Store, K: Sink>(
    alloc: Global,
    files: &mut F,
    out: &mut O,
    sink: &mut K,
) -> Status
    ensures { (source : SourceMeaning) → (steps : ℕ) → BuildMeets result
        (record { files = F.means files.old; store = O.means out.old; source = source; sink = K.means sink.old; steps = steps })
        (record { files = F.means files.new; store = O.means out.new; source = source; sink = K.means sink.new; steps = steps }) }
{
    match round(alloc, files, out) {
        Ok(lines) => print(sink, lines.as_slice(), Status::Done),
        Err(RoundFault::Refused(fault)) => match refused_line(alloc, &fault) {
            Ok(line) => print(sink, line.as_slice(), Status::Refused),
            Err(_) => Status::NoMemory,
        },
        Err(RoundFault::ReadFault) => print(sink, b"fault read\n", Status::ReadFault),
        Err(RoundFault::WriteFault) => print(sink, b"fault write\n", Status::WriteFault),
        Err(RoundFault::NoMemory) => Status::NoMemory,
    }
}

/// Runs the command that the words are. The words are those behind the program's name, and any that are no command are `Usage`.
pub fn run<F: Files, O: Store, S: Source, K: Sink, L: Ledger>(
    alloc: Global,
    words: &Vec<String>,
    files: &mut F,
    out: &mut O,
    input: &mut S,
    sink: &mut K,
    steps: &mut Steps<L>,
) -> Status
    ensures { RunMeets (command_of (map string_bytes words.now.items)) result
        (record { files = F.means files.old; store = O.means out.old; source = S.means input.old; sink = K.means sink.old; steps = steps.old })
        (record { files = F.means files.new; store = O.means out.new; source = S.means input.new; sink = K.means sink.new; steps = steps.new }) }
{
    match read_words(words.as_slice()) {
        Some(Command::Build) => build(alloc, files, out, sink),
        None => print(sink, USAGE, Status::Usage),
    }
}
