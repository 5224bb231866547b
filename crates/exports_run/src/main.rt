//! Reads graphs of modules, and prints what exported names stand for. Blocks stand apart by an empty line. A block
//! begins with its questions: `0.x`, or `0:x` to ask without a resolver that is kept, or `0` for all names of a module.
//! Each other line is a module. It begins with its kind: `E`, `C` for CommonJS or `J` for JSON. Then come its exports:
//! `x` is of a binding of its own, `x=0` of its first binding again, `x=1.y` a name of module 1, `x=1.*` its namespace,
//! and `*1` a star. A block that is no graph is answered by `no graph`.
//!
//! The table of cases is in `stdin`, and what must be printed in `stdout`.
#![tactic(auto)]

mod asking;
mod building;
mod draft;
mod facts;
mod fault;

use asking::put_answers;
use std::io;
use std::io::{BufWriter, Write};

fn main(rt: HostRuntime) -> io::Result<()> {
    let alloc = rt.alloc();
    let text = io::read_to_string(alloc, rt.stdin())?;
    let mut out = BufWriter::new(alloc, io::writer(&rt))?;
    for block in text.split("\n\n") {
        let mut answers = Vec::new(alloc);
        put_answers(alloc, &mut answers, block)?;
        out.write_all(answers.as_slice())?;
    }
    out.flush()
}
