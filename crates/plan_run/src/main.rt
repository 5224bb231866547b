//! Plans the graphs that the input describes, and prints the plans. A block of the input begins with its entry, and in
//! each other line is a module and what its requests lead to. Those behind `|` are of no declaration. Where the first
//! line begins `file `, the bundle's file is printed too, from where the runtime text ends.
//!
//! The table of cases is in `stdin`, and what must be printed in `stdout`.
#![tactic(auto)]

mod building;
mod printing;

use building::{bodies_of, build};
use module_graph::GraphFault;
use plan_core::{output, plan};
use printing::{show_files, show_plan};
use std::alloc::Global;
use std::io;

fn show_block(rt: &impl Print, alloc: Global, block: &str) -> io::Result<()> {
    let (block, with_file) = match block.strip_prefix("file ") {
        Some(rest) => (rest, true),
        None => (block, false),
    };
    let graph = match build(alloc, block) {
        Ok(Some(graph)) => graph,
        Ok(None) => return println!(rt; "no graph"),
        Err(GraphFault::TooMany) => return println!(rt; "too many"),
        Err(GraphFault::NoMemory) => return println!(rt; "no memory"),
    };
    let plan = plan(alloc, &graph)?;
    show_plan(rt, &graph, &plan)?;
    if with_file {
        let bodies = bodies_of(alloc, &graph)?;
        let files = output(alloc, &graph, &plan, &bodies)?;
        show_files(rt, files.as_slice())?;
    }
    Ok(())
}

fn main(rt: HostRuntime) -> io::Result<()> {
    let text = io::read_to_string(rt.alloc(), rt.stdin())?;
    for block in text.split("\n\n") {
        show_block(&rt, rt.alloc(), block)?;
    }
    Ok(())
}
