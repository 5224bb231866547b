// Plans and files, printed.
use emit_chunk::runtime;
use pk_types::{Graph, Item, Plan, Sequence};
use plan_core::OutFile;
use std::io;

fn show_numbers(rt: &impl Print, word: &str, numbers: &[u32]) -> io::Result<()> {
    print!(rt; "{word}")?;
    for number in numbers {
        print!(rt; " {number}")?;
    }
    println!(rt;)
}

fn show_bytes(rt: &impl Print, bytes: &[u8]) -> io::Result<()> {
    for byte in bytes {
        print!(rt; "{}", *byte as char)?;
    }
    Ok(())
}

// What a scope runs: `e` before the number of a module that is evaluated, and `s` before that of a body.
fn show_items(rt: &impl Print, items: &[Item]) -> io::Result<()> {
    for item in items {
        match *item {
            Item::Evaluate(number) => print!(rt; " e{number}")?,
            Item::Segment(number) => print!(rt; " s{number}")?,
        }
    }
    println!(rt;)
}

fn show_scopes(rt: &impl Print, graph: &Graph, scopes: &[Sequence<Item>]) -> io::Result<()> {
    for (row, items) in graph.rows.as_slice().iter().zip(scopes) {
        show_bytes(rt, row.label.as_slice())?;
        print!(rt; ":")?;
        show_items(rt, items.as_slice())?;
    }
    Ok(())
}

/// Prints the chunks, the ids and what each scope runs.
pub fn show_plan(rt: &impl Print, graph: &Graph, plan: &Plan) -> io::Result<()> {
    show_numbers(rt, "group", plan.groups.targets.as_slice())?;
    for modules in plan.chunks.modules.as_slice() {
        show_numbers(rt, "chunk", modules.as_slice())?;
    }
    show_numbers(rt, "ids", plan.ids.modules.as_slice())?;
    show_numbers(rt, "roots", plan.hoists.root.as_slice())?;
    show_scopes(rt, graph, plan.hoists.items.as_slice())
}

/// Prints the name of each file, and its bytes from where the runtime text ends.
pub fn show_files(rt: &impl Print, files: &[OutFile]) -> io::Result<()> {
    for file in files {
        show_bytes(rt, file.name.as_slice())?;
        println!(rt;)?;
        match file.bytes.as_slice().strip_prefix(runtime()) {
            Some(rest) => show_bytes(rt, rest)?,
            None => println!(rt; "no runtime")?,
        }
    }
    Ok(())
}
