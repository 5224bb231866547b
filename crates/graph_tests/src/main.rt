//! Builds the graphs that the input describes, and prints their modules by number. A block of the input begins with its
//! entries, and in each other line is a path and what its requests lead to, or behind a `?` paths whose numbers are
//! printed. `*9` stands for nine paths.
//!
//! The table of cases is in `stdin`, the greatest graph and one beyond it among them, and what must be printed in
//! `stdout`.
#![tactic(auto)]

ghost use Rattle.std.specs.Prelude.{◌≡◌, length, IfOk};
ghost use Rattle.pk_types.specs.Fitting.{AreFitting};
ghost use Rattle.graph_tests.specs.Requiring.{requiring};

use module_graph::{GraphBuilder, GraphFault};
use pk_base::Path;
use pk_types::{Facts, Form, Graph, Kind, Request, Row, Sequence, Text};
use std::alloc::{AllocError, Global};
use std::io;

// How many rows of a graph are printed.
const SHOWN: usize = 8;

// More rounds than a graph has modules.
const ROUNDS: u32 = 40_000;

// The facts of a CommonJS module with these requests.
fn requiring(alloc: Global, requests: Sequence<Request>) -> Facts
    ensures { result ≡ requiring requests }
{
    Facts {
        kind: Kind::Cjs,
        requests,
        order: Sequence::from_vec(Vec::new(alloc)),
        imports: Sequence::from_vec(Vec::new(alloc)),
        exports: Sequence::from_vec(Vec::new(alloc)),
        stars: Sequence::from_vec(Vec::new(alloc)),
        bindings: Sequence::from_vec(Vec::new(alloc)),
        sites: Sequence::from_vec(Vec::new(alloc)),
        free: Sequence::from_vec(Vec::new(alloc)),
        inner: Sequence::from_vec(Vec::new(alloc)),
    }
}

// The same, with so many requests.
fn facts_with(alloc: Global, requests: u32) -> Result<Facts, AllocError>
    ensures fitting { IfOk result AreFitting }
    ensures requests { IfOk result (λ facts. length facts.requests ≡ requests) }
{
    let mut list = Vec::new(alloc);
    for _ in 0..requests {
        list.push(Request {
            text: Text::from_slice(alloc, b"")?,
            form: Form::Require,
            json: false,
        })?;
    }
    Ok(requiring(alloc, Sequence::from_vec(list)))
}

fn put_path(alloc: Global, paths: &mut Vec<Path>, text: &str) -> Result<(), AllocError> {
    if let Some(path) = Path::root(alloc).join(text.as_bytes())? {
        paths.push(path)?;
    }
    Ok(())
}

// The paths of these words.
fn paths_of(alloc: Global, words: &str) -> Result<Vec<Path>, AllocError> {
    let mut paths = Vec::new(alloc);
    for word in words.split(' ') {
        match word.strip_prefix('*') {
            None => put_path(alloc, &mut paths, word)?,
            Some(count) => {
                for n in 0..count.parse::<u32>().unwrap_or(0) {
                    put_path(alloc, &mut paths, format!(in alloc; "m{n}")?.as_str())?;
                }
            }
        }
    }
    Ok(paths)
}

// What the requests of a module lead to.
fn targets_of(alloc: Global, block: &str, path: &Path) -> Result<Vec<Path>, AllocError> {
    for line in block.lines() {
        if let Some((module, targets)) = line.split_once(": ") {
            if module == path.text() {
                return paths_of(alloc, targets);
            }
        }
    }
    Ok(Vec::new(alloc))
}

// Adds the wanted module, if one is.
fn add_wanted(
    alloc: Global,
    builder: &mut GraphBuilder,
    targets: Vec<Path>,
) -> Result<(), GraphFault> {
    let Some(wanted) = builder.next_wanted() else {
        return Ok(());
    };
    let path = builder.path_of(wanted).text();
    let (flagged, size) = (path.starts_with('q'), path.len() as u32);
    let Ok(requests) = u32::try_from(targets.len()) else {
        return Err(GraphFault::TooMany);
    };
    let facts = facts_with(alloc, requests)?;
    builder.add(facts, targets, flagged, size)
}

// The numbers of the paths that the block asks for.
fn numbers_of(
    alloc: Global,
    block: &str,
    builder: &GraphBuilder,
) -> Result<Vec<Option<u32>>, AllocError> {
    let mut numbers = Vec::new(alloc);
    for line in block.lines() {
        if let Some(words) = line.strip_prefix("? ") {
            for path in paths_of(alloc, words)? {
                numbers.push(builder.number_of(&path))?;
            }
        }
    }
    Ok(numbers)
}

// A graph, and the numbers that were asked for.
#[derive(Drop)]
struct Built {
    graph: Graph,
    numbers: Vec<Option<u32>>,
}

fn build(alloc: Global, block: &str) -> Result<Built, GraphFault> {
    let entries = paths_of(alloc, block.lines().next().unwrap_or(""))?;
    if entries.len() >= 100 {
        return Err(GraphFault::TooMany);
    }
    let mut builder = GraphBuilder::new(alloc, entries)?;
    for _ in 0..ROUNDS {
        let Some(wanted) = builder.next_wanted() else {
            let numbers = numbers_of(alloc, block, &builder)?;
            let graph = builder.finish();
            return Ok(Built { graph, numbers });
        };
        let targets = targets_of(alloc, block, builder.path_of(wanted))?;
        if let Err(GraphFault::TooMany) = add_wanted(alloc, &mut builder, targets) {
            // The builder is as before, so that the module can be added without its targets.
            add_wanted(alloc, &mut builder, Vec::new(alloc))?;
        }
    }
    Err(GraphFault::NoMemory)
}

fn show_row(rt: &impl Print, number: usize, row: &Row) -> io::Result<()> {
    print!(rt; "{number} ")?;
    for byte in row.label.as_slice() {
        print!(rt; "{}", *byte as char)?;
    }
    for target in row.targets.as_slice().iter().take(SHOWN) {
        print!(rt; " {target}")?;
    }
    if row.flagged {
        print!(rt; " flagged")?;
    }
    println!(rt; " size {}", row.size)
}

fn show(rt: &impl Print, built: &Built) -> io::Result<()> {
    let graph = &built.graph;
    for entry in graph.entries.as_slice() {
        print!(rt; "entry {entry} ")?;
    }
    println!(rt; "of {} modules", graph.rows.len())?;
    for (number, row) in graph.rows.as_slice().iter().enumerate().take(SHOWN) {
        show_row(rt, number, row)?;
    }
    for number in &built.numbers {
        match number {
            Some(number) => println!(rt; "number {number}")?,
            None => println!(rt; "no number")?,
        }
    }
    Ok(())
}

fn main(rt: HostRuntime) -> io::Result<()> {
    let text = io::read_to_string(rt.alloc(), rt.stdin())?;
    for block in text.split("\n\n") {
        match build(rt.alloc(), block) {
            Ok(built) => show(&rt, &built)?,
            Err(GraphFault::TooMany) => println!(rt; "too many")?,
            Err(GraphFault::NoMemory) => println!(rt; "no memory")?,
        }
    }
    Ok(())
}
