// Graphs of modules that only export.
ghost use Rattle.std.specs.Prelude.{IfOk};
ghost use Rattle.pk_types.specs.Fitting.{Fits};

use crate::draft::path_of;
use crate::facts::facts_of;
use crate::fault::Fault;
use module_graph::GraphBuilder;
use pk_base::Path;
use pk_types::{Graph, MAX_MODULES};
use std::alloc::Global;

// A path for each line: its number.
fn paths_of(alloc: Global, lines: &str) -> Result<Vec<Path>, Fault> {
    let mut paths = Vec::new(alloc);
    for _ in lines.lines() {
        let number = format!(in alloc; "{}", paths.len())?;
        paths.push(path_of(alloc, number.as_str())?)?;
    }
    Ok(paths)
}

/// The graph whose modules are the lines, in their order.
pub fn build(alloc: Global, lines: &str) -> Result<Graph, Fault>
    ensures { IfOk result Fits }
{
    let paths = paths_of(alloc, lines)?;
    if paths.len() > MAX_MODULES {
        return Err(Fault::TooMany);
    }
    let mut builder = GraphBuilder::new(alloc, paths)?;
    for line in lines.lines() {
        if builder.next_wanted().is_none() {
            return Err(Fault::Unread);
        }
        let (facts, targets) = facts_of(alloc, line)?;
        builder.add(facts, targets, false, 0)?;
    }
    match builder.next_wanted() {
        Some(_) => Err(Fault::Unread),
        None => Ok(builder.finish()),
    }
}
