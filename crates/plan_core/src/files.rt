// The files of a bundle.
ghost use Rattle.std.specs.Prelude.{◌≡◌, length, IfOk};
ghost use Rattle.emit_chunk.specs.Bare.{IsBare};
ghost use Rattle.emit_chunk.specs.Ranges.{InRange, HaveBodies};
ghost use Rattle.plan_core.specs.Outputs.{output_of};
ghost use Rattle.plan_core.specs.Plans.{IsPlan};

use emit_body::Body;
use emit_chunk::entry_file;
use pk_types::{Graph, Plan, Sequence, Text};
use std::alloc::{AllocError, Global};

/// A file of a bundle.
#[derive(Debug, Drop)]
pub struct OutFile {
    /// Its path from the bundle's folder.
    pub name: Text,
    pub bytes: Text,
}

/// The files of the bundle of a graph of one entry, of which the plan is given, and the body of each module.
pub fn output(
    alloc: Global,
    graph: &Graph,
    plan: &Plan,
    bodies: &Sequence<Body>,
) -> Result<Vec<OutFile>, AllocError>
    requires entry { length graph.now.entries ≡ 1 }
    requires bare { IsBare graph.now }
    requires plan { IsPlan graph.now plan.now }
    requires range { InRange graph.now plan.now }
    requires bodies { HaveBodies graph.now bodies.now }
    ensures { IfOk result (λ files. files.items ≡ output_of graph.now plan.now bodies.now) }
{
    let hashes = Sequence::from_vec(Vec::new(alloc));
    let bytes = entry_file(alloc, graph, plan, bodies, &hashes, 0)?;
    let name = Text::from_slice(alloc, b"main.js")?;
    let mut files = Vec::with_capacity(alloc, 1)?;
    files.push(OutFile { name, bytes })?;
    Ok(files)
}
