// The files of the bundle.
ghost use Rattle.std.specs.Prelude.{◌≡◌, IfOk};
ghost use Rattle.chunk_tests.specs.Written.{AreWritten};
ghost use Rattle.chunk_tests.specs.Worked.{the_material};

use crate::bodies::{bodies, getters, sources};
use crate::graph::graph;
use crate::plan::plan;
use chunk_files::{Material, chunk_file, chunk_size, entry_file, entry_size, hash8};
use pk_types::{Sequence, Text};
use std::alloc::{AllocError, Global};

/// The files of the bundle, and how long they are.
#[derive(Debug, Drop)]
pub struct Files {
    pub chunk: Text,
    pub entry: Text,
    pub chunk_size: u64,
    pub entry_size: u64,
}

// Writes the files of the bundle, and tells how long they are before.
fn written(alloc: Global, material: &Material<'_>) -> Result<Files, AllocError>
    requires { material.now ≡ the_material }
    ensures { IfOk result AreWritten }
{
    let chunk_size = chunk_size(alloc, material, 0)?;
    let entry_size = entry_size(alloc, material, 0)?;
    let chunk = chunk_file(alloc, material, 0)?;
    let hashes = Sequence::one(alloc, hash8(alloc, chunk.as_slice())?)?;
    let entry = entry_file(alloc, material, &hashes, 0)?;
    Ok(Files {
        chunk,
        entry,
        chunk_size,
        entry_size,
    })
}

/// Makes the bundle and writes its files.
pub fn write_files(alloc: Global) -> Result<Files, AllocError>
    ensures { IfOk result AreWritten }
{
    let graph = graph(alloc)?;
    let plan = plan(alloc)?;
    let bodies = bodies(alloc)?;
    let sources = sources(alloc)?;
    let getters = getters(alloc)?;
    let material = Material::new(&graph, &plan, &bodies, &sources, &getters);
    written(alloc, &material)
}
