// The ids of modules and of chunks, written.
ghost use Rattle.std.specs.Prelude.{◌≡◌, ◌<◌, length, map, codes, OnOk};
ghost use Rattle.emit_chunk.specs.Entry.{chunk_id_text};
ghost use Rattle.emit_chunk.specs.Factories.{id_text};
ghost use Rattle.emit_chunk.specs.Ranges.{AreBelow};
ghost use Rattle.chunk_files.specs.Factories.{ids_text};
ghost use Rattle.chunk_files.specs.Joined.{each_behind};
ghost use Rattle.chunk_files.specs.Pens.{penned};

use crate::material::Material;
use crate::parts::{Parts, put_behind, put_joined};
use crate::pen::Pen;
use std::alloc::AllocError;

/// Writes the id of a module.
pub(crate) fn put_id(pen: &mut Pen, material: &Material<'_>, module: u32) -> Result<(), AllocError>
    requires { «module» < length material.now.graph.rows }
    ensures { OnOk result (pen.new ≡ penned pen.old (id_text material.now.plan «module»)) }
{
    pen.put_number(u64::from(material.id(module)))
}

/// Writes the id of a chunk that is no entry chunk.
pub(crate) fn put_chunk_id(
    pen: &mut Pen,
    material: &Material<'_>,
    chunk: u32,
) -> Result<(), AllocError>
    requires { chunk < length material.now.plan.ids.chunks }
    ensures { OnOk result (pen.new ≡ penned pen.old (chunk_id_text material.now.plan chunk)) }
{
    pen.put_number(u64::from(material.chunk_id(chunk)))
}

// The ids of modules.
#[derive(Drop)]
struct ModuleIds<'a> {
    material: &'a Material<'a>,
    modules: &'a [u32],
}

impl<'a> Parts for ModuleIds<'a> {
    ghost texts = { λ ids. map (id_text ids.material.now.plan) ids.modules.now };

    ghost stand = { λ ids. AreBelow (length ids.material.now.graph.rows) ids.modules.now };

    fn count(&self) -> usize {
        self.modules.len()
    }

    fn put(&self, pen: &mut Pen, place: usize) -> Result<(), AllocError> {
        put_id(pen, self.material, self.modules[place])
    }
}

/// Writes the ids of modules, with a comma between each two.
pub(crate) fn put_ids(
    pen: &mut Pen,
    material: &Material<'_>,
    modules: &[u32],
) -> Result<(), AllocError>
    requires { AreBelow (length material.now.graph.rows) modules.now }
    ensures { OnOk result (pen.new ≡ penned pen.old (ids_text material.now modules.now)) }
{
    put_joined(pen, b", ", &ModuleIds { material, modules })
}

// The ids of chunks that are no entry chunks.
#[derive(Drop)]
struct ChunkIds<'a> {
    material: &'a Material<'a>,
    chunks: &'a [u32],
}

impl<'a> Parts for ChunkIds<'a> {
    ghost texts = { λ ids. map (chunk_id_text ids.material.now.plan) ids.chunks.now };

    ghost stand = { λ ids. AreBelow (length ids.material.now.plan.ids.chunks) ids.chunks.now };

    fn count(&self) -> usize {
        self.chunks.len()
    }

    fn put(&self, pen: &mut Pen, place: usize) -> Result<(), AllocError> {
        put_chunk_id(pen, self.material, self.chunks[place])
    }
}

/// Writes the ids of chunks that are no entry chunks, each behind a comma.
pub(crate) fn put_chunk_ids(
    pen: &mut Pen,
    material: &Material<'_>,
    chunks: &[u32],
) -> Result<(), AllocError>
    requires { AreBelow (length material.now.plan.ids.chunks) chunks.now }
    ensures { OnOk result
        (pen.new ≡ penned pen.old (each_behind (codes ", ") (map (chunk_id_text material.now.plan) chunks.now))) }
{
    put_behind(pen, b", ", &ChunkIds { material, chunks })
}
