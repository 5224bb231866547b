// The files of chunks.
ghost use Rattle.std.specs.Prelude.{◌≡◌, ◌<◌, filter, length, IfOk, OnOk};
ghost use Rattle.emit_chunk.specs.Entry as entry;
ghost use Rattle.emit_chunk.specs.Ranges.{AreBelow};
ghost use Rattle.chunk_files.specs.Chunks.{factories_text, chunk_text};
ghost use Rattle.chunk_files.specs.Pens.{size_of, penned};

use crate::factories::put_factories;
use crate::ids::put_chunk_id;
use crate::material::Material;
use crate::pen::Pen;
use pk_types::Text;
use std::alloc::{AllocError, Global};

// The roots among these modules.
fn roots_among(
    alloc: Global,
    material: &Material<'_>,
    modules: &[u32],
) -> Result<Vec<u32>, AllocError>
    requires { AreBelow (length material.now.graph.rows) modules.now }
    ensures { IfOk result (λ roots. roots.items ≡ filter (entry.is_root material.now.plan) modules.now) }
{
    let mut roots = Vec::new(alloc);
    for module in modules {
        if material.is_root(*module) {
            roots.push(*module)?;
        }
    }
    Ok(roots)
}

/// Writes the factories of a chunk, where the entry chunks come first.
#[tactic(auto, using(crate::proofs::Within::roots_below))]
pub(crate) fn put_chunk_factories(
    alloc: Global,
    pen: &mut Pen,
    material: &Material<'_>,
    chunk: usize,
) -> Result<(), AllocError>
    requires { chunk < length material.now.plan.chunks.modules }
    ensures { OnOk result (pen.new ≡ penned pen.old (factories_text material.now chunk)) }
{
    let roots = roots_among(alloc, material, material.members(chunk))?;
    put_factories(alloc, pen, material, roots.as_slice())
}

// Writes the file of a chunk.
#[tactic(auto, unfolding(crate::specs::Chunks::chunk_text), using(crate::proofs::Penning::penned_twice))]
fn put_chunk_file(
    alloc: Global,
    pen: &mut Pen,
    material: &Material<'_>,
    chunk: u32,
) -> Result<(), AllocError>
    requires { chunk < length material.now.plan.ids.chunks }
    ensures { OnOk result (pen.new ≡ penned pen.old (chunk_text material.now chunk)) }
{
    pen.put(b"__webpack_chunk__(")?;
    put_chunk_id(pen, material, chunk)?;
    pen.put(b", [\n")?;
    put_chunk_factories(alloc, pen, material, material.place_of(chunk))?;
    pen.put(b"\n]);\n")
}

/// The file of a chunk, which is numbered without the entry chunks.
#[tactic(auto, using(crate::proofs::Penning::kept_text))]
pub fn chunk_file(alloc: Global, material: &Material<'_>, chunk: u32) -> Result<Text, AllocError>
    requires { chunk < length material.now.plan.ids.chunks }
    ensures { IfOk result (λ text. text ≡ chunk_text material.now chunk) }
{
    let mut pen = Pen::writing(alloc);
    put_chunk_file(alloc, &mut pen, material, chunk)?;
    Ok(pen.into_text())
}

/// How many bytes the file of a chunk has, or the type's last value. The file is not made.
#[tactic(auto, using(crate::proofs::Penning::measured))]
pub fn chunk_size(alloc: Global, material: &Material<'_>, chunk: u32) -> Result<u64, AllocError>
    requires { chunk < length material.now.plan.ids.chunks }
    ensures { IfOk result (λ size. size ≡ size_of (length (chunk_text material.now chunk))) }
{
    let mut pen = Pen::measuring(alloc);
    put_chunk_file(alloc, &mut pen, material, chunk)?;
    Ok(pen.size())
}
