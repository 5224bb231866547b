// The text of an entry file.
ghost use Rattle.std.specs.Prelude.{◌≡◌, ◌<◌, ◌++◌, List, length, IfOk, OnOk, codes};
ghost use Rattle.std.specs.List.{filter};
ghost use Rattle.emit_chunk.specs.Bare.{IsBare};
ghost use Rattle.emit_chunk.specs.Entry as spec;
ghost use Rattle.emit_chunk.specs.Entry.{row_text, chunk_text, chunk_id_text, is_root, entry_text};
ghost use Rattle.emit_chunk.specs.Factories.{factory_of};
ghost use Rattle.emit_chunk.specs.Joined.{each_behind, joined};
ghost use Rattle.emit_chunk.specs.Ranges.{AreBelow, InRange, HaveBodies};

use crate::factory::put_factory;
use crate::prelude::runtime;
use crate::write::{put_chunk_id, put_id};
use emit_body::Body;
use pk_types::{Graph, Plan, Sequence, Text};
use std::alloc::{AllocError, Global};

// Writes the ids of chunks, each behind a comma.
fn put_chunk_ids(
    alloc: Global,
    out: &mut Vec<u8>,
    plan: &Plan,
    chunks: &[u32],
) -> Result<(), AllocError>
    requires { AreBelow (length (plan.now.ids.chunks)) chunks.now }
    ensures { OnOk result (out.new.items ≡ out.old.items ++ each_behind (codes ", ") (chunk_id_text plan.now) chunks.now) }
{
    for chunk in chunks {
        out.extend_from_slice(b", ")?;
        put_chunk_id(alloc, out, plan, *chunk)?;
    }
    Ok(())
}

// Writes the row of a group: the id of its module, and those of its chunks.
#[tactic(auto, unfolding(crate::specs::Entry::row_text))]
fn put_row(
    alloc: Global,
    out: &mut Vec<u8>,
    graph: &Graph,
    plan: &Plan,
    group: u32,
) -> Result<(), AllocError>
    requires range { InRange graph.now plan.now }
    requires target { group < length (plan.now.groups.targets) }
    requires list { group < length (plan.now.chunks.lists) }
    ensures { OnOk result (out.new.items ≡ out.old.items ++ row_text plan.now group) }
{
    out.extend_from_slice(b"[")?;
    put_id(
        alloc,
        out,
        plan,
        plan.groups.targets.as_slice()[group as usize],
    )?;
    put_chunk_ids(
        alloc,
        out,
        plan,
        plan.chunks.lists.as_slice()[group as usize].as_slice(),
    )?;
    out.extend_from_slice(b"]")?;
    Ok(())
}

// Writes the table of the chunks that a group needs, each behind a comma but the first.
fn put_chunk(
    alloc: Global,
    out: &mut Vec<u8>,
    plan: &Plan,
    hashes: &[Text],
    chunk: u32,
) -> Result<(), AllocError>
    requires id { chunk < length (plan.now.ids.chunks) }
    requires hash { chunk < length hashes.now }
    ensures { OnOk result (out.new.items ≡ out.old.items ++ chunk_text plan.now hashes.now chunk) }
{
    out.extend_from_slice(b"[")?;
    put_chunk_id(alloc, out, plan, chunk)?;
    out.extend_from_slice(b", \"")?;
    out.extend_from_slice(hashes[chunk as usize].as_slice())?;
    out.extend_from_slice(b"\"]")?;
    Ok(())
}

// Writes chunks of the table, each behind a comma.
fn put_more_chunks(
    alloc: Global,
    out: &mut Vec<u8>,
    plan: &Plan,
    hashes: &[Text],
    chunks: &[u32],
) -> Result<(), AllocError>
    requires ids { AreBelow (length (plan.now.ids.chunks)) chunks.now }
    requires hashes { length hashes.now ≡ length (plan.now.ids.chunks) }
    ensures { OnOk result (out.new.items ≡ out.old.items ++ each_behind (codes ", ") (chunk_text plan.now hashes.now) chunks.now) }
{
    for chunk in chunks {
        out.extend_from_slice(b", ")?;
        put_chunk(alloc, out, plan, hashes, *chunk)?;
    }
    Ok(())
}

// Writes the table of chunks.
fn put_chunks(
    alloc: Global,
    out: &mut Vec<u8>,
    plan: &Plan,
    hashes: &[Text],
    chunks: &[u32],
) -> Result<(), AllocError>
    requires ids { AreBelow (length (plan.now.ids.chunks)) chunks.now }
    requires hashes { length hashes.now ≡ length (plan.now.ids.chunks) }
    ensures { OnOk result (out.new.items ≡ out.old.items ++ joined (codes ", ") (chunk_text plan.now hashes.now) chunks.now) }
{
    match chunks {
        [] => Ok(()),
        [first, rest @ ..] => {
            put_chunk(alloc, out, plan, hashes, *first)?;
            put_more_chunks(alloc, out, plan, hashes, rest)
        }
    }
}

// The chunks that a group needs beside its entry chunk.
#[tactic(auto, using(crate::proofs::Within::lists_below))]
fn list_of<'a>(graph: &Graph, plan: &'a Plan, group: u32) -> &'a [u32]
    requires range { InRange graph.now plan.now }
    requires group { group < length (plan.now.chunks.lists) }
    ensures chunks { result.now ≡ spec.list_of plan.now group }
    ensures below { AreBelow (length (plan.now.ids.chunks)) result.now }
{
    plan.chunks.lists.as_slice()[group as usize].as_slice()
}

// The modules of a chunk.
#[tactic(auto, using(crate::proofs::Within::modules_below))]
fn modules_of<'a>(graph: &Graph, plan: &'a Plan, chunk: u32) -> &'a [u32]
    requires range { InRange graph.now plan.now }
    requires chunk { chunk < length (plan.now.chunks.modules) }
    ensures modules { result.now ≡ spec.modules_of plan.now chunk }
    ensures below { AreBelow (length (graph.now.rows)) result.now }
{
    plan.chunks.modules.as_slice()[chunk as usize].as_slice()
}

// The modules among these whose scopes are named by them.
fn roots_among(alloc: Global, plan: &Plan, modules: &[u32]) -> Result<Vec<u32>, AllocError>
    requires { AreBelow (length (plan.now.hoists.root)) modules.now }
    ensures { IfOk result (λ roots. roots.items ≡ filter (is_root plan.now) modules.now) }
{
    let mut roots = Vec::new(alloc);
    for number in modules {
        if plan.hoists.root.as_slice()[*number as usize] == *number {
            roots.push(*number)?;
        }
    }
    Ok(roots)
}

// The scopes of a chunk, in the plan's order.
#[tactic(auto, using(crate::proofs::Within::roots_below))]
fn roots_of(alloc: Global, graph: &Graph, plan: &Plan, chunk: u32) -> Result<Vec<u32>, AllocError>
    requires range { InRange graph.now plan.now }
    requires chunk { chunk < length (plan.now.chunks.modules) }
    ensures roots { IfOk result (λ roots. roots.items ≡ spec.roots_of plan.now chunk) }
    ensures below { IfOk result (λ roots. AreBelow (length (graph.now.rows)) roots.items) }
{
    roots_among(alloc, plan, modules_of(graph, plan, chunk))
}

// Writes factories, each behind a comma.
fn put_more_factories(
    alloc: Global,
    out: &mut Vec<u8>,
    graph: &Graph,
    plan: &Plan,
    bodies: &[Body],
    roots: &[u32],
) -> Result<(), AllocError>
    requires range { InRange graph.now plan.now }
    requires bodies { HaveBodies graph.now bodies.now }
    requires roots { AreBelow (length (graph.now.rows)) roots.now }
    ensures { OnOk result (out.new.items ≡ out.old.items ++ each_behind (codes ",\n") (factory_of graph.now plan.now bodies.now) roots.now) }
{
    for root in roots {
        out.extend_from_slice(b",\n")?;
        put_factory(alloc, out, graph, plan, bodies, *root)?;
    }
    Ok(())
}

// Writes the factories of scopes.
fn put_factories(
    alloc: Global,
    out: &mut Vec<u8>,
    graph: &Graph,
    plan: &Plan,
    bodies: &[Body],
    roots: &[u32],
) -> Result<(), AllocError>
    requires range { InRange graph.now plan.now }
    requires bodies { HaveBodies graph.now bodies.now }
    requires roots { AreBelow (length (graph.now.rows)) roots.now }
    ensures { OnOk result (out.new.items ≡ out.old.items ++ joined (codes ",\n") (factory_of graph.now plan.now bodies.now) roots.now) }
{
    match roots {
        [] => Ok(()),
        [first, rest @ ..] => {
            put_factory(alloc, out, graph, plan, bodies, *first)?;
            put_more_factories(alloc, out, graph, plan, bodies, rest)
        }
    }
}

/// The file `NAME.js` that starts a page at an entry: the runtime text, the row of the entry's group, the chunks that it
/// needs, and the factories of the entry chunk. `hashes` has a hash for each chunk that is no entry chunk.
pub fn entry_file(
    alloc: Global,
    graph: &Graph,
    plan: &Plan,
    bodies: &Sequence<Body>,
    hashes: &Sequence<Text>,
    entry: u32,
) -> Result<Text, AllocError>
    requires bare { IsBare graph.now }
    requires range { InRange graph.now plan.now }
    requires bodies { HaveBodies graph.now bodies.now }
    requires hashes { length hashes.now ≡ length (plan.now.ids.chunks) }
    requires target { entry < length (plan.now.groups.targets) }
    requires list { entry < length (plan.now.chunks.lists) }
    requires chunk { entry < length (plan.now.chunks.modules) }
    ensures { IfOk result (λ text. text ≡ entry_text graph.now plan.now bodies.now hashes.now entry) }
{
    let chunks = list_of(graph, plan, entry);
    let roots = roots_of(alloc, graph, plan, entry)?;
    let mut out = Vec::from_slice(alloc, runtime())?;
    out.extend_from_slice(b"__webpack_start__({ g: [")?;
    put_row(alloc, &mut out, graph, plan, entry)?;
    out.extend_from_slice(b"], c: [")?;
    put_chunks(alloc, &mut out, plan, hashes.as_slice(), chunks)?;
    out.extend_from_slice(b"] }, [\n")?;
    put_factories(
        alloc,
        &mut out,
        graph,
        plan,
        bodies.as_slice(),
        roots.as_slice(),
    )?;
    out.extend_from_slice(b"\n]);\n")?;
    Ok(Text::from_vec(out))
}
