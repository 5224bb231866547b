// The files that start a page.
ghost use Rattle.std.specs.Prelude.{◌≡◌, ◌<◌, ◌==◌, ℕ, List, ◌∷◌, filter, map, not, length, IfOk, OnOk};
ghost use Rattle.std.specs.List.{All};
ghost use Rattle.pk_types.specs.ChunkGroups.{AreAll};
ghost use Rattle.emit_chunk.specs.Ranges.{AreBelow};
ghost use Rattle.chunk_files.specs.Entries as spec;
ghost use Rattle.chunk_files.specs.Entries.{IsWalkedTo, IsNeeded, row_text, named_text, entry_text, IsEntryText};
ghost use Rattle.chunk_files.specs.Pens.{size_of, penned};

use crate::chunk::put_chunk_factories;
use crate::ids::{put_chunk_id, put_chunk_ids, put_id};
use crate::material::Material;
use crate::order::ascending;
use crate::parts::{Parts, put_joined};
use crate::pen::Pen;
use edge_search::Search;
use emit_chunk::runtime;
use pk_types::{Sequence, Text};
use std::alloc::{AllocError, Global};

// The numbers but for one.
fn without(alloc: Global, numbers: &[u32], left_out: u32) -> Result<Vec<u32>, AllocError>
    ensures { IfOk result (λ others. others.items ≡ filter (λ other. not (other == left_out)) numbers.now) }
{
    let mut others = Vec::new(alloc);
    for number in numbers {
        if *number != left_out {
            others.push(*number)?;
        }
    }
    Ok(others)
}

// The other groups that walks from the entry's group end in, by number.
fn walked(alloc: Global, material: &Material<'_>, entry: u32) -> Result<Vec<u32>, AllocError>
    requires { entry < length material.now.plan.groups.targets }
    ensures walked { IfOk result (λ groups. AreAll (IsWalkedTo material.now.plan entry) groups.items) }
    ensures within { IfOk result (λ groups. AreBelow (length material.now.plan.groups.targets) groups.items) }
{
    let mut search = Search::new(alloc);
    search.reach(&material.leads(), entry)?;
    let groups = without(alloc, search.met(), entry)?;
    Ok(ascending(groups))
}

// The entry's own group, and then the others.
fn groups_of(alloc: Global, material: &Material<'_>, entry: u32) -> Result<Vec<u32>, AllocError>
    requires { entry < length material.now.plan.groups.targets }
    ensures groups { IfOk result (λ groups. (others : List ℕ) × (groups.items ≡ entry ∷ others)
        × AreAll (IsWalkedTo material.now.plan entry) others) }
    ensures within { IfOk result (λ groups. AreBelow (length material.now.plan.groups.targets) groups.items) }
{
    let mut groups = Vec::new(alloc);
    groups.push(entry)?;
    let others = walked(alloc, material, entry)?;
    groups.extend_from_slice(others.as_slice())?;
    Ok(groups)
}

// The chunks that these groups need, by number.
fn needed(alloc: Global, material: &Material<'_>, groups: &[u32]) -> Result<Vec<u32>, AllocError>
    requires { AreBelow (length material.now.plan.groups.targets) groups.now }
    ensures needed { IfOk result (λ chunks. AreAll (IsNeeded material.now.plan groups.now) chunks.items) }
    ensures within { IfOk result (λ chunks. AreBelow (length material.now.plan.ids.chunks) chunks.items) }
{
    let mut chunks = Vec::new(alloc);
    for group in groups {
        chunks.extend_from_slice(material.list(*group))?;
    }
    Ok(ascending(chunks))
}

// Writes the row of a group: the id of its module, and those of its chunks.
#[tactic(auto, unfolding(crate::specs::Entries::row_text), using(crate::proofs::Penning::penned_twice))]
fn put_row(pen: &mut Pen, material: &Material<'_>, group: u32) -> Result<(), AllocError>
    requires { group < length material.now.plan.groups.targets }
    ensures { OnOk result (pen.new ≡ penned pen.old (row_text material.now.plan group)) }
{
    pen.put(b"[")?;
    put_id(pen, material, material.target(group))?;
    put_chunk_ids(pen, material, material.list(group))?;
    pen.put(b"]")
}

// The rows of groups.
#[derive(Drop)]
struct Rows<'a> {
    material: &'a Material<'a>,
    groups: &'a [u32],
}

impl<'a> Parts for Rows<'a> {
    ghost texts = { λ rows. map (row_text rows.material.now.plan) rows.groups.now };

    ghost stand = { λ rows. AreBelow (length rows.material.now.plan.groups.targets) rows.groups.now };

    fn count(&self) -> usize {
        self.groups.len()
    }

    #[tactic(auto, using(crate::proofs::Places::text_read))]
    fn put(&self, pen: &mut Pen, place: usize) -> Result<(), AllocError> {
        put_row(pen, self.material, self.groups[place])
    }
}

// The hash of a chunk; as long a text where none is given.
fn hash_at(hashes: &[Text], chunk: u32) -> &[u8]
    ensures { result.now ≡ spec.hash_at hashes.now chunk }
{
    match hashes.get(chunk as usize) {
        Some(hash) => hash.as_slice(),
        None => b"00000000",
    }
}

// Writes a chunk in the table of a file: its id and its hash.
#[tactic(auto, unfolding(crate::specs::Entries::named_text), using(crate::proofs::Penning::penned_twice))]
fn put_named(
    pen: &mut Pen,
    material: &Material<'_>,
    hashes: &[Text],
    chunk: u32,
) -> Result<(), AllocError>
    requires { chunk < length material.now.plan.ids.chunks }
    ensures { OnOk result (pen.new ≡ penned pen.old (named_text material.now.plan hashes.now chunk)) }
{
    pen.put(b"[")?;
    put_chunk_id(pen, material, chunk)?;
    pen.put(b", \"")?;
    pen.put(hash_at(hashes, chunk))?;
    pen.put(b"\"]")
}

// The table of chunks.
#[derive(Drop)]
struct Table<'a> {
    material: &'a Material<'a>,
    hashes: &'a [Text],
    chunks: &'a [u32],
}

impl<'a> Parts for Table<'a> {
    ghost texts = { λ table. map (named_text table.material.now.plan table.hashes.now) table.chunks.now };

    ghost stand = { λ table. AreBelow (length table.material.now.plan.ids.chunks) table.chunks.now };

    fn count(&self) -> usize {
        self.chunks.len()
    }

    #[tactic(auto, using(crate::proofs::Places::text_read))]
    fn put(&self, pen: &mut Pen, place: usize) -> Result<(), AllocError> {
        put_named(pen, self.material, self.hashes, self.chunks[place])
    }
}

// Writes the file of an entry, which names these groups and chunks.
#[tactic(auto, unfolding(crate::specs::Entries::entry_text), using(crate::proofs::Penning::penned_twice))]
fn put_entry(
    alloc: Global,
    pen: &mut Pen,
    material: &Material<'_>,
    hashes: &[Text],
    entry: u32,
    groups: &[u32],
    chunks: &[u32],
) -> Result<(), AllocError>
    requires entry { entry < length material.now.plan.chunks.modules }
    requires groups { AreBelow (length material.now.plan.groups.targets) groups.now }
    requires chunks { AreBelow (length material.now.plan.ids.chunks) chunks.now }
    ensures { OnOk result
        (pen.new ≡ penned pen.old (entry_text material.now hashes.now entry groups.now chunks.now)) }
{
    pen.put(runtime())?;
    pen.put(b"__webpack_start__({ g: [")?;
    put_joined(pen, b", ", &Rows { material, groups })?;
    pen.put(b"], c: [")?;
    put_joined(
        pen,
        b", ",
        &Table {
            material,
            hashes,
            chunks,
        },
    )?;
    pen.put(b"] }, [\n")?;
    put_chunk_factories(alloc, pen, material, entry as usize)?;
    pen.put(b"\n]);\n")
}

// Writes the file of an entry.
fn put_entry_file(
    alloc: Global,
    pen: &mut Pen,
    material: &Material<'_>,
    hashes: &[Text],
    entry: u32,
) -> Result<(), AllocError>
    requires { entry < material.now.plan.chunks.entries }
    ensures { OnOk result ((text : List ℕ) × IsEntryText material.now hashes.now entry text
        × (pen.new ≡ penned pen.old text)) }
{
    let first = material.group_of(entry);
    let groups = groups_of(alloc, material, first)?;
    let chunks = needed(alloc, material, groups.as_slice())?;
    put_entry(
        alloc,
        pen,
        material,
        hashes,
        first,
        groups.as_slice(),
        chunks.as_slice(),
    )
}

/// The file that starts a page at an entry. `hashes` has a hash for each chunk that is no entry chunk.
pub fn entry_file(
    alloc: Global,
    material: &Material<'_>,
    hashes: &Sequence<Text>,
    entry: u32,
) -> Result<Text, AllocError>
    requires entry { entry < material.now.plan.chunks.entries }
    requires hashes { length hashes.now ≡ length material.now.plan.ids.chunks }
    ensures { IfOk result (IsEntryText material.now hashes.now entry) }
{
    let mut pen = Pen::writing(alloc);
    put_entry_file(alloc, &mut pen, material, hashes.as_slice(), entry)?;
    Ok(pen.into_text())
}

/// How many bytes the file of an entry has, whatever hashes of eight digits stand in it, or the type's last value. The
/// file is not made.
pub fn entry_size(alloc: Global, material: &Material<'_>, entry: u32) -> Result<u64, AllocError>
    requires { entry < material.now.plan.chunks.entries }
    ensures { IfOk result (λ size. (hashes : List (List ℕ)) → All (λ hash. length hash ≡ 8) hashes
        → (text : List ℕ) × IsEntryText material.now hashes entry text × (size ≡ size_of (length text))) }
{
    let mut pen = Pen::measuring(alloc);
    put_entry_file(alloc, &mut pen, material, &[], entry)?;
    Ok(pen.size())
}
