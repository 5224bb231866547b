// Ids from hashes.
ghost use Rattle.std.specs.Prelude.{◌≡◌, ℕ, true, false, ◌<◌, ◌≤◌, ◌++◌, [], ◌∷◌, codes, map, length, count_by, IfOk};
ghost use Rattle.std.specs.List.{All, range_with_len};
ghost use Rattle.sha2.specs.Sha256.{sha256};
ghost use Rattle.pk_types.specs.ModuleIds.{id_count, is_in_chunks, five_digits, IsNextFree, AreGivenInOrder};
ghost use Rattle.pk_types.specs.HashedIds.{module_start, chunk_start, AreHashedIds};
ghost use Rattle.id_assign.specs.Conditions.{MayHaveIds};
ghost use Rattle.id_assign.specs.Flags.{is_set};
ghost use Rattle.id_assign.specs.Numbered.{AreNumbered};

use crate::placed::without_entries;
use crate::taken::take_next;
use indexmap::IndexSet;
use pk_types::{Chunks, Graph, Ids, Row, Sequence};
use sha2::{Digest, Sha256};
use std::alloc::{AllocError, Global};

// The number of the first five hexadecimal digits.
fn first_digits(digest: &[u8; 32]) -> u32
    ensures digits { result ≡ five_digits digest.now }
    ensures below { result < id_count }
{
    digest[0] as u32 * 4096 + digest[1] as u32 * 16 + digest[2] as u32 / 16
}

// The number with which the look for a module's id begins.
fn start_of_module(label: &[u8]) -> u32
    ensures start { result ≡ five_digits (sha256 label.now) }
    ensures below { result < id_count }
{
    first_digits(&Sha256::digest(label))
}

// The same for a chunk, by the label of its first module.
fn start_of_chunk(label: &[u8]) -> u32
    ensures start { result ≡ five_digits (sha256 (codes "chunk " ++ label.now)) }
    ensures below { result < id_count }
{
    let mut hasher = Sha256::new();
    hasher.update(b"chunk ");
    hasher.update(label);
    first_digits(&hasher.finalize())
}

// The id of one module: the next free number where it stands in a chunk, else 0.
fn module_id(taken: &mut IndexSet<u32>, row: &Row, is_placed: bool) -> Result<u32, AllocError>
    requires { is_placed ≡ true → length taken.old.keys < id_count }
    ensures placed { IfOk result (λ id. is_placed ≡ true → IsNextFree taken.old.keys (five_digits (sha256 row.now.label)) id
        × (taken.new.keys ≡ taken.old.keys ++ id ∷ [])) }
    ensures other { IfOk result (λ id. is_placed ≡ false → (id ≡ 0) × (taken.new.keys ≡ taken.old.keys)) }
{
    if is_placed {
        take_next(taken, start_of_module(row.label.as_slice()))
    } else {
        Ok(0)
    }
}

// The ids of modules, where the flags say which stand in chunks.
fn module_ids(alloc: Global, graph: &Graph, placed: &[bool]) -> Result<Vec<u32>, AllocError>
    requires each { length placed.now ≡ length graph.now.rows }
    requires few { count_by (is_set placed.now) (range_with_len 0 (length placed.now)) ≤ id_count }
    ensures { IfOk result (λ ids. AreNumbered (module_start sha256 graph.now) (is_set placed.now) (length placed.now) ids.items) }
{
    let mut taken = IndexSet::new(alloc);
    let mut ids = Vec::with_capacity(alloc, placed.len())?;
    for (number, row) in graph.rows.as_slice().iter().enumerate() {
        let id = module_id(&mut taken, row, placed[number])?;
        ids.push(id)?;
    }
    Ok(ids)
}

// The ids of chunks that hold modules.
fn chunk_ids(alloc: Global, graph: &Graph, chunks: &[Sequence<u32>]) -> Result<Vec<u32>, AllocError>
    requires in_range { All (All (λ member. member < length graph.now.rows)) chunks.now }
    requires filled { All (λ modules. 0 < length modules) chunks.now }
    requires few { length chunks.now ≤ id_count }
    ensures { IfOk result (λ ids. AreGivenInOrder (map (chunk_start sha256 graph.now) chunks.now) ids.items) }
{
    let mut taken = IndexSet::new(alloc);
    let rows = graph.rows.as_slice();
    for modules in chunks {
        let first = modules.as_slice()[0];
        let label = rows[first as usize].label.as_slice();
        take_next(&mut taken, start_of_chunk(label))?;
    }
    Vec::from_slice(alloc, taken.as_slice())
}

/// Ids from hashes, where the flags say which modules stand in chunks.
pub fn hashed_ids(
    alloc: Global,
    graph: &Graph,
    chunks: &Chunks,
    placed: &[bool],
) -> Result<Ids, AllocError>
    requires few { MayHaveIds graph.now chunks.now }
    requires placed { placed.now ≡ map (is_in_chunks chunks.now) (range_with_len 0 (length graph.now.rows)) }
    ensures { IfOk result (λ ids. AreHashedIds sha256 graph.now chunks.now ids) }
{
    let modules = module_ids(alloc, graph, placed)?;
    let chunks = chunk_ids(alloc, graph, without_entries(chunks))?;
    Ok(Ids {
        modules: Sequence::from_vec(modules),
        chunks: Sequence::from_vec(chunks),
    })
}
