// Which modules stand in chunks.
ghost use Rattle.std.specs.Prelude.{◌≡◌, ℕ, ◌<◌, ◌≤◌, ◌||◌, false, drop, map, length, slice_index_or, IfOk};
ghost use Rattle.std.specs.List.{All, range_with_len};
ghost use Rattle.pk_types.specs.ModuleIds.{is_in_chunks};
ghost use Rattle.pk_types.specs.Numbers.{has};

use pk_types::{Chunks, Sequence};
use std::alloc::{AllocError, Global};

// Sets the flags of these modules.
fn mark(flags: &mut [bool], modules: &[u32])
    requires { All (λ member. member < length flags.old) modules.now }
    ensures { (member : ℕ) → member < length flags.old
        → slice_index_or flags.new member false ≡ (slice_index_or flags.old member false || has modules.now member) }
{
    for member in modules {
        flags[*member as usize] = true;
    }
}

/// For each of so many modules whether it stands in a chunk.
pub fn placed(alloc: Global, chunks: &Chunks, count: usize) -> Result<Vec<bool>, AllocError>
    requires { All (All (λ member. member < count)) chunks.now.modules }
    ensures { IfOk result (λ flags. flags.items ≡ map (is_in_chunks chunks.now) (range_with_len 0 count)) }
{
    let mut flags = vec![in alloc; false; count]?;
    for modules in chunks.modules.as_slice() {
        mark(&mut flags, modules.as_slice());
    }
    Ok(flags)
}

/// The chunks that are no entry chunks.
pub fn without_entries(chunks: &Chunks) -> &[Sequence<u32>]
    requires { chunks.now.entries ≤ length chunks.now.modules }
    ensures { result.now ≡ drop chunks.now.entries chunks.now.modules }
{
    &chunks.modules.as_slice()[chunks.entries as usize..]
}
