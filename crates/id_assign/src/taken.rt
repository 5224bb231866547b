// The numbers that were given, and the next free one.
ghost use Rattle.std.specs.Prelude.{◌≡◌, ◌<◌, ◌++◌, [], ◌∷◌, length, IfOk};
ghost use Rattle.pk_types.specs.ModuleIds.{id_count, IsNextFree};

use indexmap::IndexSet;
use std::alloc::{AllocError, Global};

// Five hexadecimal digits have so many numbers.
const ID_COUNT: u32 = 1_048_576;

// The first number that isn't taken, from the start upwards, where 0 follows the greatest.
fn next_free(taken: &IndexSet<u32>, start: u32) -> u32
    requires start { start < id_count }
    requires room { length taken.now.keys < id_count }
    ensures { IsNextFree taken.now.keys start result }
{
    let mut steps = 0;
    while taken.contains(&((start + steps) % ID_COUNT)) {
        steps += 1;
    }
    (start + steps) % ID_COUNT
}

/// The next free number, which is taken from now on. Numbers that are taken stand in the order in which they were.
pub fn take_next(taken: &mut IndexSet<u32>, start: u32) -> Result<u32, AllocError>
    requires start { start < id_count }
    requires room { length taken.old.keys < id_count }
    ensures next { IfOk result (λ number. IsNextFree taken.old.keys start number) }
    ensures taken { IfOk result (λ number. taken.new.keys ≡ taken.old.keys ++ number ∷ []) }
{
    let number = next_free(taken, start);
    taken.insert(number)?;
    Ok(number)
}
