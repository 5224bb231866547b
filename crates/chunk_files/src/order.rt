// Numbers in their order.
ghost use Rattle.std.specs.List.{Contains};
ghost use Rattle.pk_types.specs.ChunkGroups.{AreAll};

/// The numbers in their order, each once.
pub(crate) fn ascending(numbers: Vec<u32>) -> Vec<u32>
    ensures { AreAll (Contains numbers.items) result.items }
{
    let mut numbers = numbers;
    numbers.sort_unstable();
    numbers.dedup();
    numbers
}
