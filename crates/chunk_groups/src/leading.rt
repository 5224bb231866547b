// The groups that closures lead to.
ghost use Rattle.std.specs.Prelude.{◌≡◌, ◌+◌, ◌<◌, ◌≤◌, ◌^◌, ℕ, List, Option, length, IfOk, OnOk};
ghost use Rattle.std.specs.List.{All, Contains};
ghost use Rattle.std.specs.List.Sorted.{IsStrictlyIncreasing};
ghost use Rattle.pk_types.specs.ChunkGroups.{AreAll};
ghost use Rattle.chunk_groups.specs.Gathered.{IsGathered, HasGroupAt, LeadsAt, AreGroupNumbers};

use crate::order::ascending;
use pk_types::Sequence;
use std::alloc::{AllocError, Global};

/// For each of so many modules its group, where it is among those that `import()` leads to: the first of these has the
/// group after those of entries.
pub fn group_numbers(
    alloc: Global,
    count: usize,
    entries: u32,
    imported: &[u32],
) -> Result<Vec<Option<u32>>, AllocError>
    requires within { All (λ target. target < count) imported.now }
    requires order { IsStrictlyIncreasing imported.now }
    requires few { entries + length imported.now < 2 ^ 32 }
    ensures each { IfOk result (λ numbers. length numbers.items ≡ count) }
    ensures numbers { IfOk result
        (λ numbers. AreGroupNumbers entries imported.now (length imported.now) numbers.items) }
{
    let mut numbers = vec![in alloc; None; count]?;
    for (place, target) in imported.iter().enumerate() {
        numbers[*target as usize] = Some(entries + place as u32);
    }
    Ok(numbers)
}

// Adds the groups of these targets.
fn add_groups(
    groups: &mut Vec<u32>,
    targets: &[u32],
    numbers: &[Option<u32>],
) -> Result<(), AllocError>
    requires { All (λ target. target < length numbers.now) targets.now }
    ensures { OnOk result
        (IsGathered groups.old.items (HasGroupAt numbers.now targets.now) (length targets.now) groups.new.items) }
{
    for target in targets {
        if let Some(group) = numbers[*target as usize] {
            groups.push(group)?;
        }
    }
    Ok(())
}

/// The groups that `import()` of these modules leads to, by number.
pub fn leads_of(
    alloc: Global,
    modules: &[u32],
    imports: &[Sequence<u32>],
    numbers: &[Option<u32>],
) -> Result<Vec<u32>, AllocError>
    requires modules { All (λ number. number < length imports.now) modules.now }
    requires targets { All (All (λ target. target < length numbers.now)) imports.now }
    ensures { IfOk result (λ groups. AreAll
        (λ group. (place : ℕ) × (place < length modules.now) × LeadsAt numbers.now imports.now modules.now place group)
        groups.items) }
{
    let mut groups = Vec::new(alloc);
    for number in modules {
        add_groups(&mut groups, imports[*number as usize].as_slice(), numbers)?;
    }
    Ok(ascending(groups))
}
