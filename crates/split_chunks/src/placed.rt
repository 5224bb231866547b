// What each group brings itself.
ghost use Rattle.std.specs.Prelude.{◌≡◌, ◌<◌, ℕ, List, [], false, not, length, filter, slice_index_or, IfOk};
ghost use Rattle.std.specs.List.{All};
ghost use Rattle.pk_types.specs.Availability.{ArePlaced, GroupsFit, HasModulesBelow};
ghost use Rattle.avail_sets.specs.Rows.{AreAvailable};
ghost use Rattle.split_chunks.specs.GroupChunks.{HasAscendingClosures};

use avail_sets::AvailRows;
use pk_types::{Groups, Sequence};
use std::alloc::{AllocError, Global};

// The modules of a closure that are not there already when the group is loaded.
fn brought(
    alloc: Global,
    closure: &[u32],
    avail: &AvailRows,
    group: u32,
) -> Result<Vec<u32>, AllocError>
    requires group { «group» < length avail.now }
    requires modules { All (λ member. member < length (slice_index_or avail.now «group» [])) closure.now }
    ensures { IfOk result (λ brought. brought.items
        ≡ filter (λ member. not (slice_index_or (slice_index_or avail.now group []) member false)) closure.now) }
{
    closure
        .iter()
        .copied()
        .filter(|member| !avail.is_available(group, *member))
        .collect(alloc)
}

/// For each group the modules that it brings, by number.
pub fn placed(
    alloc: Global,
    groups: &Groups,
    avail: &AvailRows,
    modules: usize,
) -> Result<Vec<Sequence<u32>>, AllocError>
    requires fits { GroupsFit groups.now }
    requires closures { HasAscendingClosures groups.now }
    requires modules { HasModulesBelow groups.now «modules» }
    requires rows { AreAvailable groups.now «modules» avail.now }
    ensures { IfOk result (λ placed. ArePlaced groups.now placed.items) }
{
    let mut placed = Vec::with_capacity(alloc, groups.closures.len())?;
    for (group, closure) in groups.closures.as_slice().iter().enumerate() {
        let brought = brought(alloc, closure.as_slice(), avail, group as u32)?;
        placed.push(Sequence::from_vec(brought))?;
    }
    Ok(placed)
}
