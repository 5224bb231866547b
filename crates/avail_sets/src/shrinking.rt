// Rows that shrink to what every way to a group has.
ghost use Rattle.std.specs.Prelude.{◌≡◌, ◌⊎◌, ◌↔◌, ◌*◌, ◌<◌, ◌≤◌, ℕ, List, [], true, length, slice_index_or, IfOk, OnOk};
ghost use Rattle.std.specs.List.{All, Contains};
ghost use Rattle.pk_types.specs.Availability.{GroupsFit, HasModulesBelow};
ghost use Rattle.avail_sets.specs.Words.{flag_in, words_for};
ghost use Rattle.avail_sets.specs.Rows.{AreAvailable, IsFirst, ArePassed, IsShrinking, row_at};

use crate::row::Row;
use crate::rows::AvailRows;
use indexmap::IndexSet;
use pk_types::{Groups, Sequence};
use std::alloc::{AllocError, Global};

// The row that each group has at first.
fn first_rows(alloc: Global, groups: &Groups, modules: u32) -> Result<Vec<Row>, AllocError>
    ensures each { IfOk result (λ rows. length rows.items ≡ length groups.now.targets) }
    ensures rows { IfOk result (λ rows. (group : ℕ) → group < length groups.now.targets
        → IsFirst groups.now.entries modules group (row_at rows.items group)) }
{
    let full = Row::full(alloc, modules)?;
    let mut rows = Vec::with_capacity(alloc, groups.targets.len())?;
    for group in 0..groups.targets.len() {
        let mut row = Row::empty(alloc, modules)?;
        if group >= groups.entries as usize {
            row.copy_from(&full);
        }
        rows.push(row)?;
    }
    Ok(rows)
}

// What is there once a group is loaded: what its row has, and its modules.
fn load(have: &mut Row, row: &Row, modules: &[u32])
    requires long { length have.old ≡ length row.now }
    requires modules { All (λ number. number < 64 * length row.now) modules.now }
    ensures long { length have.new ≡ length row.now }
    ensures flags { (number : ℕ)
        → (flag_in have.new number ≡ true) ↔ ((flag_in row.now number ≡ true) ⊎ Contains modules.now number) }
{
    have.copy_from(row);
    for number in modules {
        have.set(*number);
    }
}

// Takes from the rows of groups what is not there. The groups that lose a module wait from then on.
fn pass_on(
    rows: &mut Vec<Row>,
    waiting: &mut IndexSet<u32>,
    have: &Row,
    leads: &[u32],
) -> Result<(), AllocError>
    requires leads { All (λ group. group < length rows.old.items) leads.now }
    requires long { (group : ℕ) → group < length rows.old.items
        → length (row_at rows.old.items group) ≡ length have.now }
    ensures { OnOk result
        (ArePassed have.now leads.now rows.old.items rows.new.items waiting.old.keys waiting.new.keys) }
{
    for group in leads {
        if rows[*group as usize].keep_common(have) {
            waiting.insert(*group)?;
        }
    }
    Ok(())
}

// Shrinks the first rows until no group leads to one that has more than what is there.
fn shrink(
    alloc: Global,
    groups: &Groups,
    modules: u32,
    mut rows: Vec<Row>,
) -> Result<Vec<Row>, AllocError>
    requires fits { GroupsFit groups.now }
    requires modules { HasModulesBelow groups.now «modules» }
    requires each { length rows.items ≡ length groups.now.targets }
    requires rows { (group : ℕ) → group < length groups.now.targets
        → IsFirst groups.now.entries «modules» group (row_at rows.items group) }
    ensures { IfOk result (λ rows. IsShrinking groups.now «modules» rows.items []) }
{
    let mut waiting = IndexSet::new(alloc);
    for group in 0..groups.entries {
        waiting.insert(group)?;
    }
    let mut have = Row::empty(alloc, modules)?;
    while let Some(group) = waiting.pop() {
        let place = group as usize;
        load(
            &mut have,
            &rows[place],
            groups.closures.as_slice()[place].as_slice(),
        );
        pass_on(
            &mut rows,
            &mut waiting,
            &have,
            groups.leads.as_slice()[place].as_slice(),
        )?;
    }
    Ok(rows)
}

/// The modules below a number that are there already when a group is loaded, by all ways that lead to the group.
pub fn available(alloc: Global, groups: &Groups, modules: u32) -> Result<AvailRows, AllocError>
    requires fits { GroupsFit groups.now }
    requires modules { HasModulesBelow groups.now «modules» }
    ensures { IfOk result (AreAvailable groups.now «modules») }
{
    let rows = first_rows(alloc, groups, modules)?;
    let rows = shrink(alloc, groups, modules, rows)?;
    Ok(AvailRows::new(rows, modules))
}
