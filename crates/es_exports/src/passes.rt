//! The passes that list what places export.
ghost use Rattle.std.specs.Prelude.{◌≡◌, ◌<◌, ◌^◌, ◌+◌, ◌++◌, length, option_to_list, IfOk, OnOk};
ghost use Rattle.es_exports.specs.Origins as spec;
ghost use Rattle.es_exports.specs.Passing.{IsFirstOf, those};

use crate::inside::Inside;
use crate::names::{name_of, origin_of, said_at};
use crate::noted::Noted;
use crate::origins::{exports_undeclared, star_at, whence_at};
use crate::sight::Sight;
use pk_types::ExportEntry;
use std::alloc::{AllocError, Global};

// The entry of a place, if it has one.
fn entry_at(
    alloc: Global,
    sight: &Sight<'_, '_>,
    inside: &Inside,
    named: &Noted,
    place: u32,
) -> Result<Option<ExportEntry>, AllocError>
    requires { place + 2 < 2 ^ 32 }
    ensures { IfOk result (λ entry. entry ≡ spec.entry_at sight.now inside.now named.now place) }
{
    let Some(name) = said_at(sight, place) else {
        return Ok(None);
    };
    let Some(from) = whence_at(sight, inside, named, place) else {
        return Ok(None);
    };
    let Some(start) = sight.start_at(place) else {
        return Ok(None);
    };
    Ok(Some(ExportEntry {
        name: name_of(alloc, sight, name)?,
        origin: origin_of(alloc, sight, from)?,
        place: start,
    }))
}

// Pushes an item, if there is one.
fn push_some<T: Drop>(items: &mut Vec<T>, item: Option<T>) -> Result<(), AllocError>
    ensures { OnOk result (items.new.items ≡ items.old.items ++ option_to_list item) }
{
    if let Some(item) = item {
        items.push(item)?;
    }
    Ok(())
}

/// The entries of a text.
pub(crate) fn entries(
    alloc: Global,
    sight: &Sight<'_, '_>,
    inside: &Inside,
    named: &Noted,
) -> Result<Vec<ExportEntry>, AllocError>
    requires { length sight.now.source.marks + 2 < 2 ^ 32 }
    ensures { IfOk result (λ entries. entries.items
        ≡ those (spec.entry_at sight.now inside.now named.now) (length sight.now.source.marks)) }
{
    let mut entries = Vec::new(alloc);
    for place in 0..sight.len() {
        let entry = entry_at(alloc, sight, inside, named, place)?;
        push_some(&mut entries, entry)?;
    }
    Ok(entries)
}

/// The requests of the `export * from` of a text.
pub(crate) fn stars(
    alloc: Global,
    sight: &Sight<'_, '_>,
    inside: &Inside,
) -> Result<Vec<u32>, AllocError>
    requires { length sight.now.source.marks + 2 < 2 ^ 32 }
    ensures { IfOk result (λ stars. stars.items
        ≡ those (spec.star_at sight.now inside.now) (length sight.now.source.marks + 2)) }
{
    let mut stars = Vec::new(alloc);
    for place in 0..sight.len() + 2 {
        push_some(&mut stars, star_at(sight, inside, place))?;
    }
    Ok(stars)
}

/// The first place that lists a name of this module that the top doesn't declare.
pub(crate) fn first_undeclared(sight: &Sight<'_, '_>, inside: &Inside) -> Option<u32>
    requires { length sight.now.source.marks + 2 < 2 ^ 32 }
    ensures { IsFirstOf (spec.exports_undeclared sight.now inside.now)
        (length sight.now.source.marks) result }
{
    for place in 0..sight.len() {
        if exports_undeclared(sight, inside, place) {
            return Some(place);
        }
    }
    None
}
