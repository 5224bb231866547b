//! What the names of a text refer to.
ghost use Rattle.std.specs.Prelude.{◌≡◌, ◌<◌, ◌^◌, ◌+◌, length, reverse, slice_index, true, Some, None, IfOk, IfSome};
ghost use Rattle.es_scope.specs.Firsts.{AreFirst, told};
ghost use Rattle.es_scope.specs.Found.{AreFound, found};
ghost use Rattle.es_scope.specs.Frames.{scopes_of};
ghost use Rattle.es_scope.specs.Named as named;

use crate::firsts::Firsts;
use crate::found::Declared;
use crate::frame::Frame;
use crate::names::{Names, names_it};
use crate::open_parts::OpenParts;
use crate::outlined::Outlined;
use es_outline::Mark;
use std::alloc::{AllocError, Global};

// What is told of a scope, which need not be asked where it is the last that was asked in vain.
fn ask(firsts: &Firsts, scope: u32, last: Option<u32>, number: u32) -> Option<u32>
    requires { IfSome last (λ vain. told firsts.now vain number ≡ None) }
    ensures { result ≡ told firsts.now scope number }
{
    match last {
        Some(vain) if vain == scope => None,
        _ => firsts.told(scope, number),
    }
}

// The declaration of a name in the innermost scope that has one, of those within these parts.
fn find(firsts: &Firsts, frames: &[Frame], number: u32) -> Option<Declared>
    ensures { result ≡ found (λ scope. told firsts.now scope number) (scopes_of (reverse frames.now)) }
{
    let mut left = frames;
    let mut last = None;
    while let Some((frame, outer)) = left.split_last() {
        let scope = frame.scope;
        if let Some(place) = ask(firsts, scope, last, number) {
            return Some(Declared { scope, place });
        }
        last = Some(scope);
        left = outer;
    }
    let place = ask(firsts, 0, last, number)?;
    Some(Declared { scope: 0, place })
}

// What the name at the place refers to, where these parts are open.
fn found_at(
    firsts: &Firsts,
    names: &Names,
    parts: &OpenParts,
    mark: Mark,
    place: usize,
) -> Option<Declared>
    requires { place < length names.now.numbers.items }
    ensures { named.names_it (Some mark) ≡ true → result
        ≡ found (λ scope. told firsts.now scope (slice_index names.now.numbers.items place)) (scopes_of parts.now) }
{
    if names_it(mark) {
        find(firsts, parts.frames(), names.numbers[place])
    } else {
        None
    }
}

/// For each place what the name there refers to, if it is declared. The time for one name is within the depth of the
/// parts that are open there.
pub(crate) fn found_names(
    alloc: Global,
    outlined: &Outlined<'_>,
    names: &Names,
    firsts: &Firsts,
) -> Result<Vec<Option<Declared>>, AllocError>
    requires short { length outlined.now.marks + 2 < 2 ^ 32 }
    requires numbered { named.AreNumbered outlined.now names.now.texts names.now.numbers.items }
    requires firsts { AreFirst outlined.now names.now.texts (length outlined.now.marks) (told firsts.now) }
    ensures { IfOk result (λ table. AreFound outlined.now table.items) }
{
    let mut open = OpenParts::new(alloc);
    let mut table = Vec::with_capacity(alloc, outlined.marks().len())?;
    for (place, mark) in outlined.marks().iter().enumerate() {
        table.push(found_at(firsts, names, &open, *mark, place))?;
        open.pass(*mark, place as u32)?;
    }
    Ok(table)
}
