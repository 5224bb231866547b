//! What stands in the parts of a text.
ghost use Rattle.std.specs.Prelude.{◌≡◌, ◌<◌, ◌^◌, ◌+◌, length, IfOk};
ghost use Rattle.es_exports.specs.Noting as spec;

use crate::noted::Noted;
use crate::sight::Sight;
use es_outline::{Mark, Part, Role};
use std::alloc::{AllocError, Global};

/// Of parts, where a request stands directly in one, a request that has a number, and the mark that the function or the
/// class of an `export default` has no name.
#[derive(Drop)]
pub(crate) struct Inside {
    pub(crate) requests: Noted,
    pub(crate) numbered: Noted,
    pub(crate) unnamed: Noted,
}

// The part that a request at the place stands directly in.
fn of_request(sight: &Sight<'_, '_>, place: u32) -> Option<u32>
    ensures { result ≡ spec.of_request sight.now place }
{
    match sight.role_at(place) {
        Some(Role::Request) => sight.part_at(place),
        _ => None,
    }
}

// The same of a request with a number.
fn of_numbered(sight: &Sight<'_, '_>, place: u32) -> Option<u32>
    ensures { result ≡ spec.of_numbered sight.now place }
{
    match sight.role_at(place) {
        Some(Role::Request) if sight.number_at(place).is_some() => sight.part_at(place),
        _ => None,
    }
}

// The `export default` that the mark of a function or a class without a name stands directly in.
fn of_unnamed(sight: &Sight<'_, '_>, place: u32) -> Option<u32>
    requires { place + 2 < 2 ^ 32 }
    ensures { result ≡ spec.of_unnamed sight.now place }
{
    if !matches!(sight.mark_at(place), Some(Mark::Unnamed)) {
        return None;
    }
    match sight.begun_at(place + 1) {
        Some(Part::Class | Part::Function) => sight.default_of(sight.part_at(place)),
        _ => None,
    }
}

impl Inside {
    /// What stands in the parts of a text.
    pub(crate) fn new(alloc: Global, sight: &Sight<'_, '_>) -> Result<Inside, AllocError>
        requires { length sight.now.source.marks + 2 < 2 ^ 32 }
        ensures { IfOk result (spec.AreInside sight.now) }
    {
        let mut requests = Noted::new(alloc);
        let mut numbered = Noted::new(alloc);
        let mut unnamed = Noted::new(alloc);
        for place in 0..sight.len() {
            requests.note(of_request(sight, place), place)?;
            numbered.note(of_numbered(sight, place), place)?;
            unnamed.note(of_unnamed(sight, place), place)?;
        }
        Ok(Inside {
            requests,
            numbered,
            unnamed,
        })
    }
}
