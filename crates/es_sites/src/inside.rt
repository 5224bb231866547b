//! What stands directly in parts.
ghost use Rattle.std.specs.Prelude.{◌≡◌, ◌<◌, ◌^◌, ◌+◌, length, replicate, None, IfOk, IfSome};
ghost use Rattle.es_parts.specs.Around.{AreAround};
ghost use Rattle.es_asks.specs.Numbering.{AreAsked};
ghost use Rattle.es_sites.specs.Inside as spec;

use crate::marks::{begins_class, is_unnamed, role_at};
use crate::tables::{entry, part_around};
use es_asks::Asked;
use es_outline::{Mark, Role};
use es_parts::Enclosing;
use es_scope::Outlined;
use std::alloc::{AllocError, Global};

/// For parts, by the places where they begin, the number of a request of a declaration that stands directly in them,
/// and where a class without a name does.
#[derive(Drop)]
pub(crate) struct Inside {
    pub requests: Vec<Option<u32>>,
    pub classes: Vec<Option<u32>>,
}

// Notes an item of a place in the part around it.
fn note(table: &mut Vec<Option<u32>>, part: Option<u32>, item: Option<u32>)
    requires { IfSome part (λ opening. opening < length table.old.items) }
    ensures { table.new.items ≡ spec.noted part item table.old.items }
{
    if let Some(opening) = part {
        if item.is_some() {
            table[opening as usize] = item;
        }
    }
}

// The number of the request of a declaration that stands at a place.
fn request_at(outlined: &Outlined<'_>, asked: &Asked, place: u32) -> Option<u32>
    ensures { result ≡ spec.request_at outlined.now asked.now.numbers.items place }
{
    match role_at(outlined.marks(), place as usize) {
        Some(Role::Request) => entry(asked.numbers.as_slice(), place),
        _ => None,
    }
}

// The place, where the mark that a class has no name stands there.
fn class_at(marks: &[Mark], place: u32) -> Option<u32>
    ensures { result ≡ spec.class_by marks.now place }
{
    if is_unnamed(marks, place as usize) && begins_class(marks, place as usize + 1) {
        Some(place)
    } else {
        None
    }
}

// A table of so many places without an item.
fn nothing(alloc: Global, count: usize) -> Result<Vec<Option<u32>>, AllocError>
    ensures { IfOk result (λ table. table.items ≡ replicate count None) }
{
    vec![in alloc; None; count]
}

impl Inside {
    /// What stands directly in the parts of a text.
    pub fn new(
        alloc: Global,
        outlined: &Outlined<'_>,
        enclosing: &Enclosing,
        asked: &Asked,
    ) -> Result<Inside, AllocError>
        requires short { length outlined.now.marks + 2 < 2 ^ 32 }
        requires enclosing { AreAround outlined.now.marks enclosing.now }
        requires asked { AreAsked outlined.now asked.now }
        ensures { IfOk result (spec.AreInside outlined.now asked.now.requests) }
    {
        let marks = outlined.marks();
        let mut requests = nothing(alloc, marks.len())?;
        let mut classes = nothing(alloc, marks.len())?;
        for index in 0..marks.len() {
            let place = index as u32;
            let part = part_around(marks, enclosing, place);
            note(&mut requests, part, request_at(outlined, asked, place));
            note(&mut classes, part, class_at(marks, place));
        }
        Ok(Inside { requests, classes })
    }
}
