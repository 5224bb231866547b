//! Names in export lists that are names of another module.
//!
//! Such a list has its request behind its names. So one pass finds the lists that have a request, and one the names in these.
ghost use Rattle.std.specs.Prelude.{◌≡◌, ◌<◌, ◌^◌, ◌+◌, [], length, slice_get, IfOk, OnOk, Some};
ghost use Rattle.std.specs.List.{list_any};
ghost use Rattle.pk_types.specs.Numbers.{has};
ghost use Rattle.es_parts.specs.Around.{AreAround};
ghost use Rattle.es_asks.specs.Forwarding as spec;
ghost use Rattle.es_asks.specs.Gathering.{IsTold, noted};

use es_outline::{Mark, Part, Role};
use es_parts::Enclosing;
use es_scope::Outlined;
use indexmap::IndexSet;
use std::alloc::{AllocError, Global};
use std::marker::Model;

/// The places of the names in export lists that are names of another module.
#[derive(Drop)]
pub struct Forwarded {
    places: IndexSet<u32>,
}

impl Model for Forwarded {
    ghost use Rattle.std.specs.Prelude.{ℕ, List};

    ghost Value = { List ℕ };

    ghost view = { λ forwarded. forwarded.places.keys };
}

/// Puts a number into a set, if there is one.
pub(crate) fn note(numbers: &mut IndexSet<u32>, number: Option<u32>) -> Result<(), AllocError>
    ensures { OnOk result (numbers.new.keys ≡ noted numbers.old.keys number) }
{
    if let Some(number) = number {
        numbers.insert(number)?;
    }
    Ok(())
}

// The part that begins at a place, if it is an export list.
fn list_of(outlined: &Outlined<'_>, part: Option<u32>) -> Option<u32>
    ensures { result ≡ spec.list_of outlined.now part }
{
    let opening = part?;
    match outlined.marks().get(opening as usize) {
        Some(Mark::Begin(Part::ExportList)) => Some(opening),
        _ => None,
    }
}

// The export list that a mark is a request of.
fn request_in(mark: Mark, list: Option<u32>) -> Option<u32>
    ensures { result ≡ spec.request_in (Some «mark») list }
{
    match mark {
        Mark::Token(Role::Request, _) => list,
        _ => None,
    }
}

// The place, if it has a name of another module.
fn forwarded_in(lists: &IndexSet<u32>, place: u32, mark: Mark, list: Option<u32>) -> Option<u32>
    ensures { result ≡ spec.forwarded_in lists.now.keys place (Some «mark») list }
{
    match (mark, list) {
        (Mark::Token(Role::Exported, _), Some(opening)) if lists.contains(&opening) => Some(place),
        _ => None,
    }
}

// The export lists that have a request, by the places where they begin.
fn lists_with_requests(
    alloc: Global,
    outlined: &Outlined<'_>,
    enclosing: &Enclosing,
) -> Result<IndexSet<u32>, AllocError>
    requires short { length outlined.now.marks + 2 < 2 ^ 32 }
    requires enclosing { AreAround outlined.now.marks enclosing.now }
    ensures { IfOk result (λ lists. spec.HaveRequests outlined.now lists.keys) }
{
    let mut lists = IndexSet::new(alloc);
    for (place, mark) in outlined.marks().iter().enumerate() {
        let list = list_of(outlined, enclosing.around(place as u32).part);
        note(&mut lists, request_in(*mark, list))?;
    }
    Ok(lists)
}

// Whether some name stands in an export list.
fn exports_names(outlined: &Outlined<'_>) -> bool
    ensures { result ≡ list_any spec.is_exported outlined.now.marks }
{
    outlined
        .marks()
        .iter()
        .any(|mark| matches!(mark, Mark::Token(Role::Exported, _)))
}

impl Forwarded {
    /// The names of a text that are those of another module.
    pub fn new(
        alloc: Global,
        outlined: &Outlined<'_>,
        enclosing: &Enclosing,
    ) -> Result<Forwarded, AllocError>
        requires short { length outlined.now.marks + 2 < 2 ^ 32 }
        requires enclosing { AreAround outlined.now.marks enclosing.now }
        ensures { IfOk result (spec.AreForwarded outlined.now) }
    {
        let lists = lists_with_requests(alloc, outlined, enclosing)?;
        let mut places = IndexSet::new(alloc);
        for (index, mark) in outlined.marks().iter().enumerate() {
            let place = index as u32;
            let list = list_of(outlined, enclosing.around(place).part);
            note(&mut places, forwarded_in(&lists, place, *mark, list))?;
        }
        Ok(Forwarded { places })
    }

    /// No name.
    pub fn none(alloc: Global) -> Forwarded
        ensures { result ≡ [] }
    {
        Forwarded {
            places: IndexSet::new(alloc),
        }
    }

    /// The same where the parts around places are not known, and are asked for only if names are exported.
    pub fn of_text(alloc: Global, outlined: &Outlined<'_>) -> Result<Forwarded, AllocError>
        requires { length outlined.now.marks + 2 < 2 ^ 32 }
        ensures { IfOk result (spec.AreForwarded outlined.now) }
    {
        if exports_names(outlined) {
            let enclosing = Enclosing::new(alloc, outlined.marks())?;
            Forwarded::new(alloc, outlined, &enclosing)
        } else {
            Ok(Forwarded::none(alloc))
        }
    }

    /// Whether a name of another module stands at a place.
    pub fn has(&self, place: u32) -> bool
        ensures { result ≡ has self.now place }
    {
        self.places.contains(&place)
    }
}
