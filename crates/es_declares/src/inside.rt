//! What stands directly in the parts of a text.
ghost use Rattle.std.specs.Prelude.{◌≡◌, ◌<◌, ◌^◌, ◌+◌, length, slice_get, IfOk};
ghost use Rattle.es_scope.specs.Source.{Source};
ghost use Rattle.es_parts.specs.Around.{AreAround};
ghost use Rattle.es_asks.specs.Numbering.{AreAsked};
ghost use Rattle.es_declares.specs.Inside as spec;

use crate::noted::Noted;
use es_asks::Asked;
use es_outline::{Mark, Part, Role};
use es_parts::Enclosing;
use es_scope::Outlined;
use pk_types::BindKind;
use std::alloc::{AllocError, Global};
use std::marker::Model;

/// Of each part where it begins: a request that stands directly in it, one that asks for something, and the mark that a
/// function or a class has no name.
#[derive(Drop)]
pub struct Inside {
    requests: Noted,
    asking: Noted,
    nameless: Noted,
}

impl Model for Inside {
    ghost use Rattle.es_declares.specs.Inside.{Standing};

    ghost Value = { Standing };

    ghost view = { λ inside. record {
      requests = inside.requests;
      asking = inside.asking;
      nameless = inside.nameless;
    } };
}

// Whether a mark is a request.
fn is_request(mark: Option<Mark>) -> bool
    ensures { result ≡ spec.is_request mark }
{
    matches!(mark, Some(Mark::Token(Role::Request, _)))
}

// Whether a mark with this number is a request that asks for something.
fn is_asking(mark: Option<Mark>, number: Option<u32>) -> bool
    ensures { result ≡ spec.is_asking mark number }
{
    is_request(mark) && number.is_some()
}

/// What the function or the class is bound as that begins by a mark.
pub(crate) fn kind_begun(mark: Option<Mark>) -> Option<BindKind>
    ensures { result ≡ spec.kind_begun mark }
{
    match mark {
        Some(Mark::Begin(Part::Class)) => Some(BindKind::Class),
        Some(Mark::Begin(Part::Function)) => Some(BindKind::Function),
        _ => None,
    }
}

// Whether a mark says that what begins by the next has no name.
fn is_nameless(mark: Option<Mark>, next: Option<Mark>) -> bool
    ensures { result ≡ spec.is_nameless mark next }
{
    matches!(mark, Some(Mark::Unnamed)) && kind_begun(next).is_some()
}

/// The mark at a place, if there is one.
pub(crate) fn mark_at(outlined: &Outlined<'_>, place: usize) -> Option<Mark>
    ensures { result ≡ slice_get outlined.now.marks place }
{
    outlined.marks().get(place).copied()
}

// The number of the request that a place asks for.
fn number_at(asked: &Asked, place: u32) -> Option<u32>
    ensures { result ≡ spec.told_in asked.now.numbers.items place }
{
    match asked.numbers.get(place as usize) {
        Some(number) => *number,
        None => None,
    }
}

// The number of the request that stands in the part, if one asks for something.
fn request_by(asking: &Noted, asked: &Asked, part: Option<u32>) -> Option<u32>
    ensures { result ≡ spec.request_by asking.now asked.now.numbers.items part }
{
    let at = asking.place_in(part?)?;
    number_at(asked, at)
}

impl Inside {
    /// What stands in the parts of a text.
    pub fn new(
        alloc: Global,
        outlined: &Outlined<'_>,
        enclosing: &Enclosing,
        asked: &Asked,
    ) -> Result<Inside, AllocError>
        requires short { length outlined.now.marks + 2 < 2 ^ 32 }
        requires enclosing { AreAround outlined.now.marks enclosing.now }
        requires asked { AreAsked outlined.now asked.now }
        ensures { IfOk result (spec.AreStanding outlined.now) }
    {
        let count = outlined.marks().len();
        let mut requests = Noted::new(alloc, count)?;
        let mut asking = Noted::new(alloc, count)?;
        let mut nameless = Noted::new(alloc, count)?;
        for place in 0..count as u32 {
            let part = enclosing.around(place).part;
            let mark = mark_at(outlined, place as usize);
            let next = mark_at(outlined, place as usize + 1);
            requests.note(part, is_request(mark), place);
            asking.note(part, is_asking(mark, number_at(asked, place)), place);
            nameless.note(part, is_nameless(mark, next), place);
        }
        Ok(Inside {
            requests,
            asking,
            nameless,
        })
    }

    /// A request that stands directly in the part that begins at a place.
    pub fn request_in(&self, opening: u32) -> Option<u32>
        ensures { result ≡ spec.told_in self.now.requests opening }
    {
        self.requests.place_in(opening)
    }

    /// The mark directly in the part that begins at a place which says that a function or a class has no name.
    pub fn nameless_in(&self, opening: u32) -> Option<u32>
        ensures { result ≡ spec.told_in self.now.nameless opening }
    {
        self.nameless.place_in(opening)
    }

    /// The number of the request of the declaration that the place stands directly in, if it has one.
    pub fn request_of(&self, enclosing: &Enclosing, asked: &Asked, place: u32) -> Option<u32>
        requires { place < length enclosing.now }
        ensures { (source : Source) → AreAround source.marks enclosing.now → AreAsked source asked.now
            → spec.AreStanding source self.now → spec.IsRequestNumber source asked.now.requests place result }
    {
        request_by(&self.asking, asked, enclosing.around(place).part)
    }
}
