//! Places that are noted of parts.
ghost use Rattle.std.specs.Prelude.{◌≡◌, ◌<◌, ℕ, length, replicate, Option, None, IfOk, IfSome};
ghost use Rattle.es_declares.specs.Inside as spec;

use std::alloc::{AllocError, Global};
use std::marker::Model;

/// Of parts, told by where they begin, each with the place that was noted of it last.
#[derive(Drop)]
pub(crate) struct Noted {
    places: Vec<Option<u32>>,
}

impl Model for Noted {
    ghost use Rattle.std.specs.Prelude.{ℕ, List, Option};

    ghost Value = { List (Option ℕ) };

    ghost view = { λ noted. noted.places.items };
}

impl Noted {
    /// Nothing is noted of the parts of so many marks.
    pub fn new(alloc: Global, count: usize) -> Result<Noted, AllocError>
        ensures { IfOk result (λ noted. noted ≡ replicate count None) }
    {
        let places = vec![in alloc; None; count]?;
        Ok(Noted { places })
    }

    /// Notes the place of the part if it is so.
    pub fn note(&mut self, part: Option<u32>, is_so: bool, place: u32)
        requires { IfSome part (λ opening. opening < length self.old) }
        ensures { self.new ≡ spec.noted part is_so place self.old }
    {
        if let Some(opening) = part {
            if is_so {
                self.places[opening as usize] = Some(place);
            }
        }
    }

    /// What is noted of the part that begins at a place.
    pub fn place_in(&self, opening: u32) -> Option<u32>
        ensures { result ≡ spec.told_in self.now opening }
    {
        match self.places.get(opening as usize) {
            Some(place) => *place,
            None => None,
        }
    }
}
