//! Places that are noted of parts.
ghost use Rattle.std.specs.Prelude.{◌≡◌, [], OnOk};
ghost use Rattle.es_exports.specs.Entries as spec;

use indexmap::IndexMap;
use std::alloc::{AllocError, Global};
use std::marker::Model;

/// For some parts, told by the places where they begin, a place.
#[derive(Drop)]
pub(crate) struct Noted {
    places: IndexMap<u32, u32>,
}

impl Model for Noted {
    ghost use Rattle.es_exports.specs.Entries.{Entries};

    ghost Value = { Entries };

    ghost view = { λ noted. noted.places.entries };
}

impl Noted {
    /// Nothing is noted. It takes no memory.
    pub(crate) fn new(alloc: Global) -> Noted
        ensures { result ≡ [] }
    {
        Noted {
            places: IndexMap::new(alloc),
        }
    }

    /// The place that is noted of a part.
    pub(crate) fn at(&self, part: u32) -> Option<u32>
        ensures { result ≡ spec.at self.now part }
    {
        self.places.get(&part).copied()
    }

    /// Notes a place of a part, if there is one.
    pub(crate) fn note(&mut self, part: Option<u32>, place: u32) -> Result<(), AllocError>
        ensures { OnOk result (spec.Notes part place self.old self.new) }
    {
        if let Some(part) = part {
            self.places.insert(part, place)?;
        }
        Ok(())
    }
}
