//! The imports of a text, with their numbers.
ghost use Rattle.std.specs.Prelude.{◌≡◌, ◌<◌, ◌^◌, ◌+◌, [], length, IfOk, OnOk};
ghost use Rattle.es_parts.specs.Around.{AreAround};
ghost use Rattle.es_asks.specs.Numbering.{AreAsked};
ghost use Rattle.es_declares.specs.Inside.{AreStanding};
ghost use Rattle.es_declares.specs.Importing as spec;

use crate::imported::import_at;
use crate::inside::Inside;
use es_asks::Asked;
use es_parts::Enclosing;
use es_scope::Outlined;
use pk_types::ImportEntry;
use std::alloc::{AllocError, Global};
use std::marker::Model;

/// The imports so far, and of each place so far the number of its own.
#[derive(Drop)]
pub(crate) struct Imports {
    pub(crate) entries: Vec<ImportEntry>,
    pub(crate) numbers: Vec<Option<u32>>,
}

impl Model for Imports {
    ghost use Rattle.es_declares.specs.Importing.{Gathered};

    ghost Value = { Gathered };

    ghost view = { λ imports. record { entries = imports.entries.items; numbers = imports.numbers.items } };
}

impl Imports {
    // No place is passed.
    fn new(alloc: Global) -> Imports
        ensures { result ≡ record { entries = []; numbers = [] } }
    {
        Imports {
            entries: Vec::new(alloc),
            numbers: Vec::new(alloc),
        }
    }

    // Takes what the next place imports.
    fn take(&mut self, entry: Option<ImportEntry>) -> Result<(), AllocError>
        requires { length self.old.entries < 2 ^ 32 }
        ensures { OnOk result (self.new ≡ spec.with_entry self.old entry) }
    {
        let number = self.entries.len() as u32;
        match entry {
            Some(entry) => {
                self.entries.push(entry)?;
                self.numbers.push(Some(number))?;
            }
            None => self.numbers.push(None)?,
        }
        Ok(())
    }
}

/// The imports of a text.
pub(crate) fn all_imports(
    alloc: Global,
    outlined: &Outlined<'_>,
    enclosing: &Enclosing,
    asked: &Asked,
    inside: &Inside,
) -> Result<Imports, AllocError>
    requires short { length outlined.now.marks + 2 < 2 ^ 32 }
    requires enclosing { AreAround outlined.now.marks enclosing.now }
    requires asked { AreAsked outlined.now asked.now }
    requires inside { AreStanding outlined.now inside.now }
    ensures { IfOk result (spec.AreGathered outlined.now asked.now.requests) }
{
    let count = outlined.marks().len();
    let mut imports = Imports::new(alloc);
    for place in 0..count as u32 {
        let entry = import_at(alloc, outlined, enclosing, asked, inside, place)?;
        imports.take(entry)?;
    }
    Ok(imports)
}
