//! What is told of a text by the tables of the crates below.
ghost use Rattle.std.specs.Prelude.{◌≡◌, ◌<◌, length};
ghost use Rattle.es_sites.specs.Tables as told;
ghost use Rattle.es_touches.specs.Told as spec;

use es_parts::{Binders, Enclosing};
use es_scope::{Outlined, Scopes};
use pk_types::Binding;
use std::marker::Model;

/// A text and its tables, and the numbers of bindings: by the numbers of their names, and of that without a name.
#[derive(Drop)]
pub(crate) struct Tables<'a, 't> {
    pub outlined: &'a Outlined<'t>,
    pub bindings: &'a [Binding],
    pub scopes: Scopes,
    pub enclosing: Enclosing,
    pub binders: Binders,
    pub numbers: Vec<Option<u32>>,
    pub default: Option<u32>,
}

impl<'a, 't> Model for Tables<'a, 't> {
    ghost use Rattle.es_touches.specs.Told.{Tables};

    ghost Value = { Tables };

    ghost view = { λ tables. record {
      source = tables.outlined.now;
      bindings = tables.bindings.now;
      told = tables.scopes;
      around = tables.enclosing;
      binders = tables.binders;
      numbers = tables.numbers.items;
      default = tables.default;
    } };
}

/// The number at a place, if there is one.
pub(crate) fn entry(table: &[Option<u32>], place: u32) -> Option<u32>
    ensures { result ≡ told.entry table.now place }
{
    match table.get(place as usize) {
        Some(found) => *found,
        None => None,
    }
}

impl<'a, 't> Tables<'a, 't> {
    /// The innermost part around a place.
    pub fn part_around(&self, place: u32) -> Option<u32>
        requires whole { length self.now.around ≡ length self.now.source.marks }
        requires place { place < length self.now.source.marks }
        ensures { result ≡ told.part_around self.now.around place }
    {
        self.enclosing.around(place).part
    }

    /// The innermost pattern around a place.
    pub fn pattern_around(&self, place: u32) -> Option<u32>
        requires whole { length self.now.around ≡ length self.now.source.marks }
        requires place { place < length self.now.source.marks }
        ensures { result ≡ told.pattern_around self.now.around place }
    {
        self.enclosing.around(place).pattern
    }

    /// The part that binds at a place.
    pub fn binder(&self, place: u32) -> Option<u32>
        requires whole { length self.now.binders ≡ length self.now.source.marks }
        requires place { place < length self.now.source.marks }
        ensures { result ≡ told.entry self.now.binders place }
    {
        self.binders.binder(place)
    }

    // The binding that has the name at a place.
    fn number_of(&self, place: u32) -> Option<u32>
        ensures { result ≡ spec.number_of self.now place }
    {
        let number = self.scopes.number_at(place)?;
        entry(self.numbers.as_slice(), number)
    }

    /// The binding of the top that the name at a place refers to.
    pub fn own_at(&self, place: u32) -> Option<u32>
        ensures { result ≡ spec.own_at self.now place }
    {
        let declared = self.scopes.declared_by(place)?;
        if declared.scope == 0 {
            self.number_of(place)
        } else {
            None
        }
    }
}
