//! What the names of a text stand for.
ghost use Rattle.std.specs.Prelude.{◌≡◌, ◌<◌, ◌^◌, ◌+◌, length, slice_get, Some, IfOk};
ghost use Rattle.std.specs.Option.{option_map};
ghost use Rattle.pk_text.specs.Places.{place_of};
ghost use Rattle.es_scope.specs.Firsts as firsts;
ghost use Rattle.es_scope.specs.Telling as spec;

use crate::finding::found_names;
use crate::firsts::{Firsts, first_places};
use crate::found::{Declared, First};
use crate::names::{Names, numbered};
use crate::outlined::Outlined;
use crate::twice::first_twice;
use std::alloc::{AllocError, Global};
use std::marker::Model;

/// What the names of a text stand for: where each scope declares each of its names first, and what each occurrence of a
/// name refers to. Names have numbers; a scope and a declaration are told by places of marks.
#[derive(Drop)]
pub struct Scopes {
    names: Names,
    firsts: Firsts,
    table: Vec<Option<Declared>>,
    twice: Option<u32>,
}

impl Model for Scopes {
    ghost use Rattle.es_scope.specs.Telling.{Told};

    ghost Value = { Told };

    ghost view = { λ scopes. record {
      texts = scopes.names.texts;
      numbers = scopes.names.numbers.items;
      firsts = scopes.firsts;
      table = scopes.table.items;
      twice = scopes.twice;
    } };
}

impl Scopes {
    /// The scopes of a text. Its marks are gone through a few times.
    pub fn new(alloc: Global, outlined: &Outlined<'_>) -> Result<Scopes, AllocError>
        requires { length outlined.now.marks + 2 < 2 ^ 32 }
        ensures { IfOk result (spec.AreScopes outlined.now) }
    {
        let names = numbered(alloc, outlined)?;
        let firsts = first_places(alloc, outlined, &names)?;
        let table = found_names(alloc, outlined, &names, &firsts)?;
        let twice = first_twice(alloc, outlined, &names)?;
        Ok(Scopes {
            names,
            firsts,
            table,
            twice,
        })
    }

    /// What the name at a place refers to; none where it is free, or where no name is.
    pub fn declared_by(&self, occurrence: u32) -> Option<Declared>
        ensures { result ≡ spec.declared_by self.now occurrence }
    {
        match self.table.get(occurrence as usize) {
            Some(found) => *found,
            None => None,
        }
    }

    /// The first place where a name is declared that a scope has already, if the two clash.
    pub fn twice(&self) -> Option<u32>
        ensures { result ≡ self.now.twice }
    {
        self.twice
    }

    /// How many names have numbers.
    pub fn names_len(&self) -> usize
        ensures { result ≡ length self.now.texts }
    {
        self.names.texts.len()
    }

    /// The number of the name at a place; 0 at a mark that is no name.
    pub fn number_at(&self, place: u32) -> Option<u32>
        ensures { result ≡ slice_get self.now.numbers place }
    {
        self.names.numbers.get(place as usize).copied()
    }

    /// The number of a name, if it stands in the text or is `arguments`.
    pub fn number_of(&self, name: &[u8]) -> Option<u32>
        ensures { result ≡ place_of self.now.texts name.now }
    {
        self.names.texts.find(name)
    }

    /// The name of a number.
    pub fn name_of(&self, number: u32) -> &[u8]
        requires { number < length self.now.texts }
        ensures name { slice_get self.now.texts number ≡ Some result.now }
        ensures number { place_of self.now.texts result.now ≡ Some number }
    {
        self.names.texts.text_of(number)
    }

    /// The place where a scope declares the name of a number first, if it does.
    pub fn first(&self, scope: u32, number: u32) -> Option<u32>
        ensures { result ≡ firsts.told self.now.firsts scope number }
    {
        self.firsts.told(scope, number)
    }

    /// How many names scopes declare, where each scope counts its own.
    pub fn len(&self) -> usize
        ensures { result ≡ length self.now.firsts }
    {
        self.firsts.len()
    }

    /// The first declaration of a name in a scope, by an index among all of these.
    pub fn first_at(&self, index: usize) -> Option<First>
        ensures { option_map firsts.entry_of result ≡ slice_get self.now.firsts index }
    {
        self.firsts.at(index)
    }
}
