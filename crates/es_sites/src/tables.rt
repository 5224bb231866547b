//! What is told of a text by the tables of the crates below.
ghost use Rattle.std.specs.Prelude.{◌≡◌, ◌<◌, length, slice_get};
ghost use Rattle.es_sites.specs.Tables as spec;

use crate::inside::Inside;
use es_asks::Asked;
use es_declares::Declarations;
use es_outline::Mark;
use es_parts::Enclosing;
use es_scope::{Outlined, Scopes};
use std::marker::Model;

/// A text and its tables.
#[derive(Drop)]
pub(crate) struct Tables<'a, 't> {
    pub outlined: &'a Outlined<'t>,
    pub scopes: &'a Scopes,
    pub enclosing: &'a Enclosing,
    pub asked: &'a Asked,
    pub declarations: &'a Declarations,
    pub inside: Inside,
}

impl<'a, 't> Model for Tables<'a, 't> {
    ghost use Rattle.es_sites.specs.Tables.{Tables};

    ghost Value = { Tables };

    ghost view = { λ tables. record {
      source = tables.outlined.now;
      told = tables.scopes.now;
      around = tables.enclosing.now;
      asked = tables.asked.now;
      declarations = tables.declarations.now;
      inside = tables.inside;
    } };
}

/// The number at a place, if there is one.
pub(crate) fn entry(table: &[Option<u32>], place: u32) -> Option<u32>
    ensures { result ≡ spec.entry table.now place }
{
    match table.get(place as usize) {
        Some(found) => *found,
        None => None,
    }
}

/// The innermost part around a place.
pub(crate) fn part_around(marks: &[Mark], enclosing: &Enclosing, place: u32) -> Option<u32>
    requires { length enclosing.now ≡ length marks.now }
    ensures { result ≡ spec.part_around enclosing.now place }
{
    if (place as usize) < marks.len() {
        enclosing.around(place).part
    } else {
        None
    }
}

/// The innermost pattern around a place.
pub(crate) fn pattern_around(marks: &[Mark], enclosing: &Enclosing, place: u32) -> Option<u32>
    requires { length enclosing.now ≡ length marks.now }
    ensures { result ≡ spec.pattern_around enclosing.now place }
{
    if (place as usize) < marks.len() {
        enclosing.around(place).pattern
    } else {
        None
    }
}
