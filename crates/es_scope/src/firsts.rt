//! The first declarations of names in scopes.
ghost use Rattle.std.specs.Prelude.{◌≡◌, ◌<◌, ◌^◌, ◌+◌, ◌∷◌, [], length, slice_get, IfOk, OnOk, Some};
ghost use Rattle.std.specs.Option.{option_map};
ghost use Rattle.es_scope.specs.Firsts as spec;
ghost use Rattle.es_scope.specs.Frames.{frame_at, owners};
ghost use Rattle.es_scope.specs.Named.{AreNumbered, IsArguments};

use crate::declared::declared;
use crate::found::First;
use crate::frame::Frame;
use crate::kinds::DeclarationKind;
use crate::names::Names;
use crate::open_parts::OpenParts;
use crate::outlined::Outlined;
use es_outline::{Mark, Part};
use indexmap::IndexMap;
use std::alloc::{AllocError, Global};
use std::marker::Model;

/// For scopes and numbers of names the places that were told first.
#[derive(Drop)]
pub(crate) struct Firsts {
    places: IndexMap<(u32, u32), u32>,
}

impl Model for Firsts {
    ghost use Rattle.es_scope.specs.Firsts.{Entries};

    ghost Value = { Entries };

    ghost view = { λ firsts. firsts.places.entries };
}

impl Firsts {
    /// Nothing is told.
    pub fn new(alloc: Global) -> Firsts
        ensures { result ≡ [] }
    {
        Firsts {
            places: IndexMap::new(alloc),
        }
    }

    /// How many places are told.
    pub fn len(&self) -> usize
        ensures { result ≡ length self.now }
    {
        self.places.len()
    }

    /// What is told, by its index.
    pub fn at(&self, index: usize) -> Option<First>
        ensures { option_map spec.entry_of result ≡ slice_get self.now index }
    {
        let (key, place) = self.places.get_index(index)?;
        Some(First {
            scope: key.0,
            number: key.1,
            place: *place,
        })
    }

    /// What is told of a scope and the number of a name.
    pub fn told(&self, scope: u32, number: u32) -> Option<u32>
        ensures { result ≡ spec.told self.now scope number }
    {
        self.places.get(&(scope, number)).copied()
    }

    /// Tells the place, unless another was told before.
    pub fn tell(&mut self, scope: u32, number: u32, place: u32) -> Result<(), AllocError>
        ensures { OnOk result (spec.Tells ((scope, number) ∷ []) place self.old self.new) }
    {
        if self.told(scope, number).is_none() {
            self.places.insert((scope, number), place)?;
        }
        Ok(())
    }
}

// Tells where a name is declared: in its scope, and a class also within itself.
fn tell_owners(
    firsts: &mut Firsts,
    how: DeclarationKind,
    frame: Frame,
    number: u32,
    place: u32,
) -> Result<(), AllocError>
    requires { place + 2 < 2 ^ 32 }
    ensures { OnOk result (spec.Tells (spec.keys_of number (owners place frame (Some how))) place firsts.old firsts.new) }
{
    match how {
        DeclarationKind::Var => firsts.tell(frame.var_scope, number, place),
        DeclarationKind::Class => {
            firsts.tell(frame.scope, number, place)?;
            firsts.tell(place + 2, number, place)
        }
        _ => firsts.tell(frame.scope, number, place),
    }
}

// Tells what the mark at the place declares, within this frame.
fn tell_declared(
    firsts: &mut Firsts,
    outlined: &Outlined<'_>,
    names: &Names,
    frame: Frame,
    place: u32,
) -> Result<(), AllocError>
    requires place { place < length outlined.now.marks }
    requires short { length outlined.now.marks + 2 < 2 ^ 32 }
    requires numbers { length names.now.numbers.items ≡ length outlined.now.marks }
    requires frame { frame ≡ frame_at outlined.now place }
    ensures { OnOk result (spec.Tells (spec.given_numbers outlined.now names.now.numbers.items names.now.arguments place) place firsts.old firsts.new) }
{
    let mark = outlined.marks()[place as usize];
    if let Mark::Begin(Part::Function) = mark {
        return firsts.tell(place + 1, names.arguments, place);
    }
    match declared(outlined, mark, frame) {
        Some(how) => tell_owners(firsts, how, frame, names.numbers[place as usize], place),
        None => Ok(()),
    }
}

/// The first declarations of the names of a text.
pub(crate) fn first_places(
    alloc: Global,
    outlined: &Outlined<'_>,
    names: &Names,
) -> Result<Firsts, AllocError>
    requires short { length outlined.now.marks + 2 < 2 ^ 32 }
    requires numbered { AreNumbered outlined.now names.now.texts names.now.numbers.items }
    requires arguments { IsArguments names.now.texts names.now.arguments }
    ensures firsts { IfOk result (λ firsts. spec.AreFirst outlined.now names.now.texts (length outlined.now.marks) (spec.told firsts)) }
    ensures named { IfOk result (λ firsts. spec.AreNamed names.now.texts (spec.told firsts)) }
{
    let mut open = OpenParts::new(alloc);
    let mut firsts = Firsts::new(alloc);
    for (place, mark) in outlined.marks().iter().enumerate() {
        tell_declared(&mut firsts, outlined, names, open.innermost(), place as u32)?;
        open.pass(*mark, place as u32)?;
    }
    Ok(firsts)
}
