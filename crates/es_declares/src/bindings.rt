//! The bindings of a text, with their numbers.
ghost use Rattle.std.specs.Prelude.{◌≡◌, ◌<◌, ◌^◌, ◌+◌, [], None, length, replicate, IfOk, OnOk};
ghost use Rattle.es_scope.specs.Telling.{AreScopes};
ghost use Rattle.es_parts.specs.Binding.{AreBinders};
ghost use Rattle.es_declares.specs.Inside.{AreStanding};
ghost use Rattle.es_declares.specs.Binds as spec;

use crate::bound::binding_at;
use crate::inside::Inside;
use es_parts::Binders;
use es_scope::{Outlined, Scopes};
use pk_types::Binding;
use std::alloc::{AllocError, Global};
use std::marker::Model;

/// The bindings so far; the number of that of each name, by the number of the name; and of the binding that is named as what
/// has no name.
#[derive(Drop)]
pub(crate) struct Bindings {
    pub(crate) items: Vec<Binding>,
    pub(crate) numbers: Vec<Option<u32>>,
    pub(crate) default: Option<u32>,
}

impl Model for Bindings {
    ghost use Rattle.es_declares.specs.Binds.{Bound};

    ghost Value = { Bound };

    ghost view = { λ bindings. record {
      items = bindings.items.items;
      numbers = bindings.numbers.items;
      default = bindings.default;
    } };
}

impl Bindings {
    // No binding, of so many names.
    fn new(alloc: Global, names: usize) -> Result<Bindings, AllocError>
        ensures { IfOk result (λ bindings. bindings ≡ record { items = []; numbers = replicate names None; default = None }) }
    {
        let numbers = vec![in alloc; None; names]?;
        Ok(Bindings {
            items: Vec::new(alloc),
            numbers,
            default: None,
        })
    }

    // Notes the number for the name.
    fn note(&mut self, scopes: &Scopes, name: &[u8], number: u32)
        requires { length self.old.numbers ≡ length scopes.now.texts }
        ensures { self.new ≡ spec.with_number scopes.now.texts self.old name.now number }
    {
        if let Some(at) = scopes.number_of(name) {
            self.numbers[at as usize] = Some(number);
        }
        if name == b"__webpack_default".as_slice() {
            self.default = Some(number);
        }
    }

    // Takes what the next place binds.
    fn take(&mut self, scopes: &Scopes, binding: Option<Binding>) -> Result<(), AllocError>
        requires names { length self.old.numbers ≡ length scopes.now.texts }
        requires few { length self.old.items < 2 ^ 32 }
        ensures { OnOk result (self.new ≡ spec.with_binding scopes.now.texts self.old binding) }
    {
        let Some(binding) = binding else {
            return Ok(());
        };
        let number = self.items.len() as u32;
        self.note(scopes, binding.name.as_slice(), number);
        self.items.push(binding)?;
        Ok(())
    }
}

/// The bindings of a text.
pub(crate) fn all_bindings(
    alloc: Global,
    outlined: &Outlined<'_>,
    scopes: &Scopes,
    binders: &Binders,
    inside: &Inside,
) -> Result<Bindings, AllocError>
    requires short { length outlined.now.marks + 2 < 2 ^ 32 }
    requires scopes { AreScopes outlined.now scopes.now }
    requires binders { AreBinders outlined.now.marks binders.now }
    requires inside { AreStanding outlined.now inside.now }
    ensures { IfOk result (spec.AreBound outlined.now scopes.now.texts) }
{
    let count = outlined.marks().len();
    let mut bindings = Bindings::new(alloc, scopes.names_len())?;
    for place in 0..count as u32 {
        let binding = binding_at(alloc, outlined, scopes, binders, inside, place)?;
        bindings.take(scopes, binding)?;
    }
    Ok(bindings)
}
