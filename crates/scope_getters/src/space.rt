// The getters of a namespace.
ghost use Rattle.std.specs.Prelude.{◌≡◌, ◌≢◌, ◌↔◌, ◌<◌, IsTrue, length, IfOk, OnOk};
ghost use Rattle.pk_types.specs.declared.found.Found.TheVariants.{Nothing, Ambiguous};
ghost use Rattle.scope_getters.specs.Gaining.{AddsGetter, AreListed};
ghost use Rattle.scope_getters.specs.Scopes.{AreGetters};

use emit_body::Getter;
use export_names::names;
use module_spelling::Speller;
use pk_types::{Found, Name, Sequence, Text};
use std::alloc::{AllocError, Global};

// Whether a name leads to one thing.
fn is_one(found: &Found) -> bool
    ensures { IsTrue result ↔ ((found.now ≢ Nothing) × (found.now ≢ Ambiguous)) }
{
    match found {
        Found::Nothing | Found::Ambiguous => false,
        _ => true,
    }
}

// Adds the getter of a name, if it leads to one thing.
fn add_getter(
    alloc: Global,
    getters: &mut Vec<Getter>,
    speller: &mut Speller<'_>,
    root: u32,
    name: &Name,
) -> Result<(), AllocError>
    requires { root < length speller.old.graph.rows }
    ensures adds { OnOk result (AddsGetter speller.old root name.now getters.old.items getters.new.items) }
    ensures same { speller.new ≡ speller.old }
{
    let found = speller.resolve(alloc, root, name)?;
    if is_one(&found) {
        let name = Text::from_slice(alloc, name.as_slice())?;
        let spelling = speller.found_text(alloc, root, &found)?;
        getters.push(Getter { name, spelling })?;
    }
    Ok(())
}

// The getters of the namespace of a root.
fn getters_of(
    alloc: Global,
    speller: &mut Speller<'_>,
    root: u32,
) -> Result<Vec<Getter>, AllocError>
    requires { root < length speller.old.graph.rows }
    ensures getters { IfOk result (λ getters. AreGetters speller.old root getters.items) }
    ensures same { speller.new ≡ speller.old }
{
    let names = names(alloc, speller.graph(), root)?;
    let mut getters = Vec::new(alloc);
    for name in names.as_slice() {
        add_getter(alloc, &mut getters, speller, root, name)?;
    }
    Ok(getters)
}

/// The getters of the namespace of a module, if it has a list.
pub fn space(
    alloc: Global,
    speller: &mut Speller<'_>,
    spaces: &[bool],
    root: u32,
) -> Result<Option<Sequence<Getter>>, AllocError>
    requires root { root < length speller.old.graph.rows }
    requires each { length spaces.now ≡ length speller.old.graph.rows }
    ensures space { IfOk result (AreListed speller.old spaces.now root) }
    ensures same { speller.new ≡ speller.old }
{
    if !spaces[root as usize] {
        return Ok(None);
    }
    let getters = getters_of(alloc, speller, root)?;
    Ok(Some(Sequence::from_vec(getters)))
}
