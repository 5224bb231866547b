// Which namespaces are asked for.
ghost use Rattle.std.specs.Prelude.{◌≡◌, ◌↔◌, ◌<◌, ◌^◌, IsTrue, ℕ, Some, true, length, slice_get, IfOk, OnOk};
ghost use Rattle.pk_types.specs.declared.facts.Kind.TheVariants.{Es};
ghost use Rattle.pk_types.specs.Resolving.{kind_at};
ghost use Rattle.module_spelling.specs.Layout.{LayoutFits, root_of};
ghost use Rattle.scope_getters.specs.Gaining.{AreCalled, AreSpaces, Gains, CallsFor};
ghost use Rattle.scope_getters.specs.Scopes.{HasSpace, IsAsked};

use indexmap::IndexSet;
use module_spelling::Speller;
use pk_types::{Active, Kind, Used};
use prune_graph::meet_called;
use std::alloc::{AllocError, Global};

// Adds the modules that a module calls for, if it is reached.
fn add_called(
    called: &mut IndexSet<u32>,
    speller: &Speller<'_>,
    active: &Active,
    from: u32,
) -> Result<(), AllocError>
    requires from { from < length speller.now.graph.rows }
    requires each { length active.now.reached ≡ length speller.now.graph.rows }
    ensures { OnOk result (Gains called.old.keys
        (CallsFor speller.now.graph active.now from) called.new.keys) }
{
    if active.reached.as_slice()[from as usize] {
        meet_called(called, speller.row(from))?;
    }
    Ok(())
}

// The modules that reached modules call for, by `require` and by `import()`.
fn called_modules(
    alloc: Global,
    speller: &Speller<'_>,
    active: &Active,
) -> Result<IndexSet<u32>, AllocError>
    requires { length active.now.reached ≡ length speller.now.graph.rows }
    ensures { IfOk result (λ called. AreCalled speller.now.graph active.now called.keys) }
{
    let mut called = IndexSet::new(alloc);
    let count = speller.graph().rows.len();
    for from in 0..count {
        add_called(&mut called, speller, active, from as u32)?;
    }
    Ok(called)
}

// Whether the namespace of a module is asked for.
fn is_asked(
    called: &IndexSet<u32>,
    speller: &Speller<'_>,
    active: &Active,
    used: &Used,
    number: u32,
) -> bool
    requires called { AreCalled speller.now.graph active.now called.now.keys }
    requires number { number < length used.now.whole }
    ensures { IsTrue result ↔ IsAsked speller.now.graph active.now used.now number }
{
    used.whole.as_slice()[number as usize] || called.contains(&number)
}

// Whether a module is one of ECMAScript and the root of its set.
fn is_scope(speller: &Speller<'_>, number: u32) -> bool
    requires { number < length speller.now.graph.rows }
    ensures { IsTrue result
        ↔ ((kind_at speller.now.graph number ≡ Some Es) × (root_of speller.now number ≡ number)) }
{
    speller.row(number).facts.kind == Kind::Es && speller.root(number) == number
}

// Whether the namespace of a module has a list.
fn has_space(
    called: &IndexSet<u32>,
    speller: &Speller<'_>,
    active: &Active,
    used: &Used,
    number: u32,
) -> bool
    requires called { AreCalled speller.now.graph active.now called.now.keys }
    requires number { number < length speller.now.graph.rows }
    requires each { length used.now.whole ≡ length speller.now.graph.rows }
    ensures { IsTrue result ↔ HasSpace speller.now active.now used.now number }
{
    is_scope(speller, number) && is_asked(called, speller, active, used, number)
}

/// For each module whether its namespace has a list.
pub fn spaces(
    alloc: Global,
    speller: &Speller<'_>,
    active: &Active,
    used: &Used,
) -> Result<Vec<bool>, AllocError>
    requires each_reached { length active.now.reached ≡ length speller.now.graph.rows }
    requires each_whole { length used.now.whole ≡ length speller.now.graph.rows }
    ensures { IfOk result (λ spaces. AreSpaces speller.now active.now used.now spaces.items) }
{
    let called = called_modules(alloc, speller, active)?;
    let count = speller.graph().rows.len();
    let mut spaces = Vec::with_capacity(alloc, count)?;
    for number in 0..count {
        spaces.push(has_space(&called, speller, active, used, number as u32))?;
    }
    Ok(spaces)
}
