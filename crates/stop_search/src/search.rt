// The search for the stops of a name.
ghost use Rattle.std.specs.Prelude.{◌≡◌, ◌≢◌, ◌⊎◌, true, false, ◌<◌, ℕ, length, IfOk, OnOk, ◌++◌};
ghost use Rattle.pk_types.specs.declared.found.Found.TheVariants.{Nothing, Ambiguous};
ghost use Rattle.pk_types.specs.Places.{ArePlacesIn};
ghost use Rattle.pk_types.specs.Reexports.{FindsOne};
ghost use Rattle.pk_types.specs.StopSearch.{HasStops};
ghost use Rattle.stop_search.specs.Searching.{Follows, asks, stack_of};

use crate::asked::Asked;
use crate::stars::found_through;
use crate::way::{Way, way_of};
use export_names::Resolver;
use indexmap::IndexSet;
use pk_types::{Found, Key, Name};
use std::alloc::{AllocError, Global};

// Lets the targets of stars wait that are to be asked for a name, that of the first star on top.
fn ask_later<'a>(
    waiting: &mut Vec<Asked<'a>>,
    targets: &[u32],
    mut stars: Vec<u32>,
    name: &'a Name,
) -> Result<(), AllocError>
    requires { ArePlacesIn targets.now stars.items }
    ensures { OnOk result (asks waiting.new.items ≡ asks waiting.old.items ++ stack_of targets.now name.now stars.items) }
{
    while let Some(star) = stars.pop() {
        waiting.push(Asked {
            number: targets[star as usize],
            name,
        })?;
    }
    Ok(())
}

// Follows a name from a module that is asked for it for the first time: to a stop, or to what waits then.
fn follow<'a, 'g: 'a>(
    alloc: Global,
    resolver: &mut Resolver<'g>,
    asked: Asked<'a>,
    found: &Found,
    waiting: &mut Vec<Asked<'a>>,
    stops: &mut Vec<u32>,
) -> Result<(), AllocError>
    requires module { asked.number < length resolver.old.rows }
    requires found { FindsOne resolver.old asked.number asked.name.now found.now }
    ensures follows { OnOk result (Follows resolver.old found.now (asked.entry.number, asked.entry.name.now) (asks waiting.old.items) (asks waiting.new.items) stops.old.items stops.new.items) }
    ensures same { resolver.new ≡ resolver.old }
{
    match way_of(alloc, resolver, asked.number, asked.name)? {
        Way::Ends(stop) => stops.push(stop)?,
        Way::Passes(behind) => waiting.push(behind)?,
        Way::Stars => {
            let stars = found_through(alloc, resolver, asked.number, asked.name, found)?;
            let targets = resolver.row(asked.number).targets.as_slice();
            ask_later(waiting, targets, stars, asked.name)?;
        }
    }
    Ok(())
}

// Whether something was found, and only one thing.
fn is_one(found: &Found) -> bool
    ensures one { result ≡ true → (found.now ≢ Nothing) × (found.now ≢ Ambiguous) }
    ensures none { result ≡ false → (found.now ≡ Nothing) ⊎ (found.now ≡ Ambiguous) }
{
    !matches!(found, Found::Nothing | Found::Ambiguous)
}

// The stops of a name of a module that leads to one thing, in order.
fn follow_all(
    alloc: Global,
    resolver: &mut Resolver<'_>,
    module: u32,
    name: &Name,
    found: &Found,
) -> Result<Vec<u32>, AllocError>
    requires module { «module» < length resolver.old.rows }
    requires found { FindsOne resolver.old «module» name.now found.now }
    ensures stops { IfOk result (λ stops. HasStops resolver.old «module» name.now stops.items) }
    ensures same { resolver.new ≡ resolver.old }
{
    let mut stops = Vec::new(alloc);
    let mut visited = IndexSet::new(alloc);
    let mut waiting = Vec::new(alloc);
    waiting.push(Asked {
        number: module,
        name,
    })?;
    while let Some(asked) = waiting.pop() {
        let is_first = visited.insert((asked.number, Key(asked.name.as_slice())))?;
        if is_first {
            follow(alloc, resolver, asked, found, &mut waiting, &mut stops)?;
        }
    }
    Ok(stops)
}

/// The stops of a name of a module, in order: the modules at which it ends when it is followed from there through modules
/// without side effects. A name that leads to nothing, or to several things, has none.
pub fn stops(
    alloc: Global,
    resolver: &mut Resolver<'_>,
    module: u32,
    name: &Name,
) -> Result<Vec<u32>, AllocError>
    requires { «module» < length resolver.old.rows }
    ensures stops { IfOk result (λ stops. HasStops resolver.old «module» name.now stops.items) }
    ensures same { resolver.new ≡ resolver.old }
{
    let found = resolver.resolve(alloc, module, name)?;
    if !is_one(&found) {
        return Ok(Vec::new(alloc));
    }
    let stops = follow_all(alloc, resolver, module, name, &found)?;
    Ok(stops)
}
