// The stars of a module through which a name is found.
ghost use Rattle.std.specs.Prelude.{◌≡◌, ◌↔◌, true, Some, ℕ, ◌<◌, ◌≤◌, length, slice_get, IfOk};
ghost use Rattle.std.specs.List.{Contains};
ghost use Rattle.std.specs.List.Sorted.{IsStrictlyIncreasing};
ghost use Rattle.pk_types.specs.declared.graph.Row.{Row};
ghost use Rattle.pk_types.specs.Places.{ArePlacesIn, IsShort};
ghost use Rattle.pk_types.specs.Reexports.{FindsOne};
ghost use Rattle.pk_types.specs.StopSearch.{AreFoundThrough};
ghost use Rattle.stop_search.specs.Ways.{IsBare, LeadsThere, StarLeads};

use export_names::{Resolver, is_same};
use pk_types::{Found, Kind, Name};
use std::alloc::{AllocError, Global};

// Whether a module of ECMAScript stands here whose name leads to what is found.
fn leads_there(
    alloc: Global,
    resolver: &mut Resolver<'_>,
    module: u32,
    name: &Name,
    found: &Found,
) -> Result<bool, AllocError>
    requires { «module» < length resolver.old.rows }
    ensures leads { IfOk result (λ leads. (leads ≡ true) ↔ LeadsThere resolver.old «module» name.now found.now) }
    ensures same { resolver.new ≡ resolver.old }
{
    if resolver.row(module).facts.kind != Kind::Es {
        return Ok(false);
    }
    let there = resolver.resolve(alloc, module, name)?;
    Ok(is_same(&there, found))
}

// Those of the stars that lead to what is found.
fn leading(
    alloc: Global,
    resolver: &mut Resolver<'_>,
    targets: &[u32],
    stars: &[u32],
    name: &Name,
    found: &Found,
) -> Result<Vec<u32>, AllocError>
    requires places { ArePlacesIn targets.now stars.now }
    requires targets { ArePlacesIn resolver.old.rows targets.now }
    ensures each { IfOk result (λ leading. (star : ℕ) → Contains leading.items star ↔ (Contains stars.now star × StarLeads resolver.old targets.now name.now found.now star)) }
    ensures few { IfOk result (λ leading. length leading.items ≤ length stars.now) }
    ensures same { resolver.new ≡ resolver.old }
{
    let mut leading = Vec::new(alloc);
    for star in stars {
        if leads_there(alloc, resolver, targets[*star as usize], name, found)? {
            leading.push(*star)?;
        }
    }
    Ok(leading)
}

// Puts requests in order, each once.
fn put_in_order(requests: &mut Vec<u32>)
    ensures rises { IsStrictlyIncreasing requests.new.items }
    ensures each { (request : ℕ) → Contains requests.new.items request ↔ Contains requests.old.items request }
    ensures few { length requests.new.items ≤ length requests.old.items }
{
    requests.sort_unstable();
    requests.dedup();
}

/// The stars through which a name of a module is found that has no export of it, in the order of requests. A single star
/// is the one.
pub fn found_through(
    alloc: Global,
    resolver: &mut Resolver<'_>,
    module: u32,
    name: &Name,
    found: &Found,
) -> Result<Vec<u32>, AllocError>
    requires bare { IsBare resolver.old «module» name.now }
    requires found { FindsOne resolver.old «module» name.now found.now }
    ensures through { IfOk result (λ stars. (row : Row) → slice_get resolver.old.rows «module» ≡ Some row → AreFoundThrough resolver.old «module» row name.now stars.items) }
    ensures few { IfOk result (λ stars. IsShort stars.items) }
    ensures same { resolver.new ≡ resolver.old }
{
    let row = resolver.row(module);
    let stars = row.facts.stars.as_slice();
    if stars.len() == 1 {
        let only = Vec::from_slice(alloc, stars)?;
        return Ok(only);
    }
    let mut through = leading(alloc, resolver, row.targets.as_slice(), stars, name, found)?;
    put_in_order(&mut through);
    Ok(through)
}
