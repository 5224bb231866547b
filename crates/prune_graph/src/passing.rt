// How exported names are passed on.
ghost use Rattle.std.specs.Prelude.{◌≡◌, ◌≢◌, ◌⊎◌, ◌↔◌, ◌<◌, ℕ, true, false, length, slice_get, Some, None, IfOk};
ghost use Rattle.std.specs.List.{Contains};
ghost use Rattle.pk_types.specs.declared.graph.Row.{Row};
ghost use Rattle.pk_types.specs.declared.found.Found.TheVariants.{Nothing, Ambiguous};
ghost use Rattle.pk_types.specs.Reexports.{IsFoundThrough};
ghost use Rattle.pk_types.specs.Resolving.{origin_of};
ghost use Rattle.prune_graph.specs.PassingOn.{IsPassedBy};

use export_names::Resolver;
use pk_types::{Found, Kind, Name, Origin};
use std::alloc::{AllocError, Global};
use stop_search::found_through;

/// How an exported name is passed on.
#[derive(Drop)]
pub enum Passing<'a> {
    /// The name is the module's own.
    Nowhere,

    /// To a name of what a request leads to.
    Name(u32, &'a Name),

    /// To the namespace of what a request leads to.
    Space(u32),

    /// To the same name of what these stars lead to.
    Stars(Vec<u32>),
}

// Whether something was found, and only one thing.
fn is_one(found: &Found) -> bool
    ensures one { result ≡ true → (found.now ≢ Nothing) × (found.now ≢ Ambiguous) }
    ensures none { result ≡ false → (found.now ≡ Nothing) ⊎ (found.now ≡ Ambiguous) }
{
    !matches!(found, Found::Nothing | Found::Ambiguous)
}

// The stars through which a name is found that a module has no export of.
fn stars(
    alloc: Global,
    resolver: &mut Resolver<'_>,
    module: u32,
    exported: &Name,
) -> Result<Vec<u32>, AllocError>
    requires module { «module» < length resolver.old.rows }
    requires none { (row : Row) → slice_get resolver.old.rows «module» ≡ Some row → origin_of row.facts exported.now ≡ None }
    ensures stars { IfOk result (λ stars. (row : Row) → slice_get resolver.old.rows «module» ≡ Some row
        → (star : ℕ) → Contains stars.items star ↔ IsFoundThrough resolver.old «module» row exported.now star) }
    ensures same { resolver.new ≡ resolver.old }
{
    if resolver.row(module).facts.kind != Kind::Es {
        return Ok(Vec::new(alloc));
    }
    let found = resolver.resolve(alloc, module, exported)?;
    if !is_one(&found) {
        return Ok(Vec::new(alloc));
    }
    let stars = found_through(alloc, resolver, module, exported, &found)?;
    Ok(stars)
}

/// How an exported name of a module is passed on. A name that leads to nothing, or to several things, is passed on by no
/// star.
pub fn passing_of<'a>(
    alloc: Global,
    resolver: &mut Resolver<'a>,
    module: u32,
    exported: &Name,
) -> Result<Passing<'a>, AllocError>
    requires { «module» < length resolver.old.rows }
    ensures passed { IfOk result (λ passing. (row : Row) → slice_get resolver.old.rows «module» ≡ Some row
        → IsPassedBy resolver.old «module» row exported.now passing) }
    ensures same { resolver.new ≡ resolver.old }
{
    match resolver.origin(alloc, module, exported.as_slice())? {
        Some(Origin::Own(_)) => Ok(Passing::Nowhere),
        Some(Origin::Other(request, name)) => Ok(Passing::Name(*request, name)),
        Some(Origin::Space(request)) => Ok(Passing::Space(*request)),
        None => {
            let stars = stars(alloc, resolver, module, exported)?;
            Ok(Passing::Stars(stars))
        }
    }
}
