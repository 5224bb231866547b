// The steps of a search for what an exported name stands for.
ghost use Rattle.std.specs.Prelude.{◌≡◌, ◌≢◌, ◌↔◌, false, Some, None, IsTrue, ℕ, List, ◌<◌, ◌+◌, ◌++◌, ◌∷◌, [], length, slice_get, IfOk, OnOk, option_copied};
ghost use Rattle.pk_types.specs.Resolving.{default_name, kind_at, origin_of};
ghost use Rattle.pk_types.specs.declared.graph.Row.{Row};
ghost use Rattle.pk_types.specs.declared.facts.Kind.{Kind};
ghost use Rattle.pk_types.specs.declared.facts.Kind.TheVariants.{Es};
ghost use Rattle.export_names.specs.Searching.{Opens, Asks, GoesOn, Joins, StarsFit, pairs};

use crate::found::join;
use crate::resolver::Resolver;
use indexmap::IndexSet;
use pk_types::{Found, Key, Kind, Origin, Text};
use std::alloc::{AllocError, Global};

// The stars of a module that are yet to be asked for a name, with what those before them lead to.
#[derive(Drop)]
pub struct Stars<'a> {
    pub targets: &'a [u32],
    pub name: &'a [u8],
    pub stars: &'a [u32],
    pub so_far: Found,
}

// What a search does next.
#[derive(Drop)]
pub enum Step<'a> {
    // A module is asked for a name.
    Ask(u32, &'a [u8]),

    // The next star is asked.
    Stars(Stars<'a>),

    // The last question is answered.
    Answer(Found),
}

pub fn is_default(name: &[u8]) -> bool
    ensures { IsTrue result ↔ (name.now ≡ default_name) }
{
    name == b"default".as_slice()
}

// How the question for a name goes on whose export comes from here, at a module of ECMAScript that is asked for it for
// the first time.
fn exported<'a, 'g: 'a>(resolver: &Resolver<'g>, module: u32, origin: &'g Origin) -> Step<'a>
    requires module { «module» < length resolver.now.rows }
    requires named { (name : List ℕ) × ((row : Row) → slice_get resolver.now.rows «module» ≡ Some row → origin_of row.facts name ≡ Some origin.now) }
    ensures { (name : List ℕ) → ((row : Row) → slice_get resolver.now.rows «module» ≡ Some row → origin_of row.facts name ≡ Some origin.now)
        → Opens resolver.now «module» name result }
{
    let targets = resolver.row(module).targets.as_slice();
    match origin {
        Origin::Own(binding) => Step::Answer(Found::Binding(module, *binding)),
        Origin::Space(request) => Step::Answer(Found::Namespace(targets[*request as usize])),
        Origin::Other(request, other) => { Step::Ask(targets[*request as usize], other.as_slice()) }
    }
}

// The same where the module has no export of the name.
fn unexported<'a, 'g: 'a>(resolver: &Resolver<'g>, module: u32, name: &'a [u8]) -> Step<'a>
    requires module { «module» < length resolver.now.rows }
    requires none { (row : Row) → slice_get resolver.now.rows «module» ≡ Some row → origin_of row.facts name.now ≡ None }
    ensures { Opens resolver.now «module» name.now result }
{
    if is_default(name) {
        return Step::Answer(Found::Nothing);
    }
    let row = resolver.row(module);
    Step::Stars(Stars {
        targets: row.targets.as_slice(),
        name,
        stars: row.facts.stars.as_slice(),
        so_far: Found::Nothing,
    })
}

// Whether a module is one of ECMAScript.
fn is_es(resolver: &Resolver<'_>, module: u32) -> bool
    requires { «module» < length resolver.now.rows }
    ensures es { IsTrue result → kind_at resolver.now «module» ≡ Some Es }
    ensures other { result ≡ false → (kind : Kind) × (kind_at resolver.now «module» ≡ Some kind) × (kind ≢ Es) }
{
    resolver.row(module).facts.kind == Kind::Es
}

// Asks a module for a name. Visited are the pairs of a module of ECMAScript and a name that were gone through.
pub fn ask<'a, 'g: 'a>(
    alloc: Global,
    resolver: &mut Resolver<'g>,
    visited: &mut IndexSet<(u32, Key<'a>)>,
    module: u32,
    name: &'a [u8],
) -> Result<Step<'a>, AllocError>
    requires { «module» < length resolver.old.rows }
    ensures same { resolver.new ≡ resolver.old }
    ensures asks { IfOk result (Asks resolver.old (pairs visited.old.keys) «module» name.now (pairs visited.new.keys)) }
{
    if !is_es(resolver, module) {
        let name = Text::from_slice(alloc, name)?;
        return Ok(Step::Answer(Found::Foreign(module, name)));
    }
    let is_first = visited.insert((module, Key(name)))?;
    if is_first {
        match resolver.origin(alloc, module, name)? {
            Some(origin) => Ok(exported(resolver, module, origin)),
            None => Ok(unexported(resolver, module, name)),
        }
    } else {
        Ok(Step::Answer(Found::Nothing))
    }
}

// Asks the next star, if one is left. What waits for its answer is kept.
pub fn ask_next<'a>(
    resolver: &Resolver<'_>,
    waiting: &mut Vec<Stars<'a>>,
    stars: Stars<'a>,
) -> Result<Step<'a>, AllocError>
    requires { StarsFit resolver.now stars }
    ensures { IfOk result (GoesOn resolver.now stars.entry waiting.old.items waiting.new.items) }
{
    let Some((&star, rest)) = stars.stars.split_first() else {
        return Ok(Step::Answer(stars.so_far));
    };
    let target = stars.targets[star as usize];
    let left = Stars {
        targets: stars.targets,
        name: stars.name,
        stars: rest,
        so_far: stars.so_far,
    };
    if !is_es(resolver, target) {
        return Ok(Step::Stars(left));
    }
    let name = left.name;
    waiting.push(left)?;
    Ok(Step::Ask(target, name))
}

// Goes on with the stars that waited, once one of them leads to what is found.
pub fn answer<'a>(stars: Stars<'a>, found: Found) -> Step<'a>
    ensures { Joins stars.entry found result }
{
    let so_far = join(stars.so_far, found);
    if let Found::Ambiguous = so_far {
        Step::Answer(so_far)
    } else {
        Step::Stars(Stars {
            targets: stars.targets,
            name: stars.name,
            stars: stars.stars,
            so_far,
        })
    }
}
