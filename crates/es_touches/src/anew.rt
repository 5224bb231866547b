//! What is written anew at a place.
ghost use Rattle.std.specs.Prelude.{◌≡◌, ◌<◌, ◌^◌, ◌+◌, length, slice_get, true, Some};
ghost use Rattle.es_scope.specs.Telling.{AreScopes};
ghost use Rattle.es_outline.specs.declared.mark.Role.TheVariants as role;
ghost use Rattle.es_scope.specs.Named.{names_it};
ghost use Rattle.es_touches.specs.Told as spec;

use crate::around::is_typeof;
use crate::given::is_alone;
use crate::marks::{begins_default, begins_function, is_class_name, mark_at, token_of};
use crate::tables::Tables;
use es_asks::name_at;
use es_outline::{Mark, Role};
use es_scope::Outlined;
use es_tree::ProgramGoal;
use module_body::{NewText, Touch};

/// What is written from one token to another, by the places of these.
#[derive(Clone, Copy, Debug)]
pub(crate) struct Anew {
    pub first: usize,
    pub last: usize,
    pub text: NewText,
}

// The name of a binding is written at the token at a place.
fn named(place: usize, number: Option<u32>) -> Option<Anew>
    ensures { result ≡ spec.named place number }
{
    let number = number?;
    Some(Anew {
        first: place,
        last: place,
        text: NewText::Name(number),
    })
}

// The binding of a function or a `var` that is declared at a place without a value.
fn alone(tables: &Tables<'_, '_>, place: u32) -> Option<u32>
    requires tables { spec.AreLong tables.now }
    requires binders { spec.HasBinders tables.now }
    requires place { place < length tables.now.source.marks }
    ensures { result ≡ spec.alone tables.now place }
{
    if is_alone(tables, place) {
        tables.own_at(place)
    } else {
        None
    }
}

// The binding of a class of the top within which the name at a place refers to it.
fn within_class(tables: &Tables<'_, '_>, place: u32) -> Option<u32>
    requires { length tables.now.source.marks + 2 < 2 ^ 32 }
    ensures { result ≡ spec.within_class tables.now place }
{
    let declared = tables.scopes.declared_by(place)?;
    let class = declared.place;
    if declared.scope as u64 == class as u64 + 2
        && is_class_name(mark_at(tables.outlined, class as usize))
    {
        tables.own_at(class)
    } else {
        None
    }
}

// What is written where a function without a name is exported as the default.
fn default_at(tables: &Tables<'_, '_>, place: u32) -> Option<Anew>
    requires tables { spec.AreLong tables.now }
    requires place { place < length tables.now.source.marks }
    ensures { result ≡ spec.default_at tables.now place }
{
    let opening = tables.part_around(place)?;
    if begins_default(mark_at(tables.outlined, opening as usize))
        && begins_function(mark_at(tables.outlined, place as usize + 1))
    {
        named(opening as usize + 2, tables.default)
    } else {
        None
    }
}

// The binding whose name is written at a place, where a token is this.
fn renamed_by(tables: &Tables<'_, '_>, place: u32, role: Role) -> Option<u32>
    requires tables { spec.AreLong tables.now }
    requires binders { spec.HasBinders tables.now }
    requires short { length tables.now.source.marks + 2 < 2 ^ 32 }
    requires place { place < length tables.now.source.marks }
    ensures { result ≡ spec.renamed_by tables.now place role }
{
    match role {
        Role::Reference => within_class(tables, place),
        Role::Bound | Role::FunctionName => alone(tables, place),
        _ => None,
    }
}

// The name of a binding that is written at a place of a module, where this mark stands.
fn renamed(tables: &Tables<'_, '_>, place: u32, mark: Mark) -> Option<Anew>
    requires tables { spec.AreLong tables.now }
    requires binders { spec.HasBinders tables.now }
    requires short { length tables.now.source.marks + 2 < 2 ^ 32 }
    requires place { place < length tables.now.source.marks }
    ensures { result ≡ spec.renamed tables.now place (Some «mark») }
{
    match mark {
        Mark::Token(role, _) => named(place as usize, renamed_by(tables, place, role)),
        Mark::Unnamed => default_at(tables, place),
        _ => None,
    }
}

// The same, of a module alone.
fn renamed_in(tables: &Tables<'_, '_>, place: u32, mark: Mark) -> Option<Anew>
    requires tables { spec.AreLong tables.now }
    requires binders { spec.HasBinders tables.now }
    requires short { length tables.now.source.marks + 2 < 2 ^ 32 }
    requires place { place < length tables.now.source.marks }
    ensures { result ≡ spec.renamed_in tables.now.source.goal tables.now place (Some «mark») }
{
    match tables.outlined.goal() {
        ProgramGoal::Script => None,
        ProgramGoal::Module => renamed(tables, place, mark),
    }
}

// Whether a free `require` stands at a place.
fn is_free_require(tables: &Tables<'_, '_>, place: u32) -> bool
    requires scopes { AreScopes tables.now.source tables.now.told }
    requires named { names_it (slice_get tables.now.source.marks place) ≡ true }
    ensures { result ≡ spec.is_free_require tables.now place }
{
    tables.scopes.declared_by(place).is_none()
        && name_at(tables.outlined, &tables.scopes, place) == b"require".as_slice()
}

// What is written for `typeof require`, where `require` is this reference.
fn required_at(tables: &Tables<'_, '_>, place: u32) -> Option<Anew>
    requires scopes { AreScopes tables.now.source tables.now.told }
    requires named { names_it (slice_get tables.now.source.marks place) ≡ true }
    ensures { result ≡ spec.required_at tables.now place }
{
    if place > 0 && is_typeof(tables.outlined, place) && is_free_require(tables, place) {
        Some(Anew {
            first: place as usize - 1,
            last: place as usize,
            text: NewText::Function,
        })
    } else {
        None
    }
}

// What is written for `typeof require`, whose last mark this is.
fn required(tables: &Tables<'_, '_>, place: u32, mark: Mark) -> Option<Anew>
    requires scopes { AreScopes tables.now.source tables.now.told }
    requires mark { slice_get tables.now.source.marks place ≡ Some «mark» }
    ensures { result ≡ spec.required tables.now place (Some «mark») }
{
    match mark {
        Mark::Token(Role::Reference, _) => required_at(tables, place),
        _ => None,
    }
}

// The touch of what is written.
fn touch_of(outlined: &Outlined<'_>, anew: Option<Anew>) -> Option<Touch>
    ensures { result ≡ spec.touch_of outlined.now anew }
{
    let anew = anew?;
    let first = token_of(mark_at(outlined, anew.first))?;
    let last = token_of(mark_at(outlined, anew.last))?;
    Some(Touch {
        start: first.start,
        end: last.end,
        text: anew.text,
    })
}

/// The touch at a place, where this mark stands.
#[tactic(auto, using(std::proofs::lemmas::Option::slice_get_within), unfolding(crate::specs::Told::touch_at))]
pub(crate) fn touch_at(tables: &Tables<'_, '_>, place: u32, mark: Mark) -> Option<Touch>
    requires tables { spec.AreLong tables.now }
    requires binders { spec.HasBinders tables.now }
    requires short { length tables.now.source.marks + 2 < 2 ^ 32 }
    requires scopes { AreScopes tables.now.source tables.now.told }
    requires mark { slice_get tables.now.source.marks place ≡ Some «mark» }
    ensures { result ≡ spec.touch_at tables.now place }
{
    match touch_of(tables.outlined, required(tables, place, mark)) {
        Some(touch) => Some(touch),
        None => touch_of(tables.outlined, renamed_in(tables, place, mark)),
    }
}
