//! What a module does at places.
ghost use Rattle.std.specs.Prelude.{◌≡◌, ◌<◌, ◌^◌, ◌+◌, length, slice_get, Some};
ghost use Rattle.es_outline.specs.declared.mark.Role.TheVariants as role;
ghost use Rattle.es_sites.specs.Done as spec;
ghost use Rattle.es_sites.specs.Tables.{AreTables};

use crate::binding::declaration_around;
use crate::marks::{
    begins_default, begins_value, initializes, is_iterated, is_member, is_read, is_reference,
};
use crate::meaning::{Meaning, meant};
use crate::tables::{Tables, entry, pattern_around};
use es_outline::{Mark, Role};
use es_scope::Outlined;
use es_tree::ProgramGoal;
use pk_types::Ref;

/// What a module does with a name or by a call.
#[derive(Clone, Copy)]
pub(crate) enum Act {
    /// Gives a binding its first value.
    Init(u32),
    Read(Ref),
    Write(Ref),
    /// Reads a name of the namespace that a request leads to.
    Member(u32),
    /// Uses this namespace itself.
    Space(u32),
    /// Calls `require` for a request.
    Require(u32),
    /// Calls `import()` for a request.
    Import(u32),
}

/// This, and the places of its first and its last token.
#[derive(Clone, Copy)]
pub(crate) struct Done {
    pub first: usize,
    pub last: usize,
    pub act: Act,
}

// It is done by just the token at a place.
fn just(place: u32, act: Act) -> Done
    ensures { result ≡ spec.just place act }
{
    Done {
        first: place as usize,
        last: place as usize,
        act,
    }
}

// What is done with a name that is used, which stands for this.
fn used(outlined: &Outlined<'_>, place: u32, meaning: Option<Meaning>) -> Option<Done>
    requires { length outlined.now.marks + 2 < 2 ^ 32 }
    ensures { result ≡ spec.used outlined.now place meaning }
{
    match meaning? {
        Meaning::Name(to) if is_read(outlined, place) => Some(just(place, Act::Read(to))),
        Meaning::Name(_) => None,
        Meaning::Space(request) if is_member(outlined, place) => Some(Done {
            first: place as usize,
            last: place as usize + 2,
            act: Act::Member(request),
        }),
        Meaning::Space(request) => Some(just(place, Act::Space(request))),
    }
}

// A name is given its first value, which stands for this.
fn begun(place: u32, meaning: Option<Meaning>) -> Option<Done>
    ensures { result ≡ spec.begun place meaning }
{
    match meaning {
        Some(Meaning::Name(Ref::Own(binding))) => Some(just(place, Act::Init(binding))),
        _ => None,
    }
}

// A name is assigned to, which stands for this.
fn written(place: u32, meaning: Option<Meaning>) -> Option<Done>
    ensures { result ≡ spec.written place meaning }
{
    match meaning {
        Some(Meaning::Name(to)) => Some(just(place, Act::Write(to))),
        _ => None,
    }
}

// Whether a pattern begins behind an opening.
fn is_behind(opening: u32, pattern: Option<u32>) -> bool
    ensures { result ≡ spec.is_behind opening pattern }
{
    match pattern {
        Some(pattern) => opening < pattern,
        None => false,
    }
}

// Whether the name that a `var` that begins at an opening binds at a place is given a value there.
fn is_given(tables: &Tables<'_, '_>, place: u32, opening: u32) -> bool
    requires { AreTables tables.now }
    ensures { result ≡ spec.is_given tables.now place opening }
{
    let marks = tables.outlined.marks();
    initializes(marks, place as usize + 1)
        || is_iterated(marks, place as usize + 1)
        || is_behind(opening, pattern_around(marks, tables.enclosing, place))
}

// What is done with a name that the declaration that begins at an opening binds.
fn bound_by(tables: &Tables<'_, '_>, place: u32, opening: u32) -> Option<Done>
    requires { AreTables tables.now }
    ensures { result ≡ spec.bound tables.now place (Some opening) }
{
    let word = tables.outlined.spelled_at(opening as usize + 1);
    if word == b"var".as_slice() {
        if is_given(tables, place, opening) {
            written(place, meant(tables, place))
        } else {
            None
        }
    } else if word == b"let".as_slice() || word == b"const".as_slice() {
        begun(place, meant(tables, place))
    } else {
        None
    }
}

// What is done with a name that is bound.
fn bound(tables: &Tables<'_, '_>, place: u32) -> Option<Done>
    requires tables { AreTables tables.now }
    requires place { place < length tables.now.source.marks }
    ensures { result ≡ spec.done_by tables.now place role.Bound }
{
    let opening = declaration_around(tables.outlined, tables.enclosing, place)?;
    bound_by(tables, place, opening)
}

// Whether the second word of an `export default` of a value or of a class without a name stands at a place.
fn is_default(tables: &Tables<'_, '_>, place: u32) -> bool
    ensures { result ≡ spec.is_default tables.now place }
{
    if place < 2 {
        return false;
    }
    let marks = tables.outlined.marks();
    let opening = place - 2;
    begins_default(marks, opening as usize)
        && (begins_value(marks, place as usize + 1)
            || entry(tables.inside.classes.as_slice(), opening).is_some())
}

// What has no name is given its value where a module exports it by default.
fn unnamed(tables: &Tables<'_, '_>, place: u32) -> Option<Done>
    ensures { result ≡ spec.unnamed tables.now place }
{
    if !is_default(tables, place) {
        return None;
    }
    let binding = tables.declarations.default_binding?;
    Some(just(place, Act::Init(binding)))
}

// The `)` of the arguments that open at a place, which are one text.
fn right_of(outlined: &Outlined<'_>, left: usize) -> usize
    requires { left < 2 ^ 33 }
    ensures { result ≡ spec.right_of outlined.now left }
{
    if outlined.spelled_at(left + 2) == b")".as_slice() {
        left + 2
    } else {
        left + 3
    }
}

// What a call by the token at a place is for.
fn called(tables: &Tables<'_, '_>, place: u32, role: Role) -> Option<Done>
    ensures { result ≡ spec.called tables.now place role }
{
    let number = entry(tables.asked.numbers.as_slice(), place)?;
    let first = place as usize;
    match role {
        Role::Request => None,
        Role::ImportCall => Some(Done {
            first,
            last: right_of(tables.outlined, first + 1),
            act: Act::Import(number),
        }),
        _ => Some(Done {
            first,
            last: right_of(tables.outlined, first + 2),
            act: Act::Require(number),
        }),
    }
}

// What a token of a module does that is this.
fn done_by(tables: &Tables<'_, '_>, place: u32, role: Role) -> Option<Done>
    requires tables { AreTables tables.now }
    requires place { place < length tables.now.source.marks }
    ensures { result ≡ spec.done_by tables.now place role }
{
    match role {
        Role::Reference => used(tables.outlined, place, meant(tables, place)),
        Role::Bound => bound(tables, place),
        Role::ClassName => begun(place, meant(tables, place)),
        Role::ImportCall => called(tables, place, role),
        _ => None,
    }
}

// What is done by a token of this role.
fn done_by_token(tables: &Tables<'_, '_>, place: u32, role: Role) -> Option<Done>
    requires tables { AreTables tables.now }
    requires place { place < length tables.now.source.marks }
    ensures { result ≡ spec.done_by_token tables.now.source.goal tables.now place role }
{
    if let ProgramGoal::Script = tables.outlined.goal() {
        return called(tables, place, role);
    }
    match unnamed(tables, place) {
        Some(done) => Some(done),
        None => done_by(tables, place, role),
    }
}

// A name is written behind which stands the mark that it is assigned to.
fn written_before(tables: &Tables<'_, '_>, place: u32) -> Option<Done>
    requires { AreTables tables.now }
    ensures { result ≡ spec.written_before tables.now place }
{
    if is_reference(tables.outlined.marks(), place as usize) {
        written(place, meant(tables, place))
    } else {
        None
    }
}

/// What a module does at a place, where this mark stands.
#[tactic(auto, using(std::proofs::lemmas::Option::slice_get_within), unfolding(crate::specs::Done::done_at))]
pub(crate) fn done_at(tables: &Tables<'_, '_>, place: u32, mark: Mark) -> Option<Done>
    requires tables { AreTables tables.now }
    requires mark { slice_get tables.now.source.marks place ≡ Some «mark» }
    ensures { result ≡ spec.done_at tables.now place }
{
    match mark {
        Mark::Token(role, _) => done_by_token(tables, place, role),
        Mark::Assigned => {
            if place == 0 || matches!(tables.outlined.goal(), ProgramGoal::Script) {
                return None;
            }
            written_before(tables, place - 1)
        }
        _ => None,
    }
}
