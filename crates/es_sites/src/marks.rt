//! Tests of single marks, and of the marks around a name.
ghost use Rattle.std.specs.Prelude.{◌≡◌, ◌<◌, ◌^◌, ◌+◌, drop, length, slice_get};
ghost use Rattle.es_scope.specs.Source.{token_of};
ghost use Rattle.es_sites.specs.Marks as spec;

use es_outline::{Mark, Part, Role};
use es_scope::Outlined;
use es_tree::Token;

/// What the token at a place is.
pub(crate) fn role_at(marks: &[Mark], place: usize) -> Option<Role>
    ensures { result ≡ spec.role_of (slice_get marks.now place) }
{
    match marks.get(place) {
        Some(Mark::Token(role, _)) => Some(*role),
        _ => None,
    }
}

/// The token at a place.
pub(crate) fn token_at(marks: &[Mark], place: usize) -> Option<Token>
    ensures { result ≡ token_of (slice_get marks.now place) }
{
    match marks.get(place) {
        Some(Mark::Token(_, token)) => Some(*token),
        _ => None,
    }
}

/// Whether the mark that something is assigned to stands at a place.
pub(crate) fn is_assigned(marks: &[Mark], place: usize) -> bool
    ensures { result ≡ spec.is_assigned (slice_get marks.now place) }
{
    matches!(marks.get(place), Some(Mark::Assigned))
}

/// Whether the mark that something is bound to values in turn stands at a place.
pub(crate) fn is_iterated(marks: &[Mark], place: usize) -> bool
    ensures { result ≡ spec.is_iterated (slice_get marks.now place) }
{
    matches!(marks.get(place), Some(Mark::Iterated))
}

/// Whether the mark that a name is left out stands at a place.
pub(crate) fn is_unnamed(marks: &[Mark], place: usize) -> bool
    ensures { result ≡ spec.is_unnamed (slice_get marks.now place) }
{
    matches!(marks.get(place), Some(Mark::Unnamed))
}

/// Whether a class begins at a place.
pub(crate) fn begins_class(marks: &[Mark], place: usize) -> bool
    ensures { result ≡ spec.begins_class (slice_get marks.now place) }
{
    matches!(marks.get(place), Some(Mark::Begin(Part::Class)))
}

/// Whether an `export default` begins at a place.
pub(crate) fn begins_default(marks: &[Mark], place: usize) -> bool
    ensures { result ≡ spec.begins_default (slice_get marks.now place) }
{
    matches!(marks.get(place), Some(Mark::Begin(Part::ExportDefault)))
}

/// Whether an exported expression begins at a place.
pub(crate) fn begins_value(marks: &[Mark], place: usize) -> bool
    ensures { result ≡ spec.begins_value (slice_get marks.now place) }
{
    matches!(marks.get(place), Some(Mark::Begin(Part::ExportedValue)))
}

/// Whether the `=` of an Initializer stands at a place.
pub(crate) fn initializes(marks: &[Mark], place: usize) -> bool
    ensures { result ≡ spec.initializes (slice_get marks.now place) }
{
    matches!(marks.get(place), Some(Mark::Token(Role::Initializes, _)))
}

/// Whether a name that refers stands at a place.
pub(crate) fn is_reference(marks: &[Mark], place: usize) -> bool
    ensures { result ≡ spec.is_reference (slice_get marks.now place) }
{
    matches!(marks.get(place), Some(Mark::Token(Role::Reference, _)))
}

/// Whether a declaration by `var`, `let` or `const` begins at a place.
pub(crate) fn begins_declaration(marks: &[Mark], place: usize) -> bool
    ensures { result ≡ spec.begins_declaration (slice_get marks.now place) }
{
    matches!(marks.get(place), Some(Mark::Begin(Part::Declaration)))
}

/// Whether another part that binds begins at a place.
pub(crate) fn begins_binder(marks: &[Mark], place: usize) -> bool
    ensures { result ≡ spec.begins_binder (slice_get marks.now place) }
{
    matches!(
        marks.get(place),
        Some(Mark::Begin(Part::Function | Part::Arrow | Part::Catch))
    )
}

fn is_update(marks: &[Mark], place: usize) -> bool
    ensures { result ≡ spec.is_updated (slice_get marks.now place) }
{
    matches!(marks.get(place), Some(Mark::Updated))
}

fn opens(marks: &[Mark], place: usize) -> bool
    ensures { result ≡ spec.opens (slice_get marks.now place) }
{
    matches!(marks.get(place), Some(Mark::Token(Role::Opens, _)))
}

fn closes(marks: &[Mark], place: usize) -> bool
    ensures { result ≡ spec.closes (slice_get marks.now place) }
{
    matches!(marks.get(place), Some(Mark::Token(Role::Closes, _)))
}

fn is_prefix(marks: &[Mark], place: usize) -> bool
    ensures { result ≡ spec.is_prefix (slice_get marks.now place) }
{
    matches!(marks.get(place), Some(Mark::Token(Role::Prefix, _)))
}

fn is_dot(marks: &[Mark], place: usize) -> bool
    ensures { result ≡ spec.is_dot (slice_get marks.now place) }
{
    matches!(marks.get(place), Some(Mark::Token(Role::Dot, _)))
}

// Whether a member, a call or a tagged template goes on at a place.
fn goes_on(marks: &[Mark], place: usize) -> bool
    ensures { result ≡ spec.goes_on (slice_get marks.now place) }
{
    matches!(
        marks.get(place),
        Some(Mark::Token(Role::Dot | Role::Suffixes, _) | Mark::Call | Mark::Tag)
    )
}

// Whether some `)` behind a target stand from a place on, or none, and then the mark that it is updated. A run of `)` is
// looked through for the name before it alone, so all names together take the time of one pass.
fn updated_from(marks: &[Mark], place: usize) -> bool
    requires { length marks.now + 2 < 2 ^ 32 }
    ensures { result ≡ spec.updated_by (drop place marks.now) }
{
    let mut at = place;
    while closes(marks, at) {
        at += 1;
    }
    is_update(marks, at)
}

// Whether `delete` stands at a place.
fn deletes(outlined: &Outlined<'_>, place: usize) -> bool
    ensures { result ≡ spec.deletes outlined.now place }
{
    is_prefix(outlined.marks(), place) && outlined.spelled_at(place) == b"delete".as_slice()
}

// Whether `(` stands before what goes from one place to another, and `)` behind it.
fn enclosed(outlined: &Outlined<'_>, first: usize, last: usize) -> bool
    requires { last < 2 ^ 33 }
    ensures { result ≡ spec.enclosed outlined.now first last }
{
    let marks = outlined.marks();
    first > 0 && opens(marks, first - 1) && closes(marks, last + 1)
}

// Whether `delete` stands before it, and nothing goes on behind it.
fn behind_delete(outlined: &Outlined<'_>, first: usize, last: usize) -> bool
    requires { last < 2 ^ 33 }
    ensures { result ≡ spec.behind_delete outlined.now first last }
{
    first > 0 && deletes(outlined, first - 1) && !goes_on(outlined.marks(), last + 1)
}

// Whether what goes from one place to another is deleted, maybe in parentheses. A run of `(` is gone through for the name
// behind it alone, so all names together take the time of one pass.
fn deleted(outlined: &Outlined<'_>, first: usize, last: usize) -> bool
    requires short { length outlined.now.marks + 2 < 2 ^ 32 }
    requires last { last < 2 ^ 33 }
    ensures { result ≡ spec.deleted outlined.now first last }
{
    let mut outer = first;
    let mut end = last;
    while enclosed(outlined, outer, end) {
        outer -= 1;
        end += 1;
    }
    behind_delete(outlined, outer, end)
}

/// Whether the name at a place goes on as `.name`, and this is neither assigned to nor deleted.
pub(crate) fn is_member(outlined: &Outlined<'_>, place: u32) -> bool
    requires { length outlined.now.marks + 2 < 2 ^ 32 }
    ensures { result ≡ spec.is_member outlined.now place }
{
    let marks = outlined.marks();
    let place = place as usize;
    is_dot(marks, place + 1)
        && !is_assigned(marks, place + 3)
        && !deleted(outlined, place, place + 2)
}

/// Whether the name at a place is read.
pub(crate) fn is_read(outlined: &Outlined<'_>, place: u32) -> bool
    requires { length outlined.now.marks + 2 < 2 ^ 32 }
    ensures { result ≡ spec.is_read outlined.now place }
{
    let marks = outlined.marks();
    let place = place as usize;
    !is_assigned(marks, place + 1) || updated_from(marks, place + 2)
}
