//! What is known of a text where its exports are told.
ghost use Rattle.std.specs.Prelude.{◌≡◌, ◌<◌, ◌^◌, ◌+◌, length, slice_get};
ghost use Rattle.es_exports.specs.Seeing as spec;

use es_asks::Asked;
use es_declares::Declarations;
use es_outline::{Mark, Part, Role};
use es_parts::{Binders, Enclosing, declared};
use es_scope::{Outlined, Scopes};
use std::marker::Model;

/// A text with what was told of it before.
#[derive(Drop)]
pub(crate) struct Sight<'a, 't> {
    pub(crate) outlined: &'a Outlined<'t>,
    pub(crate) scopes: &'a Scopes,
    pub(crate) enclosing: &'a Enclosing,
    pub(crate) asked: &'a Asked,
    pub(crate) declarations: &'a Declarations,
    pub(crate) binders: Binders,
}

impl<'a, 't> Model for Sight<'a, 't> {
    ghost use Rattle.std.specs.Prelude.{◌≡◌, length};
    ghost use Rattle.es_parts.specs.Binding.{AreBinders};
    ghost use Rattle.es_exports.specs.Seeing.{Seen};

    ghost Value = { Seen };

    ghost view = { λ sight. record {
      source = sight.outlined.now;
      told = sight.scopes.now;
      around = sight.enclosing.now;
      binders = sight.binders;
      numbers = sight.asked.now.numbers.items;
      binding_of = sight.declarations.now.binding_of.items;
      default_binding = sight.declarations.now.default_binding;
    } };

    ghost invariant = { λ sight. (length sight.enclosing.now ≡ length sight.outlined.now.marks)
        × AreBinders sight.outlined.now.marks sight.binders };
}

/// The place that stands so many before this one.
pub(crate) fn back(count: u32, place: u32) -> Option<u32>
    ensures { result ≡ spec.back count place }
{
    if place < count {
        None
    } else {
        Some(place - count)
    }
}

impl<'a, 't> Sight<'a, 't> {
    /// How many marks there are.
    pub(crate) fn len(&self) -> u32
        requires { length self.now.source.marks < 2 ^ 32 }
        ensures { result ≡ length self.now.source.marks }
    {
        self.outlined.marks().len() as u32
    }

    /// The mark at a place.
    pub(crate) fn mark_at(&self, place: u32) -> Option<Mark>
        ensures { result ≡ slice_get self.now.source.marks place }
    {
        self.outlined.marks().get(place as usize).copied()
    }

    /// The role of the token at a place.
    pub(crate) fn role_at(&self, place: u32) -> Option<Role>
        ensures { result ≡ spec.role_at self.now.source place }
    {
        match self.mark_at(place) {
            Some(Mark::Token(role, _)) => Some(role),
            _ => None,
        }
    }

    /// The part that begins at a place.
    pub(crate) fn begun_at(&self, place: u32) -> Option<Part>
        ensures { result ≡ spec.begun_at self.now.source place }
    {
        match self.mark_at(place) {
            Some(Mark::Begin(part)) => Some(part),
            _ => None,
        }
    }

    /// The part that begins two places before.
    pub(crate) fn begun_before(&self, place: u32) -> Option<Part>
        ensures { result ≡ spec.begun_before self.now.source place }
    {
        match back(2, place) {
            Some(opening) => self.begun_at(opening),
            None => None,
        }
    }

    /// Where the token at a place starts.
    pub(crate) fn start_at(&self, place: u32) -> Option<u32>
        ensures { result ≡ spec.start_at self.now.source place }
    {
        match self.mark_at(place) {
            Some(Mark::Token(_, token)) => Some(token.start),
            _ => None,
        }
    }

    /// Where the innermost part around a place begins.
    pub(crate) fn part_at(&self, place: u32) -> Option<u32>
        ensures { result ≡ spec.part_at self.now place }
    {
        if place as usize >= self.outlined.marks().len() {
            return None;
        }
        self.enclosing.around(place).part
    }

    /// Where the innermost part begins that binds names at a place.
    pub(crate) fn binder_at(&self, place: u32) -> Option<u32>
        ensures { result ≡ spec.binder_at self.now place }
    {
        if place as usize >= self.outlined.marks().len() {
            return None;
        }
        self.binders.binder(place)
    }

    /// The number of the request that a place asks for.
    pub(crate) fn number_at(&self, place: u32) -> Option<u32>
        ensures { result ≡ spec.number_at self.now place }
    {
        match self.asked.numbers.get(place as usize) {
            Some(found) => *found,
            None => None,
        }
    }

    /// Whether a place declares a name.
    pub(crate) fn is_declared(&self, place: u32) -> bool
        ensures { result ≡ spec.is_declared self.now place }
    {
        if place as usize >= self.outlined.marks().len() {
            return false;
        }
        declared(self.outlined, &self.binders, place).is_some()
    }

    // Whether the part that begins at a place is the declaration by a word of an exported declaration.
    fn is_exported_word(&self, opening: u32) -> bool
        ensures { result ≡ spec.is_exported_word self.now.source (Some opening) }
    {
        matches!(self.begun_at(opening), Some(Part::Declaration))
            && matches!(self.begun_before(opening), Some(Part::ExportedDeclaration))
    }

    // Whether the part around a place is an exported declaration.
    fn is_in_exported(&self, place: u32) -> bool
        ensures { result ≡ spec.is_exported_declaration
            (spec.begun_of self.now.source (spec.part_at self.now place)) }
    {
        match self.part_at(place) {
            Some(opening) => matches!(self.begun_at(opening), Some(Part::ExportedDeclaration)),
            None => false,
        }
    }

    /// Whether a place declares a name in an exported declaration.
    pub(crate) fn exports_declared(&self, place: u32) -> bool
        ensures { result ≡ spec.exports_declared self.now place }
    {
        if matches!(self.role_at(place), Some(Role::Bound)) {
            if let Some(opening) = self.binder_at(place) {
                if self.is_exported_word(opening) {
                    return true;
                }
            }
        }
        self.is_declared(place) && self.is_in_exported(place)
    }

    // Whether a name for outside stands two places behind.
    fn has_outer(&self, place: u32) -> bool
        ensures { result ≡ spec.is_outer (spec.role_at self.now.source (place + 2)) }
    {
        matches!(
            self.outlined.marks().get(place as usize + 2),
            Some(Mark::Token(Role::Outer, _))
        )
    }

    /// Whether a name of an export list stands at a place.
    pub(crate) fn is_exported(&self, place: u32) -> bool
        ensures { result ≡ spec.is_exported (spec.role_at self.now.source place) }
    {
        matches!(self.role_at(place), Some(Role::Exported))
    }

    // Whether the `*` of an export stands at a place.
    fn is_star(&self, place: u32) -> bool
        ensures { result ≡ spec.is_star (spec.begun_before self.now.source place) }
    {
        matches!(self.begun_before(place), Some(Part::ExportStar))
    }

    /// Whether a place exports by the name two places behind.
    pub(crate) fn says_outer(&self, place: u32) -> bool
        ensures { result ≡ spec.says_outer self.now.source place }
    {
        (self.is_exported(place) || self.is_star(place)) && self.has_outer(place)
    }

    /// Whether a place exports by its own name.
    pub(crate) fn says_own(&self, place: u32) -> bool
        ensures { result ≡ spec.says_own self.now place }
    {
        (self.is_exported(place) && !self.has_outer(place)) || self.exports_declared(place)
    }

    /// Whether the word `default` of an export stands at a place.
    pub(crate) fn says_default(&self, place: u32) -> bool
        ensures { result ≡ spec.says_default self.now.source place }
    {
        matches!(self.begun_before(place), Some(Part::ExportDefault))
    }

    /// Whether the `*` of an `export * from` stands at a place.
    pub(crate) fn is_all(&self, place: u32) -> bool
        ensures { result ≡ spec.is_all self.now.source place }
    {
        self.is_star(place) && !self.has_outer(place)
    }

    /// Whether the `*` of an `export * as` stands at a place.
    pub(crate) fn is_space(&self, place: u32) -> bool
        ensures { result ≡ spec.is_space self.now.source place }
    {
        self.is_star(place) && self.has_outer(place)
    }

    /// The part that begins at a place, if it is an `export default`.
    pub(crate) fn default_of(&self, part: Option<u32>) -> Option<u32>
        ensures { result ≡ spec.default_of self.now.source part }
    {
        match part {
            Some(opening) if matches!(self.begun_at(opening), Some(Part::ExportDefault)) => {
                Some(opening)
            }
            _ => None,
        }
    }

    /// Where the `export default` begins whose second word stands at a place.
    pub(crate) fn default_at(&self, place: u32) -> Option<u32>
        ensures { result ≡ spec.default_at self.now.source place }
    {
        self.default_of(back(2, place))
    }

    // Where the innermost part begins that is open behind the last mark.
    fn end_part(&self) -> Option<u32>
        requires { length self.now.source.marks < 2 ^ 32 }
        ensures { result ≡ spec.end_part self.now }
    {
        let last = back(1, self.len())?;
        match self.mark_at(last) {
            Some(Mark::Begin(_)) => Some(last),
            Some(Mark::End(_)) => {
                let ended = self.part_at(last)?;
                self.part_at(ended)
            }
            _ => self.part_at(last),
        }
    }

    /// Where the innermost part around a place begins, which may lie behind the last mark.
    pub(crate) fn part_around(&self, place: u32) -> Option<u32>
        requires { length self.now.source.marks < 2 ^ 32 }
        ensures { result ≡ spec.part_around self.now place }
    {
        if place < self.len() {
            self.part_at(place)
        } else {
            self.end_part()
        }
    }
}
