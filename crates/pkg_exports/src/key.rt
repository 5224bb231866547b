ghost use Rattle.std.specs.Prelude.{◌≡◌, ◌≢◌, ℕ, List, [], ◌++◌, length, MatchOption};
ghost use Rattle.pkg_exports.specs.Texts.{has};
ghost use Rattle.pkg_exports.specs.Keys.{Fits, is_longer};
ghost use Rattle.pkg_exports.specs.Choices.{IsFit, Chosen, better_of};

use crate::text::cut;
use pkg_manifest::{Json, Member};

/// How the name of the entry at a place fits a key.
#[derive(Clone, Copy)]
pub(crate) struct Fit<'a> {
    pub(crate) place: usize,
    /// How many bytes of the name stand before its `*`, all of them where it has none.
    before: usize,
    length: usize,
    /// What stands in the key for the `*` of the name, and `*` itself where the two are equal.
    pub(crate) part: &'a [u8],
}

impl<'a> Fit<'a> {
    fn is_preferred(&self, other: &Fit<'a>) -> bool
        ensures { result ≡ is_longer self.now.before self.now.length other.now.before other.now.length }
    {
        self.before > other.before || (self.before == other.before && self.length > other.length)
    }
}

/// What stands between the two others in the key, where that is at least one byte.
fn between<'a>(key: &'a [u8], before: &[u8], after: &[u8]) -> Option<&'a [u8]>
    ensures { MatchOption result ((part : List ℕ) → key.now ≡ before.now ++ part ++ after.now → part ≡ [])
        (λ part. (key.now ≡ before.now ++ part.now ++ after.now) × (part.now ≢ [])) }
{
    let Some(rest) = key.strip_prefix(before) else {
        return None;
    };
    let Some(part) = rest.strip_suffix(after) else {
        return None;
    };
    if part.is_empty() {
        return None;
    }
    Some(part)
}

fn has_star(text: &[u8]) -> bool
    ensures { result ≡ has 42 text.now }
{
    cut(text, b'*').1.is_some()
}

fn fit_of<'a>(place: usize, name: &[u8], key: &'a [u8]) -> Option<Fit<'a>>
    ensures { MatchOption result ((part : List ℕ) → ¬ Fits key.now name.now part) (λ fit. IsFit place key.now name.now fit) }
{
    let (before, after) = cut(name, b'*');
    let part = match after {
        None => {
            if name != key {
                return None;
            }
            b"*".as_slice()
        }
        Some(after) => {
            if has_star(after) {
                return None;
            }
            match between(key, before, after) {
                Some(part) => part,
                None => return None,
            }
        }
    };
    Some(Fit {
        place,
        before: before.len(),
        length: name.len(),
        part,
    })
}

fn better<'a>(best: Option<Fit<'a>>, next: Option<Fit<'a>>) -> Option<Fit<'a>>
    ensures { result ≡ better_of best.entry next.entry }
{
    match (best, next) {
        (Some(best), Some(next)) => {
            if next.is_preferred(&best) {
                Some(next)
            } else {
                Some(best)
            }
        }
        (Some(best), None) => Some(best),
        (None, next) => next,
    }
}

/// The entry that decides for a key.
pub(crate) fn deciding<'a>(entries: &[Member<Json>], key: &'a [u8]) -> Option<Fit<'a>>
    ensures { Chosen entries.now key.now (length entries.now) result }
{
    let mut best: Option<Fit<'a>> = None;
    for (place, entry) in entries.iter().enumerate() {
        best = better(best, fit_of(place, entry.name.as_slice(), key));
    }
    best
}
