//! What the marks before a place say of it.
ghost use Rattle.std.specs.Prelude.{◌≡◌, ◌+◌, ◌<◌, ◌^◌, None};
ghost use Rattle.module_body.specs.Before as spec;

use crate::changes::{Change, Changes};
use crate::standing::{Standing, is_kept, stands_behind};
use es_outline::{Mark, Part, Role};
use es_tree::Token;

/// What is known of the marks before a place.
#[derive(Clone, Copy, Debug)]
pub struct Before {
    pub standing: Standing,
    /// The last token that is kept.
    pub last: Option<Token>,
    /// Whether a line terminator stands between that one and the last token.
    pub broken: bool,
    /// Whether the next token is the first of an expression that is exported as the default.
    pub value: bool,
    /// How many `(` of parentheses stand directly before the place.
    pub opens: usize,
    pub nearest: Option<Mark>,
    /// How many sites and touches begin before the place, and the last that did.
    pub sites: usize,
    pub touches: usize,
    pub change: Option<Change>,
}

// The last token that is kept.
fn kept_behind(mark: Mark, kept: bool, last: Option<Token>) -> Option<Token>
    ensures { result ≡ spec.kept_behind mark kept last }
{
    match mark {
        Mark::Token(_, token) if kept => Some(token),
        _ => last,
    }
}

// Whether a line terminator stands behind the last token that is kept.
fn broken_behind(mark: Mark, kept: bool, broken: bool) -> bool
    ensures { result ≡ spec.broken_behind mark kept broken }
{
    match mark {
        Mark::Token(_, token) => !kept && (broken || token.newline),
        _ => broken,
    }
}

// Whether a token begins an expression that is exported as the default.
fn value_behind(mark: Mark, begins: bool) -> bool
    ensures { result ≡ spec.value_behind mark begins }
{
    match mark {
        Mark::Begin(Part::ExportedValue) => true,
        Mark::Begin(_) => begins,
        _ => false,
    }
}

// How many `(` of parentheses stand directly before.
fn opens_behind(mark: Mark, opens: usize) -> usize
    requires { opens + 1 < 2 ^ 64 }
    ensures { result ≡ spec.opens_behind mark opens }
{
    match mark {
        Mark::Token(Role::Opens, _) => opens + 1,
        _ => 0,
    }
}

impl Before {
    /// What is known before the first mark.
    pub fn nothing() -> Before
        ensures { result ≡ spec.nothing }
    {
        Before {
            standing: Standing::Kept,
            last: None,
            broken: false,
            value: false,
            opens: 0,
            nearest: None,
            sites: 0,
            touches: 0,
            change: None,
        }
    }

    // What is known of the changes behind a mark.
    fn changed(&mut self, changes: &Changes<'_>, mark: Mark)
        ensures { self.new ≡ spec.changed changes.now mark self.old }
    {
        let Mark::Token(_, token) = mark else {
            return;
        };
        if let Some(change) = changes.change_at(token, self.sites, self.touches) {
            self.change = Some(change);
        }
        self.sites += changes.sites_at(token, self.sites);
        self.touches += changes.touches_at(token, self.touches);
    }

    /// Goes behind a mark.
    pub fn pass(&mut self, changes: &Changes<'_>, mark: Mark)
        requires { self.old.opens + 1 < 2 ^ 64 }
        ensures { self.new ≡ spec.behind changes.now mark self.old }
    {
        let kept = is_kept(self.standing);
        self.last = kept_behind(mark, kept, self.last);
        self.broken = broken_behind(mark, kept, self.broken);
        self.standing = stands_behind(mark, self.standing);
        self.value = value_behind(mark, self.value);
        self.opens = opens_behind(mark, self.opens);
        self.nearest = Some(mark);
        self.changed(changes, mark);
    }
}
