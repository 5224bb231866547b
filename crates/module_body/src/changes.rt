//! What is written anew in a module's text: at its sites, and at its touches.
ghost use Rattle.std.specs.Prelude.{◌≡◌, ◌+◌, ◌<◌, ◌^◌, IsTrue, slice_get};
ghost use Rattle.module_body.specs.Changes as spec;

use crate::touch::{NewText, Touch};
use es_tree::Token;
use pk_types::{Facts, Site, SiteKind, Spelling, Text};
use std::marker::Model;

/// The sites of a module, what is written at each, the names of its bindings, and its touches.
#[derive(Drop)]
pub struct Changes<'a> {
    sites: &'a [Site],
    spelled: &'a [Text],
    names: &'a [Text],
    touches: &'a [Touch],
}

impl<'a> Model for Changes<'a> {
    ghost use Rattle.module_body.specs.Changes.{ChangesOf};

    ghost Value = { ChangesOf };

    ghost view = { λ changes. record {
      sites = changes.sites.now;
      spelled = changes.spelled.now;
      names = changes.names.now;
      touches = changes.touches.now;
    } };
}

/// What is written in the place of some tokens.
#[derive(Clone, Copy, Debug)]
pub enum Written {
    /// The spelling of the site of this number, which has this letter in the marks of a body.
    Site(u8, usize),
    /// What is written at a touch.
    Touch(NewText),
}

/// What is written in the place of the tokens from one on, up to the byte `end`.
#[derive(Clone, Copy, Debug)]
pub struct Change {
    pub end: u32,
    pub written: Written,
}

// The letter that a site has in the marks of a body.
fn letter_of(kind: &SiteKind) -> u8
    ensures { result ≡ spec.letter_of kind.now }
{
    match kind {
        SiteKind::Init(_) => b'i',
        SiteKind::Read(_) | SiteKind::Member(_, _) | SiteKind::Space(_) => b'r',
        SiteKind::Write(_) => b'w',
        SiteKind::Require(_) => b'q',
        SiteKind::Import(_) => b'd',
    }
}

// The bytes of one of some texts; none where it is not there.
fn text_at<'a>(texts: &'a [Text], number: usize) -> &'a [u8]
    ensures { result.now ≡ spec.text_at texts.now number }
{
    match texts.get(number) {
        Some(text) => text.as_slice(),
        None => &[],
    }
}

impl<'a> Changes<'a> {
    /// Those of a module.
    pub fn new(facts: &'a Facts, spelling: &'a Spelling, touches: &'a [Touch]) -> Changes<'a>
        ensures { result ≡ spec.changes_of facts.now spelling.now touches.now }
    {
        Changes {
            sites: facts.sites.as_slice(),
            spelled: spelling.sites.as_slice(),
            names: spelling.names.as_slice(),
            touches,
        }
    }

    // Whether the site of a number begins at the token.
    fn is_site(&self, token: Token, number: usize) -> bool
        ensures begins { result ≡ spec.site_begins token (slice_get self.now.sites number) }
        ensures fits { IsTrue result → number + 1 < 2 ^ 64 }
    {
        number < self.sites.len() && self.sites[number].start == token.start
    }

    // Whether the touch of a number begins at the token.
    fn is_touch(&self, token: Token, number: usize) -> bool
        ensures begins { result ≡ spec.touch_begins token (slice_get self.now.touches number) }
        ensures fits { IsTrue result → number + 1 < 2 ^ 64 }
    {
        number < self.touches.len() && self.touches[number].start == token.start
    }

    /// How many of the sites, from the one of a number on, begin at the token.
    pub fn sites_at(&self, token: Token, number: usize) -> usize
        ensures count { result ≡ spec.sites_at self.now token number }
        ensures fits { number + result < 2 ^ 64 }
    {
        if !self.is_site(token, number) {
            0
        } else if self.is_site(token, number + 1) {
            2
        } else {
            1
        }
    }

    /// How many of the touches, from the one of a number on, begin at the token.
    pub fn touches_at(&self, token: Token, number: usize) -> usize
        ensures count { result ≡ spec.touches_at self.now token number }
        ensures fits { number + result < 2 ^ 64 }
    {
        if self.is_touch(token, number) { 1 } else { 0 }
    }

    // The change that a site makes, where so many begin at its token.
    fn site_change(&self, how_many: usize, number: usize) -> Option<Change>
        ensures { result ≡ spec.site_change (slice_get self.now.sites number) how_many number }
    {
        let site = self.sites.get(number)?;
        let letter = if how_many == 2 {
            b'u'
        } else {
            letter_of(&site.kind)
        };
        Some(Change {
            end: site.end,
            written: Written::Site(letter, number),
        })
    }

    // The change that a touch makes.
    fn touch_change(&self, number: usize) -> Option<Change>
        ensures { result ≡ spec.touch_change (slice_get self.now.touches number) }
    {
        let touch = self.touches.get(number)?;
        Some(Change {
            end: touch.end,
            written: Written::Touch(touch.text),
        })
    }

    /// The change that begins at the token, where so many sites and touches are passed.
    pub fn change_at(&self, token: Token, sites: usize, touches: usize) -> Option<Change>
        ensures { result ≡ spec.change_at self.now token sites touches }
    {
        if self.is_site(token, sites) {
            self.site_change(self.sites_at(token, sites), sites)
        } else if self.is_touch(token, touches) {
            self.touch_change(touches)
        } else {
            None
        }
    }

    /// The text that is written.
    pub fn text_of(&self, written: Written) -> &'a [u8]
        ensures { result.now ≡ spec.text_of self.now written }
    {
        match written {
            Written::Site(_, number) => text_at(self.spelled, number),
            Written::Touch(NewText::Name(binding)) => text_at(self.names, binding as usize),
            Written::Touch(NewText::Function) => b"\"function\"",
        }
    }
}
