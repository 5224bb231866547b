//! The cursor, and the token at a place.
ghost use Rattle.std.specs.Prelude.{◌≡◌, ◌≤◌, true, length, drop, Ok, Err, IfOk, IfErr, IfSome};
ghost use Rattle.es_tree.specs.Lexical.{token_at};
ghost use Rattle.es_tree.specs.Places.{LiesBehind};
ghost use Rattle.es_tree.specs.Utf8.{byte};
ghost use Rattle.es_reader.specs.Basics as spec;
ghost use Rattle.es_reader.specs.Basics.{Reads};
ghost use Rattle.es_cursor.specs.Standing.{Lies, Stands};
ghost use Rattle.es_cursor.specs.Seen.{IsSeen};
ghost use Rattle.es_cursor.specs.Giving.{GivesWay};

use crate::passed::Passed;
use es_lexer::next_token;
use es_reader::ParseFault;
use es_tree::{Goal, LexFault, Token};
use std::alloc::{AllocError, Global};
use std::collections::BTreeMap;
use std::marker::Model;

/// A token that was looked at, with the place that it was read from and the goal.
#[derive(Clone, Copy, Debug, PartialEq, Eq)]
pub struct Seen {
    pub at: u32,
    pub goal: Goal,
    pub token: Token,
    /// Whether the same token stands there at each goal: it begins neither `/` nor `}`.
    pub at_each_goal: bool,
}

/// A text, with the two tokens that were looked at last: a production that looks one token ahead comes back to the first.
#[derive(Drop)]
pub struct Cursor<'a> {
    pub(crate) text: &'a [u8],
    pub(crate) alloc: Global,
    last: Option<Seen>,
    before: Option<Seen>,
    passed: BTreeMap<u64, Passed>,
    // No attempt behind this place is in `passed`.
    furthest: u32,
}

impl<'a> Model for Cursor<'a> {
    ghost use Rattle.std.specs.Prelude.{List, ℕ, IfSome};
    ghost use Rattle.std.specs.List.{All};
    ghost use Rattle.std.specs.Map.{values_of};
    ghost use Rattle.es_cursor.specs.Seen.{IsSeen};
    ghost use Rattle.es_cursor.specs.Giving.{GivesWay};

    ghost Value = { List ℕ };

    ghost view = { λ cursor. cursor.text.now };

    ghost invariant = { λ cursor. IfSome cursor.last (IsSeen cursor.text.now)
        × IfSome cursor.before (IsSeen cursor.text.now)
        × All (GivesWay cursor.text.now) (values_of cursor.passed.entries) };
}

// The byte at a place, or 0 at the end.
fn byte_at(text: &[u8], place: u32) -> u8
    requires { place ≤ length text.now }
    ensures { result ≡ byte (drop place text.now) 0 }
{
    let (_, rest) = text.split_at(place as usize);
    match rest.first() {
        Some(first) => *first,
        None => 0,
    }
}

// The token at a place, with what is remembered of it.
fn look(text: &[u8], goal: Goal, at: u32) -> Result<Seen, LexFault>
    requires { Stands text.now at }
    ensures fault { IfErr result (λ fault. token_at text.now at goal ≡ Err fault) }
    ensures seen { IfOk result (λ seen. (seen.at ≡ at) × (seen.goal ≡ goal) × IsSeen text.now seen) }
{
    let token = next_token(text, at, goal)?;
    let first = byte_at(text, token.start);
    Ok(Seen {
        at,
        goal,
        token,
        at_each_goal: first != b'/' && first != b'}',
    })
}

// The token that was looked at, where it stands at this place and goal.
fn token_of(text: &[u8], seen: Option<Seen>, goal: Goal, at: u32) -> Option<Token>
    requires { IfSome seen (IsSeen text.now) }
    ensures { IfSome result (λ token. (token_at text.now at goal ≡ Ok token) × LiesBehind text.now at token) }
{
    let seen = seen?;
    if seen.at == at && (seen.at_each_goal || seen.goal == goal) {
        Some(seen.token)
    } else {
        None
    }
}

impl<'a> Cursor<'a> {
    /// A cursor that has looked at nothing. What is made while it reads takes memory of `alloc`.
    pub fn new(alloc: Global, text: &'a [u8]) -> Cursor<'a>
        ensures { result ≡ text.now }
    {
        Cursor {
            text,
            alloc,
            last: None,
            before: None,
            passed: BTreeMap::new(alloc),
            furthest: 0,
        }
    }

    /// The number of bytes of the text.
    pub fn len(&self) -> usize
        ensures { result ≡ length self.now }
    {
        self.text.len()
    }

    /// The memory that parts of the tree are made in.
    pub fn alloc(&self) -> Global {
        self.alloc
    }

    // The token that is remembered, where it stands at this place and goal.
    fn remembered(&self, goal: Goal, at: u32) -> Option<Token>
        ensures { IfSome result (λ token. (token_at self.now at goal ≡ Ok token) × LiesBehind self.now at token) }
    {
        if let Some(token) = token_of(self.text, self.last, goal, at) {
            return Some(token);
        }
        token_of(self.text, self.before, goal, at)
    }

    /// The token at a place, read at a goal, if one stands there.
    #[tactic(auto, unfolding(es_reader::specs::Basics::token))]
    pub fn peek(&mut self, goal: Goal, at: u32) -> Option<Token>
        requires { Stands self.old at }
        ensures is { result ≡ spec.token self.old goal at }
        ensures lies { IfSome result (Lies self.old) }
        ensures kept { self.new ≡ self.old }
    {
        if let Some(token) = self.remembered(goal, at) {
            return Some(token);
        }
        match look(self.text, goal, at) {
            Ok(seen) => {
                self.before = self.last;
                self.last = Some(seen);
                Some(seen.token)
            }
            Err(_) => None,
        }
    }

    /// The token at a place, read at a goal, which has to stand there.
    pub fn token(&mut self, goal: Goal, at: u32) -> Result<Token, ParseFault>
        requires { Stands self.old at }
        ensures reads { Reads (spec.token self.old goal at) result }
        ensures lies { IfOk result (Lies self.old) }
        ensures kept { self.new ≡ self.old }
    {
        match self.peek(goal, at) {
            Some(token) => Ok(token),
            None => Err(ParseFault::Syntax),
        }
    }

    /// Whether the attempt is known to give way.
    pub fn has_passed(&self, passed: Passed) -> bool
        ensures { (result ≡ true) → GivesWay self.now passed }
    {
        if self.furthest < passed.at {
            return false;
        }
        match self.passed.get(&passed.key()) {
            Some(known) => known.is_same(passed),
            None => false,
        }
    }

    /// Remembers that the attempt gives way.
    pub fn pass(&mut self, passed: Passed) -> Result<(), AllocError>
        requires { GivesWay self.old passed }
        ensures { self.new ≡ self.old }
    {
        self.passed.insert(passed.key(), passed)?;
        self.furthest = self.furthest.max(passed.at);
        Ok(())
    }
}
