//! The first name that is declared twice.
//!
//! The marks are gone through once. For each scope and name it is noted whether the scope has a lexical declaration of
//! the name so far, and whether it has a `var` in it or through it. A `var` goes through the scopes around it out to its
//! own; parts nest no deeper than the parser lets them, so these are few.
ghost use Rattle.std.specs.Prelude.{◌≡◌, ◌<◌, ◌≤◌, ◌^◌, ◌+◌, [], ◌∷◌, Some, length, slice_get, AllPairs, IfOk};
ghost use Rattle.es_scope.specs.Claims as claims;
ghost use Rattle.es_scope.specs.Frames.{frames_at, scopes_of};
ghost use Rattle.es_scope.specs.Named.{AreNumbered};
ghost use Rattle.es_scope.specs.Noting.{Takes, claim_at, function_claim, lexical_claim, through_claim, var_claim};
ghost use Rattle.es_scope.specs.Twice.{IsFirstTwice};

use crate::declared::declared;
use crate::frame::Frame;
use crate::kinds::DeclarationKind;
use crate::names::Names;
use crate::open_parts::OpenParts;
use crate::outlined::Outlined;
use es_outline::Mark;
use es_tree::ProgramGoal;
use indexmap::IndexSet;
use std::alloc::{AllocError, Global};
use std::marker::Model;

// Scopes, each with the number of a name that it has: as a lexical declaration, or as a `var` in it or through it.
#[derive(Drop)]
struct Noted {
    lexical: IndexSet<(u32, u32)>,
    vars: IndexSet<(u32, u32)>,
}

impl Model for Noted {
    ghost use Rattle.es_scope.specs.Noting.{Notes};

    ghost Value = { Notes };

    ghost view = { λ noted. record { lexical = noted.lexical.keys; vars = noted.vars.keys } };
}

// Whether functions of the innermost scope are like `var`.
fn hoists(goal: ProgramGoal, frame: Frame) -> bool
    ensures { result ≡ claims.hoists goal frame }
{
    frame.scope == frame.var_scope && (frame.scope != 0 || matches!(goal, ProgramGoal::Script))
}

impl Noted {
    // Nothing is noted.
    fn new(alloc: Global) -> Noted
        ensures { result ≡ record { lexical = []; vars = [] } }
    {
        Noted {
            lexical: IndexSet::new(alloc),
            vars: IndexSet::new(alloc),
        }
    }

    // Notes a lexical declaration in a scope. Whether it clashes.
    fn lexical(&mut self, scope: u32, number: u32) -> Result<bool, AllocError>
        ensures { IfOk result (Takes self.old (lexical_claim number (scope ∷ [])) self.new) }
    {
        let is_new = self.lexical.insert((scope, number))?;
        Ok(!is_new || self.vars.contains(&(scope, number)))
    }

    // Notes a `var` in a scope or through it. Whether it clashes.
    fn var(&mut self, scope: u32, number: u32) -> Result<bool, AllocError>
        ensures { IfOk result (Takes self.old (var_claim number (scope ∷ [])) self.new) }
    {
        self.vars.insert((scope, number))?;
        Ok(self.lexical.contains(&(scope, number)))
    }

    // Notes a class in the scope around it and in its own. Whether it clashes.
    fn class(&mut self, outer: u32, own: u32, number: u32) -> Result<bool, AllocError>
        requires { outer < own }
        ensures { IfOk result (Takes self.old (lexical_claim number (outer ∷ own ∷ [])) self.new) }
    {
        if self.lexical(outer, number)? {
            return Ok(true);
        }
        self.lexical(own, number)
    }

    // Notes a `var` in each scope around it, out to its own. Whether it clashes in one of them.
    fn through(&mut self, parts: &OpenParts, own: u32, number: u32) -> Result<bool, AllocError>
        requires { AllPairs (λ inner outer. outer ≤ inner) (scopes_of parts.now) }
        ensures { IfOk result (Takes self.old (through_claim number own parts.now) self.new) }
    {
        let mut last = None;
        let mut frames = parts.frames();
        while let Some((frame, outer)) = frames.split_last() {
            let scope = frame.scope;
            if scope < own {
                return Ok(false);
            }
            if last != Some(scope) && self.var(scope, number)? {
                return Ok(true);
            }
            last = Some(scope);
            frames = outer;
        }
        if own > 0 || last == Some(0) {
            return Ok(false);
        }
        self.var(0, number)
    }

    // Notes a function in its scope. Whether it clashes.
    fn function(&mut self, goal: ProgramGoal, frame: Frame, number: u32) -> Result<bool, AllocError>
        ensures { IfOk result (Takes self.old (function_claim goal frame number) self.new) }
    {
        if hoists(goal, frame) {
            self.var(frame.scope, number)
        } else {
            self.lexical(frame.scope, number)
        }
    }

    // Notes what a mark declares. Whether it clashes.
    fn take(
        &mut self,
        outlined: &Outlined<'_>,
        parts: &OpenParts,
        mark: Mark,
        place: u32,
        number: u32,
    ) -> Result<bool, AllocError>
        requires parts { parts.now ≡ frames_at outlined.now.marks place }
        requires mark { slice_get outlined.now.marks place ≡ Some «mark» }
        requires short { place + 2 < 2 ^ 32 }
        ensures { IfOk result (Takes self.old (claim_at outlined.now number place) self.new) }
    {
        let frame = parts.innermost();
        let Some(how) = declared(outlined, mark, frame) else {
            return Ok(false);
        };
        match how {
            DeclarationKind::Var => self.through(parts, frame.var_scope, number),
            DeclarationKind::Function => self.function(outlined.goal(), frame, number),
            DeclarationKind::Class => self.class(frame.scope, place + 2, number),
            DeclarationKind::Let | DeclarationKind::Const | DeclarationKind::Import => {
                self.lexical(frame.scope, number)
            }
            DeclarationKind::Parameter | DeclarationKind::Catch => Ok(false),
        }
    }
}

/// The first place where a name is declared that a scope has already, if the two clash.
pub(crate) fn first_twice(
    alloc: Global,
    outlined: &Outlined<'_>,
    names: &Names,
) -> Result<Option<u32>, AllocError>
    requires short { length outlined.now.marks + 2 < 2 ^ 32 }
    requires numbered { AreNumbered outlined.now names.now.texts names.now.numbers.items }
    ensures { IfOk result (IsFirstTwice outlined.now) }
{
    let numbers = names.numbers.as_slice();
    let mut parts = OpenParts::new(alloc);
    let mut noted = Noted::new(alloc);
    for (index, mark) in outlined.marks().iter().enumerate() {
        let place = index as u32;
        if noted.take(outlined, &parts, *mark, place, numbers[index])? {
            return Ok(Some(place));
        }
        parts.pass(*mark, place)?;
    }
    Ok(None)
}
