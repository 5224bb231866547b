//! An outline that is being written.
ghost use Rattle.std.specs.Prelude.{◌≡◌, ◌≤◌, take, length, OnOk};
ghost use Rattle.es_outline.specs.Outline as spec;
ghost use Rattle.es_outline.specs.Outlined.{no_outline};

use crate::mark::{Mark, Part, Role};
use es_tree::Token;
use std::alloc::{AllocError, Global};
use std::marker::Model;

/// The marks so far. Contracts see them with those up to where the outline was kept last, which is where it can go back to.
#[derive(Drop)]
pub struct Outline {
    marks: Vec<Mark>,

    // How many marks there were when it was kept last.
    kept: usize,
}

impl Model for Outline {
    ghost use Rattle.std.specs.Prelude.{◌≤◌, take, length};
    ghost use Rattle.es_outline.specs.Outlined.{Outlined};

    ghost Value = { Outlined };

    ghost view = { λ outline. record {
      marks = outline.marks.items;
      kept = take outline.kept outline.marks.items;
    } };

    ghost invariant = { λ outline. outline.kept ≤ length outline.marks.items };
}

impl Outline {
    /// No marks. It takes no memory.
    pub fn new(alloc: Global) -> Outline
        ensures { result ≡ no_outline }
    {
        Outline {
            marks: Vec::new(alloc),
            kept: 0,
        }
    }

    /// The marks.
    pub fn marks(&self) -> &[Mark]
        ensures { result.now ≡ self.now.marks }
    {
        self.marks.as_slice()
    }

    /// Adds a mark.
    pub fn put(&mut self, mark: Mark) -> Result<(), AllocError>
        ensures marks { OnOk result (self.new.marks ≡ spec.put mark self.old.marks) }
        ensures kept { self.new.kept ≡ self.old.kept }
    {
        self.marks.push(mark)?;
        Ok(())
    }

    /// Adds a token that is this.
    pub fn role(&mut self, role: Role, token: Token) -> Result<(), AllocError>
        ensures marks { OnOk result (self.new.marks ≡ spec.told role token self.old.marks) }
        ensures kept { self.new.kept ≡ self.old.kept }
    {
        self.put(Mark::Token(role, token))
    }

    /// Adds a token of which nothing is told.
    pub fn one(&mut self, token: Token) -> Result<(), AllocError>
        ensures marks { OnOk result (self.new.marks ≡ spec.one token self.old.marks) }
        ensures kept { self.new.kept ≡ self.old.kept }
    {
        self.role(Role::Plain, token)
    }

    /// Adds where a part begins.
    pub fn begin(&mut self, part: Part) -> Result<(), AllocError>
        ensures marks { OnOk result (self.new.marks ≡ spec.begin part self.old.marks) }
        ensures kept { self.new.kept ≡ self.old.kept }
    {
        self.put(Mark::Begin(part))
    }

    /// Adds where a part ends.
    pub fn end(&mut self, part: Part) -> Result<(), AllocError>
        ensures marks { OnOk result (self.new.marks ≡ spec.end part self.old.marks) }
        ensures kept { self.new.kept ≡ self.old.kept }
    {
        self.put(Mark::End(part))
    }

    /// Adds a name that is this, or that none stands there.
    pub fn named(&mut self, role: Role, name: Option<Token>) -> Result<(), AllocError>
        ensures marks { OnOk result (self.new.marks ≡ spec.named role name self.old.marks) }
        ensures kept { self.new.kept ≡ self.old.kept }
    {
        match name {
            Some(token) => self.role(role, token),
            None => self.put(Mark::Unnamed),
        }
    }

    /// Adds a semicolon, or that it is left out.
    pub fn semicolon(&mut self, semi: Option<Token>) -> Result<(), AllocError>
        ensures marks { OnOk result (self.new.marks ≡ spec.semicolon semi self.old.marks) }
        ensures kept { self.new.kept ≡ self.old.kept }
    {
        match semi {
            Some(token) => self.one(token),
            None => self.put(Mark::NoSemicolon),
        }
    }

    /// Adds a token of which nothing is told, if it is there.
    pub fn maybe(&mut self, token: Option<Token>) -> Result<(), AllocError>
        ensures marks { OnOk result (self.new.marks ≡ spec.opt spec.one token self.old.marks) }
        ensures kept { self.new.kept ≡ self.old.kept }
    {
        match token {
            Some(token) => self.one(token),
            None => Ok(()),
        }
    }

    /// Keeps how far it is. What is answered is handed to `settle` or `undo`.
    pub fn keep(&mut self) -> usize
        ensures marks { self.new.marks ≡ self.old.marks }
        ensures kept { self.new.kept ≡ self.old.marks }
        ensures before { self.old.kept ≡ take result self.old.marks }
        ensures inside { result ≤ length self.old.marks }
    {
        let before = self.kept;
        self.kept = self.marks.len();
        before
    }

    /// Leaves the marks that were added since it was kept.
    pub fn settle(&mut self, before: usize)
        requires inside { before ≤ length self.old.kept }
        ensures marks { self.new.marks ≡ self.old.marks }
        ensures kept { self.new.kept ≡ take before self.old.kept }
    {
        self.kept = before;
    }

    /// Takes back the marks that were added since it was kept.
    pub fn undo(&mut self, before: usize)
        requires inside { before ≤ length self.old.kept }
        ensures marks { self.new.marks ≡ self.old.kept }
        ensures kept { self.new.kept ≡ take before self.old.kept }
    {
        self.marks.truncate(self.kept);
        self.kept = before;
    }
}
