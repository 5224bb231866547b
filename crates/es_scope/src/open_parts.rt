//! The parts that are open where the marks of an outline are gone through.
ghost use Rattle.std.specs.Prelude.{◌≡◌, ◌<◌, ◌^◌, ◌+◌, [], reverse, OnOk};
ghost use Rattle.es_scope.specs.Frames as spec;

use crate::frame::{Binder, Frame};
use es_outline::{Mark, Part};
use std::alloc::{AllocError, Global};
use std::marker::Model;

/// What is known of the open parts, seen with the innermost first.
#[derive(Drop)]
pub(crate) struct OpenParts {
    frames: Vec<Frame>,
}

impl Model for OpenParts {
    ghost use Rattle.std.specs.Prelude.{List, reverse};
    ghost use Rattle.es_scope.specs.declared.frame.Frame.{Frame};

    ghost Value = { List Frame };

    ghost view = { λ parts. reverse parts.frames.items };
}

// Whether a part is a scope.
fn is_scope(part: Part) -> bool
    ensures { result ≡ spec.is_scope part }
{
    matches!(
        part,
        Part::Function
            | Part::Arrow
            | Part::FunctionBody
            | Part::Block
            | Part::For
            | Part::Switch
            | Part::Catch
            | Part::StaticBlock
            | Part::FunctionExpression
            | Part::ClassExpression
            | Part::Class
    )
}

// Whether a `var` belongs to a part.
fn is_var_scope(part: Part) -> bool
    ensures { result ≡ spec.is_var_scope part }
{
    matches!(part, Part::FunctionBody | Part::StaticBlock)
}

// What binds within a part that begins at the place.
fn binder_in(part: Part, place: u32, outer: Binder) -> Binder
    ensures { result ≡ spec.binder_in part place outer }
{
    match part {
        Part::Declaration => Binder::Declaration(place),
        Part::Function | Part::Arrow => Binder::Parameters,
        Part::Catch => Binder::Catch,
        _ => outer,
    }
}

impl OpenParts {
    /// No part is open. It takes no memory.
    pub fn new(alloc: Global) -> OpenParts
        ensures { result ≡ [] }
    {
        OpenParts {
            frames: Vec::new(alloc),
        }
    }

    /// What is known where the marks are now.
    pub fn innermost(&self) -> Frame
        ensures { result ≡ spec.innermost self.now }
    {
        match self.frames.last() {
            Some(frame) => *frame,
            None => Frame {
                scope: 0,
                var_scope: 0,
                binder: Binder::None,
            },
        }
    }

    /// The open parts, the innermost last.
    pub fn frames(&self) -> &[Frame]
        ensures { reverse result.now ≡ self.now }
    {
        self.frames.as_slice()
    }

    // Goes into a part that begins at the place.
    fn enter(&mut self, part: Part, place: u32) -> Result<(), AllocError>
        requires { place + 1 < 2 ^ 32 }
        ensures { OnOk result (self.new ≡ spec.entered part place self.old) }
    {
        let outer = self.innermost();
        self.frames.push(Frame {
            scope: if is_scope(part) {
                place + 1
            } else {
                outer.scope
            },
            var_scope: if is_var_scope(part) {
                place + 1
            } else {
                outer.var_scope
            },
            binder: binder_in(part, place, outer.binder),
        })?;
        Ok(())
    }

    // Goes out of the innermost part.
    fn leave(&mut self)
        ensures { self.new ≡ spec.left self.old }
    {
        self.frames.pop();
    }

    /// Goes behind the mark at the place.
    pub fn pass(&mut self, mark: Mark, place: u32) -> Result<(), AllocError>
        requires { place + 1 < 2 ^ 32 }
        ensures { OnOk result (self.new ≡ spec.behind mark place self.old) }
    {
        match mark {
            Mark::Begin(part) => self.enter(part, place),
            Mark::End(_) => {
                self.leave();
                Ok(())
            }
            _ => Ok(()),
        }
    }
}
