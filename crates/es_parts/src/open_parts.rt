//! The parts that are open where the marks of an outline are gone through.
ghost use Rattle.std.specs.Prelude.{◌≡◌, ◌<◌, ◌^◌, ◌+◌, [], OnOk};
ghost use Rattle.es_parts.specs.Frames as spec;

use crate::enclosing::Surroundings;
use crate::frame::Frame;
use es_outline::{Mark, Part};
use std::alloc::{AllocError, Global};
use std::marker::Model;

/// What is known of the open parts, seen with the innermost first.
#[derive(Drop)]
pub(crate) struct OpenParts {
    frames: Vec<Frame>,
}

impl Model for OpenParts {
    ghost use Rattle.std.specs.Prelude.{List, reverse};
    ghost use Rattle.es_parts.specs.declared.frame.Frame.{Frame};

    ghost Value = { List Frame };

    ghost view = { λ parts. reverse parts.frames.items };
}

// Whether a part is a pattern.
fn is_pattern(part: Part) -> bool
    ensures { result ≡ spec.is_pattern part }
{
    matches!(part, Part::Pattern)
}

// Whether a part is a function.
fn is_function(part: Part) -> bool
    ensures { result ≡ spec.is_function part }
{
    matches!(part, Part::Function | Part::Arrow)
}

// Whether a part binds names.
fn is_binder(part: Part) -> bool
    ensures { result ≡ spec.is_binder part }
{
    matches!(
        part,
        Part::Declaration | Part::Function | Part::Arrow | Part::Catch
    )
}

// What is known within a part that begins at the place.
fn framed(part: Part, place: u32, outer: Frame) -> Frame
    ensures { result ≡ spec.framed part place outer }
{
    Frame {
        around: Surroundings {
            part: Some(place),
            pattern: if is_pattern(part) {
                Some(place)
            } else {
                outer.around.pattern
            },
            in_function: is_function(part) || outer.around.in_function,
        },
        binder: if is_binder(part) {
            Some(place)
        } else {
            outer.binder
        },
    }
}

impl OpenParts {
    /// No part is open. It takes no memory.
    pub fn new(alloc: Global) -> OpenParts
        ensures { result ≡ [] }
    {
        OpenParts {
            frames: Vec::new(alloc),
        }
    }

    /// What is known where the marks are now.
    pub fn innermost(&self) -> Frame
        ensures { result ≡ spec.innermost self.now }
    {
        match self.frames.last() {
            Some(frame) => *frame,
            None => Frame {
                around: Surroundings {
                    part: None,
                    pattern: None,
                    in_function: false,
                },
                binder: None,
            },
        }
    }

    // Goes into a part that begins at the place.
    fn enter(&mut self, part: Part, place: u32) -> Result<(), AllocError>
        ensures { OnOk result (self.new ≡ spec.entered part place self.old) }
    {
        let outer = self.innermost();
        self.frames.push(framed(part, place, outer))?;
        Ok(())
    }

    // Goes out of the innermost part.
    fn leave(&mut self)
        ensures { self.new ≡ spec.left self.old }
    {
        self.frames.pop();
    }

    /// Goes behind the mark at the place.
    pub fn pass(&mut self, mark: Mark, place: u32) -> Result<(), AllocError>
        ensures { OnOk result (self.new ≡ spec.behind mark place self.old) }
    {
        match mark {
            Mark::Begin(part) => self.enter(part, place),
            Mark::End(_) => {
                self.leave();
                Ok(())
            }
            _ => Ok(()),
        }
    }
}
