//! Constructs that are not bundled, and the names that a text uses freely or declares within, told of its outline.
//!
//! `first_refused` finds the first place of a construct that is not bundled, such as `eval` that is called, or `require` that is
//! more than called with a text. `free` lists the names that a text uses without declaring them, and `inner` those that its inner
//! scopes declare; both in byte order, each once.
//!
//! Way of the data: `es_scope` tells what names refer to, `es_parts` which parts are around places and bind names, `es_asks`
//! which names are free and what requests look like. `refused` goes through the marks once, and looks around at the tokens that
//! some construct begins with (`around`); `names` gathers names into a set and sorts copies of them. Time is linear in the text,
//! but for the sort of the distinct names.
//!
//! Limits: an outline of fewer than 4,294,967,294 marks.
#![tactic(auto)]

mod around;
mod names;
mod refused;

pub use names::{free, inner};
pub use refused::first_refused;
