//! What the parser's functions share: who is called for what nests, and the loop over a list.
//!
//! A function of the parser has a `Cursor` to read from, an `Outline` to write to, and a `Knot`, by which it reads what counts
//! for the nest. `all_turns` reads a list: it takes turns, one behind the other, until one says that the list ends;
//! `comma_behind` and `comma_or_end` end a turn with the comma behind its part. All are said by the tracers of `es_trace`.
#![tactic(auto)]

mod knot;
mod lists;
mod turns;

pub use knot::Knot;
pub use lists::{comma_behind, comma_or_end, first_at};
pub use turns::{Placed, all_turns};
