//! The outline of a syntax tree: its tokens in order, each with what it is there, and marks where parts begin and end.
//!
//! A parser writes an `Outline` as it reads; whoever needs the tree (scopes, facts, bodies) goes through its marks once.
//! `specs/Outline` says what the outline of each production is. What was tried in vain is taken back: `keep` remembers how far
//! the outline is, and `undo` goes back there.
#![tactic(auto)]

mod mark;
mod outline;

pub use mark::{Mark, Part, Role};
pub use outline::Outline;
