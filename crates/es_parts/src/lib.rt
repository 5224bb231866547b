//! Which parts of an outline enclose each of its places, and how a place declares a name: tables, each made in one pass.
//!
//! `Enclosing::new` goes through the marks once with the parts that are open, and `around` tells of a place which part is the
//! innermost one there, which pattern is, and whether a function encloses it. `Binders::new` does the same for the part that
//! binds, by which `declared` tells how the name at a place is declared. Parts are told by the places where they begin.
//!
//! Limits: an outline of fewer than 4,294,967,294 marks; a table takes some bytes a mark.
#![tactic(auto)]

mod binders;
mod declaring;
mod enclosing;
mod frame;
mod open_parts;

pub use binders::Binders;
pub use declaring::declared;
pub use enclosing::{Enclosing, Surroundings};
