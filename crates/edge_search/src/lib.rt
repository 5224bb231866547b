//! Which nodes edges lead to from a node, in any number of steps.
//!
//! A graph hands out its edges by `Edges`; lists of targets, one for each node, are such edges already. A `Search` goes
//! along them by `reach`, and then has the nodes that were met, in the order in which they were met: the edges of each
//! are gone through once. A node is known by a mark at its number, so that a search takes the time of what it meets and
//! of its edges. One `Search` serves many starts: it clears only the marks that the last one set.
#![tactic(auto)]

mod edges;
mod search;

pub use edges::Edges;
pub use search::Search;
