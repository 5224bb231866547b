//! Which modules are there already when a group is loaded, whatever way led to it.
//!
//! `available` takes the groups of a graph, each with the modules of its closure and the groups that it leads to, and
//! gives `AvailRows`: for each group a row with one bit for each module. The rows of entries' groups begin empty and
//! all others full. A list of groups is worked off: what a group has, its row and its closure, is all that may stay in
//! the rows of those that it leads to; where one of these loses a module, it is worked off again. So each row shrinks
//! to what every way to its group has. A row takes 8 bytes for 64 modules, and each step goes through rows by words.
#![tactic(auto)]

mod row;
mod rows;
mod shrinking;

pub use rows::AvailRows;
pub use shrinking::available;
