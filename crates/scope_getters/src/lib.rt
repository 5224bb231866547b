//! What the heads of a bundle's factories list.
//!
//! `getters` takes the `Speller` of a graph with its sets, names and ids, and what of it is reached and used. For each
//! root it answers what its scope declares, which of these names other scopes spell, and the names of its namespace,
//! each with its spelling, where that is asked for. First it gathers the modules that are called for (`called`), then
//! the bindings that another scope spells, at a site or in the list of a namespace (`cells`), and then it writes the
//! lists of each scope (`lists`, `space`, `scopes`).
//!
//! Limits: those of the graph, which fits. The only fault is want of memory. Each name that a module asks of another is
//! resolved once, and each name of a namespace twice.
#![tactic(auto)]

mod called;
mod cells;
mod lists;
mod members;
mod scopes;
mod space;

pub use scopes::getters;
