//! Plans a bundle of a graph, and gives its files.
//!
//! `plan` goes from a graph to a `Plan`: `edges` has the edges that modules declare and which of them are active,
//! `closure` the search along them, `scopes` what each scope runs, `ids` the ids, and `planning` puts them together.
//! `output` gives the files of a plan, over `emit_chunk`. `specs/Plans.antt` says what a plan is.
//!
//! So far a graph has one entry and is bare: its modules have no bindings and no sites, and none is JSON. Nothing is
//! split off and no scope is shared.
#![tactic(auto)]

mod closure;
mod edges;
mod files;
mod ids;
mod planning;
mod scopes;

pub use files::{OutFile, output};
pub use planning::plan;
