//! The plan of a bundle: how a graph is cut into chunks, ordered and named.
//!
//! [`plan`] is the main call. It reads as the list of its steps, each of which is a crate of its own: no name is asked for
//! in vain (`export_faults`), what is used and which edges are active (`export_usage`), the groups (`chunk_groups`), what is
//! available in them (`avail_sets`), the chunks (`split_chunks`), shared scopes (`scope_hoist`), names (`hoist_rename`) and
//! ids (`id_assign`). `planning` puts them together, `names` gives each module its names, set by set, and `members` lists the
//! modules of each set. `fault` has what keeps a graph from being planned: the first cause in the order of the steps.
//!
//! Limits: `MAX_GROUPS` groups, `MAX_CHUNKS` chunks beside the entry chunks, and 1,046,528 modules that are no entry. The time
//! is that of the steps; beside them a plan takes the time of the modules and their bindings.
#![tactic(auto)]

mod fault;
mod members;
mod names;
mod planning;

pub use fault::PlanFault;
pub use planning::plan;
