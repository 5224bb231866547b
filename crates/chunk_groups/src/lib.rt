//! The groups of modules that are loaded together.
//!
//! `groups` takes a graph with its active edges. What is loaded with a module and what its `import()` leads to is
//! gathered once for each module; from these lists come the targets of the groups, then the closure of each by one
//! search along the lists, and last the groups that each closure leads to. The time grows with the sum of what the
//! closures hold, with its edges and calls. A graph may have up to `MAX_GROUPS` groups.
#![tactic(auto)]

mod fault;
mod grouping;
mod leading;
mod lines;
mod order;

pub use fault::GroupFault;
pub use grouping::groups;
