//! Which modules each module of a graph evaluates before itself.
//!
//! `active_edges` takes a graph and the names of its modules that are used. It goes from the entries along edges,
//! `require` and `import()`, each module once. For each module it gathers what is used through its requests, from its
//! sites and from the used names that it passes on, going through both once. Then each declaration of a module without
//! side effects gives way to the stops of the names that are used through it, unless its namespace is used.
//!
//! `Stops` finds the stops of a name of a module once, however many modules use it. The steps are public as well, for
//! what is used in a graph is found by the same: `passing_of` answers how an exported name is passed on, `add_sites`
//! gathers into a `Through` what sites use, and `meet_called` the modules that they call for.
#![tactic(auto)]

mod edges;
mod meeting;
mod names;
mod passing;
mod search;
mod sites;
mod stops;
mod through;

pub use meeting::meet_called;
pub use passing::{Passing, passing_of};
pub use search::active_edges;
pub use sites::add_sites;
pub use stops::Stops;
pub use through::Through;
