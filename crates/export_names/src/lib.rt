//! The names that a module exports, and what they stand for.
//!
//! A `Resolver` is made for a graph. Its `resolve` answers what a name stands for where it is imported from a module,
//! by ECMA-262's ResolveExport, and keeps the exports of each module that a question came to, by name. `resolve_export`
//! is a single question by itself. `names` lists the names that a module exports, by GetExportedNames, in byte order.
//!
//! The graph has to fit. Chains and circles of stars may be as long as the graph has modules: what waits for an answer
//! is kept on the heap, and each pair of a module and a name is gone through once at most.
#![tactic(auto)]

mod exported;
mod found;
mod law;
mod resolve;
mod resolver;
mod starred;
mod step;

pub use exported::names;
pub use found::is_same;
pub use law::resolves_to_one;
pub use pk_types::Found;
pub use resolve::resolve_export;
pub use resolver::Resolver;
