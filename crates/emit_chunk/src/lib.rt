//! The files of a bundle.
//!
//! `entry_file` goes from a graph, its plan and the bodies of its modules to the file that starts a page at an entry:
//! the runtime text (`prelude`), the row of the entry's group and the table of its chunks (`entry`), and a factory for
//! each scope of the entry chunk (`factory`), with numbers and ids (`write`). `specs/Entry.antt` has the text of a
//! file, `specs/Runtime.antt` the runtime.
//!
//! So far it writes bare graphs alone: modules without bindings and sites, none of them JSON (`specs/Bare.antt`). The
//! numbers of the plan have to be in range (`specs/Ranges.antt`).
#![tactic(auto)]

mod entry;
mod factory;
mod prelude;
mod write;

pub use entry::entry_file;
pub use prelude::runtime;
