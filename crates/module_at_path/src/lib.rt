//! The module at a path: what its file is told to be, or its first fault.
//!
//! The name of a file and the nearest manifest say at which goals its text is read. `fault_without_manifest` is the first
//! look: whether a fault comes before the nearest manifest has to be sought. `module_at` is the main call: given the nearest
//! manifest it answers the facts of the module, or the first of its faults. `is_flagged` tells by the same manifest whether the
//! module is said to have no side effects. Where the requests of a module lead, and how many modules there are, is not told here.
//!
//! `specs/Faults.antt` says which fault stands at which place of a file, and that the first is the least by rank and place;
//! each answer here is by that one order.
//!
//! Limits: a file of at most `MAX_FILE_LEN` bytes. A text is parsed at most once at each goal that its name allows.
#![tactic(auto)]

mod fault;
mod module;
mod name;
mod scope;

pub use fault::FileFault;
pub use module::{fault_without_manifest, module_at};
pub use scope::{Scope, is_flagged};
