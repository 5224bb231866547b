//! Gives modules and chunks the numbers by which a bundle names them.
//!
//! [`ids`] is the main call. It first tells which modules stand in chunks (`placed`). Natural ids count these and the
//! chunks (`natural`). Hashed ids (`hashed`) are taken from the SHA-256 of a module's label, so that a module that comes
//! or goes rarely changes the others; one that is taken gives way to the next free number (`taken`).
//!
//! Limits: 1,048,576 modules in chunks, and as many chunks that are no entry chunks. Entry chunks have no id.
#![tactic(auto)]

mod assign;
mod hashed;
mod natural;
mod placed;
mod taken;

pub use assign::ids;
