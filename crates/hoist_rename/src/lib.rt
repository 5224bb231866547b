//! Gives the bindings of modules that share a scope their names.
//!
//! [`names_for`] is the main call for one root, and [`names_of_set`] the one for who knows the modules of each root: so all
//! sets of a graph take the time of their bindings. One module alone keeps its names. In a larger set the names that a
//! member uses without declaring them, and those that inner scopes declare, are taken from the start (`shared`), and then
//! each binding is given its name, or that name with the first number that makes it free (`taken`). For each name the last
//! number that was tried is kept, so that many bindings of one name take no longer than many of several.
//!
//! Limits: none beside memory.
#![tactic(auto)]

mod naming;
mod shared;
mod taken;

pub use naming::{names_for, names_of_set};
