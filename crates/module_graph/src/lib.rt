//! The modules that the entries lead to, numbered in the order of their least addresses.
//!
//! A `GraphBuilder` begins with the paths of the entries. It says which module it wants next, takes what is known of
//! that one, its `Facts` and the paths that its requests lead to, and gives the `Graph` once it wants no more. Paths
//! have their numbers from the moment that they are known. More than `MAX_MODULES` of `pk_types` are refused.
#![tactic(auto)]

mod builder;
mod fault;
mod sighting;

pub use builder::GraphBuilder;
pub use fault::GraphFault;
