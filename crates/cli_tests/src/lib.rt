//! Tests of the command line, over files, a store and streams in memory.
//!
//! A `World` is such files, such a store and such a sink, with the numbers of the calls that are to fail. `transcript`
//! runs words in it and tells what the run left, as one text. The tests compare these texts, and `build_run` prints
//! them for a table of trees.
#![tactic(auto)]

#[cfg(test)]
mod build_tests;
mod world;

pub use world::{World, transcript};
