//! Tests of the files of a bundle, on a plan that is made by hand.
//!
//! `two_modules_file` is the entry file of two modules, and the test compares it to the byte.
#![tactic(auto)]

#[cfg(test)]
mod entry_tests;
mod hand;

pub use hand::two_modules_file;
