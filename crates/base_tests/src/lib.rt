//! Tests of `pk_base`, which stand apart so that it is proved only once.
//!
//! `path_tests` reads and joins paths by a table of cases, and `outside_tests` plays calls on the objects in memory,
//! those that fail by number among them. `count_on_a_blank` shows that steps can be counted.
#![tactic(auto)]

mod counted;
#[cfg(test)]
mod outside_tests;
#[cfg(test)]
mod path_tests;

pub use counted::count_on_a_blank;
