//! Tests of the reader of `pack.json`, which stand apart so that it is proved only once.
//!
//! Each line of a table is a file and the part of its settings, or of its fault, that is compared (`show`). `values`
//! has defaults and settings, `faults` what is refused.
#![tactic(auto)]

#[cfg(test)]
mod faults;
#[cfg(test)]
mod show;
#[cfg(test)]
mod values;
