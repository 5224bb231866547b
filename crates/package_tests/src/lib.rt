//! A test of the manifest's reader: many names, each of them twice. The tables of cases stand in the crate
//! `package_run`.
#![tactic(auto)]

#[cfg(test)]
mod names;
