//! Reads the settings file `pack.json`.
//!
//! `config` goes from the bytes of the file, or none where there is no file, to a `Config` with the defaults in place
//! of what is left out, or to the first fault. Keys are looked at in byte order, and a repeated key has its last value.
//!
//! The bytes become a JSON value by the kit's `serde_json` (`read`, `plain`), `check` finds its first fault, and `make`
//! and `groups` make the record. `specs/Rows.antt` is the table of keys, with their kinds and ranges.
//!
//! A nest over 127, and a number too large for a double, are no JSON here.
#![tactic(auto)]

mod check;
mod fault;
mod fields;
mod groups;
mod kind;
mod make;
mod plain;
mod read;
mod values;

pub use fault::ConfigFault;
pub use read::config;
