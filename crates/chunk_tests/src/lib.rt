//! Tests of the files of a bundle, on a graph, a plan and bodies that are made by hand.
//!
//! `write_files` writes the bundle of `specs/Worked`: an entry that evaluates a JSON module, and a module of CommonJS that an
//! `import()` leads to and that requires the JSON module. `specs/Texts` has the files as they are to be. That the files
//! are these is proved (`specs/Written`), and the test compares them to the byte. Beside it `proofs/Rows` has three laws
//! of the definitions: the text of an entry without a token, of a scope that three modules share, and of a chunk file.
#![tactic(auto)]

mod bodies;
#[cfg(test)]
mod file_tests;
mod files;
mod graph;
mod plan;

pub use files::{Files, write_files};
