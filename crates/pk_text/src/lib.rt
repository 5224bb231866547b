//! What both the outside and the plain records of the bundler are made of: texts, sequences and numbered texts.
//!
//! A `Text` is bytes and a `Sequence` is items, each on the heap and moved without a copy. Contracts see them as their
//! lists, so two with the same items are equal there. A map with `Text` keys is asked by a `Key`, which borrows its
//! bytes. An `Interner` gives distinct texts the numbers in which they are first seen, up to 2^32 of them.
//!
//! `specs` also has the words for lists that several crates speak of, and `proofs` the laws on lists that they share.
#![tactic(auto)]

mod intern;
mod sequence;
mod text;

pub use intern::Interner;
pub use sequence::Sequence;
pub use text::{Key, Text};
