//! The files of a bundle.
//!
//! `chunk_file` and `entry_file` write a file from a `Material`: the graph, its plan, the bodies of its modules, the
//! getters of its scopes and the texts of its JSON modules, borrowed and known to hold together. `hash8` gives the hash
//! by which an entry file names a chunk file. `chunk_size` and `entry_size` tell how long a file is before it is made.
//!
//! Way of data: `material` holds what is written; `pen` takes the bytes, or only counts them, so that a text is put
//! together once for both; `parts` writes lists, with a separator between each two; `ids`, `heads`, `segments` and
//! `json` write what stands in a factory, `required` finds what a CommonJS module requires, `factories` puts these
//! together, and `chunk` and `entry` the files. `specs/Factories`, `specs/Chunks` and `specs/Entries` have the texts.
//!
//! Limits: a file as long as memory holds. A size is the type's last value where the text is longer. The time is linear
//! in the text, but for the groups and chunks of an entry file, which are put in order.
#![tactic(auto)]

mod chunk;
mod entry;
mod factories;
mod hash;
mod heads;
mod ids;
mod json;
mod material;
mod order;
mod parts;
mod pen;
mod required;
mod segments;

pub use chunk::{chunk_file, chunk_size};
pub use entry::{entry_file, entry_size};
pub use hash::hash8;
pub use material::Material;
