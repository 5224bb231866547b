//! What a module's text becomes in a bundle.
//!
//! A `Body` is a text and its pieces in order. Each `Piece` counts the plain bytes before a site and the bytes of the
//! site. `watch_core` makes bodies of the texts that it reads, and `emit_chunk` writes them. `specs/Pieces.antt` says
//! when the pieces lie in the text. `Getters` are what the heads of the factories list.
//!
//! Nothing here computes.
#![tactic(auto)]

mod body;
mod getters;

pub use body::{Body, Piece};
pub use getters::{Getter, Getters, ScopeGetters, Variable};
