//! Which modules share one scope, and in which order a scope runs.
//!
//! `hoists` is the main call. In the order of their numbers the modules that no set has become roots, and each takes the
//! greatest set that it may have (`roots`, `taking`); then each root is walked, with a stack on the heap (`walk`).
//!
//! What is known of a module whatever root asks is found once: whether a set may take it in (`flags`), its requesters and
//! its chunks (`lists`). A module that no set has is led by a requester that keeps it out of every set but those of the
//! roots on the way to it. So a root looks only at the modules that are led by it, in any number of steps: they are held,
//! and those that another requester asks for, or that are asked for by one that goes, go again (`held`, `gone`).
//!
//! The time is that of the modules, edges and what chunks hold, and for each root that of what it holds. A module that goes
//! again is held anew by each later root on the way to it: at worst by all of them, for usual graphs by few. Modules that
//! nothing outside asks for are looked at again by each root of other chunks; what entries lead to has none.
#![tactic(auto)]

mod flags;
mod gone;
mod ground;
mod held;
mod hoisting;
mod line;
mod lists;
mod marks;
mod met;
mod roots;
mod taking;
mod walk;

pub use hoisting::hoists;
