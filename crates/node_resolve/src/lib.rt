//! Resolves requests to files, and finds the nearest manifest of a folder.
//!
//! `resolve` takes the folder of a module, a request and its form, and looks at one candidate after the other through a
//! `Look`, until one decides. Its answer is a file or a reason, with the paths that it asked. `scope_of` does the same for
//! the nearest manifest. `specs/Resolution.antt` writes the candidates out; which of them decides is said there by the tree
//! that the look tells, without what lies beneath `dist`. A tree that agrees with it on the asked paths gives the same
//! answer and the same asked paths (`agreeing_trees_resolve_alike`).
//!
//! `request` tells the kinds of requests apart, `places` and `folders` make lists of paths, `ask` looks at them, `aim`
//! reads the targets of a manifest, and `walk`, `package` and `resolving` put these together.
//!
//! The work is linear in the request, and in the folders and candidates that are looked at. A path has at most 1,024 bytes.
#![tactic(auto)]

mod aim;
mod answer;
mod ask;
mod folders;
mod law;
mod look;
mod package;
mod places;
mod request;
mod resolving;
mod sight;
mod walk;

pub use answer::{Answer, ScopeAnswer, Why};
pub use law::agreeing_trees_resolve_alike;
pub use look::{Bytes, Look, LookFail};
pub use resolving::{resolve, scope_of};
