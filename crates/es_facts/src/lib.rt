//! The facts of a module's text, or its first fault: what it asks for, imports, exports, declares and does at its sites.
//!
//! `facts` is the main call. By the name's kind it reads a text as JSON, or parses it at a goal and goes through the outline that
//! the parse gives: scopes (`es_scope`), the parts around places (`es_parts`), requests (`es_asks`), imports and bindings
//! (`es_declares`), exports (`es_exports`), sites (`es_sites`), and what is refused (`es_refusals`). The first early error by place
//! comes before any construct that is not bundled, and the first of these by place before any facts.
//!
//! Limits: a text of fewer than 4,294,967,296 bytes.
#![tactic(auto)]

mod answer;
mod faults;
mod gathering;
mod tables;
mod texts;

pub use answer::{ModuleFault, Parsed};
pub use texts::facts;
