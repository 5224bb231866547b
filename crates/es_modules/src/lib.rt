//! The items of a program: imports, exports, and everything else that stands at its top.
//!
//! `trace_items` is the main call: it writes the outline of all items of a script or a module, up to the end of the text, and
//! `trace_program_item` that of one. Imports and requests hold nothing that nests; an export takes a `Knot` for what it declares.
//! Each function answers by the tracer of its name in `es_trace`, or with want of memory, and keeps what the outline may go back
//! to. `string`, `id_name` and `end` are tokens of a kind that have to stand somewhere. Whether what is exported is declared,
//! and whether names are exported twice, is not asked here.
#![tactic(auto)]

mod exports;
mod imports;
mod items;
mod requests;
mod tokens;

pub use exports::trace_export;
pub use imports::trace_import;
pub use items::{trace_default, trace_items, trace_program_item};
pub use requests::{source_behind, trace_source};
pub use tokens::{end, id_name, string};
