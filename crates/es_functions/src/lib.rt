//! Bindings, parameters, functions, methods and classes of ECMAScript: their outlines, as they are read from a text.
//!
//! Each function reads from a cursor and adds to an outline what its tracer in `es_trace` adds, over the tracers to the nest
//! of the knot; it answers where that ends, or that nothing of the kind stands there, or that memory is wanting. In that case
//! the outline may hold a part of what was tried: who goes on takes it back (`Outline::undo`). `trace_bind_pattern`,
//! `trace_params`, `trace_body`, `trace_func`, `trace_method` and `trace_class` are the productions; those named `.._behind`
//! begin behind a token that was seen. None calls itself: what nests is read by the knot.
#![tactic(auto)]

mod arrays;
mod binds;
mod bodies;
mod classes;
mod elements;
mod funcs;
mod keys;
mod methods;
mod objects;
mod params;

pub use binds::{decl_behind, initializer_behind, trace_bind, trace_decl, trace_part};
pub use bodies::{body_behind, trace_body, trace_callable, trace_closed_item};
pub use classes::trace_class;
pub use funcs::trace_func;
pub use keys::{trace_element_key, trace_key, trace_property_key};
pub use methods::{method_behind, trace_method};
pub use objects::trace_bind_pattern;
pub use params::trace_params;
