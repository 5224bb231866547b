//! What a module imports, and what it declares at its top, told of its outline.
//!
//! `Declarations::new` goes through the marks of an outline: each name that an import declaration binds is an entry of the imports
//! (`imported`, `gathered`), and each name that the top declares otherwise is a binding, once, at its first place (`bound`,
//! `bindings`). What `export default` exports without a name is a binding too (`nameless`).
//!
//! `Inside` tells what stands directly in a part, from a table that is filled in one pass (`noted`): so the request of a
//! declaration, which stands behind its names, is known where a name stands (`request_of`). Those above use it too.
//!
//! Limits: an outline of fewer than 4,294,967,294 marks.
#![tactic(auto)]

mod bindings;
mod bound;
mod declarations;
mod gathered;
mod imported;
mod inside;
mod nameless;
mod noted;

pub use declarations::Declarations;
pub use inside::Inside;
pub use nameless::unnamed;
