//! Reads the text of a module that holds simple calls and bare import declarations alone.
//!
//! `read_module` goes from the bytes of a file to a `ModuleText`: the kind of the module, its requests and its body. A
//! token is read by `es_lexer` and told apart (`parts`), a list of statements goes on with it (`steps`), and what is
//! kept of it goes into a draft (`draft`). `specs/Meaning.antt` says which module a text is.
//!
//! Calls are `NAME(ARGUMENTS);` and declarations `import STRING;`, of plain ASCII without escapes. Any other text is
//! that of no such module, and the answer is `None`. A text has at most `MAX_FILE_LEN` bytes.
#![tactic(auto)]

mod draft;
mod parts;
mod read;
mod steps;

pub use read::{ModuleText, read_module};
