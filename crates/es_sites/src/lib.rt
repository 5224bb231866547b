//! The sites of a module: what is written anew where its body is spelled, told of its outline.
//!
//! `sites` goes through the marks of an outline: a name that refers to a binding of the top or to an import is read,
//! written or given its first value; a namespace is asked for a member or used as a whole; `import()` and `require()` of a
//! text call.
//!
//! A first pass notes by parts which request and which class without a name stand directly in them (`inside`). Then `done`
//! tells of each place what the module does there, by what the name there stands for (`meaning`), by the declaration that
//! binds it (`binding`) and by the marks around it (`marks`); `finding` makes the sites of this.
//!
//! The time is linear in the marks: the parentheses around a name are gone through for this name alone, and a name that a
//! declaration binds stands directly in it or in a pattern of it.
//!
//! Limits: an outline of fewer than 4,294,967,294 marks.
#![tactic(auto)]

mod binding;
mod done;
mod finding;
mod inside;
mod marks;
mod meaning;
mod tables;

pub use finding::sites;
