//! The touches of a module: stretches of its text that are no site and are written anew all the same.
//!
//! `touches` finds them for `module_body::body_of`: names of the top where they are declared without a value, the name of a class
//! of the top within the class, the word `default` before a function without a name, and `typeof require`.
//!
//! Way of data: `tables` puts together what is told of a text: its scopes, the parts around its places, what binds there, and which
//! binding has which name (`numbers`). `around` tells `typeof` of just a name, `given` whether a `var` is given a value, `anew` what is
//! written at a place, and `finding` goes through the marks once. `specs/Touches` has the definition.
//!
//! Limits: an outline of fewer than 4,294,967,294 marks, and fewer than 4,294,967,296 bindings. A `var` that stands in a `catch` whose
//! parameter has the same name refers to this parameter and is no touch, as it is no site. Time and memory are linear in the marks,
//! but for scopes, which take the depth of the parts for a name at most.
#![tactic(auto)]

mod anew;
mod around;
mod finding;
mod given;
mod marks;
mod numbers;
mod tables;

pub use finding::touches;
