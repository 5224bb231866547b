//! What a key of the `exports` or the `imports` of a `package.json` stands for.
//!
//! `target` takes the map as it stands in the manifest, a key and the form of the request, and answers a file of the
//! package, a bare request, or a fault. `key` finds the name that decides, in one pass over the names; `meaning`
//! follows its value through lists and conditions; `text` looks at a target and puts the matched part in for `*`.
//! `specs/Answers.antt` says what the one answer of a key is.
//!
//! The active conditions are `webpack`, `module`, and `import` or `require` by the form. Whether the file is there
//! isn't asked.
#![tactic(auto)]

mod answer;
mod key;
mod law;
mod lookup;
mod meaning;
mod text;

pub use answer::{Table, Target, TargetFault};
pub use law::{equal_name_decides, has_one_answer};
pub use lookup::target;
