use crate::facts::Name;
use pk_text::{Sequence, Text};

/// How a module's names are written in a bundle. With its bytes and its goal this decides its body.
#[derive(Debug, Drop)]
pub struct Spelling {
    /// What is written at each of its sites.
    pub sites: Sequence<Text>,
    /// The name that each of its bindings has.
    pub names: Sequence<Name>,
}
