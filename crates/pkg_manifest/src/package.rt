use crate::value::Json;
use pk_types::{Sequence, Text};

/// Which files of a package have side effects.
#[derive(Debug, Drop)]
pub enum SideEffects {
    Unstated,
    Free,
    Listed(Sequence<Text>),
}

/// What a `package.json` says. A field of a wrong type is absent, but `exports` is kept whatever it
/// is.
#[derive(Debug, Drop)]
pub struct Manifest {
    pub name: Option<Text>,
    pub main: Option<Text>,
    pub module: Option<Text>,
    pub is_module: bool,
    pub exports: Option<Json>,
    pub imports: Option<Json>,
    pub side_effects: SideEffects,
}
