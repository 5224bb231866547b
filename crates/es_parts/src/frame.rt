use crate::enclosing::Surroundings;

/// What is known of the places within a part: what is around them, and the innermost part that binds.
#[derive(Clone, Copy, Debug, PartialEq, Eq)]
pub struct Frame {
    pub around: Surroundings,
    pub binder: Option<u32>,
}
