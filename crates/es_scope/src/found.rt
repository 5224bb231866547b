/// A declaration in a scope. Both are told by places of marks; a scope by the place of its first mark.
#[derive(Clone, Copy, Debug, PartialEq, Eq)]
pub struct Declared {
    pub scope: u32,
    pub place: u32,
}

/// The first declaration of a name in a scope: places of marks, and the number of the name.
#[derive(Clone, Copy, Debug, PartialEq, Eq)]
pub struct First {
    pub scope: u32,
    pub number: u32,
    pub place: u32,
}
