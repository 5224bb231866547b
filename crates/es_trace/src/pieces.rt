//! What tracers and the parser hand from one step to the next.

/// What counts for the nest.
#[derive(Clone, Copy, Debug, PartialEq, Eq)]
pub enum Rule {
    Item,
    Stmt,
    Assign,
    /// An operand with a prefix.
    Prefixed,
    BindPattern,
    TargetPattern,
    /// `new` and what it makes.
    New,
    /// What a class extends.
    Extended,
}

/// What one turn of a list comes to. `S` is what the next turn has to know, a place at least.
#[derive(Clone, Copy, Debug, PartialEq, Eq)]
pub enum Turn<S> {
    /// The list ends there.
    Ended(S),
    /// It goes on there.
    More(S),
}

/// How far a list with commas was read.
#[derive(Clone, Copy, Debug, PartialEq, Eq)]
pub struct Listed {
    /// The byte place.
    pub at: u32,
    /// Whether a part may stand there: none was read, or a comma stands behind the last one.
    pub ready: bool,
}

/// How far a LeftHandSideExpression was read, and what it is.
#[derive(Clone, Copy, Debug, PartialEq, Eq)]
pub struct Chain {
    /// The byte place.
    pub at: u32,
    /// It is a Name, with nothing behind it.
    pub is_name: bool,
    /// It ends with a member, and `?.` stands nowhere in it.
    pub is_member: bool,
}
