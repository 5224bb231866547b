//! What the tracers of operators hand from one step to the next.

use es_grammar::Stop;
use es_reader::Shape;

/// How far a list of operands with operators between them was read.
#[derive(Clone, Copy, Debug, PartialEq, Eq)]
pub struct Joins {
    /// Where the last operand ended.
    pub at: Stop,
    /// Whether a private name may stand behind the operator before it, or no operator stands there.
    pub is_loose: bool,
    /// What the last operand is.
    pub shape: Shape,
    /// Whether one of the operators is `??`.
    pub has_coalescing: bool,
    /// Whether one of them is `||` or `&&`.
    pub has_logical: bool,
}
