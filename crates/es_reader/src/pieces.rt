//! What readers and the parser hand from one step to the next, and the tree doesn't hold.

use es_grammar::Stop;
use es_tree::{ArrowParams, Token, With};

/// What one turn of a list comes to. `S` is what the next turn has to know, a place at least.
#[derive(Drop)]
pub enum TurnOf<S, X> {
    /// The list ended before the turn.
    Ended(S),
    /// It ends with this item.
    Last(X, S),
    /// It goes on behind this item.
    More(X, S),
}

/// `(` Params `)` and a body.
#[derive(Drop)]
pub struct CallableOf<P, B> {
    pub left: Token,
    pub params: P,
    pub right: Token,
    pub body: B,
}

/// `(` Expr `)`.
#[derive(Drop)]
pub struct ConditionOf<E> {
    pub left: Token,
    pub test: E,
    pub right: Token,
}

/// The parts of a LeftHandSideExpression.
#[derive(Drop)]
pub struct PartsOf<B, L> {
    pub base: B,
    /// The token that the base is, where that is a Name.
    pub name: Option<Token>,
    pub suffixes: L,
}

/// What the first token of an operand tells of it.
#[derive(Clone, Copy, Debug, PartialEq, Eq)]
pub enum Shape {
    /// It has a prefix word or sign, which may not stand before `**`.
    Signed,
    /// It is a private name.
    Private,
    Plain,
}

/// Where the last operand of a list ended, the operator before it, and what it was.
#[derive(Clone, Copy, Debug, PartialEq, Eq)]
pub struct Operands {
    pub at: Stop,
    pub before: Option<Token>,
    pub shape: Shape,
}

/// What stands before the body of an arrow function.
#[derive(Drop)]
pub struct HeadOf<P> {
    pub params: ArrowParams<P>,
    pub mark: Token,
}

/// What may be assigned to: a Name or a member.
#[derive(Drop)]
pub enum BareOf<L> {
    Name(Token),
    Member(L),
}

/// How far the parentheses around a target were read.
#[derive(Drop)]
pub enum InsideOf<B> {
    /// Up to a place.
    Reached(u32),
    /// With what they hold, and the place behind it.
    Found(B, u32),
}

/// What stands behind the text of a request.
#[derive(Drop)]
pub struct Tail {
    pub attributes: Option<With>,
    pub semi: Option<Token>,
}

/// `from`, a request and what stands behind it.
#[derive(Drop)]
pub struct Source {
    pub from_word: Token,
    pub request: Token,
    pub tail: Tail,
}
