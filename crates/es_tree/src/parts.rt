use crate::tokens::Token;
use sqlite_items::{Boxed, Items};

/// `x/,`: a part of a list and the comma after it. A hole is no item and a comma.
#[derive(Drop)]
pub struct Separated<T> {
    pub item: T,
    pub comma: Option<Token>,
}

/// `=` Assign
#[derive(Drop)]
pub struct Initializer<A> {
    pub equals: Token,
    pub value: A,
}

/// `...` and a Bind or Target
#[derive(Drop)]
pub struct Rest<T> {
    pub dots: Token,
    pub item: T,
}

/// Of Target: what stands in parentheses, with a `)` for each `(`
#[derive(Drop)]
pub struct Parenthesised<T> {
    pub opened: Items<Token>,
    pub item: T,
    pub closed: Items<Token>,
}

/// Block, or a body: `{` Item* `}`
#[derive(Drop)]
pub struct Body<I> {
    pub left: Token,
    pub items: Items<I>,
    pub right: Token,
}

/// Of Stmt: `else` Stmt
#[derive(Drop)]
pub struct Else<S> {
    pub word: Token,
    pub stmt: S,
}

/// Of Stmt's `catch`: `(` Bind `)`
#[derive(Drop)]
pub struct CatchParameter<B> {
    pub left: Token,
    pub bind: B,
    pub right: Token,
}

/// Of Stmt: `finally` Block
#[derive(Drop)]
pub struct Finally<I> {
    pub word: Token,
    pub block: Body<I>,
}

/// Of Class: `extends` LHS
#[derive(Drop)]
pub struct Extends<L> {
    pub word: Token,
    pub lhs: L,
}

/// Of Args and arrays: `...`? Assign
#[derive(Drop)]
pub struct Argument<A> {
    pub spread: Option<Token>,
    pub value: A,
}

/// Of Cond: `?` Assign `:` Assign
#[derive(Drop)]
pub struct Arms<A> {
    pub question: Token,
    pub when_true: A,
    pub colon: Token,
    pub when_false: A,
}

/// Of Binary: BinOp Operand
#[derive(Drop)]
pub struct Joined<O> {
    pub op: Token,
    pub operand: O,
}

/// Of Assign's `yield`: `*`? Assign
#[derive(Drop)]
pub struct Yielded<A> {
    pub star: Option<Token>,
    pub value: A,
}

/// Of `import (`: `,` Assign
#[derive(Drop)]
pub struct SecondArgument<A> {
    pub comma: Token,
    pub value: A,
}

/// Of Template: an Expr and the template token behind it
#[derive(Drop)]
pub struct Piece<E> {
    pub expr: E,
    pub next: Token,
}

/// Template: a template token, and with substitutions each Expr and the template token behind it
#[derive(Drop)]
pub struct Template<E> {
    pub head: Token,
    pub more: Items<Piece<E>>,
}

/// Of Arrow: Name | `(` Params `)`
#[derive(Drop)]
pub enum ArrowParams<P> {
    Name(Token),
    List(Token, P, Token),
}

/// Lex: (`let` | `const`) Decl/, semi. Also without `semi`, in For.
#[derive(Drop)]
pub struct LexOf<D> {
    pub word: Token,
    pub decls: Items<Separated<D>>,
    pub semi: Option<Token>,
}

/// Var: `var` Decl/, semi
#[derive(Drop)]
pub struct VarOf<D> {
    pub word: Token,
    pub decls: Items<Separated<D>>,
    pub semi: Option<Token>,
}

/// Key: IdName | String | Number | `[` Assign `]`, and Private in Element
#[derive(Drop)]
pub enum KeyOf<A> {
    IdName(Token),
    String(Token),
    Number(Token),
    Computed(Token, Boxed<A>, Token),
    Private(Token),
}

/// Of object patterns: Key `:`
#[derive(Drop)]
pub struct PropertyKey<A> {
    pub key: KeyOf<A>,
    pub colon: Token,
}

/// Expr: Assign/,
#[derive(Drop)]
pub struct ExprOf<A> {
    pub list: Items<Separated<A>>,
}

/// Args: `(` list of `...`? Assign `)`
#[derive(Drop)]
pub struct ArgsOf<A> {
    pub left: Token,
    pub list: Items<Separated<Argument<A>>>,
    pub right: Token,
}

/// Suffixes of LHS
#[derive(Drop)]
pub enum SuffixOf<A> {
    Dot(Token, Token),
    Private(Token, Token),
    Index(Token, ExprOf<A>, Token),
    Args(ArgsOf<A>),
    Template(Template<ExprOf<A>>),
    OptionalDot(Token, Token),
    OptionalPrivate(Token, Token),
    OptionalIndex(Token, Token, ExprOf<A>, Token),
    OptionalArgs(Token, ArgsOf<A>),
}

/// Binary: Operand (BinOp Operand)*
#[derive(Drop)]
pub struct BinaryOf<O> {
    pub first: O,
    pub more: Items<Joined<O>>,
}
