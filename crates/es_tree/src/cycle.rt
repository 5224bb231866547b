use crate::parts::{
    ArgsOf, Argument, Arms, ArrowParams, BinaryOf, Body, CatchParameter, Else, ExprOf, Extends,
    Finally, Initializer, KeyOf, LexOf, Parenthesised, PropertyKey, Rest, SecondArgument,
    Separated, SuffixOf, Template, VarOf, Yielded,
};
use crate::tokens::Token;
use sqlite_items::{Boxed, Items};

pub type Lex = LexOf<Decl>;

pub type Var = VarOf<Decl>;

pub type Key = KeyOf<Assign>;

pub type Expr = ExprOf<Assign>;

pub type Args = ArgsOf<Assign>;

pub type Suffix = SuffixOf<Assign>;

pub type Binary = BinaryOf<Operand>;

/// Item: Stmt | Lex | Func | Class
#[cycle(tree)]
#[derive(Drop)]
pub enum Item {
    Stmt(Stmt),
    Lex(Lex),
    Func(Boxed<Func>),
    Class(Boxed<Class>),
}

/// Decl: Bind (`=` Assign)?; also a parameter and an element of a pattern
#[cycle(tree)]
#[derive(Drop)]
pub struct Decl {
    pub bind: Bind,
    pub initial: Option<Initializer<Boxed<Assign>>>,
}

/// Of Stmt's `switch`: `case` Expr `:` Item* | `default` `:` Item*
#[cycle(tree)]
#[derive(Drop)]
pub enum Case {
    Case(Token, Expr, Token, Items<Item>),
    Default(Token, Token, Items<Item>),
}

/// Stmt, by its forms; `try` has a variant with `catch` and one with `finally` alone
#[cycle(tree)]
#[derive(Drop)]
pub enum Stmt {
    Block(Body<Item>),
    Empty(Token),
    Var(Var),
    If(Token, Token, Expr, Token, Boxed<Stmt>, Option<Else<Boxed<Stmt>>>),
    For(Boxed<For>),
    While(Token, Token, Expr, Token, Boxed<Stmt>),
    Do(Token, Boxed<Stmt>, Token, Token, Expr, Token, Option<Token>),
    Continue(Token, Option<Token>, Option<Token>),
    Break(Token, Option<Token>, Option<Token>),
    Return(Token, Option<Expr>, Option<Token>),
    With(Token, Token, Expr, Token, Boxed<Stmt>),
    Switch(Token, Token, Expr, Token, Token, Items<Case>, Token),
    Labelled(Token, Token, Boxed<Stmt>),
    Throw(Token, Expr, Option<Token>),
    TryCatch(
        Token,
        Boxed<Body<Item>>,
        Token,
        Option<Boxed<CatchParameter<Bind>>>,
        Boxed<Body<Item>>,
        Option<Boxed<Finally<Item>>>,
    ),
    TryFinally(Token, Body<Item>, Finally<Item>),
    Debugger(Token, Option<Token>),
    Expr(Expr, Option<Token>),
}

/// Of For: `var` Decl/, | Lex without semi | Expr
#[cycle(tree)]
#[derive(Drop)]
pub enum Init {
    Var(Token, Items<Separated<Decl>>),
    Lex(Lex),
    Expr(Expr),
}

/// For: `for (` Init? `;` Expr? `;` Expr? `)` Stmt | `for (` Head `in` Expr `)` Stmt | `for` `await`? `(` Head `of` Assign `)` Stmt
#[cycle(tree)]
#[derive(Drop)]
pub enum For {
    Loop(Token, Token, Option<Init>, Token, Option<Expr>, Token, Option<Expr>, Token, Boxed<Stmt>),
    In(Token, Token, Head, Token, Expr, Token, Boxed<Stmt>),
    Of(Token, Option<Token>, Token, Head, Token, Boxed<Assign>, Token, Boxed<Stmt>),
}

/// Head: (`var` | `let` | `const`) Bind | Target
#[cycle(tree)]
#[derive(Drop)]
pub enum Head {
    Bind(Token, Bind),
    Target(Target),
}

/// Func: (`async ~`)? `function` `*`? Name `(` Params `) {` Item* `}`; the name optional in expressions and `export default`
#[cycle(tree)]
#[derive(Drop)]
pub struct Func {
    pub is_async: Option<Token>,
    pub word: Token,
    pub star: Option<Token>,
    pub name: Option<Token>,
    pub left: Token,
    pub params: Params,
    pub right: Token,
    pub body: Body<Item>,
}

/// Params: (Bind (`=` Assign)?)/, with `... Bind` last
#[cycle(tree)]
#[derive(Drop)]
pub struct Params {
    pub list: Items<Separated<Decl>>,
    pub rest: Option<Rest<Boxed<Bind>>>,
}

/// Class: `class` Name (`extends` LHS)? `{` Element* `}`; the name optional as in Func
#[cycle(tree)]
#[derive(Drop)]
pub struct Class {
    pub word: Token,
    pub name: Option<Token>,
    pub extends: Option<Extends<Boxed<LHS>>>,
    pub left: Token,
    pub elements: Items<Element>,
    pub right: Token,
}

/// Element: `;` | `static`? Method | `static`? Key (`=` Assign)? semi | `static {` Item* `}`
#[cycle(tree)]
#[derive(Drop)]
pub enum Element {
    Empty(Token),
    Method(Option<Token>, Boxed<Method>),
    Field(Option<Token>, Key, Option<Initializer<Boxed<Assign>>>, Option<Token>),
    Static(Token, Body<Item>),
}

/// Method: (`async ~`)? `*`? Key `(` Params `) {` Item* `}` | `get` Key `( ) {` Item* `}` | `set` Key `(` one parameter `) {` Item* `}`
#[cycle(tree)]
#[derive(Drop)]
pub enum Method {
    Method(Option<Token>, Option<Token>, Key, Token, Params, Token, Body<Item>),
    Get(Token, Key, Token, Token, Body<Item>),
    Set(Token, Key, Token, Decl, Token, Body<Item>),
}

/// Of Bind's object pattern: (Key `:`)? Bind (`=` Assign)?; without the key the Bind is a Name
#[cycle(tree)]
#[derive(Drop)]
pub struct BindProperty {
    pub key: Option<PropertyKey<Assign>>,
    pub decl: Decl,
}

/// Bind: Name | array or object pattern of Binds
#[cycle(tree)]
#[derive(Drop)]
pub enum Bind {
    Name(Token),
    Array(Token, Items<Separated<Option<Decl>>>, Option<Rest<Boxed<Bind>>>, Token),
    Object(Token, Items<Separated<BindProperty>>, Option<Rest<Boxed<Bind>>>, Token),
}

/// Target: Name, member without `?.`, either in parentheses, or a pattern of Targets
#[cycle(tree)]
#[derive(Drop)]
pub enum Target {
    Name(Token),
    Member(LHS),
    ParenName(Boxed<Parenthesised<Token>>),
    ParenMember(Boxed<Parenthesised<LHS>>),
    Array(Token, Items<Separated<Option<TargetPart>>>, Option<Rest<Boxed<Target>>>, Token),
    Object(Token, Items<Separated<TargetPart>>, Option<Rest<Boxed<Target>>>, Token),
}

/// Of Target's patterns: (Key `:`)? Target (`=` Assign)?; no key in an array; without the key in an object the Target is a Name
#[cycle(tree)]
#[derive(Drop)]
pub struct TargetPart {
    pub key: Option<PropertyKey<Assign>>,
    pub target: Target,
    pub initial: Option<Initializer<Boxed<Assign>>>,
}

/// Assign: Cond | Arrow | Target `=` Assign | simple Target AssignOp Assign | `yield` (~ `*`? Assign)?
#[cycle(tree)]
#[derive(Drop)]
pub enum Assign {
    Cond(Cond),
    Arrow(Boxed<Arrow>),
    Set(Boxed<Target>, Token, Boxed<Assign>),
    Compound(Boxed<Target>, Token, Boxed<Assign>),
    Yield(Token, Option<Yielded<Boxed<Assign>>>),
}

/// Arrow: (`async ~`)? (Name | `(` Params `)`) `~ =>` (`{` Item* `}` | Assign), a variant for each body
#[cycle(tree)]
#[derive(Drop)]
pub enum Arrow {
    Block(Option<Token>, ArrowParams<Params>, Token, Body<Item>),
    Concise(Option<Token>, ArrowParams<Params>, Token, Boxed<Assign>),
}

/// Cond: Binary (`?` Assign `:` Assign)?
#[cycle(tree)]
#[derive(Drop)]
pub struct Cond {
    pub test: Binary,
    pub arms: Option<Boxed<Arms<Boxed<Assign>>>>,
}

/// Operand: Private | prefix Operand | `await` Operand | (`++` `--`) simple Target | LHS | simple Target ~(`++` `--`)
#[cycle(tree)]
#[derive(Drop)]
pub enum Operand {
    Private(Token),
    Prefix(Token, Boxed<Operand>),
    Await(Token, Boxed<Operand>),
    Update(Token, Boxed<Target>),
    LHS(LHS),
    Postfix(Boxed<Target>, Token),
}

/// LHS: a base and suffixes
#[cycle(tree)]
#[derive(Drop)]
pub struct LHS {
    pub base: Base,
    pub suffixes: Items<Suffix>,
}

/// Of Primary's object: shorthand Name | Key `:` Assign | Method | `...` Assign
#[cycle(tree)]
#[derive(Drop)]
pub enum Member {
    Shorthand(Token),
    Pair(Key, Token, Boxed<Assign>),
    Method(Boxed<Method>),
    Spread(Token, Boxed<Assign>),
}

/// Primary: `this`, Name, literal, Template, Regex, array, object, function or class expression, `(` Expr `)`
#[cycle(tree)]
#[derive(Drop)]
pub enum Primary {
    This(Token),
    Name(Token),
    Literal(Token),
    Template(Template<Expr>),
    Regex(Token),
    Array(Token, Items<Separated<Option<Argument<Assign>>>>, Token),
    Object(Token, Items<Separated<Member>>, Token),
    Func(Boxed<Func>),
    Class(Boxed<Class>),
    Paren(Token, Expr, Token),
}

/// Of LHS: Primary | `super` | `new` Callee Args? | `new . target` | `import . meta` | `import (` Assign (`,` Assign)? `,`? `)`
#[cycle(tree)]
#[derive(Drop)]
pub enum Base {
    Primary(Primary),
    Super(Token),
    New(Token, Boxed<LHS>, Option<Boxed<Args>>),
    NewTarget(Token, Token, Token),
    ImportMeta(Token, Token, Token),
    Import(
        Token,
        Token,
        Boxed<Assign>,
        Option<Boxed<SecondArgument<Boxed<Assign>>>>,
        Option<Token>,
        Token,
    ),
}
