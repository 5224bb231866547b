use crate::cycle::{Assign, Class, Func, Item, Lex, Var};
use crate::parts::Separated;
use crate::tokens::{ProgramGoal, Token};
use sqlite_items::{Boxed, Items};

/// Space: `*` `as` Name
#[derive(Clone, Copy, Debug)]
pub struct Space {
    pub star: Token,
    pub word: Token,
    pub name: Token,
}

/// Of Named: Name | IdName `as` Name
#[derive(Clone, Copy, Debug)]
pub enum ImportName {
    Name(Token),
    Renamed(Token, Token, Token),
}

/// Named: `{` list of (Name | IdName `as` Name) `}`
#[derive(Drop)]
pub struct Named {
    pub left: Token,
    pub list: Items<Separated<ImportName>>,
    pub right: Token,
}

/// Clause: Name | Space | Named | Name `,` Space | Name `,` Named
#[derive(Drop)]
pub enum Clause {
    Name(Token),
    Space(Space),
    Named(Named),
    NameSpace(Token, Token, Space),
    NameNamed(Token, Token, Named),
}

/// Of With: (IdName | String) `:` String
#[derive(Clone, Copy, Debug)]
pub struct Attribute {
    pub key: Token,
    pub colon: Token,
    pub value: Token,
}

/// With: `with` `{` list of attributes `}`
#[derive(Drop)]
pub struct With {
    pub word: Token,
    pub left: Token,
    pub list: Items<Separated<Attribute>>,
    pub right: Token,
}

/// Import: `import` String With? semi | `import` Clause `from` String With? semi
#[derive(Drop)]
pub enum Import {
    Bare(Token, Token, Option<With>, Option<Token>),
    From(Token, Clause, Token, Token, Option<With>, Option<Token>),
}

/// Of Names: `as` IdName
#[derive(Clone, Copy, Debug)]
pub struct Renamed {
    pub word: Token,
    pub name: Token,
}

/// Of Names: IdName (`as` IdName)?
#[derive(Clone, Copy, Debug)]
pub struct ExportName {
    pub name: Token,
    pub renamed: Option<Renamed>,
}

/// Names: `{` list of IdName (`as` IdName)? `}`
#[derive(Drop)]
pub struct Names {
    pub left: Token,
    pub list: Items<Separated<ExportName>>,
    pub right: Token,
}

/// Export, by its forms; `export` and `export default` of a declaration have a variant for each kind
#[derive(Drop)]
pub enum Export {
    All(Token, Token, Token, Token, Option<With>, Option<Token>),
    Space(Token, Token, Token, Token, Token, Token, Option<With>, Option<Token>),
    From(Token, Names, Token, Token, Option<With>, Option<Token>),
    Names(Token, Names, Option<Token>),
    Var(Token, Var),
    Lex(Token, Lex),
    Func(Token, Func),
    Class(Token, Class),
    DefaultFunc(Token, Token, Func),
    DefaultClass(Token, Token, Class),
    Default(Token, Token, Assign, Option<Token>),
}

/// Of Program: Item | Import | Export
#[derive(Drop)]
pub enum ProgramItem {
    Item(Item),
    Import(Boxed<Import>),
    Export(Boxed<Export>),
}

/// Script: Item*. Module: (Item | Import | Export)*
#[derive(Drop)]
pub struct Program {
    pub goal: ProgramGoal,
    pub items: Items<ProgramItem>,
}
