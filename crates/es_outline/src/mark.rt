use es_tree::Token;

/// What a token is in a tree.
#[derive(Clone, Copy, Debug, PartialEq, Eq)]
pub enum Role {
    /// A word of the grammar, a punctuator, a literal, or the name of a property.
    Plain,
    /// An IdentifierReference.
    Reference,
    /// A BindingIdentifier of a declaration, of parameters or of `catch`.
    Bound,
    /// The name of a function, in a declaration or an expression.
    FunctionName,
    /// The name of a class, in a declaration or an expression.
    ClassName,
    /// A LabelIdentifier.
    Label,
    /// `=` of an Initializer.
    Initializes,
    /// `(` of a parenthesised expression, or before a target.
    Opens,
    /// `)` of such a one, or behind a target.
    Closes,
    /// `.` before the name of a property.
    Dot,
    /// What any other member or optional chain begins with.
    Suffixes,
    /// `delete void typeof + - ~ !`.
    Prefix,
    /// `new` before a callee.
    New,
    /// `await` before an operand, or behind `for`.
    Await,
    /// `with` of the statement.
    With,
    /// `import` of `import.meta`.
    ImportMeta,
    /// `import` of `import()`.
    ImportCall,
    /// A name that an import declaration binds.
    Imported,
    /// The same where it binds the default export.
    ImportedDefault,
    /// The same where it binds the namespace.
    ImportedSpace,
    /// A name in an export list: of this module, or of the one that is exported from.
    Exported,
    /// A name by which another module sees an export.
    Outer,
    /// The text of a request of a declaration.
    Request,
    /// `with` of import attributes.
    Attributes,
}

/// What begins and ends.
#[derive(Clone, Copy, Debug, PartialEq, Eq)]
pub enum Part {
    /// A declaration by `var`, `let` or `const`, which is its first token.
    Declaration,
    /// A binding pattern.
    Pattern,
    /// A Block.
    Block,
    /// A `for` statement.
    For,
    /// A CaseBlock.
    Switch,
    /// A Catch, behind the word.
    Catch,
    /// The parameters and the body of a function or method.
    Function,
    /// An arrow function.
    Arrow,
    /// The body of a function, in braces.
    FunctionBody,
    /// A class, behind its name.
    Class,
    /// The block of a ClassStaticBlock.
    StaticBlock,
    /// A FunctionExpression and its like.
    FunctionExpression,
    /// A ClassExpression.
    ClassExpression,
    /// An ImportDeclaration.
    ImportDeclaration,
    /// An ExportDeclaration with `*`.
    ExportStar,
    /// An ExportDeclaration with names in braces.
    ExportList,
    /// An ExportDeclaration with a declaration.
    ExportedDeclaration,
    /// An ExportDeclaration with `default`.
    ExportDefault,
    /// The expression of such a one.
    ExportedValue,
}

/// A token of a tree, or what is told of a place between two.
#[derive(Clone, Copy, Debug, PartialEq, Eq)]
pub enum Mark {
    Token(Role, Token),
    Begin(Part),
    End(Part),
    /// The name or member before it is assigned to.
    Assigned,
    /// The target before it is read too.
    Updated,
    /// What is bound before it is bound to each value of a `for` with `in` or `of`.
    Iterated,
    /// The name behind it is the name of a property too.
    Shorthand,
    /// Arguments follow, of a call.
    Call,
    /// A template follows, which is tagged.
    Tag,
    /// A function or a class has no name, which would stand here.
    Unnamed,
    /// A semicolon is left out.
    NoSemicolon,
}
