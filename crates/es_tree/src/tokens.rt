/// What a token is, by the name of its production in ECMA-262's lexical grammar.
#[derive(Clone, Copy, Debug, PartialEq, Eq)]
pub enum TokenKind {
    /// An IdentifierName, a reserved word or not.
    IdName,
    /// A PrivateIdentifier: `#` and an IdentifierName.
    Private,
    /// A NumericLiteral.
    Number,
    /// A StringLiteral.
    String,
    /// A NoSubstitutionTemplate, TemplateHead, TemplateMiddle or TemplateTail.
    Template,
    /// A RegularExpressionLiteral.
    Regex,
    /// A Punctuator, DivPunctuator or RightBracePunctuator.
    Punctuator,
    /// The end of the text. It is empty.
    End,
}

/// A token of a text of bytes.
#[derive(Clone, Copy, Debug, PartialEq, Eq)]
pub struct Token {
    pub kind: TokenKind,
    /// Whether a LineTerminator stands between the place that was read from and the token.
    pub newline: bool,
    /// The place of its first byte.
    pub start: u32,
    /// The place behind its last byte.
    pub end: u32,
}

/// The goal symbol of the lexical grammar, which tells what `/` and `}` begin.
#[derive(Clone, Copy, Debug, PartialEq, Eq)]
pub enum Goal {
    /// InputElementRegExp: where an operand may begin, `/` begins a regular expression.
    Operand,
    /// InputElementDiv: behind an operand, `/` divides.
    Operator,
    /// InputElementTemplateTail: `}` goes on with a template.
    Template,
}

/// The goal symbol of the syntactic grammar.
#[derive(Clone, Copy, Debug, PartialEq, Eq)]
pub enum ProgramGoal {
    Script,
    Module,
}

/// Why no token stands at a place.
#[derive(Clone, Copy, Debug, PartialEq, Eq)]
pub enum LexFault {
    /// The bytes at this place are no UTF-8: reading came to them in a gap or a token.
    NotUtf8(u32),
    /// No token begins at this place, which is behind white space, line terminators and comments.
    NoToken(u32),
}
