/// A stretch of a text, from `start` up to `end` in bytes, that is no site of the module and is written anew all the same.
///
/// Who finds them hands over those of a module in the order of `start`, each from the first byte of a token to the last of one, and
/// none of them in a site:
/// - names of the top where they are no sites: a function's at its declaration, and those of a `var` that is given no value there;
/// - inside a class that is declared at the top, its own name;
/// - the word `default` of an `export default` before a function without a name, where `NewText::Name` is the binding of it (a class
///   or an expression without a name has a site at that word, and no touch);
/// - `typeof require`, both words, where `require` is free.
#[derive(Clone, Copy, Debug, PartialEq, Eq)]
pub struct Touch {
    pub start: u32,
    pub end: u32,
    pub text: NewText,
}

/// What is written at a touch.
#[derive(Clone, Copy, Debug, PartialEq, Eq)]
pub enum NewText {
    /// The name of the binding of this number.
    Name(u32),
    /// `"function"`, for `typeof require`.
    Function,
}
