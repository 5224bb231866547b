//! What was tried at a place in vain, so that it need not be tried again. Where a text can be read in two ways, the one that
//! is tried first is gone through once for each nest and context, however often the place is come to.

ghost use Rattle.std.specs.Prelude.{◌≡◌, true};

use es_grammar::Context;

/// What is tried first at a place where another reading is left.
#[derive(Clone, Copy, Debug, PartialEq, Eq)]
pub enum Attempt {
    /// Parameters in parentheses and `=>`.
    ListHead,
    /// The same behind `async`.
    AsyncHead,
    /// A Name or a member, where parentheses may stand around one.
    Bare,
    /// A pattern with no suffix behind it.
    Pattern,
    /// An operand that begins with a LeftHandSideExpression, where a target in parentheses may stand before `++`.
    Operand,
    /// An assignment that begins so, where a target in parentheses or a pattern may be assigned to.
    Assign,
    /// An assignment that begins so, where a target in parentheses may stand before `++`.
    Postfix,
    /// An expression in the head of `for`, where a target may stand.
    Init,
}

/// An attempt with where and how it was made.
#[derive(Clone, Copy, Debug, PartialEq, Eq)]
pub struct Passed {
    pub attempt: Attempt,
    /// The nest that was left.
    pub nest: u32,
    pub context: Context,
    /// The byte place.
    pub at: u32,
}

impl Passed {
    // Where it is kept. Another one may have the same key: it then takes its place.
    pub(crate) fn key(&self) -> u64 {
        let attempt = match self.attempt {
            Attempt::ListHead => 0,
            Attempt::AsyncHead => 1,
            Attempt::Bare => 2,
            Attempt::Pattern => 3,
            Attempt::Operand => 4,
            Attempt::Assign => 5,
            Attempt::Postfix => 6,
            Attempt::Init => 7,
        };
        let context = self.context.has_in as u64
            + 2 * self.context.has_yield as u64
            + 4 * self.context.has_await as u64
            + 8 * self.context.has_return as u64;
        let way = attempt + 8 * context + 128 * (self.nest % 0x1000) as u64;
        (self.at as u64) * 0x80000 + way
    }

    // Whether it is the same attempt, made there and so.
    pub(crate) fn is_same(&self, other: Passed) -> bool
        ensures { (result ≡ true) → self.now ≡ other }
    {
        if self.at != other.at || self.nest != other.nest || self.attempt != other.attempt {
            return false;
        }
        is_same_context(self.context, other.context)
    }
}

// Whether the contexts are the same.
fn is_same_context(context: Context, other: Context) -> bool
    ensures { (result ≡ true) → context ≡ other }
{
    if context.has_in != other.has_in || context.has_yield != other.has_yield {
        return false;
    }
    if context.has_await != other.has_await || context.has_return != other.has_return {
        return false;
    }
    context.goal == other.goal
}
