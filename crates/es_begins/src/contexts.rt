//! What a production may hold where it stands in another one.
ghost use Rattle.std.specs.Prelude.{◌≡◌};
ghost use Rattle.es_grammar.specs.Contexts as spec;

use es_grammar::Context;

/// The same within brackets, where `in` is an operator.
pub fn bracketed(c: Context) -> Context
    ensures { result ≡ spec.bracketed c }
{
    Context { has_in: true, ..c }
}

/// The same in the head of `for`, where `in` is no operator.
pub fn without_in(c: Context) -> Context
    ensures { result ≡ spec.without_in c }
{
    Context { has_in: false, ..c }
}

/// Of the parameters and the body of a function.
pub fn in_function(is_async: bool, is_generator: bool, c: Context) -> Context
    ensures { result ≡ spec.in_function is_async is_generator c }
{
    Context {
        has_in: true,
        has_yield: is_generator,
        has_await: is_async,
        has_return: true,
        goal: c.goal,
    }
}

/// Of the parameters of an arrow function, and of its body where that is a block.
pub fn in_arrow(is_async: bool, c: Context) -> Context
    ensures { result ≡ spec.in_arrow is_async c }
{
    in_function(is_async, false, c)
}

/// Of the body of an arrow function where that is an expression.
pub fn in_concise(is_async: bool, c: Context) -> Context
    ensures { result ≡ spec.in_concise is_async c }
{
    Context {
        has_in: c.has_in,
        ..in_function(is_async, false, c)
    }
}

/// Of the initialiser of a field, and of a static block.
pub fn in_class(c: Context) -> Context
    ensures { result ≡ spec.in_class c }
{
    Context {
        has_in: true,
        has_yield: false,
        has_await: false,
        has_return: false,
        goal: c.goal,
    }
}
