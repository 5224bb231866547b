ghost use Rattle.grammar_laws.specs.Refusals.{AwaitInScript, ExportInScript};
ghost use Rattle.grammar_laws.specs.Trees.{CallOverLine, ReturnOverLine, AwaitCall, DefaultFunction, DeclaredVariable, ObjectInParentheses, MemberAssigned};
ghost use Rattle.grammar_laws.specs.DefaultValueTree.{DefaultValue};

/// A `(` on a new line goes on with an expression: one statement, a call.
pub fn call_over_line()
    ensures { CallOverLine }
{}

/// What `return` gives stands on its line: two statements.
pub fn return_over_line()
    ensures { ReturnOverLine }
{}

/// `await` is an operator at the top of a module.
pub fn await_call()
    ensures { AwaitCall }
{}

/// A function that is exported as `default` needs no name and no semicolon: two items.
pub fn default_function()
    ensures { DefaultFunction }
{}

/// A variable without initialiser.
pub fn declared_variable()
    ensures { DeclaredVariable }
{}

/// An object with a member, in parentheses.
pub fn object_in_parentheses()
    ensures { ObjectInParentheses }
{}

/// A member is assigned to.
pub fn member_assigned()
    ensures { MemberAssigned }
{}

/// An expression that is exported as `default` may begin with `{`.
pub fn default_value()
    ensures { DefaultValue }
{}

/// In a script `await` is no operator outside of async functions, and no name: no tree.
pub fn await_in_script()
    ensures { AwaitInScript }
{}

/// A script exports nothing: no tree.
pub fn export_in_script()
    ensures { ExportInScript }
{}
