//! Declarations by `var`, `let` and `const`.
ghost use Rattle.std.specs.Prelude.{◌≡◌, ◌≤◌, ◌&&◌, not, length, IfOk};
ghost use Rattle.es_trace.specs.Basics.{Traces};
ghost use Rattle.es_trace.specs.Statements as spec;
ghost use Rattle.es_trace.specs.Lists as lists;
ghost use Rattle.es_trace.specs.Loops as loops;
ghost use Rattle.es_trace.specs.Tying.{tracers_to};
ghost use Rattle.es_cursor.specs.Standing.{Lies, Stands};
ghost use Rattle.es_nest.specs.Ties.{Ties};
ghost use Rattle.es_nest.specs.Turns.{state_of};

use crate::jumps::semi_behind;
use es_cursor::Cursor;
use es_functions::initializer_behind;
use es_grammar::{Context, Ending, Stop};
use es_nest::{Knot, all_turns, comma_or_end};
use es_outline::{Outline, Part, Role};
use es_reader::ParseFault;
use es_trace::{Rule, Turn};
use es_tree::{Goal, Token};

// By the token behind a declared name or pattern, where an initialiser may be left out or may not.
#[tactic(auto, unfolding(es_trace::specs::Statements::declared_by))]
fn declared_by<K: Fn(&mut Cursor, &mut Outline, Rule, Context, u32) -> Result<Stop, ParseFault>>(
    cursor: &mut Cursor,
    outline: &mut Outline,
    knot: &Knot<K>,
    c: Context,
    may_end: bool,
    at: u32,
    token: Token,
) -> Result<Stop, ParseFault>
    requires stands { Stands cursor.old at }
    requires lies { Lies cursor.old token }
    requires ties { Ties (K.pre knot.now.call.now) (K.post knot.now.call.now) knot.now.nest }
    ensures traces { Traces (spec.declared_by cursor.old (tracers_to cursor.old knot.now.nest) c
        may_end outline.old.marks at token) outline.new.marks result }
    ensures within { IfOk result (λ end. end.at ≤ length cursor.old) }
    ensures same { cursor.new ≡ cursor.old }
    ensures kept { outline.new.kept ≡ outline.old.kept }
{
    if cursor.is_mark(b"=", token) {
        return initializer_behind(cursor, outline, knot, c, token);
    }
    if may_end {
        return Ok(Stop {
            at,
            ending: Ending::DeclaredName,
        });
    }
    Err(ParseFault::Syntax)
}

// A name or a pattern with its initialiser, which a pattern has to have, and a name behind `const`.
#[tactic(auto, unfolding(es_trace::specs::Statements::trace_declared, es_trace::specs::Statements::pattern_declared, es_trace::specs::Statements::declared_behind))]
fn trace_declared<K: Fn(&mut Cursor, &mut Outline, Rule, Context, u32) -> Result<Stop, ParseFault>>(
    cursor: &mut Cursor,
    outline: &mut Outline,
    knot: &Knot<K>,
    c: Context,
    is_const: bool,
    at: u32,
) -> Result<Stop, ParseFault>
    requires stands { Stands cursor.old at }
    requires ties { Ties (K.pre knot.now.call.now) (K.post knot.now.call.now) knot.now.nest }
    ensures traces { Traces (spec.trace_declared cursor.old (tracers_to cursor.old
        knot.now.nest) c is_const outline.old.marks at) outline.new.marks result }
    ensures within { IfOk result (λ end. end.at ≤ length cursor.old) }
    ensures same { cursor.new ≡ cursor.old }
    ensures kept { outline.new.kept ≡ outline.old.kept }
{
    let token = cursor.token(Goal::Operand, at)?;
    if cursor.is_name(c, token)? {
        outline.role(Role::Bound, token)?;
        let next = cursor.token(Goal::Operator, token.end)?;
        return declared_by(cursor, outline, knot, c, !is_const, token.end, next);
    }
    let end = knot.bind_pattern(cursor, outline, c, at)?;
    let next = cursor.token(Goal::Operator, end)?;
    declared_by(cursor, outline, knot, c, false, end, next)
}

// One of the declared names and patterns, and the comma behind it.
#[tactic(auto, unfolding(es_trace::specs::Lists::ended_turn))]
fn decl_turn<K: Fn(&mut Cursor, &mut Outline, Rule, Context, u32) -> Result<Stop, ParseFault>>(
    cursor: &mut Cursor,
    outline: &mut Outline,
    knot: &Knot<K>,
    c: Context,
    is_const: bool,
    first: Stop,
) -> Result<Turn<Stop>, ParseFault>
    requires stands { Stands cursor.old first.at }
    requires ties { Ties (K.pre knot.now.call.now) (K.post knot.now.call.now) knot.now.nest }
    ensures traces { Traces (lists.ended_turn cursor.old (spec.trace_declared cursor.old
        (tracers_to cursor.old knot.now.nest) c is_const) outline.old.marks first)
        outline.new.marks result }
    ensures within { IfOk result (λ turn. (state_of turn).at ≤ length cursor.old) }
    ensures same { cursor.new ≡ cursor.old }
    ensures kept { outline.new.kept ≡ outline.old.kept }
{
    let stop = trace_declared(cursor, outline, knot, c, is_const, first.at)?;
    comma_or_end(cursor, outline, stop)
}

// The declared names and patterns from a place on.
fn decl_list<K: Fn(&mut Cursor, &mut Outline, Rule, Context, u32) -> Result<Stop, ParseFault>>(
    cursor: &mut Cursor,
    outline: &mut Outline,
    knot: &Knot<K>,
    c: Context,
    is_const: bool,
    first: Stop,
) -> Result<Stop, ParseFault>
    requires stands { Stands cursor.old first.at }
    requires ties { Ties (K.pre knot.now.call.now) (K.post knot.now.call.now) knot.now.nest }
    ensures traces { Traces (loops.all_turns cursor.old (lists.ended_turn cursor.old
        (spec.trace_declared cursor.old (tracers_to cursor.old knot.now.nest) c is_const))
        outline.old.marks first) outline.new.marks result }
    ensures within { IfOk result (λ end. end.at ≤ length cursor.old) }
    ensures same { cursor.new ≡ cursor.old }
    ensures kept { outline.new.kept ≡ outline.old.kept }
{
    let turn = |cursor: &mut Cursor, outline: &mut Outline, state: Stop| {
        decl_turn(cursor, outline, knot, c, is_const, state)
    };
    all_turns(cursor, outline, &turn, first)
}

/// A name or a pattern in the head of `for`: where it ends, and whether it is a name.
#[tactic(auto, unfolding(es_trace::specs::Statements::trace_binding, es_trace::specs::Statements::pattern_binding))]
pub(crate) fn trace_binding<
    K: Fn(&mut Cursor, &mut Outline, Rule, Context, u32) -> Result<Stop, ParseFault>,
>(
    cursor: &mut Cursor,
    outline: &mut Outline,
    knot: &Knot<K>,
    c: Context,
    at: u32,
) -> Result<(u32, bool), ParseFault>
    requires stands { Stands cursor.old at }
    requires ties { Ties (K.pre knot.now.call.now) (K.post knot.now.call.now) knot.now.nest }
    ensures traces { Traces (spec.trace_binding cursor.old (tracers_to cursor.old knot.now.nest)
        c outline.old.marks at) outline.new.marks result }
    ensures within { IfOk result (λ x. x.0 ≤ length cursor.old) }
    ensures same { cursor.new ≡ cursor.old }
    ensures kept { outline.new.kept ≡ outline.old.kept }
{
    let token = cursor.token(Goal::Operand, at)?;
    if cursor.is_name(c, token)? {
        outline.role(Role::Bound, token)?;
        return Ok((token.end, true));
    }
    let end = knot.bind_pattern(cursor, outline, c, at)?;
    Ok((end, false))
}

// Whether what was declared may go without an initialiser.
fn may_end(is_name: bool, is_const: bool) -> bool
    ensures { result ≡ is_name && not is_const }
{
    if is_name { !is_const } else { false }
}

/// The declarations in the head of `for`, whose first name or pattern was read, by the token behind it.
#[tactic(auto, unfolding(es_trace::specs::Statements::decls_behind))]
pub(crate) fn decls_behind<
    K: Fn(&mut Cursor, &mut Outline, Rule, Context, u32) -> Result<Stop, ParseFault>,
>(
    cursor: &mut Cursor,
    outline: &mut Outline,
    knot: &Knot<K>,
    c: Context,
    is_const: bool,
    binding: (u32, bool),
    token: Token,
) -> Result<Stop, ParseFault>
    requires stands { Stands cursor.old binding.0 }
    requires lies { Lies cursor.old token }
    requires ties { Ties (K.pre knot.now.call.now) (K.post knot.now.call.now) knot.now.nest }
    ensures traces { Traces (spec.decls_behind cursor.old (tracers_to cursor.old knot.now.nest)
        c is_const outline.old.marks binding token) outline.new.marks result }
    ensures within { IfOk result (λ end. end.at ≤ length cursor.old) }
    ensures same { cursor.new ≡ cursor.old }
    ensures kept { outline.new.kept ≡ outline.old.kept }
{
    let may_end = may_end(binding.1, is_const);
    let first = declared_by(cursor, outline, knot, c, may_end, binding.0, token)?;
    match comma_or_end(cursor, outline, first)? {
        Turn::Ended(last) => Ok(last),
        Turn::More(next) => decl_list(cursor, outline, knot, c, is_const, next),
    }
}

/// A declaration by `let` or `const`, whose word was seen, with its semicolon.
#[tactic(auto, unfolding(es_trace::specs::Statements::lex_behind, es_trace::specs::Statements::trace_decls))]
pub fn lex_behind<K: Fn(&mut Cursor, &mut Outline, Rule, Context, u32) -> Result<Stop, ParseFault>>(
    cursor: &mut Cursor,
    outline: &mut Outline,
    knot: &Knot<K>,
    c: Context,
    is_const: bool,
    word: Token,
) -> Result<u32, ParseFault>
    requires lies { Lies cursor.old word }
    requires ties { Ties (K.pre knot.now.call.now) (K.post knot.now.call.now) knot.now.nest }
    ensures traces { Traces (spec.lex_behind cursor.old (tracers_to cursor.old knot.now.nest) c
        is_const outline.old.marks word) outline.new.marks result }
    ensures within { IfOk result (λ end. end ≤ length cursor.old) }
    ensures same { cursor.new ≡ cursor.old }
    ensures kept { outline.new.kept ≡ outline.old.kept }
{
    outline.begin(Part::Declaration)?;
    outline.one(word)?;
    let first = Stop {
        at: word.end,
        ending: Ending::Other,
    };
    let stop = decl_list(cursor, outline, knot, c, is_const, first)?;
    outline.end(Part::Declaration)?;
    semi_behind(cursor, outline, stop)
}

/// The same by `var`.
#[tactic(auto, unfolding(es_trace::specs::Statements::var_behind))]
pub fn var_behind<K: Fn(&mut Cursor, &mut Outline, Rule, Context, u32) -> Result<Stop, ParseFault>>(
    cursor: &mut Cursor,
    outline: &mut Outline,
    knot: &Knot<K>,
    c: Context,
    word: Token,
) -> Result<u32, ParseFault>
    requires lies { Lies cursor.old word }
    requires ties { Ties (K.pre knot.now.call.now) (K.post knot.now.call.now) knot.now.nest }
    ensures traces { Traces (spec.var_behind cursor.old (tracers_to cursor.old knot.now.nest) c
        outline.old.marks word) outline.new.marks result }
    ensures within { IfOk result (λ end. end ≤ length cursor.old) }
    ensures same { cursor.new ≡ cursor.old }
    ensures kept { outline.new.kept ≡ outline.old.kept }
{
    lex_behind(cursor, outline, knot, c, false, word)
}
