//! Arrow functions.
ghost use Rattle.std.specs.Prelude.{◌≡◌, ◌≤◌, Some, length, IfOk, OnErr};
ghost use Rattle.es_tree.specs.declared.tokens.Goal.TheVariants.{Operand as AtOperand};
ghost use Rattle.es_reader.specs.Basics.{token as spec_token};
ghost use Rattle.es_trace.specs.Basics.{Traces};
ghost use Rattle.es_trace.specs.Operators as spec;
ghost use Rattle.es_trace.specs.Tying.{tracers_to};
ghost use Rattle.es_cursor.specs.Standing.{Lies, Stands};
ghost use Rattle.es_nest.specs.Ties.{Ties};

use es_begins::{in_arrow, in_concise, is_arrow};
use es_cursor::{Attempt, Cursor, Passed};
use es_functions::{trace_body, trace_params};
use es_grammar::{Context, Ending, Stop};
use es_nest::Knot;
use es_outline::{Outline, Part, Role};
use es_reader::ParseFault;
use es_trace::Rule;
use es_tree::{Goal, Token};

// `=>` on the line of what stands before it.
#[tactic(auto, unfolding(es_trace::specs::Operators::arrow_behind))]
fn arrow_behind(cursor: &mut Cursor, outline: &mut Outline, at: u32) -> Result<u32, ParseFault>
    requires stands { Stands cursor.old at }
    ensures traces { Traces (spec.arrow_behind cursor.old outline.old.marks at) outline.new.marks
        result }
    ensures within { IfOk result (λ end. end ≤ length cursor.old) }
    ensures same { cursor.new ≡ cursor.old }
    ensures kept { outline.new.kept ≡ outline.old.kept }
{
    let token = cursor.token(Goal::Operator, at)?;
    if !is_arrow(cursor, token) {
        return Err(ParseFault::Syntax);
    }
    outline.one(token)?;
    Ok(token.end)
}

// Parameters in parentheses, the first of which was seen, and `=>`.
#[tactic(auto, unfolding(es_trace::specs::Operators::list_head))]
fn list_head<K: Fn(&mut Cursor, &mut Outline, Rule, Context, u32) -> Result<Stop, ParseFault>>(
    cursor: &mut Cursor,
    outline: &mut Outline,
    knot: &Knot<K>,
    c: Context,
    left: Token,
) -> Result<u32, ParseFault>
    requires lies { Lies cursor.old left }
    requires ties { Ties (K.pre knot.now.call.now) (K.post knot.now.call.now) knot.now.nest }
    ensures traces { Traces (spec.list_head cursor.old (tracers_to cursor.old knot.now.nest) c
        outline.old.marks left) outline.new.marks result }
    ensures within { IfOk result (λ end. end ≤ length cursor.old) }
    ensures same { cursor.new ≡ cursor.old }
    ensures kept { outline.new.kept ≡ outline.old.kept }
{
    outline.one(left)?;
    let end = trace_params(cursor, outline, knot, c, left.end)?;
    let right = cursor.mark(Goal::Operator, b")", end)?;
    outline.one(right)?;
    arrow_behind(cursor, outline, right.end)
}

// An arrow that begins with `(`, up to its body.
#[tactic(auto, unfolding(es_trace::specs::Operators::bracket_head))]
fn bracket_head<K: Fn(&mut Cursor, &mut Outline, Rule, Context, u32) -> Result<Stop, ParseFault>>(
    cursor: &mut Cursor,
    outline: &mut Outline,
    knot: &Knot<K>,
    c: Context,
    left: Token,
) -> Result<u32, ParseFault>
    requires lies { Lies cursor.old left }
    requires ties { Ties (K.pre knot.now.call.now) (K.post knot.now.call.now) knot.now.nest }
    ensures traces { Traces (spec.bracket_head cursor.old (tracers_to cursor.old knot.now.nest) c
        outline.old.marks left) outline.new.marks result }
    ensures within { IfOk result (λ end. end ≤ length cursor.old) }
    ensures same { cursor.new ≡ cursor.old }
    ensures kept { outline.new.kept ≡ outline.old.kept }
{
    outline.begin(Part::Arrow)?;
    list_head(cursor, outline, knot, in_arrow(false, c), left)
}

// The same where something else may stand there: then the outline is as it was.
fn bracket_head_or_back<
    K: Fn(&mut Cursor, &mut Outline, Rule, Context, u32) -> Result<Stop, ParseFault>,
>(
    cursor: &mut Cursor,
    outline: &mut Outline,
    knot: &Knot<K>,
    c: Context,
    left: Token,
) -> Result<u32, ParseFault>
    requires lies { Lies cursor.old left }
    requires ties { Ties (K.pre knot.now.call.now) (K.post knot.now.call.now) knot.now.nest }
    ensures traces { Traces (spec.bracket_head cursor.old (tracers_to cursor.old knot.now.nest) c
        outline.old.marks left) outline.new.marks result }
    ensures within { IfOk result (λ end. end ≤ length cursor.old) }
    ensures same { cursor.new ≡ cursor.old }
    ensures kept { outline.new.kept ≡ outline.old.kept }
    ensures back { OnErr result (outline.new.marks ≡ outline.old.marks) }
{
    let before = outline.keep();
    match bracket_head(cursor, outline, knot, c, left) {
        Ok(end) => {
            outline.settle(before);
            Ok(end)
        }
        Err(fault) => {
            outline.undo(before);
            Err(fault)
        }
    }
}

// The same, remembered where it was tried in vain.
pub(crate) fn try_bracket_head<
    K: Fn(&mut Cursor, &mut Outline, Rule, Context, u32) -> Result<Stop, ParseFault>,
>(
    cursor: &mut Cursor,
    outline: &mut Outline,
    knot: &Knot<K>,
    c: Context,
    at: u32,
    left: Token,
) -> Result<u32, ParseFault>
    requires lies { Lies cursor.old left }
    requires first { spec_token cursor.old AtOperand at ≡ Some left }
    requires ties { Ties (K.pre knot.now.call.now) (K.post knot.now.call.now) knot.now.nest }
    ensures traces { Traces (spec.bracket_head cursor.old (tracers_to cursor.old knot.now.nest) c
        outline.old.marks left) outline.new.marks result }
    ensures within { IfOk result (λ end. end ≤ length cursor.old) }
    ensures same { cursor.new ≡ cursor.old }
    ensures kept { outline.new.kept ≡ outline.old.kept }
    ensures back { OnErr result (outline.new.marks ≡ outline.old.marks) }
{
    let passed = Passed {
        attempt: Attempt::ListHead,
        nest: knot.nest,
        context: in_arrow(false, c),
        at,
    };
    if cursor.has_passed(passed) {
        return Err(ParseFault::Syntax);
    }
    match bracket_head_or_back(cursor, outline, knot, c, left) {
        Ok(end) => Ok(end),
        Err(ParseFault::Syntax) => {
            cursor.pass(passed)?;
            Err(ParseFault::Syntax)
        }
        Err(fault) => Err(fault),
    }
}

// An arrow that begins with `async`, up to its body.
#[tactic(auto, unfolding(es_trace::specs::Operators::async_head, es_trace::specs::Operators::params_head))]
fn async_head<K: Fn(&mut Cursor, &mut Outline, Rule, Context, u32) -> Result<Stop, ParseFault>>(
    cursor: &mut Cursor,
    outline: &mut Outline,
    knot: &Knot<K>,
    c: Context,
    word: Token,
) -> Result<u32, ParseFault>
    requires lies { Lies cursor.old word }
    requires ties { Ties (K.pre knot.now.call.now) (K.post knot.now.call.now) knot.now.nest }
    ensures traces { Traces (spec.async_head cursor.old (tracers_to cursor.old knot.now.nest) c
        outline.old.marks word) outline.new.marks result }
    ensures within { IfOk result (λ end. end ≤ length cursor.old) }
    ensures same { cursor.new ≡ cursor.old }
    ensures kept { outline.new.kept ≡ outline.old.kept }
{
    let token = cursor.token(Goal::Operand, word.end)?;
    if token.newline {
        return Err(ParseFault::Syntax);
    }
    outline.begin(Part::Arrow)?;
    outline.one(word)?;
    let inside = in_arrow(true, c);
    if cursor.is_name(inside, token)? {
        outline.role(Role::Bound, token)?;
        return arrow_behind(cursor, outline, token.end);
    }
    if !cursor.is_mark(b"(", token) {
        return Err(ParseFault::Syntax);
    }
    list_head(cursor, outline, knot, inside, token)
}

// The same where something else may stand there: then the outline is as it was.
fn async_head_or_back<
    K: Fn(&mut Cursor, &mut Outline, Rule, Context, u32) -> Result<Stop, ParseFault>,
>(
    cursor: &mut Cursor,
    outline: &mut Outline,
    knot: &Knot<K>,
    c: Context,
    word: Token,
) -> Result<u32, ParseFault>
    requires lies { Lies cursor.old word }
    requires ties { Ties (K.pre knot.now.call.now) (K.post knot.now.call.now) knot.now.nest }
    ensures traces { Traces (spec.async_head cursor.old (tracers_to cursor.old knot.now.nest) c
        outline.old.marks word) outline.new.marks result }
    ensures within { IfOk result (λ end. end ≤ length cursor.old) }
    ensures same { cursor.new ≡ cursor.old }
    ensures kept { outline.new.kept ≡ outline.old.kept }
    ensures back { OnErr result (outline.new.marks ≡ outline.old.marks) }
{
    let before = outline.keep();
    match async_head(cursor, outline, knot, c, word) {
        Ok(end) => {
            outline.settle(before);
            Ok(end)
        }
        Err(fault) => {
            outline.undo(before);
            Err(fault)
        }
    }
}

// The same, remembered where it was tried in vain.
pub(crate) fn try_async_head<
    K: Fn(&mut Cursor, &mut Outline, Rule, Context, u32) -> Result<Stop, ParseFault>,
>(
    cursor: &mut Cursor,
    outline: &mut Outline,
    knot: &Knot<K>,
    c: Context,
    at: u32,
    word: Token,
) -> Result<u32, ParseFault>
    requires lies { Lies cursor.old word }
    requires first { spec_token cursor.old AtOperand at ≡ Some word }
    requires ties { Ties (K.pre knot.now.call.now) (K.post knot.now.call.now) knot.now.nest }
    ensures traces { Traces (spec.async_head cursor.old (tracers_to cursor.old knot.now.nest) c
        outline.old.marks word) outline.new.marks result }
    ensures within { IfOk result (λ end. end ≤ length cursor.old) }
    ensures same { cursor.new ≡ cursor.old }
    ensures kept { outline.new.kept ≡ outline.old.kept }
    ensures back { OnErr result (outline.new.marks ≡ outline.old.marks) }
{
    let passed = Passed {
        attempt: Attempt::AsyncHead,
        nest: knot.nest,
        context: c,
        at,
    };
    if cursor.has_passed(passed) {
        return Err(ParseFault::Syntax);
    }
    match async_head_or_back(cursor, outline, knot, c, word) {
        Ok(end) => Ok(end),
        Err(ParseFault::Syntax) => {
            cursor.pass(passed)?;
            Err(ParseFault::Syntax)
        }
        Err(fault) => Err(fault),
    }
}

// The body of an arrow function.
#[tactic(auto, unfolding(es_trace::specs::Operators::arrow_body, es_trace::specs::Operators::block_body, es_trace::specs::Operators::concise_body))]
pub(crate) fn arrow_body<
    K: Fn(&mut Cursor, &mut Outline, Rule, Context, u32) -> Result<Stop, ParseFault>,
>(
    cursor: &mut Cursor,
    outline: &mut Outline,
    knot: &Knot<K>,
    c: Context,
    is_async: bool,
    at: u32,
) -> Result<Stop, ParseFault>
    requires stands { Stands cursor.old at }
    requires ties { Ties (K.pre knot.now.call.now) (K.post knot.now.call.now) knot.now.nest }
    ensures traces { Traces (spec.arrow_body cursor.old (tracers_to cursor.old knot.now.nest) c
        is_async outline.old.marks at) outline.new.marks result }
    ensures within { IfOk result (λ end. end.at ≤ length cursor.old) }
    ensures same { cursor.new ≡ cursor.old }
    ensures kept { outline.new.kept ≡ outline.old.kept }
{
    let token = cursor.token(Goal::Operand, at)?;
    if cursor.is_mark(b"{", token) {
        outline.begin(Part::FunctionBody)?;
        let end = trace_body(cursor, outline, knot, in_arrow(is_async, c), at)?;
        outline.end(Part::FunctionBody)?;
        outline.end(Part::Arrow)?;
        return Ok(Stop {
            at: end,
            ending: Ending::BlockArrow,
        });
    }
    let stop = knot.assign(cursor, outline, in_concise(is_async, c), at)?;
    outline.end(Part::Arrow)?;
    Ok(stop)
}
