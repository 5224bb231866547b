//! `switch` and its clauses.
ghost use Rattle.std.specs.Prelude.{◌≡◌, ◌≤◌, length, IfOk};
ghost use Rattle.es_trace.specs.Basics.{Traces};
ghost use Rattle.es_trace.specs.Statements as spec;
ghost use Rattle.es_trace.specs.Lists as lists;
ghost use Rattle.es_trace.specs.Functions as functions;
ghost use Rattle.es_trace.specs.Tying.{tracers_to};
ghost use Rattle.es_reader.specs.Statements as reader;
ghost use Rattle.es_cursor.specs.Standing.{Lies, Stands};
ghost use Rattle.es_nest.specs.Ties.{Ties};
ghost use Rattle.es_nest.specs.Turns.{state_of};

use crate::conditions::trace_condition;
use es_begins::{bracketed, ends_cases, ends_clause};
use es_cursor::Cursor;
use es_functions::trace_closed_item;
use es_grammar::{Context, Stop};
use es_nest::{Knot, all_turns};
use es_operands::trace_closed_expr;
use es_outline::{Outline, Part};
use es_reader::ParseFault;
use es_trace::{Rule, Turn};
use es_tree::{Goal, Token};

// An item of a clause.
#[tactic(auto, unfolding(es_trace::specs::Lists::chain_turn, es_trace::specs::Lists::next_part))]
fn item_turn<K: Fn(&mut Cursor, &mut Outline, Rule, Context, u32) -> Result<Stop, ParseFault>>(
    cursor: &mut Cursor,
    outline: &mut Outline,
    knot: &Knot<K>,
    c: Context,
    at: u32,
) -> Result<Turn<u32>, ParseFault>
    requires stands { Stands cursor.old at }
    requires ties { Ties (K.pre knot.now.call.now) (K.post knot.now.call.now) knot.now.nest }
    ensures traces { Traces (lists.chain_turn cursor.old (reader.ends_clause cursor.old)
        (functions.trace_closed_item cursor.old (tracers_to cursor.old knot.now.nest) c)
        outline.old.marks at) outline.new.marks result }
    ensures within { IfOk result (λ turn. state_of turn ≤ length cursor.old) }
    ensures same { cursor.new ≡ cursor.old }
    ensures kept { outline.new.kept ≡ outline.old.kept }
{
    let token = cursor.token(Goal::Operand, at)?;
    if ends_clause(cursor, token) {
        return Ok(Turn::Ended(at));
    }
    let end = trace_closed_item(cursor, outline, knot, c, at)?;
    Ok(Turn::More(end))
}

// The items of a clause.
#[tactic(auto, unfolding(es_trace::specs::Statements::trace_clause_items))]
fn clause_items<K: Fn(&mut Cursor, &mut Outline, Rule, Context, u32) -> Result<Stop, ParseFault>>(
    cursor: &mut Cursor,
    outline: &mut Outline,
    knot: &Knot<K>,
    c: Context,
    at: u32,
) -> Result<u32, ParseFault>
    requires stands { Stands cursor.old at }
    requires ties { Ties (K.pre knot.now.call.now) (K.post knot.now.call.now) knot.now.nest }
    ensures traces { Traces (spec.trace_clause_items cursor.old (tracers_to cursor.old
        knot.now.nest) c outline.old.marks at) outline.new.marks result }
    ensures within { IfOk result (λ end. end ≤ length cursor.old) }
    ensures same { cursor.new ≡ cursor.old }
    ensures kept { outline.new.kept ≡ outline.old.kept }
{
    let turn = |cursor: &mut Cursor, outline: &mut Outline, place: u32| {
        item_turn(cursor, outline, knot, c, place)
    };
    all_turns(cursor, outline, &turn, at)
}

// The colon and the items of a clause.
#[tactic(auto, unfolding(es_trace::specs::Statements::clause_behind))]
fn clause_behind<K: Fn(&mut Cursor, &mut Outline, Rule, Context, u32) -> Result<Stop, ParseFault>>(
    cursor: &mut Cursor,
    outline: &mut Outline,
    knot: &Knot<K>,
    c: Context,
    at: u32,
) -> Result<u32, ParseFault>
    requires stands { Stands cursor.old at }
    requires ties { Ties (K.pre knot.now.call.now) (K.post knot.now.call.now) knot.now.nest }
    ensures traces { Traces (spec.clause_behind cursor.old (tracers_to cursor.old
        knot.now.nest) c outline.old.marks at) outline.new.marks result }
    ensures within { IfOk result (λ end. end ≤ length cursor.old) }
    ensures same { cursor.new ≡ cursor.old }
    ensures kept { outline.new.kept ≡ outline.old.kept }
{
    let colon = cursor.mark(Goal::Operator, b":", at)?;
    outline.one(colon)?;
    clause_items(cursor, outline, knot, c, colon.end)
}

// A clause with `case`.
#[tactic(auto, unfolding(es_trace::specs::Statements::trace_case))]
fn trace_case<K: Fn(&mut Cursor, &mut Outline, Rule, Context, u32) -> Result<Stop, ParseFault>>(
    cursor: &mut Cursor,
    outline: &mut Outline,
    knot: &Knot<K>,
    c: Context,
    at: u32,
) -> Result<u32, ParseFault>
    requires stands { Stands cursor.old at }
    requires ties { Ties (K.pre knot.now.call.now) (K.post knot.now.call.now) knot.now.nest }
    ensures traces { Traces (spec.trace_case cursor.old (tracers_to cursor.old knot.now.nest) c
        outline.old.marks at) outline.new.marks result }
    ensures within { IfOk result (λ end. end ≤ length cursor.old) }
    ensures same { cursor.new ≡ cursor.old }
    ensures kept { outline.new.kept ≡ outline.old.kept }
{
    let word = cursor.word(Goal::Operand, b"case", at)?;
    outline.one(word)?;
    let end = trace_closed_expr(cursor, outline, knot, bracketed(c), word.end)?;
    clause_behind(cursor, outline, knot, c, end)
}

// One of the clauses without `default`.
#[tactic(auto, unfolding(es_trace::specs::Lists::chain_turn, es_trace::specs::Lists::next_part))]
fn case_turn<K: Fn(&mut Cursor, &mut Outline, Rule, Context, u32) -> Result<Stop, ParseFault>>(
    cursor: &mut Cursor,
    outline: &mut Outline,
    knot: &Knot<K>,
    c: Context,
    at: u32,
) -> Result<Turn<u32>, ParseFault>
    requires stands { Stands cursor.old at }
    requires ties { Ties (K.pre knot.now.call.now) (K.post knot.now.call.now) knot.now.nest }
    ensures traces { Traces (lists.chain_turn cursor.old (reader.ends_cases cursor.old)
        (spec.trace_case cursor.old (tracers_to cursor.old knot.now.nest) c) outline.old.marks
        at) outline.new.marks result }
    ensures within { IfOk result (λ turn. state_of turn ≤ length cursor.old) }
    ensures same { cursor.new ≡ cursor.old }
    ensures kept { outline.new.kept ≡ outline.old.kept }
{
    let token = cursor.token(Goal::Operand, at)?;
    if ends_cases(cursor, token) {
        return Ok(Turn::Ended(at));
    }
    let end = trace_case(cursor, outline, knot, c, at)?;
    Ok(Turn::More(end))
}

// The clauses without `default` from a place on.
#[tactic(auto, unfolding(es_trace::specs::Statements::trace_case_run))]
fn case_run<K: Fn(&mut Cursor, &mut Outline, Rule, Context, u32) -> Result<Stop, ParseFault>>(
    cursor: &mut Cursor,
    outline: &mut Outline,
    knot: &Knot<K>,
    c: Context,
    at: u32,
) -> Result<u32, ParseFault>
    requires stands { Stands cursor.old at }
    requires ties { Ties (K.pre knot.now.call.now) (K.post knot.now.call.now) knot.now.nest }
    ensures traces { Traces (spec.trace_case_run cursor.old (tracers_to cursor.old
        knot.now.nest) c outline.old.marks at) outline.new.marks result }
    ensures within { IfOk result (λ end. end ≤ length cursor.old) }
    ensures same { cursor.new ≡ cursor.old }
    ensures kept { outline.new.kept ≡ outline.old.kept }
{
    let turn = |cursor: &mut Cursor, outline: &mut Outline, place: u32| {
        case_turn(cursor, outline, knot, c, place)
    };
    all_turns(cursor, outline, &turn, at)
}

// Clauses of which one at most is `default`.
#[tactic(auto, unfolding(es_trace::specs::Statements::trace_cases, es_trace::specs::Statements::cases_with_default))]
fn trace_cases<K: Fn(&mut Cursor, &mut Outline, Rule, Context, u32) -> Result<Stop, ParseFault>>(
    cursor: &mut Cursor,
    outline: &mut Outline,
    knot: &Knot<K>,
    c: Context,
    at: u32,
) -> Result<u32, ParseFault>
    requires stands { Stands cursor.old at }
    requires ties { Ties (K.pre knot.now.call.now) (K.post knot.now.call.now) knot.now.nest }
    ensures traces { Traces (spec.trace_cases cursor.old (tracers_to cursor.old knot.now.nest)
        c outline.old.marks at) outline.new.marks result }
    ensures within { IfOk result (λ end. end ≤ length cursor.old) }
    ensures same { cursor.new ≡ cursor.old }
    ensures kept { outline.new.kept ≡ outline.old.kept }
{
    let end = case_run(cursor, outline, knot, c, at)?;
    let token = cursor.token(Goal::Operand, end)?;
    if cursor.is_word(b"default", token) {
        outline.one(token)?;
        let behind = clause_behind(cursor, outline, knot, c, token.end)?;
        return case_run(cursor, outline, knot, c, behind);
    }
    Ok(end)
}

/// `switch`, which was seen.
#[tactic(auto, unfolding(es_trace::specs::Statements::switch_stmt))]
pub(crate) fn switch_stmt<
    K: Fn(&mut Cursor, &mut Outline, Rule, Context, u32) -> Result<Stop, ParseFault>,
>(
    cursor: &mut Cursor,
    outline: &mut Outline,
    knot: &Knot<K>,
    c: Context,
    word: Token,
) -> Result<u32, ParseFault>
    requires lies { Lies cursor.old word }
    requires ties { Ties (K.pre knot.now.call.now) (K.post knot.now.call.now) knot.now.nest }
    ensures traces { Traces (spec.switch_stmt cursor.old (tracers_to cursor.old knot.now.nest)
        c outline.old.marks word) outline.new.marks result }
    ensures within { IfOk result (λ end. end ≤ length cursor.old) }
    ensures same { cursor.new ≡ cursor.old }
    ensures kept { outline.new.kept ≡ outline.old.kept }
{
    outline.one(word)?;
    let right = trace_condition(cursor, outline, knot, c, word.end)?;
    let brace = cursor.mark(Goal::Operand, b"{", right)?;
    outline.begin(Part::Switch)?;
    outline.one(brace)?;
    let end = trace_cases(cursor, outline, knot, c, brace.end)?;
    let last = cursor.mark(Goal::Operand, b"}", end)?;
    outline.one(last)?;
    outline.end(Part::Switch)?;
    Ok(last.end)
}
