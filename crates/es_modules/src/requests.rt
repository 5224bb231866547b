//! Requests of modules: `from`, attributes, and what stands behind them.
ghost use Rattle.std.specs.Prelude.{◌≡◌, ◌≤◌, length, codes, IfOk};
ghost use Rattle.es_reader.specs.Basics as basics;
ghost use Rattle.es_trace.specs.Basics.{Traces};
ghost use Rattle.es_trace.specs.Modules as spec;
ghost use Rattle.es_trace.specs.Lists as lists;
ghost use Rattle.es_trace.specs.Loops as loops;
ghost use Rattle.es_cursor.specs.Standing.{Lies, Stands};
ghost use Rattle.es_nest.specs.Turns.{state_of};

use crate::tokens::string;
use es_begins::{is_id, is_string, read_semi};
use es_cursor::Cursor;
use es_grammar::{Ending, Stop};
use es_nest::{all_turns, comma_behind, first_at};
use es_outline::{Outline, Role};
use es_reader::ParseFault;
use es_trace::{Listed, Turn};
use es_tree::{Goal, Token};

// An attribute: (IdName | String) `:` String.
#[tactic(auto, unfolding(es_trace::specs::Modules::trace_attribute, es_trace::specs::Modules::attribute_behind))]
fn trace_attribute(cursor: &mut Cursor, outline: &mut Outline, at: u32) -> Result<u32, ParseFault>
    requires stands { Stands cursor.old at }
    ensures traces { Traces (spec.trace_attribute cursor.old
        outline.old.marks at) outline.new.marks result }
    ensures within { IfOk result (λ end. end ≤ length cursor.old) }
    ensures same { cursor.new ≡ cursor.old }
    ensures kept { outline.new.kept ≡ outline.old.kept }
{
    let token = cursor.token(Goal::Operand, at)?;
    if !(is_id(token) || is_string(token)) {
        return Err(ParseFault::Syntax);
    }
    outline.one(token)?;
    let colon = cursor.mark(Goal::Operator, b":", token.end)?;
    outline.one(colon)?;
    let value = string(cursor, colon.end)?;
    outline.one(value)?;
    Ok(value.end)
}

// A turn of the list of attributes.
#[tactic(auto, unfolding(es_trace::specs::Lists::list_turn, es_trace::specs::Lists::list_part))]
fn attribute_turn(
    cursor: &mut Cursor,
    outline: &mut Outline,
    state: Listed,
) -> Result<Turn<Listed>, ParseFault>
    requires stands { Stands cursor.old state.at }
    ensures traces { Traces (lists.list_turn cursor.old (basics.is_mark cursor.old (codes "}"))
        (spec.trace_attribute cursor.old) outline.old.marks state) outline.new.marks result }
    ensures within { IfOk result (λ turn. (state_of turn).at ≤ length cursor.old) }
    ensures same { cursor.new ≡ cursor.old }
    ensures kept { outline.new.kept ≡ outline.old.kept }
{
    let token = cursor.token(Goal::Operand, state.at)?;
    if cursor.is_mark(b"}", token) {
        return Ok(Turn::Ended(state));
    }
    let end = trace_attribute(cursor, outline, state.at)?;
    comma_behind(cursor, outline, end)
}

// The attributes of a request.
fn attribute_list(cursor: &mut Cursor, outline: &mut Outline, at: u32) -> Result<Listed, ParseFault>
    requires stands { Stands cursor.old at }
    ensures traces { Traces (loops.all_turns cursor.old (lists.list_turn cursor.old (basics.is_mark
        cursor.old (codes "}")) (spec.trace_attribute cursor.old)) outline.old.marks
        (lists.first_at at)) outline.new.marks result }
    ensures within { IfOk result (λ end. end.at ≤ length cursor.old) }
    ensures same { cursor.new ≡ cursor.old }
    ensures kept { outline.new.kept ≡ outline.old.kept }
{
    let turn = |cursor: &mut Cursor, outline: &mut Outline, state: Listed| attribute_turn(
        cursor, outline, state,
    );
    all_turns(cursor, outline, &turn, first_at(at))
}

// `with` and attributes behind a request, if they stand there.
#[tactic(auto, unfolding(es_trace::specs::Modules::trace_optional_with, es_trace::specs::Modules::with_behind))]
fn trace_optional_with(
    cursor: &mut Cursor,
    outline: &mut Outline,
    at: u32,
) -> Result<Stop, ParseFault>
    requires stands { Stands cursor.old at }
    ensures traces { Traces (spec.trace_optional_with cursor.old
        outline.old.marks at) outline.new.marks result }
    ensures within { IfOk result (λ end. end.at ≤ length cursor.old) }
    ensures same { cursor.new ≡ cursor.old }
    ensures kept { outline.new.kept ≡ outline.old.kept }
{
    let token = cursor.token(Goal::Operator, at)?;
    if !cursor.is_word(b"with", token) {
        return Ok(Stop {
            at,
            ending: Ending::Request,
        });
    }
    outline.role(Role::Attributes, token)?;
    let left = cursor.mark(Goal::Operand, b"{", token.end)?;
    outline.one(left)?;
    let list = attribute_list(cursor, outline, left.end)?;
    let right = cursor.mark(Goal::Operator, b"}", list.at)?;
    outline.one(right)?;
    Ok(Stop {
        at: right.end,
        ending: Ending::Other,
    })
}

// What stands behind the text of a request.
#[tactic(auto, unfolding(es_trace::specs::Modules::trace_tail))]
pub(crate) fn trace_tail(
    cursor: &mut Cursor,
    outline: &mut Outline,
    at: u32,
) -> Result<u32, ParseFault>
    requires stands { Stands cursor.old at }
    ensures traces { Traces (spec.trace_tail cursor.old
        outline.old.marks at) outline.new.marks result }
    ensures within { IfOk result (λ end. end ≤ length cursor.old) }
    ensures same { cursor.new ≡ cursor.old }
    ensures kept { outline.new.kept ≡ outline.old.kept }
{
    let stop = trace_optional_with(cursor, outline, at)?;
    let (semi, end) = read_semi(cursor, stop)?;
    outline.semicolon(semi)?;
    Ok(end)
}

/// A request and what stands behind it, behind `from`, which was seen.
#[tactic(auto, unfolding(es_trace::specs::Modules::source_behind))]
pub fn source_behind(
    cursor: &mut Cursor,
    outline: &mut Outline,
    token: Token,
) -> Result<u32, ParseFault>
    requires lies { Lies cursor.old token }
    ensures traces { Traces (spec.source_behind cursor.old
        outline.old.marks token) outline.new.marks result }
    ensures within { IfOk result (λ end. end ≤ length cursor.old) }
    ensures same { cursor.new ≡ cursor.old }
    ensures kept { outline.new.kept ≡ outline.old.kept }
{
    outline.one(token)?;
    let request = string(cursor, token.end)?;
    outline.role(Role::Request, request)?;
    trace_tail(cursor, outline, request.end)
}

/// `from`, a request and what stands behind it.
#[tactic(auto, unfolding(es_trace::specs::Modules::trace_source))]
pub fn trace_source(
    cursor: &mut Cursor,
    outline: &mut Outline,
    goal: Goal,
    at: u32,
) -> Result<u32, ParseFault>
    requires stands { Stands cursor.old at }
    ensures traces { Traces (spec.trace_source cursor.old goal
        outline.old.marks at) outline.new.marks result }
    ensures within { IfOk result (λ end. end ≤ length cursor.old) }
    ensures same { cursor.new ≡ cursor.old }
    ensures kept { outline.new.kept ≡ outline.old.kept }
{
    let token = cursor.word(goal, b"from", at)?;
    source_behind(cursor, outline, token)
}
