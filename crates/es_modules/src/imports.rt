//! Imports.
ghost use Rattle.std.specs.Prelude.{◌≡◌, ◌≤◌, length, codes, IfOk};
ghost use Rattle.es_reader.specs.Basics as basics;
ghost use Rattle.es_trace.specs.Basics.{Traces};
ghost use Rattle.es_trace.specs.Modules as spec;
ghost use Rattle.es_trace.specs.Lists as lists;
ghost use Rattle.es_trace.specs.Loops as loops;
ghost use Rattle.es_cursor.specs.Standing.{Lies, Stands};
ghost use Rattle.es_nest.specs.Turns.{state_of};

use crate::requests::{trace_source, trace_tail};
use crate::tokens::id_name;
use es_begins::is_string;
use es_cursor::Cursor;
use es_grammar::Context;
use es_nest::{all_turns, comma_behind, first_at};
use es_outline::{Mark, Outline, Part, Role};
use es_reader::ParseFault;
use es_trace::{Listed, Turn};
use es_tree::{Goal, Token};

// Space: `*` `as` Name, whose `*` was seen.
#[tactic(auto, unfolding(es_trace::specs::Modules::space_behind))]
fn space_behind(
    cursor: &mut Cursor,
    outline: &mut Outline,
    c: Context,
    star: Token,
) -> Result<u32, ParseFault>
    requires lies { Lies cursor.old star }
    ensures traces { Traces (spec.space_behind cursor.old c
        outline.old.marks star) outline.new.marks result }
    ensures within { IfOk result (λ end. end ≤ length cursor.old) }
    ensures same { cursor.new ≡ cursor.old }
    ensures kept { outline.new.kept ≡ outline.old.kept }
{
    outline.one(star)?;
    let word = cursor.word(Goal::Operand, b"as", star.end)?;
    outline.one(word)?;
    let name = cursor.name(Goal::Operand, c, word.end)?;
    outline.role(Role::ImportedSpace, name)?;
    Ok(name.end)
}

// Name | IdName `as` Name. The token behind the first word tells which.
#[tactic(auto, unfolding(es_trace::specs::Modules::trace_import_name, es_trace::specs::Modules::import_name_by, es_trace::specs::Modules::renamed_import))]
fn trace_import_name(
    cursor: &mut Cursor,
    outline: &mut Outline,
    c: Context,
    at: u32,
) -> Result<u32, ParseFault>
    requires stands { Stands cursor.old at }
    ensures traces { Traces (spec.trace_import_name cursor.old c
        outline.old.marks at) outline.new.marks result }
    ensures within { IfOk result (λ end. end ≤ length cursor.old) }
    ensures same { cursor.new ≡ cursor.old }
    ensures kept { outline.new.kept ≡ outline.old.kept }
{
    let token = id_name(cursor, at)?;
    let next = cursor.token(Goal::Operand, token.end)?;
    if cursor.is_word(b"as", next) {
        outline.role(Role::Outer, token)?;
        outline.one(next)?;
        let name = cursor.name(Goal::Operand, c, next.end)?;
        outline.role(Role::Imported, name)?;
        return Ok(name.end);
    }
    if cursor.is_name(c, token)? {
        outline.put(Mark::Shorthand)?;
        outline.role(Role::Imported, token)?;
        return Ok(token.end);
    }
    Err(ParseFault::Syntax)
}

// A turn of the list of names that are imported.
#[tactic(auto, unfolding(es_trace::specs::Lists::list_turn, es_trace::specs::Lists::list_part))]
fn import_name_turn(
    cursor: &mut Cursor,
    outline: &mut Outline,
    c: Context,
    state: Listed,
) -> Result<Turn<Listed>, ParseFault>
    requires stands { Stands cursor.old state.at }
    ensures traces { Traces (lists.list_turn cursor.old (basics.is_mark cursor.old (codes "}"))
        (spec.trace_import_name cursor.old c) outline.old.marks state) outline.new.marks result }
    ensures within { IfOk result (λ turn. (state_of turn).at ≤ length cursor.old) }
    ensures same { cursor.new ≡ cursor.old }
    ensures kept { outline.new.kept ≡ outline.old.kept }
{
    let token = cursor.token(Goal::Operand, state.at)?;
    if cursor.is_mark(b"}", token) {
        return Ok(Turn::Ended(state));
    }
    let end = trace_import_name(cursor, outline, c, state.at)?;
    comma_behind(cursor, outline, end)
}

// The names that are imported.
fn import_name_list(
    cursor: &mut Cursor,
    outline: &mut Outline,
    c: Context,
    at: u32,
) -> Result<Listed, ParseFault>
    requires stands { Stands cursor.old at }
    ensures traces { Traces (loops.all_turns cursor.old (lists.list_turn cursor.old (basics.is_mark
        cursor.old (codes "}")) (spec.trace_import_name cursor.old c)) outline.old.marks
        (lists.first_at at)) outline.new.marks result }
    ensures within { IfOk result (λ end. end.at ≤ length cursor.old) }
    ensures same { cursor.new ≡ cursor.old }
    ensures kept { outline.new.kept ≡ outline.old.kept }
{
    let turn = |cursor: &mut Cursor, outline: &mut Outline, state: Listed| {
        import_name_turn(cursor, outline, c, state)
    };
    all_turns(cursor, outline, &turn, first_at(at))
}

// The names that are imported, and `}`; `{` was seen.
#[tactic(auto, unfolding(es_trace::specs::Modules::named_behind))]
fn named_behind(
    cursor: &mut Cursor,
    outline: &mut Outline,
    c: Context,
    left: Token,
) -> Result<u32, ParseFault>
    requires lies { Lies cursor.old left }
    ensures traces { Traces (spec.named_behind cursor.old c
        outline.old.marks left) outline.new.marks result }
    ensures within { IfOk result (λ end. end ≤ length cursor.old) }
    ensures same { cursor.new ≡ cursor.old }
    ensures kept { outline.new.kept ≡ outline.old.kept }
{
    outline.one(left)?;
    let list = import_name_list(cursor, outline, c, left.end)?;
    let right = cursor.mark(Goal::Operator, b"}", list.at)?;
    outline.one(right)?;
    Ok(right.end)
}

// A Clause that begins with a Name, which is in the outline, behind that.
#[tactic(auto, unfolding(es_trace::specs::Modules::name_clause, es_trace::specs::Modules::second_clause, es_trace::specs::Modules::second_clause_by))]
fn name_clause(
    cursor: &mut Cursor,
    outline: &mut Outline,
    c: Context,
    at: u32,
) -> Result<u32, ParseFault>
    requires stands { Stands cursor.old at }
    ensures traces { Traces (spec.name_clause cursor.old c
        outline.old.marks at) outline.new.marks result }
    ensures within { IfOk result (λ end. end ≤ length cursor.old) }
    ensures same { cursor.new ≡ cursor.old }
    ensures kept { outline.new.kept ≡ outline.old.kept }
{
    let comma = cursor.token(Goal::Operator, at)?;
    if !cursor.is_mark(b",", comma) {
        return Ok(at);
    }
    outline.one(comma)?;
    let next = cursor.token(Goal::Operand, comma.end)?;
    if cursor.is_mark(b"*", next) {
        return space_behind(cursor, outline, c, next);
    }
    if cursor.is_mark(b"{", next) {
        return named_behind(cursor, outline, c, next);
    }
    Err(ParseFault::Syntax)
}

// Clause, by its first token.
#[tactic(auto, unfolding(es_trace::specs::Modules::clause_by))]
fn clause_by(
    cursor: &mut Cursor,
    outline: &mut Outline,
    c: Context,
    token: Token,
) -> Result<u32, ParseFault>
    requires lies { Lies cursor.old token }
    ensures traces { Traces (spec.clause_by cursor.old c
        outline.old.marks token) outline.new.marks result }
    ensures within { IfOk result (λ end. end ≤ length cursor.old) }
    ensures same { cursor.new ≡ cursor.old }
    ensures kept { outline.new.kept ≡ outline.old.kept }
{
    if cursor.is_mark(b"*", token) {
        return space_behind(cursor, outline, c, token);
    }
    if cursor.is_mark(b"{", token) {
        return named_behind(cursor, outline, c, token);
    }
    if cursor.is_name(c, token)? {
        outline.role(Role::ImportedDefault, token)?;
        return name_clause(cursor, outline, c, token.end);
    }
    Err(ParseFault::Syntax)
}

// An import, by the token behind its word, which is in the outline.
#[tactic(auto, unfolding(es_trace::specs::Modules::import_by, es_trace::specs::Modules::import_from))]
fn import_by(
    cursor: &mut Cursor,
    outline: &mut Outline,
    c: Context,
    next: Token,
) -> Result<u32, ParseFault>
    requires lies { Lies cursor.old next }
    ensures traces { Traces (spec.import_by cursor.old c
        outline.old.marks next) outline.new.marks result }
    ensures within { IfOk result (λ end. end ≤ length cursor.old) }
    ensures same { cursor.new ≡ cursor.old }
    ensures kept { outline.new.kept ≡ outline.old.kept }
{
    if is_string(next) {
        outline.role(Role::Request, next)?;
        return trace_tail(cursor, outline, next.end);
    }
    let end = clause_by(cursor, outline, c, next)?;
    trace_source(cursor, outline, Goal::Operator, end)
}

/// An import.
#[tactic(auto, unfolding(es_trace::specs::Modules::trace_import))]
pub fn trace_import(
    cursor: &mut Cursor,
    outline: &mut Outline,
    c: Context,
    at: u32,
) -> Result<u32, ParseFault>
    requires stands { Stands cursor.old at }
    ensures traces { Traces (spec.trace_import cursor.old c
        outline.old.marks at) outline.new.marks result }
    ensures within { IfOk result (λ end. end ≤ length cursor.old) }
    ensures same { cursor.new ≡ cursor.old }
    ensures kept { outline.new.kept ≡ outline.old.kept }
{
    let token = cursor.word(Goal::Operand, b"import", at)?;
    let next = cursor.token(Goal::Operand, token.end)?;
    outline.begin(Part::ImportDeclaration)?;
    outline.one(token)?;
    let end = import_by(cursor, outline, c, next)?;
    outline.end(Part::ImportDeclaration)?;
    Ok(end)
}
