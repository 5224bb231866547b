//! Exports.
ghost use Rattle.std.specs.Prelude.{◌≡◌, ◌≤◌, length, true, IfOk};
ghost use Rattle.es_trace.specs.Basics.{Traces};
ghost use Rattle.es_trace.specs.Modules as spec;
ghost use Rattle.es_trace.specs.Loops as loops;
ghost use Rattle.es_trace.specs.Tying.{tracers_to};
ghost use Rattle.es_cursor.specs.Standing.{Lies, Stands};
ghost use Rattle.es_nest.specs.Ties.{Ties};
ghost use Rattle.es_nest.specs.Turns.{state_of};

use crate::requests::{source_behind, trace_source};
use crate::tokens::id_name;
use es_begins::{begins_declaration, read_semi};
use es_cursor::Cursor;
use es_functions::{trace_class, trace_func};
use es_grammar::{Context, Ending, Stop};
use es_nest::{Knot, all_turns};
use es_outline::{Outline, Part, Role};
use es_reader::ParseFault;
use es_statements::{lex_behind, var_behind};
use es_trace::{NamesListed, Rule, Turn};
use es_tree::{Goal, Token};

// Another name of what is exported, if one stands there.
#[tactic(auto, unfolding(es_trace::specs::Modules::trace_renamed, es_trace::specs::Modules::renamed_behind))]
fn trace_renamed(cursor: &mut Cursor, outline: &mut Outline, at: u32) -> Result<u32, ParseFault>
    requires stands { Stands cursor.old at }
    ensures traces { Traces (spec.trace_renamed cursor.old
        outline.old.marks at) outline.new.marks result }
    ensures within { IfOk result (λ end. end ≤ length cursor.old) }
    ensures same { cursor.new ≡ cursor.old }
    ensures kept { outline.new.kept ≡ outline.old.kept }
{
    let token = cursor.token(Goal::Operator, at)?;
    if !cursor.is_word(b"as", token) {
        return Ok(at);
    }
    outline.one(token)?;
    let name = id_name(cursor, token.end)?;
    outline.role(Role::Outer, name)?;
    Ok(name.end)
}

// The comma behind an exported name, where the list goes on.
#[tactic(auto, unfolding(es_trace::specs::Modules::name_behind))]
fn name_behind(
    cursor: &mut Cursor,
    outline: &mut Outline,
    local: bool,
    at: u32,
) -> Result<Turn<NamesListed>, ParseFault>
    requires stands { Stands cursor.old at }
    ensures traces { Traces (spec.name_behind cursor.old local
        outline.old.marks at) outline.new.marks result }
    ensures within { IfOk result (λ turn. (state_of turn).at ≤ length cursor.old) }
    ensures same { cursor.new ≡ cursor.old }
    ensures kept { outline.new.kept ≡ outline.old.kept }
{
    let token = cursor.token(Goal::Operator, at)?;
    if cursor.is_mark(b",", token) {
        outline.one(token)?;
        let at = token.end;
        return Ok(Turn::More(NamesListed { at, local }));
    }
    Ok(Turn::Ended(NamesListed { at, local }))
}

// A turn of the list of names that are exported.
#[tactic(auto, unfolding(es_trace::specs::Modules::names_turn, es_trace::specs::Modules::name_part))]
fn names_turn(
    cursor: &mut Cursor,
    outline: &mut Outline,
    c: Context,
    state: NamesListed,
) -> Result<Turn<NamesListed>, ParseFault>
    requires stands { Stands cursor.old state.at }
    ensures traces { Traces (spec.names_turn cursor.old c
        outline.old.marks state) outline.new.marks result }
    ensures within { IfOk result (λ turn. (state_of turn).at ≤ length cursor.old) }
    ensures same { cursor.new ≡ cursor.old }
    ensures kept { outline.new.kept ≡ outline.old.kept }
{
    let token = cursor.token(Goal::Operand, state.at)?;
    if cursor.is_mark(b"}", token) {
        return Ok(Turn::Ended(state));
    }
    let name = id_name(cursor, state.at)?;
    outline.role(Role::Exported, name)?;
    let end = trace_renamed(cursor, outline, name.end)?;
    let is_name = cursor.is_name(c, name)?;
    name_behind(cursor, outline, state.local && is_name, end)
}

// The names that are exported.
fn names_list(
    cursor: &mut Cursor,
    outline: &mut Outline,
    c: Context,
    at: u32,
) -> Result<NamesListed, ParseFault>
    requires stands { Stands cursor.old at }
    ensures traces { Traces (loops.all_turns cursor.old (spec.names_turn cursor.old c)
        outline.old.marks (spec.names_to true at)) outline.new.marks result }
    ensures within { IfOk result (λ names. names.at ≤ length cursor.old) }
    ensures same { cursor.new ≡ cursor.old }
    ensures kept { outline.new.kept ≡ outline.old.kept }
{
    let turn = |cursor: &mut Cursor, outline: &mut Outline, state: NamesListed| {
        names_turn(cursor, outline, c, state)
    };
    all_turns(cursor, outline, &turn, NamesListed { at, local: true })
}

// The names that are exported, and `}`; `{` was seen.
#[tactic(auto, unfolding(es_trace::specs::Modules::names_behind))]
fn names_behind(
    cursor: &mut Cursor,
    outline: &mut Outline,
    c: Context,
    left: Token,
) -> Result<NamesListed, ParseFault>
    requires lies { Lies cursor.old left }
    ensures traces { Traces (spec.names_behind cursor.old c
        outline.old.marks left) outline.new.marks result }
    ensures within { IfOk result (λ names. names.at ≤ length cursor.old) }
    ensures same { cursor.new ≡ cursor.old }
    ensures kept { outline.new.kept ≡ outline.old.kept }
{
    outline.one(left)?;
    let names = names_list(cursor, outline, c, left.end)?;
    let right = cursor.mark(Goal::Operator, b"}", names.at)?;
    outline.one(right)?;
    Ok(NamesListed {
        at: right.end,
        local: names.local,
    })
}

// An export of names: of those of another module, or of what this one declares.
#[tactic(auto, unfolding(es_trace::specs::Modules::export_names, es_trace::specs::Modules::names_by, es_trace::specs::Modules::export_local))]
fn export_names(
    cursor: &mut Cursor,
    outline: &mut Outline,
    c: Context,
    left: Token,
) -> Result<u32, ParseFault>
    requires lies { Lies cursor.old left }
    ensures traces { Traces (spec.export_names cursor.old c
        outline.old.marks left) outline.new.marks result }
    ensures within { IfOk result (λ end. end ≤ length cursor.old) }
    ensures same { cursor.new ≡ cursor.old }
    ensures kept { outline.new.kept ≡ outline.old.kept }
{
    let names = names_behind(cursor, outline, c, left)?;
    let token = cursor.token(Goal::Operator, names.at)?;
    if cursor.is_word(b"from", token) {
        return source_behind(cursor, outline, token);
    }
    if !names.local {
        return Err(ParseFault::Syntax);
    }
    let stop = Stop {
        at: names.at,
        ending: Ending::ExportedNames,
    };
    let (semi, end) = read_semi(cursor, stop)?;
    outline.semicolon(semi)?;
    Ok(end)
}

// An export of all of another module, whose `*` was seen.
#[tactic(auto, unfolding(es_trace::specs::Modules::export_star, es_trace::specs::Modules::export_star_by, es_trace::specs::Modules::export_space))]
fn export_star(cursor: &mut Cursor, outline: &mut Outline, star: Token) -> Result<u32, ParseFault>
    requires lies { Lies cursor.old star }
    ensures traces { Traces (spec.export_star cursor.old
        outline.old.marks star) outline.new.marks result }
    ensures within { IfOk result (λ end. end ≤ length cursor.old) }
    ensures same { cursor.new ≡ cursor.old }
    ensures kept { outline.new.kept ≡ outline.old.kept }
{
    outline.one(star)?;
    let token = cursor.token(Goal::Operand, star.end)?;
    if cursor.is_word(b"from", token) {
        return source_behind(cursor, outline, token);
    }
    if !cursor.is_word(b"as", token) {
        return Err(ParseFault::Syntax);
    }
    outline.one(token)?;
    let name = id_name(cursor, token.end)?;
    outline.role(Role::Outer, name)?;
    trace_source(cursor, outline, Goal::Operator, name.end)
}

// An expression that is exported by default, and a semicolon.
#[tactic(auto, unfolding(es_trace::specs::Modules::default_assign))]
fn default_assign<K: Fn(&mut Cursor, &mut Outline, Rule, Context, u32) -> Result<Stop, ParseFault>>(
    cursor: &mut Cursor,
    outline: &mut Outline,
    knot: &Knot<K>,
    c: Context,
    at: u32,
) -> Result<u32, ParseFault>
    requires stands { Stands cursor.old at }
    requires ties { Ties (K.pre knot.now.call.now) (K.post knot.now.call.now) knot.now.nest }
    ensures traces { Traces (spec.default_assign cursor.old (tracers_to cursor.old knot.now.nest) c
        outline.old.marks at) outline.new.marks result }
    ensures within { IfOk result (λ end. end ≤ length cursor.old) }
    ensures same { cursor.new ≡ cursor.old }
    ensures kept { outline.new.kept ≡ outline.old.kept }
{
    outline.begin(Part::ExportedValue)?;
    let stop = knot.assign(cursor, outline, c, at)?;
    outline.end(Part::ExportedValue)?;
    let (semi, end) = read_semi(cursor, stop)?;
    outline.semicolon(semi)?;
    Ok(end)
}

// What is exported by default, whose word was seen.
#[tactic(auto, unfolding(es_trace::specs::Modules::export_default, es_trace::specs::Modules::default_by))]
fn export_default<K: Fn(&mut Cursor, &mut Outline, Rule, Context, u32) -> Result<Stop, ParseFault>>(
    cursor: &mut Cursor,
    outline: &mut Outline,
    knot: &Knot<K>,
    c: Context,
    word: Token,
) -> Result<u32, ParseFault>
    requires lies { Lies cursor.old word }
    requires ties { Ties (K.pre knot.now.call.now) (K.post knot.now.call.now) knot.now.nest }
    ensures traces { Traces (spec.export_default cursor.old (tracers_to cursor.old knot.now.nest) c
        outline.old.marks word) outline.new.marks result }
    ensures within { IfOk result (λ end. end ≤ length cursor.old) }
    ensures same { cursor.new ≡ cursor.old }
    ensures kept { outline.new.kept ≡ outline.old.kept }
{
    outline.one(word)?;
    let next = cursor.token(Goal::Operand, word.end)?;
    if cursor.is_word(b"class", next) {
        return trace_class(cursor, outline, knot, c, false, word.end);
    }
    if begins_declaration(cursor, next) {
        return trace_func(cursor, outline, knot, c, false, word.end);
    }
    default_assign(cursor, outline, knot, c, word.end)
}

// A declaration that is exported, by its first token, from a place on.
#[tactic(auto, unfolding(es_trace::specs::Modules::export_declaration))]
fn export_declaration<
    K: Fn(&mut Cursor, &mut Outline, Rule, Context, u32) -> Result<Stop, ParseFault>,
>(
    cursor: &mut Cursor,
    outline: &mut Outline,
    knot: &Knot<K>,
    c: Context,
    at: u32,
    next: Token,
) -> Result<u32, ParseFault>
    requires stands { Stands cursor.old at }
    requires lies { Lies cursor.old next }
    requires ties { Ties (K.pre knot.now.call.now) (K.post knot.now.call.now) knot.now.nest }
    ensures traces { Traces (spec.export_declaration cursor.old (tracers_to cursor.old
        knot.now.nest) c outline.old.marks at next) outline.new.marks result }
    ensures within { IfOk result (λ end. end ≤ length cursor.old) }
    ensures same { cursor.new ≡ cursor.old }
    ensures kept { outline.new.kept ≡ outline.old.kept }
{
    if cursor.is_word(b"var", next) {
        return var_behind(cursor, outline, knot, c, next);
    }
    if cursor.is_word(b"let", next) {
        return lex_behind(cursor, outline, knot, c, false, next);
    }
    if cursor.is_word(b"const", next) {
        return lex_behind(cursor, outline, knot, c, true, next);
    }
    if cursor.is_word(b"class", next) {
        return trace_class(cursor, outline, knot, c, true, at);
    }
    trace_func(cursor, outline, knot, c, true, at)
}

// Which part an export is, by the token behind its word.
#[tactic(auto, unfolding(es_trace::specs::Modules::export_part))]
fn export_part(cursor: &Cursor, next: Token) -> Part
    requires { Lies cursor.now next }
    ensures { result ≡ spec.export_part cursor.now next }
{
    if cursor.is_mark(b"*", next) {
        Part::ExportStar
    } else if cursor.is_mark(b"{", next) {
        Part::ExportList
    } else if cursor.is_word(b"default", next) {
        Part::ExportDefault
    } else {
        Part::ExportedDeclaration
    }
}

// An export, by the token behind its word, which is in the outline and ends at this place.
#[tactic(auto, unfolding(es_trace::specs::Modules::export_by))]
fn export_by<K: Fn(&mut Cursor, &mut Outline, Rule, Context, u32) -> Result<Stop, ParseFault>>(
    cursor: &mut Cursor,
    outline: &mut Outline,
    knot: &Knot<K>,
    c: Context,
    at: u32,
    next: Token,
) -> Result<u32, ParseFault>
    requires stands { Stands cursor.old at }
    requires lies { Lies cursor.old next }
    requires ties { Ties (K.pre knot.now.call.now) (K.post knot.now.call.now) knot.now.nest }
    ensures traces { Traces (spec.export_by cursor.old (tracers_to cursor.old knot.now.nest) c
        outline.old.marks at next) outline.new.marks result }
    ensures within { IfOk result (λ end. end ≤ length cursor.old) }
    ensures same { cursor.new ≡ cursor.old }
    ensures kept { outline.new.kept ≡ outline.old.kept }
{
    if cursor.is_mark(b"*", next) {
        return export_star(cursor, outline, next);
    }
    if cursor.is_mark(b"{", next) {
        return export_names(cursor, outline, c, next);
    }
    if cursor.is_word(b"default", next) {
        return export_default(cursor, outline, knot, c, next);
    }
    export_declaration(cursor, outline, knot, c, at, next)
}

/// An export.
#[tactic(auto, unfolding(es_trace::specs::Modules::trace_export))]
pub fn trace_export<
    K: Fn(&mut Cursor, &mut Outline, Rule, Context, u32) -> Result<Stop, ParseFault>,
>(
    cursor: &mut Cursor,
    outline: &mut Outline,
    knot: &Knot<K>,
    c: Context,
    at: u32,
) -> Result<u32, ParseFault>
    requires stands { Stands cursor.old at }
    requires ties { Ties (K.pre knot.now.call.now) (K.post knot.now.call.now) knot.now.nest }
    ensures traces { Traces (spec.trace_export cursor.old (tracers_to cursor.old knot.now.nest) c
        outline.old.marks at) outline.new.marks result }
    ensures within { IfOk result (λ end. end ≤ length cursor.old) }
    ensures same { cursor.new ≡ cursor.old }
    ensures kept { outline.new.kept ≡ outline.old.kept }
{
    let token = cursor.word(Goal::Operand, b"export", at)?;
    let next = cursor.token(Goal::Operand, token.end)?;
    let part = export_part(cursor, next);
    outline.begin(part)?;
    outline.one(token)?;
    let end = export_by(cursor, outline, knot, c, token.end, next)?;
    outline.end(part)?;
    Ok(end)
}
