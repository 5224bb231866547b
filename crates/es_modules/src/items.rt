//! The items of a program.
ghost use Rattle.std.specs.Prelude.{◌≡◌, ◌≤◌, length, false, IfOk};
ghost use Rattle.es_grammar.specs.Parses as parses;
ghost use Rattle.es_reader.specs.Modules as reader;
ghost use Rattle.es_trace.specs.Basics.{Traces};
ghost use Rattle.es_trace.specs.Lists as lists;
ghost use Rattle.es_trace.specs.Modules as spec;
ghost use Rattle.es_trace.specs.Tying.{tracers_to};
ghost use Rattle.es_cursor.specs.Standing.{Stands};
ghost use Rattle.es_nest.specs.Ties.{Ties};
ghost use Rattle.es_nest.specs.Turns.{state_of};

use crate::exports::trace_export;
use crate::imports::trace_import;
use es_begins::{begins_import, is_end};
use es_cursor::Cursor;
use es_functions::trace_closed_item;
use es_grammar::{Context, Stop};
use es_nest::{Knot, all_turns};
use es_outline::Outline;
use es_reader::ParseFault;
use es_statements::declaration_item;
use es_trace::{Rule, Turn};
use es_tree::{Goal, ProgramGoal};

// What an item of a program may hold.
fn at_top(goal: ProgramGoal) -> Context
    ensures { result ≡ parses.at_top goal }
{
    let has_await = match goal {
        ProgramGoal::Script => false,
        ProgramGoal::Module => true,
    };
    Context {
        has_in: true,
        has_yield: false,
        has_await,
        has_return: false,
        goal,
    }
}

// An item of a module.
#[tactic(auto, unfolding(es_trace::specs::Modules::trace_module_item))]
fn trace_module_item<
    K: Fn(&mut Cursor, &mut Outline, Rule, Context, u32) -> Result<Stop, ParseFault>,
>(
    cursor: &mut Cursor,
    outline: &mut Outline,
    knot: &Knot<K>,
    c: Context,
    at: u32,
) -> Result<u32, ParseFault>
    requires stands { Stands cursor.old at }
    requires ties { Ties (K.pre knot.now.call.now) (K.post knot.now.call.now) knot.now.nest }
    ensures traces { Traces (spec.trace_module_item cursor.old (tracers_to cursor.old knot.now.nest)
        c outline.old.marks at) outline.new.marks result }
    ensures within { IfOk result (λ end. end ≤ length cursor.old) }
    ensures same { cursor.new ≡ cursor.old }
    ensures kept { outline.new.kept ≡ outline.old.kept }
{
    let token = cursor.token(Goal::Operand, at)?;
    if begins_import(cursor, token) {
        return trace_import(cursor, outline, c, at);
    }
    if cursor.is_word(b"export", token) {
        return trace_export(cursor, outline, knot, c, at);
    }
    trace_closed_item(cursor, outline, knot, c, at)
}

/// An item of a program of this goal. Only a module has imports and exports.
pub fn trace_program_item<
    K: Fn(&mut Cursor, &mut Outline, Rule, Context, u32) -> Result<Stop, ParseFault>,
>(
    cursor: &mut Cursor,
    outline: &mut Outline,
    knot: &Knot<K>,
    goal: ProgramGoal,
    at: u32,
) -> Result<u32, ParseFault>
    requires stands { Stands cursor.old at }
    requires ties { Ties (K.pre knot.now.call.now) (K.post knot.now.call.now) knot.now.nest }
    ensures traces { Traces (spec.trace_program_item cursor.old (tracers_to cursor.old
        knot.now.nest) goal outline.old.marks at) outline.new.marks result }
    ensures within { IfOk result (λ end. end ≤ length cursor.old) }
    ensures same { cursor.new ≡ cursor.old }
    ensures kept { outline.new.kept ≡ outline.old.kept }
{
    match goal {
        ProgramGoal::Script => trace_closed_item(
            cursor,
            outline,
            knot,
            at_top(ProgramGoal::Script),
            at,
        ),
        ProgramGoal::Module => trace_module_item(
            cursor,
            outline,
            knot,
            at_top(ProgramGoal::Module),
            at,
        ),
    }
}

// A turn of the list of items.
#[tactic(auto, unfolding(es_trace::specs::Lists::chain_turn, es_trace::specs::Lists::next_part))]
fn item_turn<K: Fn(&mut Cursor, &mut Outline, Rule, Context, u32) -> Result<Stop, ParseFault>>(
    cursor: &mut Cursor,
    outline: &mut Outline,
    knot: &Knot<K>,
    goal: ProgramGoal,
    at: u32,
) -> Result<Turn<u32>, ParseFault>
    requires stands { Stands cursor.old at }
    requires ties { Ties (K.pre knot.now.call.now) (K.post knot.now.call.now) knot.now.nest }
    ensures traces { Traces (lists.chain_turn cursor.old reader.is_end (spec.trace_program_item
        cursor.old (tracers_to cursor.old knot.now.nest) goal) outline.old.marks at)
        outline.new.marks result }
    ensures within { IfOk result (λ turn. state_of turn ≤ length cursor.old) }
    ensures same { cursor.new ≡ cursor.old }
    ensures kept { outline.new.kept ≡ outline.old.kept }
{
    let token = cursor.token(Goal::Operand, at)?;
    if is_end(token) {
        return Ok(Turn::Ended(at));
    }
    let end = trace_program_item(cursor, outline, knot, goal, at)?;
    Ok(Turn::More(end))
}

/// The items of a program from a place on, up to the end of the text, where it answers.
#[tactic(auto, unfolding(es_trace::specs::Modules::trace_items))]
pub fn trace_items<
    K: Fn(&mut Cursor, &mut Outline, Rule, Context, u32) -> Result<Stop, ParseFault>,
>(
    cursor: &mut Cursor,
    outline: &mut Outline,
    knot: &Knot<K>,
    goal: ProgramGoal,
    at: u32,
) -> Result<u32, ParseFault>
    requires stands { Stands cursor.old at }
    requires ties { Ties (K.pre knot.now.call.now) (K.post knot.now.call.now) knot.now.nest }
    ensures traces { Traces (spec.trace_items cursor.old (tracers_to cursor.old knot.now.nest) goal
        outline.old.marks at) outline.new.marks result }
    ensures within { IfOk result (λ end. end ≤ length cursor.old) }
    ensures same { cursor.new ≡ cursor.old }
    ensures kept { outline.new.kept ≡ outline.old.kept }
{
    let turn = |cursor: &mut Cursor, outline: &mut Outline, place: u32| {
        item_turn(cursor, outline, knot, goal, place)
    };
    all_turns(cursor, outline, &turn, at)
}

/// A function or a class as `export default` takes it: its name may be left out.
#[tactic(auto, unfolding(es_trace::specs::Modules::trace_default))]
pub fn trace_default<
    K: Fn(&mut Cursor, &mut Outline, Rule, Context, u32) -> Result<Stop, ParseFault>,
>(
    cursor: &mut Cursor,
    outline: &mut Outline,
    knot: &Knot<K>,
    c: Context,
    at: u32,
) -> Result<u32, ParseFault>
    requires stands { Stands cursor.old at }
    requires ties { Ties (K.pre knot.now.call.now) (K.post knot.now.call.now) knot.now.nest }
    ensures traces { Traces (spec.trace_default cursor.old (tracers_to cursor.old knot.now.nest) c
        outline.old.marks at) outline.new.marks result }
    ensures within { IfOk result (λ end. end ≤ length cursor.old) }
    ensures same { cursor.new ≡ cursor.old }
    ensures kept { outline.new.kept ≡ outline.old.kept }
{
    let token = cursor.token(Goal::Operand, at)?;
    declaration_item(cursor, outline, knot, c, false, at, token)
}
