//! Classes.
ghost use Rattle.std.specs.Prelude.{◌≡◌, ◌≤◌, codes, length, IfOk};
ghost use Rattle.es_trace.specs.Basics.{Traces};
ghost use Rattle.es_trace.specs.Functions as spec;
ghost use Rattle.es_trace.specs.Tying.{tracers_to};
ghost use Rattle.es_cursor.specs.Standing.{Stands};
ghost use Rattle.es_nest.specs.Ties.{Ties};
ghost use Rattle.es_reader.specs.Basics as basics;
ghost use Rattle.es_trace.specs.Lists as lists;
ghost use Rattle.es_trace.specs.Loops as loops;
ghost use Rattle.es_nest.specs.Turns.{state_of};

use crate::elements::trace_element;
use crate::funcs::read_optional_name;
use es_begins::fits_name;
use es_cursor::Cursor;
use es_grammar::{Context, Stop};
use es_nest::{Knot, all_turns};
use es_outline::{Outline, Part, Role};
use es_reader::ParseFault;
use es_trace::{Rule, Turn};
use es_tree::Goal;

// `extends` and what it names, if it is there.
#[tactic(auto, unfolding(es_trace::specs::Functions::trace_heritage))]
fn trace_heritage<K: Fn(&mut Cursor, &mut Outline, Rule, Context, u32) -> Result<Stop, ParseFault>>(
    cursor: &mut Cursor,
    outline: &mut Outline,
    knot: &Knot<K>,
    c: Context,
    at: u32,
) -> Result<u32, ParseFault>
    requires stands { Stands cursor.old at }
    requires ties { Ties (K.pre knot.now.call.now) (K.post knot.now.call.now) knot.now.nest }
    ensures traces { Traces (spec.trace_heritage cursor.old (tracers_to cursor.old
        knot.now.nest) c outline.old.marks at) outline.new.marks result }
    ensures within { IfOk result (λ end. end ≤ length cursor.old) }
    ensures same { cursor.new ≡ cursor.old }
    ensures kept { outline.new.kept ≡ outline.old.kept }
{
    let token = cursor.token(Goal::Operand, at)?;
    if cursor.is_word(b"extends", token) {
        outline.one(token)?;
        return knot.extended(cursor, outline, c, token.end);
    }
    Ok(at)
}

// A turn of the elements.
#[tactic(auto, unfolding(es_trace::specs::Lists::chain_turn, es_trace::specs::Lists::next_part))]
fn element_turn<K: Fn(&mut Cursor, &mut Outline, Rule, Context, u32) -> Result<Stop, ParseFault>>(
    cursor: &mut Cursor,
    outline: &mut Outline,
    knot: &Knot<K>,
    c: Context,
    at: u32,
) -> Result<Turn<u32>, ParseFault>
    requires stands { Stands cursor.old at }
    requires ties { Ties (K.pre knot.now.call.now) (K.post knot.now.call.now) knot.now.nest }
    ensures traces { Traces (lists.chain_turn cursor.old (basics.is_mark cursor.old (codes "}"))
        (spec.trace_element cursor.old (tracers_to cursor.old knot.now.nest) c)
        outline.old.marks at) outline.new.marks result }
    ensures within { IfOk result (λ turn. state_of turn ≤ length cursor.old) }
    ensures same { cursor.new ≡ cursor.old }
    ensures kept { outline.new.kept ≡ outline.old.kept }
{
    let token = cursor.token(Goal::Operand, at)?;
    if cursor.is_mark(b"}", token) {
        return Ok(Turn::Ended(at));
    }
    let end = trace_element(cursor, outline, knot, c, at)?;
    Ok(Turn::More(end))
}

// The elements, up to `}`.
fn element_list<K: Fn(&mut Cursor, &mut Outline, Rule, Context, u32) -> Result<Stop, ParseFault>>(
    cursor: &mut Cursor,
    outline: &mut Outline,
    knot: &Knot<K>,
    c: Context,
    at: u32,
) -> Result<u32, ParseFault>
    requires stands { Stands cursor.old at }
    requires ties { Ties (K.pre knot.now.call.now) (K.post knot.now.call.now) knot.now.nest }
    ensures traces { Traces (loops.all_turns cursor.old (lists.chain_turn cursor.old
        (basics.is_mark cursor.old (codes "}")) (spec.trace_element cursor.old (tracers_to
        cursor.old knot.now.nest) c)) outline.old.marks at) outline.new.marks result }
    ensures within { IfOk result (λ end. end ≤ length cursor.old) }
    ensures same { cursor.new ≡ cursor.old }
    ensures kept { outline.new.kept ≡ outline.old.kept }
{
    let turn = |cursor: &mut Cursor, outline: &mut Outline, place: u32| {
        element_turn(cursor, outline, knot, c, place)
    };
    all_turns(cursor, outline, &turn, at)
}

// A class, from behind its name on.
#[tactic(auto, unfolding(es_trace::specs::Functions::class_named))]
fn class_named<K: Fn(&mut Cursor, &mut Outline, Rule, Context, u32) -> Result<Stop, ParseFault>>(
    cursor: &mut Cursor,
    outline: &mut Outline,
    knot: &Knot<K>,
    c: Context,
    at: u32,
) -> Result<u32, ParseFault>
    requires stands { Stands cursor.old at }
    requires ties { Ties (K.pre knot.now.call.now) (K.post knot.now.call.now) knot.now.nest }
    ensures traces { Traces (spec.class_named cursor.old (tracers_to cursor.old knot.now.nest) c
        outline.old.marks at) outline.new.marks result }
    ensures within { IfOk result (λ end. end ≤ length cursor.old) }
    ensures same { cursor.new ≡ cursor.old }
    ensures kept { outline.new.kept ≡ outline.old.kept }
{
    outline.begin(Part::Class)?;
    let behind = trace_heritage(cursor, outline, knot, c, at)?;
    let left = cursor.mark(Goal::Operator, b"{", behind)?;
    outline.one(left)?;
    let end = element_list(cursor, outline, knot, c, left.end)?;
    let right = cursor.mark(Goal::Operand, b"}", end)?;
    outline.one(right)?;
    outline.end(Part::Class)?;
    Ok(right.end)
}

/// A class, whose name may be left out where it need not be `named`.
#[tactic(auto, unfolding(es_trace::specs::Functions::trace_class))]
pub fn trace_class<
    K: Fn(&mut Cursor, &mut Outline, Rule, Context, u32) -> Result<Stop, ParseFault>,
>(
    cursor: &mut Cursor,
    outline: &mut Outline,
    knot: &Knot<K>,
    c: Context,
    named: bool,
    at: u32,
) -> Result<u32, ParseFault>
    requires stands { Stands cursor.old at }
    requires ties { Ties (K.pre knot.now.call.now) (K.post knot.now.call.now) knot.now.nest }
    ensures traces { Traces (spec.trace_class cursor.old (tracers_to cursor.old knot.now.nest) c
        named outline.old.marks at) outline.new.marks result }
    ensures within { IfOk result (λ end. end ≤ length cursor.old) }
    ensures same { cursor.new ≡ cursor.old }
    ensures kept { outline.new.kept ≡ outline.old.kept }
{
    let word = cursor.word(Goal::Operand, b"class", at)?;
    let (name, behind) = read_optional_name(cursor, c, word.end)?;
    if !fits_name(named, name) {
        return Err(ParseFault::Syntax);
    }
    outline.one(word)?;
    outline.named(Role::ClassName, name)?;
    class_named(cursor, outline, knot, c, behind)
}
