//! Bindings with what may stand behind them.
ghost use Rattle.std.specs.Prelude.{◌≡◌, ◌≤◌, length, IfOk};
ghost use Rattle.es_trace.specs.Basics.{Traces};
ghost use Rattle.es_trace.specs.Functions as spec;
ghost use Rattle.es_trace.specs.Tying.{tracers_to};
ghost use Rattle.es_cursor.specs.Standing.{Lies, Stands};
ghost use Rattle.es_nest.specs.Ties.{Ties};

use es_begins::bracketed;
use es_cursor::Cursor;
use es_grammar::{Context, Ending, Stop};
use es_nest::Knot;
use es_outline::{Outline, Role};
use es_reader::ParseFault;
use es_trace::Rule;
use es_tree::{Goal, Token};

/// `=` that was seen, and an assignment.
#[tactic(auto, unfolding(es_trace::specs::Functions::initializer_behind))]
pub fn initializer_behind<
    K: Fn(&mut Cursor, &mut Outline, Rule, Context, u32) -> Result<Stop, ParseFault>,
>(
    cursor: &mut Cursor,
    outline: &mut Outline,
    knot: &Knot<K>,
    c: Context,
    equals: Token,
) -> Result<Stop, ParseFault>
    requires lies { Lies cursor.old equals }
    requires ties { Ties (K.pre knot.now.call.now) (K.post knot.now.call.now) knot.now.nest }
    ensures traces { Traces (spec.initializer_behind (tracers_to cursor.old knot.now.nest) c
        outline.old.marks equals) outline.new.marks result }
    ensures within { IfOk result (λ end. end.at ≤ length cursor.old) }
    ensures same { cursor.new ≡ cursor.old }
    ensures kept { outline.new.kept ≡ outline.old.kept }
{
    outline.role(Role::Initializes, equals)?;
    knot.assign(cursor, outline, c, equals.end)
}

/// A name, or a pattern.
#[tactic(auto, unfolding(es_trace::specs::Functions::trace_bind))]
pub fn trace_bind<K: Fn(&mut Cursor, &mut Outline, Rule, Context, u32) -> Result<Stop, ParseFault>>(
    cursor: &mut Cursor,
    outline: &mut Outline,
    knot: &Knot<K>,
    c: Context,
    at: u32,
) -> Result<u32, ParseFault>
    requires stands { Stands cursor.old at }
    requires ties { Ties (K.pre knot.now.call.now) (K.post knot.now.call.now) knot.now.nest }
    ensures traces { Traces (spec.trace_bind cursor.old (tracers_to cursor.old knot.now.nest) c
        outline.old.marks at) outline.new.marks result }
    ensures within { IfOk result (λ end. end ≤ length cursor.old) }
    ensures same { cursor.new ≡ cursor.old }
    ensures kept { outline.new.kept ≡ outline.old.kept }
{
    let token = cursor.token(Goal::Operand, at)?;
    if cursor.is_name(c, token)? {
        outline.role(Role::Bound, token)?;
        return Ok(token.end);
    }
    knot.bind_pattern(cursor, outline, c, at)
}

/// What may stand behind a binding.
#[tactic(auto, unfolding(es_trace::specs::Functions::decl_behind))]
pub fn decl_behind<
    K: Fn(&mut Cursor, &mut Outline, Rule, Context, u32) -> Result<Stop, ParseFault>,
>(
    cursor: &mut Cursor,
    outline: &mut Outline,
    knot: &Knot<K>,
    c: Context,
    at: u32,
) -> Result<Stop, ParseFault>
    requires stands { Stands cursor.old at }
    requires ties { Ties (K.pre knot.now.call.now) (K.post knot.now.call.now) knot.now.nest }
    ensures traces { Traces (spec.decl_behind cursor.old (tracers_to cursor.old knot.now.nest) c
        outline.old.marks at) outline.new.marks result }
    ensures within { IfOk result (λ end. end.at ≤ length cursor.old) }
    ensures same { cursor.new ≡ cursor.old }
    ensures kept { outline.new.kept ≡ outline.old.kept }
{
    let token = cursor.token(Goal::Operator, at)?;
    if cursor.is_mark(b"=", token) {
        return initializer_behind(cursor, outline, knot, c, token);
    }
    Ok(Stop {
        at,
        ending: Ending::DeclaredName,
    })
}

/// A binding, with an initializer where one stands there.
#[tactic(auto, unfolding(es_trace::specs::Functions::trace_decl))]
pub fn trace_decl<K: Fn(&mut Cursor, &mut Outline, Rule, Context, u32) -> Result<Stop, ParseFault>>(
    cursor: &mut Cursor,
    outline: &mut Outline,
    knot: &Knot<K>,
    c: Context,
    at: u32,
) -> Result<Stop, ParseFault>
    requires stands { Stands cursor.old at }
    requires ties { Ties (K.pre knot.now.call.now) (K.post knot.now.call.now) knot.now.nest }
    ensures traces { Traces (spec.trace_decl cursor.old (tracers_to cursor.old knot.now.nest) c
        outline.old.marks at) outline.new.marks result }
    ensures within { IfOk result (λ end. end.at ≤ length cursor.old) }
    ensures same { cursor.new ≡ cursor.old }
    ensures kept { outline.new.kept ≡ outline.old.kept }
{
    let end = trace_bind(cursor, outline, knot, c, at)?;
    decl_behind(cursor, outline, knot, c, end)
}

/// The same as a parameter or as an element of a pattern.
#[tactic(auto, unfolding(es_trace::specs::Functions::trace_part))]
pub fn trace_part<K: Fn(&mut Cursor, &mut Outline, Rule, Context, u32) -> Result<Stop, ParseFault>>(
    cursor: &mut Cursor,
    outline: &mut Outline,
    knot: &Knot<K>,
    c: Context,
    at: u32,
) -> Result<u32, ParseFault>
    requires stands { Stands cursor.old at }
    requires ties { Ties (K.pre knot.now.call.now) (K.post knot.now.call.now) knot.now.nest }
    ensures traces { Traces (spec.trace_part cursor.old (tracers_to cursor.old knot.now.nest) c
        outline.old.marks at) outline.new.marks result }
    ensures within { IfOk result (λ end. end ≤ length cursor.old) }
    ensures same { cursor.new ≡ cursor.old }
    ensures kept { outline.new.kept ≡ outline.old.kept }
{
    let stop = trace_decl(cursor, outline, knot, bracketed(c), at)?;
    Ok(stop.at)
}
