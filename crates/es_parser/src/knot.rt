//! The knot: one function traces whatever counts for the nest, through a closure that traces what nests in it one level deeper.
ghost use Rattle.std.specs.Prelude.{◌≡◌, ◌≤◌, length, IfOk};
ghost use Rattle.es_trace.specs.Tying.{one_more, tracers_to};
ghost use Rattle.es_cursor.specs.Standing.{Stands};
ghost use Rattle.es_nest.specs.Ties.{Given, Ties};

use es_cursor::Cursor;
use es_functions::trace_bind_pattern;
use es_grammar::{Context, Ending, Stop};
use es_nest::Knot;
use es_operands::{trace_lhs, trace_new};
use es_operators::{trace_assign, trace_prefixed};
use es_outline::Outline;
use es_reader::ParseFault;
use es_statements::{trace_item, trace_stmt};
use es_targets::trace_target_pattern;
use es_trace::Rule;

// What ends so that nothing asks in what.
fn behind(at: u32) -> Stop
    ensures { result.at ≡ at }
{
    Stop {
        at,
        ending: Ending::Other,
    }
}

// A part that counts for the nest, over what nests in it.
fn step<K: Fn(&mut Cursor, &mut Outline, Rule, Context, u32) -> Result<Stop, ParseFault>>(
    cursor: &mut Cursor,
    outline: &mut Outline,
    knot: &Knot<K>,
    rule: Rule,
    c: Context,
    at: u32,
) -> Result<Stop, ParseFault>
    requires stands { Stands cursor.old at }
    requires ties { Ties (K.pre knot.now.call.now) (K.post knot.now.call.now) knot.now.nest }
    ensures given { Given (one_more cursor.old (tracers_to cursor.old knot.now.nest)) rule c
        outline.old.marks at outline.new.marks result }
    ensures within { IfOk result (λ end. end.at ≤ length cursor.old) }
    ensures same { cursor.new ≡ cursor.old }
    ensures kept { outline.new.kept ≡ outline.old.kept }
{
    let end = match rule {
        Rule::Assign => return trace_assign(cursor, outline, knot, c, at),
        Rule::Prefixed => return trace_prefixed(cursor, outline, knot, c, at),
        Rule::Item => trace_item(cursor, outline, knot, c, at)?,
        Rule::Stmt => trace_stmt(cursor, outline, knot, c, at)?,
        Rule::BindPattern => trace_bind_pattern(cursor, outline, knot, c, at)?,
        Rule::TargetPattern => trace_target_pattern(cursor, outline, knot, c, at)?,
        Rule::New => trace_new(cursor, outline, knot, c, at)?,
        Rule::Extended => trace_lhs(cursor, outline, knot, c, at)?,
    };
    Ok(behind(end))
}

/// A part that counts for the nest, of at most this nest.
#[tactic(auto, unfolding(es_trace::specs::Tying::tracers_to))]
#[cycle(knot)]
pub fn tie(
    cursor: &mut Cursor,
    outline: &mut Outline,
    nest: u32,
    rule: Rule,
    c: Context,
    at: u32,
) -> Result<Stop, ParseFault>
    requires stands { Stands cursor.old at }
    ensures given { Given (tracers_to cursor.old nest) rule c outline.old.marks at
        outline.new.marks result }
    ensures within { IfOk result (λ end. end.at ≤ length cursor.old) }
    ensures same { cursor.new ≡ cursor.old }
    ensures kept { outline.new.kept ≡ outline.old.kept }
{
    if nest == 0 {
        return Err(ParseFault::Syntax);
    }
    let below = nest - 1;
    let call = |cursor: &mut Cursor, outline: &mut Outline, rule: Rule, c: Context, at: u32| -> Result<
        Stop,
        ParseFault,
    >
        requires stands { Stands cursor.old at }
        ensures given { Given (tracers_to cursor.old below) rule c outline.old.marks at
            outline.new.marks result }
        ensures within { IfOk result (λ end. end.at ≤ length cursor.old) }
        ensures same { cursor.new ≡ cursor.old }
        ensures kept { outline.new.kept ≡ outline.old.kept }
    { tie(cursor, outline, below, rule, c, at) };
    let knot = Knot {
        call: &call,
        nest: below,
    };
    step(cursor, outline, &knot, rule, c, at)
}
