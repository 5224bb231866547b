//! A Name or a member, which may be assigned to.
ghost use Rattle.std.specs.Prelude.{◌≡◌, ◌≤◌, length, IfOk, OnErr};
ghost use Rattle.es_trace.specs.Basics.{Traces};
ghost use Rattle.es_trace.specs.Targets as spec;
ghost use Rattle.es_trace.specs.Tying.{tracers_to};
ghost use Rattle.es_cursor.specs.Standing.{Stands};
ghost use Rattle.es_nest.specs.Ties.{Ties};

use es_cursor::{Attempt, Cursor, Passed};
use es_grammar::{Context, Stop};
use es_nest::Knot;
use es_operands::trace_parts;
use es_outline::{Mark, Outline};
use es_reader::ParseFault;
use es_trace::Rule;

/// A Name or a member, and that it is assigned to.
#[tactic(auto, unfolding(es_trace::specs::Targets::trace_bare, es_trace::specs::Targets::bare_behind))]
pub fn trace_bare<K: Fn(&mut Cursor, &mut Outline, Rule, Context, u32) -> Result<Stop, ParseFault>>(
    cursor: &mut Cursor,
    outline: &mut Outline,
    knot: &Knot<K>,
    c: Context,
    at: u32,
) -> Result<u32, ParseFault>
    requires stands { Stands cursor.old at }
    requires ties { Ties (K.pre knot.now.call.now) (K.post knot.now.call.now) knot.now.nest }
    ensures traces { Traces (spec.trace_bare cursor.old (tracers_to cursor.old knot.now.nest) c
        outline.old.marks at) outline.new.marks result }
    ensures within { IfOk result (λ end. end ≤ length cursor.old) }
    ensures same { cursor.new ≡ cursor.old }
    ensures kept { outline.new.kept ≡ outline.old.kept }
{
    let chain = trace_parts(cursor, outline, knot, c, at)?;
    if chain.is_name || chain.is_member {
        outline.put(Mark::Assigned)?;
        return Ok(chain.at);
    }
    Err(ParseFault::Syntax)
}

// The same where something else may stand there: then the outline is as it was.
fn bare_or_back<K: Fn(&mut Cursor, &mut Outline, Rule, Context, u32) -> Result<Stop, ParseFault>>(
    cursor: &mut Cursor,
    outline: &mut Outline,
    knot: &Knot<K>,
    c: Context,
    at: u32,
) -> Result<u32, ParseFault>
    requires stands { Stands cursor.old at }
    requires ties { Ties (K.pre knot.now.call.now) (K.post knot.now.call.now) knot.now.nest }
    ensures traces { Traces (spec.trace_bare cursor.old (tracers_to cursor.old knot.now.nest) c
        outline.old.marks at) outline.new.marks result }
    ensures within { IfOk result (λ end. end ≤ length cursor.old) }
    ensures same { cursor.new ≡ cursor.old }
    ensures kept { outline.new.kept ≡ outline.old.kept }
    ensures back { OnErr result (outline.new.marks ≡ outline.old.marks) }
{
    let before = outline.keep();
    match trace_bare(cursor, outline, knot, c, at) {
        Ok(end) => {
            outline.settle(before);
            Ok(end)
        }
        Err(fault) => {
            outline.undo(before);
            Err(fault)
        }
    }
}

// The same, remembered where it was tried in vain.
pub(crate) fn try_bare<
    K: Fn(&mut Cursor, &mut Outline, Rule, Context, u32) -> Result<Stop, ParseFault>,
>(
    cursor: &mut Cursor,
    outline: &mut Outline,
    knot: &Knot<K>,
    c: Context,
    at: u32,
) -> Result<u32, ParseFault>
    requires stands { Stands cursor.old at }
    requires ties { Ties (K.pre knot.now.call.now) (K.post knot.now.call.now) knot.now.nest }
    ensures traces { Traces (spec.trace_bare cursor.old (tracers_to cursor.old knot.now.nest) c
        outline.old.marks at) outline.new.marks result }
    ensures within { IfOk result (λ end. end ≤ length cursor.old) }
    ensures same { cursor.new ≡ cursor.old }
    ensures kept { outline.new.kept ≡ outline.old.kept }
    ensures back { OnErr result (outline.new.marks ≡ outline.old.marks) }
{
    let passed = Passed {
        attempt: Attempt::Bare,
        nest: knot.nest,
        context: c,
        at,
    };
    if cursor.has_passed(passed) {
        return Err(ParseFault::Syntax);
    }
    match bare_or_back(cursor, outline, knot, c, at) {
        Ok(end) => Ok(end),
        Err(ParseFault::Syntax) => {
            cursor.pass(passed)?;
            Err(ParseFault::Syntax)
        }
        Err(fault) => Err(fault),
    }
}
