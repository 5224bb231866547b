//! Whole texts.
ghost use Rattle.std.specs.Prelude.{◌≡◌, ◌<◌, ◌^◌, ◌≤◌, ◌+◌, length, IfOk};
ghost use Rattle.es_trace.specs.Tying.{trace_program, tracers_to};
ghost use Rattle.es_cursor.specs.Standing.{Stands};
ghost use Rattle.es_nest.specs.Ties.{Given};
ghost use Rattle.es_parser.specs.Parsing.{IsParsed, Outlines};

use crate::knot::tie;
use es_cursor::Cursor;
use es_grammar::{Context, MAX_NEST, Stop};
use es_modules::{end, trace_items};
use es_nest::Knot;
use es_outline::Outline;
use es_reader::ParseFault;
use es_trace::Rule;
use es_tree::ProgramGoal;
use pk_base::Steps;
use std::alloc::Global;
use std::sync::ledger::Ledger;

// What is traced of a text at a goal.
#[tactic(auto, unfolding(es_trace::specs::Tying::trace_program))]
fn trace_text(alloc: Global, bytes: &[u8], goal: ProgramGoal) -> Result<Outline, ParseFault>
    requires short { length bytes.now < 2 ^ 32 }
    ensures outlines { Outlines (trace_program bytes.now goal) result }
{
    let mut cursor = Cursor::new(alloc, bytes);
    let mut outline = Outline::new(alloc);
    let call = |cursor: &mut Cursor, outline: &mut Outline, rule: Rule, c: Context, at: u32| -> Result<
        Stop,
        ParseFault,
    >
        requires stands { Stands cursor.old at }
        ensures given { Given (tracers_to cursor.old MAX_NEST) rule c outline.old.marks at
            outline.new.marks result }
        ensures within { IfOk result (λ end. end.at ≤ length cursor.old) }
        ensures same { cursor.new ≡ cursor.old }
        ensures kept { outline.new.kept ≡ outline.old.kept }
    { tie(cursor, outline, MAX_NEST, rule, c, at) };
    let knot = Knot {
        call: &call,
        nest: MAX_NEST,
    };
    let last = trace_items(&mut cursor, &mut outline, &knot, goal, 0)?;
    end(&mut cursor, last)?;
    Ok(outline)
}

/// The outline of the tree of a text at a goal. It takes 16 bytes a mark, and a token is one mark; the steps are the bytes
/// and one more.
pub fn parse<L: Ledger>(
    alloc: Global,
    bytes: &[u8],
    goal: ProgramGoal,
    steps: &mut Steps<L>,
) -> Result<Outline, ParseFault>
    requires short { length bytes.now < 2 ^ 32 }
    ensures parsed { IsParsed bytes.now goal result }
    ensures steps { steps.new ≡ steps.old + (length bytes.now + 1) }
{
    steps.raise(bytes.len() as u64 + 1);
    trace_text(alloc, bytes, goal)
}
