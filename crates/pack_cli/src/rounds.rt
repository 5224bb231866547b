// One build of the present tree.
ghost use Rattle.std.specs.Prelude.{◌≡◌, [], OnOk, OnErr, is_err, length, slice_index_or};
ghost use Rattle.pk_base.specs.Causes.{Counts};
ghost use Rattle.pk_base.specs.Keeping.{KeepsFiles};
ghost use Rattle.pack_cli.specs.Answers.{is_read_fault, is_write_fault};
ghost use Rattle.pack_cli.specs.Round.{HasLostPut, HoldsOutput, Rounds};

use crate::faults::RoundFault;
use crate::print::built_lines;
use pk_base::{Failed, Files, Store, Text};
use pk_types::Plan;
use plan_core::{OutFile, output, plan};
use std::alloc::Global;
use watch_core::find_modules;

// Puts files in order, up to the first that can't be.
fn put_files<O: Store>(out: &mut O, files: &[OutFile]) -> Result<(), Failed>
    ensures put { OnOk result (HoldsOutput files.now (O.means out.old) (O.means out.new)) }
    ensures lost { OnErr result (HasLostPut files.now (O.means out.old) (O.means out.new)) }
    ensures told { (O.means out.new).told ≡ (O.means out.old).told }
    ensures cause { Counts (is_err result) ((O.means out.old).faults) ((O.means out.new).faults) }
{
    for file in files {
        out.put(file.name.as_slice(), file.bytes.as_slice())?;
    }
    Ok(())
}

// How many modules a bundle has: those of its one chunk.
fn module_count(plan: &Plan) -> usize
    ensures { result ≡ length (slice_index_or (plan.now.chunks.modules) 0 []) }
{
    match plan.chunks.modules.as_slice() {
        [modules, ..] => modules.len(),
        [] => 0,
    }
}

/// Builds the present tree: its output is put, and the lines to print are answered. All memory is taken before the first
/// put.
pub fn round<F: Files, O: Store>(
    alloc: Global,
    files: &mut F,
    out: &mut O,
) -> Result<Text, RoundFault>
    ensures keeps { KeepsFiles (is_read_fault result) [] (F.means files.old) (F.means files.new) }
    ensures rounds { Rounds result (F.means files.old) (F.means files.new) (O.means out.old)
        (O.means out.new) }
    ensures told { (O.means out.new).told ≡ (O.means out.old).told }
    ensures writes { Counts (is_write_fault result) ((O.means out.old).faults)
        ((O.means out.new).faults) }
{
    let found = match find_modules(alloc, files)? {
        Ok(found) => found,
        Err(fault) => return Err(RoundFault::Refused(fault)),
    };
    let plan = plan(alloc, &found.graph)?;
    let output = output(alloc, &found.graph, &plan, &found.bodies)?;
    let modules = module_count(&plan);
    let groups = plan.groups.targets.len();
    let lines = built_lines(alloc, output.as_slice(), modules, groups)?;
    match put_files(out, output.as_slice()) {
        Ok(()) => Ok(lines),
        Err(Failed) => Err(RoundFault::WriteFault),
    }
}
