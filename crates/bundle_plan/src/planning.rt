// The steps of a plan.
ghost use Rattle.std.specs.Prelude.{◌≡◌, None, length, IfOk, IfErr, OnOk};
ghost use Rattle.pk_types.specs.Availability.{GroupsFit, HasModulesBelow};
ghost use Rattle.pk_types.specs.CacheGroups.{HasGroupsNamedApart};
ghost use Rattle.pk_types.specs.Fitting.{Fits};
ghost use Rattle.export_faults.specs.Faults.{IsFirst};
ghost use Rattle.split_chunks.specs.GroupChunks.{HasAscendingClosures, AreGroupChunks, AreFew};
ghost use Rattle.bundle_plan.specs.Faults.{IsFaultOf, IsCountFault, IsSplitFault};
ghost use Rattle.bundle_plan.specs.BundlePlans.{IsPlanOf, IsWithinLimits};
ghost use Rattle.bundle_plan.specs.Conditions.{HasFewModules};

use crate::fault::PlanFault;
use crate::names::given_names;
use avail_sets::available;
use chunk_groups::groups;
use export_faults::first_fault;
use export_usage::usage;
use id_assign::ids;
use pk_types::{Chunks, Config, Graph, Groups, Plan, Sequence};
use scope_hoist::hoists;
use split_chunks::split;
use std::alloc::Global;

// The chunks of groups, where none brings what is available in it.
fn chunks(
    alloc: Global,
    graph: &Graph,
    groups: &Groups,
    config: &Config,
) -> Result<Chunks, PlanFault>
    requires graph { Fits graph.now }
    requires groups { GroupsFit groups.now }
    requires closures { HasAscendingClosures groups.now }
    requires modules { HasModulesBelow groups.now (length graph.now.rows) }
    requires named { HasGroupsNamedApart config.now }
    ensures chunks { IfOk result (AreGroupChunks graph.now groups.now config.now.split) }
    ensures few { IfOk result AreFew }
    ensures fault { IfErr result (IsSplitFault graph.now groups.now config.now) }
{
    let rows = available(alloc, groups, graph.rows.len() as u32)?;
    let chunks = split(alloc, graph, groups, &rows, config)?;
    Ok(chunks)
}

// The plan of a graph in which no name is asked for in vain.
fn planned(alloc: Global, graph: &Graph, config: &Config) -> Result<Plan, PlanFault>
    requires fits { Fits graph.now }
    requires named { HasGroupsNamedApart config.now }
    requires few { HasFewModules graph.now }
    ensures plan { IfOk result (IsPlanOf graph.now config.now) }
    ensures limits { IfOk result (IsWithinLimits graph.now) }
    ensures fault { IfErr result (IsCountFault graph.now config.now) }
{
    let (used, active) = usage(alloc, graph)?;
    let groups = groups(alloc, graph, &active)?;
    let chunks = chunks(alloc, graph, &groups, config)?;
    let hoists = hoists(alloc, graph, &active, &used, &chunks, config.concatenate)?;
    let names = given_names(alloc, graph, hoists.root.as_slice())?;
    let ids = ids(alloc, graph, &chunks, config)?;
    Ok(Plan {
        active,
        used,
        groups,
        chunks,
        hoists,
        names: Sequence::from_vec(names),
        ids,
    })
}

/// The plan of the bundle of a graph, by these settings. A name that is asked for in vain comes before groups that are too
/// many, and these before chunks that are.
pub fn plan(alloc: Global, graph: &Graph, config: &Config) -> Result<Plan, PlanFault>
    requires fits { Fits graph.now }
    requires named { HasGroupsNamedApart config.now }
    requires few { HasFewModules graph.now }
    ensures plan { IfOk result (IsPlanOf graph.now config.now) }
    ensures faultless { OnOk result (IsFirst graph.now None) }
    ensures limits { IfOk result (IsWithinLimits graph.now) }
    ensures fault { IfErr result (IsFaultOf graph.now config.now) }
{
    if let Some(fault) = first_fault(alloc, graph)? {
        return Err(PlanFault::Export(fault));
    }
    planned(alloc, graph, config)
}
