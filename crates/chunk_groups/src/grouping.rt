// The groups of a graph.
ghost use Rattle.std.specs.Prelude.{◌≡◌, ◌<◌, ℕ, List, [], true, Some, length, slice_get, slice_index, slice_index_or, IfOk, IfErr};
ghost use Rattle.std.specs.List.{All, Contains};
ghost use Rattle.pk_types.specs.ChunkGroups.{AreAll, IsGroups, HasMoreGroups};
ghost use Rattle.pk_types.specs.Fitting.{Fits};
ghost use Rattle.edge_search.specs.Reached.{IsReached, LeadWithin};
ghost use Rattle.chunk_groups.specs.ActiveGraphs.{AreOfGraph};
ghost use Rattle.chunk_groups.specs.Gathered.{LeadsAt};
ghost use Rattle.chunk_groups.specs.declared.fault.GroupFault.TheVariants.{TooMany};

use crate::fault::GroupFault;
use crate::leading::{group_numbers, leads_of};
use crate::lines::{imports, loads};
use crate::order::ascending;
use edge_search::Search;
use pk_types::{Active, Graph, Groups, MAX_GROUPS, Sequence};
use std::alloc::{AllocError, Global};

// The modules that `import()` of a marked module leads to, by number.
fn import_targets(
    alloc: Global,
    marks: &[bool],
    imports: &[Sequence<u32>],
) -> Result<Vec<u32>, AllocError>
    requires { length imports.now ≡ length marks.now }
    ensures { IfOk result (λ targets. AreAll
        (λ target. (number : ℕ) × (slice_get marks.now number ≡ Some true)
        × Contains (slice_index_or imports.now number []) target)
        targets.items) }
{
    let mut targets = Vec::new(alloc);
    for (number, is_marked) in marks.iter().enumerate() {
        if *is_marked {
            targets.extend_from_slice(imports[number].as_slice())?;
        }
    }
    Ok(ascending(targets))
}

// For each target the modules that are loaded with it, by number.
fn closures(
    alloc: Global,
    loads: &[Sequence<u32>],
    targets: &[u32],
) -> Result<Vec<Sequence<u32>>, AllocError>
    requires within { LeadWithin loads.now }
    requires targets { All (λ target. target < length loads.now) targets.now }
    ensures each { IfOk result (λ closures. length closures.items ≡ length targets.now) }
    ensures closures { IfOk result (λ closures. (group : ℕ) → group < length targets.now
        → AreAll (IsReached loads.now (slice_index targets.now group)) (slice_index_or closures.items group [])) }
{
    let mut search = Search::new(alloc);
    let mut closures = Vec::with_capacity(alloc, targets.len())?;
    for target in targets {
        search.reach(&loads, *target)?;
        let modules = ascending(Vec::from_slice(alloc, search.met())?);
        closures.push(Sequence::from_vec(modules))?;
    }
    Ok(closures)
}

// For each closure the groups that its modules' `import()` leads to, by number.
fn leads(
    alloc: Global,
    closures: &[Sequence<u32>],
    imports: &[Sequence<u32>],
    numbers: &[Option<u32>],
) -> Result<Vec<Sequence<u32>>, AllocError>
    requires modules { All (All (λ number. number < length imports.now)) closures.now }
    requires targets { All (All (λ target. target < length numbers.now)) imports.now }
    ensures each { IfOk result (λ leads. length leads.items ≡ length closures.now) }
    ensures leads { IfOk result (λ leads. (group : ℕ) → group < length closures.now
        → AreAll (λ next. (place : ℕ) × (place < length (slice_index_or closures.now group []))
        × LeadsAt numbers.now imports.now (slice_index_or closures.now group []) place next) (slice_index_or leads.items group [])) }
{
    let mut leads = Vec::with_capacity(alloc, closures.len())?;
    for modules in closures {
        let groups = leads_of(alloc, modules.as_slice(), imports, numbers)?;
        leads.push(Sequence::from_vec(groups))?;
    }
    Ok(leads)
}

/// The groups of a graph whose active edges are given.
pub fn groups(alloc: Global, graph: &Graph, active: &Active) -> Result<Groups, GroupFault>
    requires fits { Fits graph.now }
    requires active { AreOfGraph graph.now «active».now }
    ensures groups { IfOk result (IsGroups graph.now «active».now) }
    ensures few { IfOk result (λ _. ¬ HasMoreGroups graph.now «active».now MAX_GROUPS) }
    ensures many { IfErr result (λ fault. fault ≡ TooMany → HasMoreGroups graph.now «active».now MAX_GROUPS) }
{
    let imports = imports(alloc, graph)?;
    let imported = import_targets(alloc, active.reached.as_slice(), imports.as_slice())?;
    let mut targets = Vec::from_slice(alloc, graph.entries.as_slice())?;
    if targets.len() + imported.len() > MAX_GROUPS as usize {
        return Err(GroupFault::TooMany);
    }
    let entries = targets.len() as u32;
    let numbers = group_numbers(alloc, graph.rows.len(), entries, imported.as_slice())?;
    targets.extend_from_slice(imported.as_slice())?;
    let loads = loads(alloc, graph, active.edges.as_slice())?;
    let closures = closures(alloc, loads.as_slice(), targets.as_slice())?;
    let leads = leads(
        alloc,
        closures.as_slice(),
        imports.as_slice(),
        numbers.as_slice(),
    )?;
    Ok(Groups {
        targets: Sequence::from_vec(targets),
        entries,
        closures: Sequence::from_vec(closures),
        leads: Sequence::from_vec(leads),
    })
}
