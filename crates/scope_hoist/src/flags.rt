// What is known of each module, whatever root asks.
ghost use Rattle.std.specs.Prelude.{◌≡◌, ◌↔◌, ◌⊎◌, ◌<◌, ℕ, Bool, List, [], true, false, Some, IsTrue, length, slice_get, slice_index_or, IfOk, OnOk};
ghost use Rattle.std.specs.List.{All, Contains};
ghost use Rattle.pk_types.specs.declared.facts.Kind.TheVariants.{Es};
ghost use Rattle.pk_types.specs.Places.{ArePlacesIn};
ghost use Rattle.pk_types.specs.Fitting.{Fits};
ghost use Rattle.pk_types.specs.HoistSets.{MayShare};
ghost use Rattle.pk_types.specs.Sites.{called_requests};
ghost use Rattle.chunk_groups.specs.ActiveGraphs.{AreOfGraph};
ghost use Rattle.chunk_groups.specs.Gathered.{IsGathered};
ghost use Rattle.scope_hoist.specs.Scopes.{AreHomes, IsBarred, CallsAtSite, AreSharing};

use crate::line::Line;
use pk_types::{Active, Chunks, Graph, Kind, Row, Sequence, SiteKind};
use std::alloc::{AllocError, Global};

// Adds the targets of the module's `require` and `import()` to these.
fn with_called(row: &Row, mut targets: Vec<u32>) -> Result<Vec<u32>, AllocError>
    requires { All (λ site. ArePlacesIn row.now.targets (called_requests site.kind)) row.now.facts.sites }
    ensures { IfOk result
        (λ more. IsGathered targets.items (CallsAtSite row.now) (length row.now.facts.sites) more.items) }
{
    for site in row.facts.sites.as_slice() {
        match site.kind {
            SiteKind::Require(request) => targets.push(row.targets.as_slice()[request as usize])?,
            SiteKind::Import(request) => targets.push(row.targets.as_slice()[request as usize])?,
            _ => {}
        }
    }
    Ok(targets)
}

/// The entries, and what `require` and `import()` of reached modules lead to.
pub fn barred(alloc: Global, graph: &Graph, active: &Active) -> Result<Vec<u32>, AllocError>
    requires fits { Fits graph.now }
    requires active { AreOfGraph graph.now «active».now }
    ensures { IfOk result (λ barred. (member : ℕ) → Contains barred.items member ↔ IsBarred graph.now «active».now member) }
{
    let mut barred = Vec::from_slice(alloc, graph.entries.as_slice())?;
    for (number, row) in graph.rows.as_slice().iter().enumerate() {
        if active.reached.as_slice()[number] {
            barred = with_called(row, barred)?;
        }
    }
    Ok(barred)
}

// Whether a module may share its scope: it is one of ECMAScript, and stands in a chunk.
fn may_share(row: &Row, home: &Line, concatenate: bool) -> bool
    ensures { IsTrue result
        ↔ ((concatenate ≡ true) × (row.now.facts.kind ≡ Es) × ((chunk : ℕ) × Contains home.now chunk)) }
{
    if !concatenate {
        return false;
    }
    if row.facts.kind != Kind::Es {
        return false;
    }
    home.as_slice().len() > 0
}

/// For each module whether it may share its scope.
pub fn sharing(
    alloc: Global,
    graph: &Graph,
    homes: &[Line],
    concatenate: bool,
) -> Result<Vec<bool>, AllocError>
    requires { length homes.now ≡ length graph.now.rows }
    ensures { IfOk result (λ sharing. AreSharing graph.now homes.now concatenate sharing.items) }
{
    let mut sharing = Vec::with_capacity(alloc, graph.rows.len())?;
    for (number, row) in graph.rows.as_slice().iter().enumerate() {
        let shares = may_share(row, &homes[number], concatenate);
        sharing.push(shares)?;
    }
    Ok(sharing)
}

// Clears the flags of these modules.
fn clear(flags: &mut Vec<bool>, members: &[u32])
    requires { All (λ member. member < length flags.old.items) members.now }
    ensures long { length flags.new.items ≡ length flags.old.items }
    ensures flags { (member : ℕ) → (slice_index_or flags.new.items member false ≡ true)
        ↔ ((slice_index_or flags.old.items member false ≡ true) × ¬ Contains members.now member) }
{
    for member in members {
        flags[*member as usize] = false;
    }
}

// Clears the flags of the modules that are used as a whole.
fn clear_whole(flags: &mut Vec<bool>, whole: &[bool])
    requires { length whole.now ≡ length flags.old.items }
    ensures long { length flags.new.items ≡ length flags.old.items }
    ensures flags { (member : ℕ) → (slice_index_or flags.new.items member false ≡ true)
        ↔ ((slice_index_or flags.old.items member false ≡ true) × ¬ (slice_get whole.now member ≡ Some true)) }
{
    for (member, is_whole) in whole.iter().enumerate() {
        if *is_whole {
            flags[member] = false;
        }
    }
}

/// For each module whether a set may take it in: it may share its scope, and is neither barred nor used as a whole.
pub fn joining(
    alloc: Global,
    sharing: &[bool],
    barred: &[u32],
    whole: &[bool],
) -> Result<Vec<bool>, AllocError>
    requires barred { All (λ member. member < length sharing.now) «barred».now }
    requires whole { length «whole».now ≡ length sharing.now }
    ensures long { IfOk result (λ joining. length joining.items ≡ length sharing.now) }
    ensures flags { IfOk result (λ joining. (member : ℕ) → (slice_index_or joining.items member false ≡ true)
        ↔ ((slice_index_or sharing.now member false ≡ true) × (¬ Contains «barred».now member) × ¬ (slice_get «whole».now member ≡ Some true))) }
{
    let mut joining = Vec::from_slice(alloc, sharing)?;
    clear(&mut joining, barred);
    clear_whole(&mut joining, whole);
    Ok(joining)
}
