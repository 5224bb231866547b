// What each module leads to.
ghost use Rattle.std.specs.Prelude.{◌≡◌, ℕ, [], length, IfOk};
ghost use Rattle.std.specs.List.{All, Contains};
ghost use Rattle.pk_types.specs.declared.facts.SiteKind.TheVariants.{Require, Import};
ghost use Rattle.pk_types.specs.Fitting.{Fits};
ghost use Rattle.pk_types.specs.Places.{ArePlacesIn};
ghost use Rattle.pk_types.specs.Sites.{called_requests};
ghost use Rattle.chunk_groups.specs.Gathered.{IsGathered, CallsAt};
ghost use Rattle.chunk_groups.specs.Lines.{AreLoads, AreImports};

use pk_types::{Graph, Row, Sequence, SiteKind};
use std::alloc::{AllocError, Global};

// Adds the targets of the module's `require` to these.
fn with_required(row: &Row, mut targets: Vec<u32>) -> Result<Vec<u32>, AllocError>
    requires { All (λ site. ArePlacesIn row.now.targets (called_requests site.kind)) row.now.facts.sites }
    ensures { IfOk result
        (λ more. IsGathered targets.items (CallsAt Require row.now) (length row.now.facts.sites) more.items) }
{
    for site in row.facts.sites.as_slice() {
        if let SiteKind::Require(request) = site.kind {
            targets.push(row.targets.as_slice()[request as usize])?;
        }
    }
    Ok(targets)
}

// The targets of the module's `import()`.
fn imported(alloc: Global, row: &Row) -> Result<Vec<u32>, AllocError>
    requires { All (λ site. ArePlacesIn row.now.targets (called_requests site.kind)) row.now.facts.sites }
    ensures { IfOk result
        (λ targets. IsGathered [] (CallsAt Import row.now) (length row.now.facts.sites) targets.items) }
{
    let mut targets = Vec::new(alloc);
    for site in row.facts.sites.as_slice() {
        if let SiteKind::Import(request) = site.kind {
            targets.push(row.targets.as_slice()[request as usize])?;
        }
    }
    Ok(targets)
}

/// For each module what is loaded with it: the targets of its edges and of its `require`.
pub fn loads(
    alloc: Global,
    graph: &Graph,
    edges: &[Sequence<u32>],
) -> Result<Vec<Sequence<u32>>, AllocError>
    requires fits { Fits graph.now }
    requires each { length edges.now ≡ length graph.now.rows }
    ensures { IfOk result (λ loads. AreLoads graph.now edges.now loads.items) }
{
    let mut loads = Vec::with_capacity(alloc, graph.rows.len())?;
    for (number, row) in graph.rows.as_slice().iter().enumerate() {
        let targets = Vec::from_slice(alloc, edges[number].as_slice())?;
        loads.push(Sequence::from_vec(with_required(row, targets)?))?;
    }
    Ok(loads)
}

/// For each module the targets of its `import()`.
pub fn imports(alloc: Global, graph: &Graph) -> Result<Vec<Sequence<u32>>, AllocError>
    requires { Fits graph.now }
    ensures { IfOk result (λ imports. AreImports graph.now imports.items) }
{
    let mut imports = Vec::with_capacity(alloc, graph.rows.len())?;
    for row in graph.rows.as_slice() {
        imports.push(Sequence::from_vec(imported(alloc, row)?))?;
    }
    Ok(imports)
}
