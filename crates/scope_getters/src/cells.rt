// The bindings that another scope spells.
ghost use Rattle.std.specs.Prelude.{◌≡◌, ◌<◌, ◌⊎◌, ℕ, List, Some, length, slice_get, IfOk, OnOk, IfSome, IfNone};
ghost use Rattle.std.specs.List.{Contains};
ghost use Rattle.pk_types.specs.declared.graph.Row.{Row};
ghost use Rattle.pk_types.specs.Fitting.{RowFits};
ghost use Rattle.pk_types.specs.Places.{ArePlacesIn};
ghost use Rattle.prune_graph.specs.Gathering.{the_names};
ghost use Rattle.module_spelling.specs.Layout.{FoundFits};
ghost use Rattle.scope_getters.specs.Gaining.{AreCells, Gains, Below, IsOther, IsOfNames, IsOfRequest, IsOfModule, IsOfSpace};
ghost use Rattle.scope_getters.specs.Scopes.{IsOfOther, SpellsAtSite, SpellsInSpace};

use export_names::names;
use indexmap::IndexSet;
use module_spelling::Speller;
use pk_types::{Active, Found, Name, Row};
use prune_graph::{Through, add_sites};
use std::alloc::{AllocError, Global};

// The binding that is found, if it is one of another set.
fn other_cell(speller: &Speller<'_>, from: u32, found: &Found) -> Option<(u32, u32)>
    requires from { from < length speller.now.graph.rows }
    requires found { FoundFits speller.now.graph found.now }
    ensures some { IfSome result (IsOther speller.now from found.now) }
    ensures none { IfNone result ((cell : ℕ × ℕ) → ¬ IsOther speller.now from found.now cell) }
{
    match found {
        Found::Binding(owner, binding) => {
            if speller.root(from) == speller.root(*owner) {
                None
            } else {
                Some((*owner, *binding))
            }
        }
        _ => None,
    }
}

// Adds what a name of a module stands for, if it is a binding of another set.
fn add_name(
    alloc: Global,
    cells: &mut IndexSet<(u32, u32)>,
    speller: &mut Speller<'_>,
    from: u32,
    target: u32,
    name: &Name,
) -> Result<(), AllocError>
    requires from { from < length speller.old.graph.rows }
    requires target { target < length speller.old.graph.rows }
    ensures gains { OnOk result (Gains cells.old.keys
        (IsOfOther speller.old from target name.now) cells.new.keys) }
    ensures same { speller.new ≡ speller.old }
{
    let found = speller.resolve(alloc, target, name)?;
    if let Some(cell) = other_cell(speller, from, &found) {
        cells.insert(cell)?;
    }
    Ok(())
}

// Adds what these names of a module stand for.
fn add_names(
    alloc: Global,
    cells: &mut IndexSet<(u32, u32)>,
    speller: &mut Speller<'_>,
    from: u32,
    target: u32,
    names: &[&Name],
) -> Result<(), AllocError>
    requires from { from < length speller.old.graph.rows }
    requires target { target < length speller.old.graph.rows }
    ensures gains { OnOk result (Gains cells.old.keys
        (IsOfNames speller.old from target (the_names names.now)) cells.new.keys) }
    ensures same { speller.new ≡ speller.old }
{
    for name in names {
        add_name(alloc, cells, speller, from, target, name)?;
    }
    Ok(())
}

// Adds what the names stand for that go through a request.
fn add_request(
    alloc: Global,
    cells: &mut IndexSet<(u32, u32)>,
    speller: &mut Speller<'_>,
    from: u32,
    through: &Through<'_>,
    targets: &[u32],
    request: u32,
) -> Result<(), AllocError>
    requires from { from < length speller.old.graph.rows }
    requires targets { ArePlacesIn speller.old.graph.rows targets.now }
    requires request { request < length targets.now }
    requires names { request < length through.now.names.items }
    ensures gains { OnOk result (Gains cells.old.keys
        (IsOfRequest speller.old from through.now targets.now request) cells.new.keys) }
    ensures same { speller.new ≡ speller.old }
{
    let names = through.names(alloc, request)?;
    add_names(
        alloc,
        cells,
        speller,
        from,
        targets[request as usize],
        names.as_slice(),
    )?;
    Ok(())
}

// Adds what the sites of a module spell.
fn add_row(
    alloc: Global,
    cells: &mut IndexSet<(u32, u32)>,
    speller: &mut Speller<'_>,
    from: u32,
    row: &Row,
) -> Result<(), AllocError>
    requires from { from < length speller.old.graph.rows }
    requires row { RowFits speller.old.graph row.now }
    ensures gains { OnOk result (Gains cells.old.keys
        (SpellsAtSite speller.old from row.now) cells.new.keys) }
    ensures same { speller.new ≡ speller.old }
{
    let count = row.facts.requests.len();
    let mut through = Through::none(alloc, count)?;
    add_sites(row, &mut through)?;
    for request in 0..count {
        add_request(
            alloc,
            cells,
            speller,
            from,
            &through,
            row.targets.as_slice(),
            request as u32,
        )?;
    }
    Ok(())
}

// Adds what the sites of a module spell, if it is reached.
fn add_module(
    alloc: Global,
    cells: &mut IndexSet<(u32, u32)>,
    speller: &mut Speller<'_>,
    active: &Active,
    from: u32,
) -> Result<(), AllocError>
    requires from { from < length speller.old.graph.rows }
    requires each { length active.now.reached ≡ length speller.old.graph.rows }
    ensures gains { OnOk result (Gains cells.old.keys
        (IsOfModule speller.old active.now from) cells.new.keys) }
    ensures same { speller.new ≡ speller.old }
{
    if active.reached.as_slice()[from as usize] {
        let row = speller.row(from);
        add_row(alloc, cells, speller, from, row)?;
    }
    Ok(())
}

// Adds what the sites of reached modules spell.
fn add_modules(
    alloc: Global,
    cells: &mut IndexSet<(u32, u32)>,
    speller: &mut Speller<'_>,
    active: &Active,
) -> Result<(), AllocError>
    requires { length active.now.reached ≡ length speller.old.graph.rows }
    ensures gains { OnOk result (Gains cells.old.keys
        (Below (length speller.old.graph.rows) (IsOfModule speller.old active.now)) cells.new.keys) }
    ensures same { speller.new ≡ speller.old }
{
    let count = speller.graph().rows.len();
    for from in 0..count {
        add_module(alloc, cells, speller, active, from as u32)?;
    }
    Ok(())
}

// Adds what the names of a namespace stand for.
fn add_space(
    alloc: Global,
    cells: &mut IndexSet<(u32, u32)>,
    speller: &mut Speller<'_>,
    root: u32,
) -> Result<(), AllocError>
    requires { root < length speller.old.graph.rows }
    ensures gains { OnOk result (Gains cells.old.keys
        (SpellsInSpace speller.old root) cells.new.keys) }
    ensures same { speller.new ≡ speller.old }
{
    let names = names(alloc, speller.graph(), root)?;
    for name in names.as_slice() {
        add_name(alloc, cells, speller, root, root, name)?;
    }
    Ok(())
}

// Adds what the names of a namespace stand for, if it has a list.
fn add_listed(
    alloc: Global,
    cells: &mut IndexSet<(u32, u32)>,
    speller: &mut Speller<'_>,
    spaces: &[bool],
    root: u32,
) -> Result<(), AllocError>
    requires root { root < length speller.old.graph.rows }
    requires each { length spaces.now ≡ length speller.old.graph.rows }
    ensures gains { OnOk result (Gains cells.old.keys
        (IsOfSpace speller.old spaces.now root) cells.new.keys) }
    ensures same { speller.new ≡ speller.old }
{
    if spaces[root as usize] {
        add_space(alloc, cells, speller, root)?;
    }
    Ok(())
}

// Adds what the names of the namespaces stand for that have a list.
fn add_spaces(
    alloc: Global,
    cells: &mut IndexSet<(u32, u32)>,
    speller: &mut Speller<'_>,
    spaces: &[bool],
) -> Result<(), AllocError>
    requires { length spaces.now ≡ length speller.old.graph.rows }
    ensures gains { OnOk result (Gains cells.old.keys
        (Below (length speller.old.graph.rows) (IsOfSpace speller.old spaces.now)) cells.new.keys) }
    ensures same { speller.new ≡ speller.old }
{
    let count = speller.graph().rows.len();
    for root in 0..count {
        add_listed(alloc, cells, speller, spaces, root as u32)?;
    }
    Ok(())
}

/// The bindings that another scope spells.
pub fn all_cells(
    alloc: Global,
    speller: &mut Speller<'_>,
    active: &Active,
    spaces: &[bool],
) -> Result<IndexSet<(u32, u32)>, AllocError>
    requires each_reached { length active.now.reached ≡ length speller.old.graph.rows }
    requires each_space { length spaces.now ≡ length speller.old.graph.rows }
    ensures cells { IfOk result (λ cells. AreCells speller.old active.now spaces.now cells.keys) }
    ensures same { speller.new ≡ speller.old }
{
    let mut cells = IndexSet::new(alloc);
    add_modules(alloc, &mut cells, speller, active)?;
    add_spaces(alloc, &mut cells, speller, spaces)?;
    Ok(cells)
}
