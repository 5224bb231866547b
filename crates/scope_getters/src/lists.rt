// What a scope declares, and which of its names others spell.
ghost use Rattle.std.specs.Prelude.{◌≡◌, ◌<◌, ◌++◌, length, flat_map, map, slice_get, Some, IfOk, OnOk};
ghost use Rattle.std.specs.List.{All};
ghost use Rattle.module_spelling.specs.Layout.{LayoutFits};
ghost use Rattle.scope_getters.specs.Scopes.{variables_of, module_variables, module_cells};

use emit_body::Variable;
use indexmap::IndexSet;
use module_spelling::Speller;
use pk_types::{Binding, Name, Text};
use std::alloc::{AllocError, Global};

// Adds bindings with the names that they have.
fn add_variables(
    alloc: Global,
    variables: &mut Vec<Variable>,
    bindings: &[Binding],
    names: &[Name],
) -> Result<(), AllocError>
    requires { length names.now ≡ length bindings.now }
    ensures { OnOk result (variables.new.items ≡ variables.old.items ++ variables_of bindings.now names.now) }
{
    for place in 0..bindings.len() {
        let name = Text::from_slice(alloc, names[place].as_slice())?;
        variables.push(Variable {
            kind: bindings[place].kind,
            name,
        })?;
    }
    Ok(())
}

/// What the modules of a set declare.
pub fn variables(
    alloc: Global,
    speller: &Speller<'_>,
    members: &[u32],
) -> Result<Vec<Variable>, AllocError>
    requires { All (λ member. member < length speller.now.graph.rows) members.now }
    ensures { IfOk result (λ variables. variables.items
        ≡ flat_map (module_variables speller.now) members.now) }
{
    let mut variables = Vec::new(alloc);
    for member in members {
        let bindings = speller.row(*member).facts.bindings.as_slice();
        add_variables(alloc, &mut variables, bindings, speller.names(*member))?;
    }
    Ok(variables)
}

// Adds the names of a module's bindings that are among the cells.
fn add_cells(
    alloc: Global,
    list: &mut Vec<Name>,
    speller: &Speller<'_>,
    cells: &IndexSet<(u32, u32)>,
    member: u32,
) -> Result<(), AllocError>
    requires { member < length speller.now.graph.rows }
    ensures { OnOk result (list.new.items
        ≡ list.old.items ++ module_cells speller.now cells.now.keys member) }
{
    let names = speller.names(member);
    let count = speller.row(member).facts.bindings.len();
    for place in 0..count {
        if cells.contains(&(member, place as u32)) {
            list.push(Text::from_slice(alloc, names[place].as_slice())?)?;
        }
    }
    Ok(())
}

/// The names of the bindings of a set that are among the cells.
pub fn cell_names(
    alloc: Global,
    speller: &Speller<'_>,
    cells: &IndexSet<(u32, u32)>,
    members: &[u32],
) -> Result<Vec<Name>, AllocError>
    requires { All (λ member. member < length speller.now.graph.rows) members.now }
    ensures { IfOk result (λ names. names.items
        ≡ flat_map (module_cells speller.now cells.now.keys) members.now) }
{
    let mut names = Vec::new(alloc);
    for member in members {
        add_cells(alloc, &mut names, speller, cells, *member)?;
    }
    Ok(names)
}
