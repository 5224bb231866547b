// The lists of each scope.
ghost use Rattle.std.specs.Prelude.{◌≡◌, ◌<◌, ℕ, Some, length, slice_get, IfOk};
ghost use Rattle.emit_body.specs.declared.getters.ScopeGetters.{ScopeGetters};
ghost use Rattle.pk_types.specs.HoistSets.{set_of};
ghost use Rattle.module_spelling.specs.Layout.{LayoutFits};
ghost use Rattle.scope_getters.specs.Gaining.{IsListed};
ghost use Rattle.scope_getters.specs.Scopes.{HasGetters};

use crate::called::spaces;
use crate::cells::all_cells;
use crate::lists::{cell_names, variables};
use crate::members::members;
use crate::space::space;
use emit_body::{Getters, ScopeGetters};
use indexmap::IndexSet;
use module_spelling::Speller;
use pk_types::{Active, Sequence, Used};
use std::alloc::{AllocError, Global};

// The lists of the scope of a root, of which these are the modules.
fn scope(
    alloc: Global,
    speller: &mut Speller<'_>,
    spaces: &[bool],
    cells: &IndexSet<(u32, u32)>,
    members: &[u32],
    root: u32,
) -> Result<ScopeGetters, AllocError>
    requires fits { LayoutFits speller.old }
    requires root { root < length speller.old.graph.rows }
    requires each { length spaces.now ≡ length speller.old.graph.rows }
    requires members { members.now ≡ set_of speller.old.roots root }
    ensures scope { IfOk result (IsListed speller.old spaces.now cells.now.keys root) }
    ensures same { speller.new ≡ speller.old }
{
    let variables = variables(alloc, speller, members)?;
    let names = cell_names(alloc, speller, cells, members)?;
    let space = space(alloc, speller, spaces, root)?;
    Ok(ScopeGetters {
        variables: Sequence::from_vec(variables),
        cells: Sequence::from_vec(names),
        space,
    })
}

// The lists of the scope of each module.
fn scopes(
    alloc: Global,
    speller: &mut Speller<'_>,
    spaces: &[bool],
    cells: &IndexSet<(u32, u32)>,
) -> Result<Vec<ScopeGetters>, AllocError>
    requires { length spaces.now ≡ length speller.old.graph.rows }
    ensures each { IfOk result (λ scopes. length scopes.items ≡ length speller.old.graph.rows) }
    ensures scopes { IfOk result (λ scopes. (root : ℕ) (scope : ScopeGetters)
        → slice_get scopes.items root ≡ Some scope → IsListed speller.old spaces.now cells.now.keys root scope) }
    ensures same { speller.new ≡ speller.old }
{
    let sets = members(alloc, speller)?;
    let count = speller.graph().rows.len();
    let mut scopes = Vec::with_capacity(alloc, count)?;
    for root in 0..count {
        let members = sets[root].as_slice();
        scopes.push(scope(alloc, speller, spaces, cells, members, root as u32)?)?;
    }
    Ok(scopes)
}

/// What the heads of the factories list: for each module the lists of the scope of which it is the root.
pub fn getters(
    alloc: Global,
    speller: &mut Speller<'_>,
    active: &Active,
    used: &Used,
) -> Result<Getters, AllocError>
    requires each_reached { length active.now.reached ≡ length speller.old.graph.rows }
    requires each_whole { length used.now.whole ≡ length speller.old.graph.rows }
    ensures getters { IfOk result (HasGetters speller.old active.now used.now) }
    ensures same { speller.new ≡ speller.old }
{
    let spaces = spaces(alloc, speller, active, used)?;
    let cells = all_cells(alloc, speller, active, spaces.as_slice())?;
    let scopes = scopes(alloc, speller, spaces.as_slice(), &cells)?;
    Ok(Getters {
        scopes: Sequence::from_vec(scopes),
    })
}
