// The modules that stars lead to from a module.
ghost use Rattle.std.specs.Prelude.{◌≡◌, ◌↔◌, ℕ, ◌<◌, nat_eq, length, map, slice_index, IfOk, OnOk};
ghost use Rattle.std.specs.List.{Contains};
ghost use Rattle.indexmap.specs.IndexSet.{insert_all};
ghost use Rattle.pk_types.specs.Fitting.{Fits};
ghost use Rattle.pk_types.specs.Places.{ArePlacesIn};
ghost use Rattle.export_names.specs.Starred.{IsReached, star_edges};

use indexmap::IndexSet;
use pk_types::Graph;
use std::alloc::{AllocError, Global};

// Makes the modules known that these stars lead to. The new ones go last.
fn see(known: &mut IndexSet<u32>, targets: &[u32], stars: &[u32]) -> Result<(), AllocError>
    requires { ArePlacesIn targets.now stars.now }
    ensures { OnOk result (known.new.keys ≡ insert_all nat_eq known.old.keys (map (slice_index targets.now) stars.now)) }
{
    for star in stars {
        known.insert(targets[*star as usize])?;
    }
    Ok(())
}

// The module and those that stars lead to from it, in the order in which they are met. The stars of each are gone
// through once.
pub fn starred(alloc: Global, graph: &Graph, module: u32) -> Result<IndexSet<u32>, AllocError>
    requires fits { Fits graph.now }
    requires module { «module» < length graph.now.rows }
    ensures { IfOk result (λ modules. (number : ℕ) → Contains modules.keys number ↔ IsReached (star_edges graph.now) «module» number) }
{
    let mut known = IndexSet::new(alloc);
    known.insert(module)?;
    let mut place = 0;
    while place < known.len() {
        let number = known.as_slice()[place];
        let row = &graph.rows.as_slice()[number as usize];
        see(
            &mut known,
            row.targets.as_slice(),
            row.facts.stars.as_slice(),
        )?;
        place += 1;
    }
    Ok(known)
}
