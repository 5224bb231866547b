// Sets and items of a graph.
ghost use Rattle.std.specs.Prelude.{◌≡◌, ◌<◌, ℕ, List, length, slice_get, slice_index, Some, IfOk};
ghost use Rattle.std.specs.List.{All};
ghost use Rattle.pk_types.specs.declared.plan.Item.{Item};
ghost use Rattle.pk_types.specs.Fitting.{Fits};
ghost use Rattle.pk_types.specs.HoistItems.{AreHoists};
ghost use Rattle.pk_types.specs.HoistSets.{AreHoistSets};
ghost use Rattle.pk_types.specs.Places.{ArePlacesIn, IsShort};
ghost use Rattle.chunk_groups.specs.ActiveGraphs.{AreOfGraph};
ghost use Rattle.scope_hoist.specs.Standing.{IsGround};
ghost use Rattle.scope_hoist.specs.Walks.{AreItemsOfAll};

use crate::flags::{barred, joining, sharing};
use crate::ground::Ground;
use crate::lists::{homes, requests, transposed};
use crate::met::Met;
use crate::roots::roots;
use crate::walk::items_of;
use pk_types::{Active, Chunks, Graph, Hoists, Item, Sequence, Used};
use std::alloc::{AllocError, Global};

// The root of each module.
fn roots_of(
    alloc: Global,
    graph: &Graph,
    active: &Active,
    used: &Used,
    chunks: &Chunks,
    concatenate: bool,
) -> Result<Vec<u32>, AllocError>
    requires fits { Fits graph.now }
    requires active { AreOfGraph graph.now «active».now }
    requires whole { length used.now.whole ≡ length graph.now.rows }
    requires chunks { All (ArePlacesIn graph.now.rows) «chunks».now.modules }
    requires few { IsShort «chunks».now.modules }
    ensures { IfOk result (λ roots. AreHoistSets (record { «graph» = graph.now; «active» = «active».now; «used» = used.now; «chunks» = «chunks».now }) concatenate roots.items) }
{
    let count = graph.rows.len();
    let homes = homes(alloc, chunks, count)?;
    let sharing = sharing(alloc, graph, homes.as_slice(), concatenate)?;
    let barred = barred(alloc, graph, active)?;
    let may_join = joining(
        alloc,
        sharing.as_slice(),
        barred.as_slice(),
        used.whole.as_slice(),
    )?;
    let asks = requests(alloc, active)?;
    let requesters = transposed(alloc, asks.as_slice(), count)?;
    let ground = Ground {
        asks,
        requesters,
        homes,
    };
    let roots = roots(alloc, &ground, sharing.as_slice(), may_join.as_slice())?;
    Ok(roots)
}

// The items of each root, and none for other modules.
fn items_of_all(
    alloc: Global,
    edges: &[Sequence<u32>],
    roots: &[u32],
) -> Result<Vec<Sequence<Item>>, AllocError>
    requires edges { All (ArePlacesIn edges.now) «edges».now }
    requires roots { length «roots».now ≡ length edges.now }
    requires few { IsShort edges.now }
    ensures { IfOk result (λ items. AreItemsOfAll edges.now «roots».now items.items) }
{
    let mut met = Met::new(alloc);
    let mut items = Vec::with_capacity(alloc, roots.len())?;
    for (number, root) in roots.iter().enumerate() {
        if *root as usize == number {
            let of_root = items_of(alloc, &mut met, edges, roots, *root)?;
            items.push(Sequence::from_vec(of_root))?;
        } else {
            items.push(Sequence::new(alloc))?;
        }
    }
    Ok(items)
}

/// Which modules of a graph share one scope, and what each scope runs, in order. Without `concatenate` each module stands
/// alone.
pub fn hoists(
    alloc: Global,
    graph: &Graph,
    active: &Active,
    used: &Used,
    chunks: &Chunks,
    concatenate: bool,
) -> Result<Hoists, AllocError>
    requires fits { Fits graph.now }
    requires active { AreOfGraph graph.now «active».now }
    requires whole { length used.now.whole ≡ length graph.now.rows }
    requires chunks { All (ArePlacesIn graph.now.rows) «chunks».now.modules }
    requires few { IsShort «chunks».now.modules }
    ensures { IfOk result (AreHoists (record { «graph» = graph.now; «active» = «active».now; «used» = used.now; «chunks» = «chunks».now }) concatenate) }
{
    let roots = roots_of(alloc, graph, active, used, chunks, concatenate)?;
    let items = items_of_all(alloc, active.edges.as_slice(), roots.as_slice())?;
    Ok(Hoists {
        root: Sequence::from_vec(roots),
        items: Sequence::from_vec(items),
    })
}
