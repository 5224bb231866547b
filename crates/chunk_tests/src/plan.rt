// The plan of the bundle.
ghost use Rattle.std.specs.Prelude.{◌≡◌, ℕ, List, [], ◌∷◌, IfOk};
ghost use Rattle.chunk_tests.specs.Worked.{the_plan};

use pk_types::{Active, Chunks, Groups, Hoists, Ids, Item, Name, Plan, Sequence, Used};
use std::alloc::{AllocError, Global};

// Two lists in one.
fn two<T: Drop>(
    alloc: Global,
    first: Sequence<T>,
    second: Sequence<T>,
) -> Result<Sequence<Sequence<T>>, AllocError>
    ensures { IfOk result (λ both. both ≡ first ∷ second ∷ []) }
{
    let mut both = Vec::new(alloc);
    both.push(first)?;
    both.push(second)?;
    Ok(Sequence::from_vec(both))
}

// Three lists in one.
fn three<T: Drop>(
    alloc: Global,
    first: Sequence<T>,
    second: Sequence<T>,
    third: Sequence<T>,
) -> Result<Sequence<Sequence<T>>, AllocError>
    ensures { IfOk result (λ all. all ≡ first ∷ second ∷ third ∷ []) }
{
    let mut all = Vec::new(alloc);
    all.push(first)?;
    all.push(second)?;
    all.push(third)?;
    Ok(Sequence::from_vec(all))
}

fn active(alloc: Global) -> Result<Active, AllocError>
    ensures { IfOk result (λ active. active ≡ the_plan.active) }
{
    let first = Sequence::one(alloc, 1)?;
    Ok(Active {
        edges: three(alloc, first, Sequence::new(alloc), Sequence::new(alloc))?,
        reached: Sequence::from_vec(vec![in alloc; true, true, true]?),
    })
}

fn no_names(alloc: Global) -> Result<Sequence<Sequence<Name>>, AllocError>
    ensures { IfOk result (λ names. names ≡ the_plan.names) }
{
    three(
        alloc,
        Sequence::new(alloc),
        Sequence::new(alloc),
        Sequence::new(alloc),
    )
}

fn used(alloc: Global) -> Result<Used, AllocError>
    ensures { IfOk result (λ used. used ≡ the_plan.used) }
{
    Ok(Used {
        names: no_names(alloc)?,
        whole: Sequence::from_vec(vec![in alloc; false, false, false]?),
    })
}

fn groups(alloc: Global) -> Result<Groups, AllocError>
    ensures { IfOk result (λ groups. groups ≡ the_plan.groups) }
{
    let first = Sequence::from_vec(vec![in alloc; 0, 1]?);
    let second = Sequence::from_vec(vec![in alloc; 1, 2]?);
    let lead = Sequence::one(alloc, 1)?;
    Ok(Groups {
        targets: Sequence::from_vec(vec![in alloc; 0, 2]?),
        entries: 1,
        closures: two(alloc, first, second)?,
        leads: two(alloc, lead, Sequence::new(alloc))?,
    })
}

fn chunks(alloc: Global) -> Result<Chunks, AllocError>
    ensures { IfOk result (λ chunks. chunks ≡ the_plan.chunks) }
{
    let first = Sequence::from_vec(vec![in alloc; 0, 1]?);
    let second = Sequence::one(alloc, 2)?;
    let needed = Sequence::one(alloc, 0)?;
    Ok(Chunks {
        modules: two(alloc, first, second)?,
        entries: 1,
        lists: two(alloc, Sequence::new(alloc), needed)?,
    })
}

fn hoists(alloc: Global) -> Result<Hoists, AllocError>
    ensures { IfOk result (λ hoists. hoists ≡ the_plan.hoists) }
{
    let first = Sequence::from_vec(vec![in alloc; Item::Evaluate(1), Item::Segment(0)]?);
    let second = Sequence::one(alloc, Item::Segment(1))?;
    let third = Sequence::one(alloc, Item::Segment(2))?;
    Ok(Hoists {
        root: Sequence::from_vec(vec![in alloc; 0, 1, 2]?),
        items: three(alloc, first, second, third)?,
    })
}

/// How the modules are cut, ordered and named.
pub(crate) fn plan(alloc: Global) -> Result<Plan, AllocError>
    ensures { IfOk result (λ plan. plan ≡ the_plan) }
{
    Ok(Plan {
        active: active(alloc)?,
        used: used(alloc)?,
        groups: groups(alloc)?,
        chunks: chunks(alloc)?,
        hoists: hoists(alloc)?,
        names: no_names(alloc)?,
        ids: Ids {
            modules: Sequence::from_vec(vec![in alloc; 3, 12, 7]?),
            chunks: Sequence::one(alloc, 4)?,
        },
    })
}
