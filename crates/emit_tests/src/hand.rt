// Two modules, of which the entry imports the other one: a graph, its plan and its bodies, made by hand.
ghost use Rattle.std.specs.Prelude.{◌≡◌, ◌≢◌, ◌<◌, length, IfOk};
ghost use Rattle.std.specs.List.{All};
ghost use Rattle.pk_types.specs.declared.facts.Kind.TheVariants.{Json};
ghost use Rattle.emit_body.specs.Pieces.{HoldsPieces};
ghost use Rattle.emit_chunk.specs.Bare.{IsBareRow, IsBare};
ghost use Rattle.emit_chunk.specs.Ranges.{AreBelow, module_of};

use emit_body::Body;
use emit_chunk::entry_file;
use pk_types::{
    Active, Chunks, Facts, Graph, Groups, Hoists, Ids, Item, Kind, Name, Plan, Row, Sequence, Text,
    Used,
};
use std::alloc::{AllocError, Global};

fn none<T>(alloc: Global) -> Sequence<T> {
    Sequence::from_vec(Vec::new(alloc))
}

// A module without sites.
fn bare_row(alloc: Global, label: &str, kind: Kind) -> Result<Row, AllocError>
    requires { kind ≢ Json }
    ensures { IfOk result IsBareRow }
{
    Ok(Row {
        label: Text::from_slice(alloc, label.as_bytes())?,
        facts: Facts {
            kind,
            requests: none(alloc),
            order: none(alloc),
            imports: none(alloc),
            exports: none(alloc),
            stars: none(alloc),
            bindings: Sequence::from_vec(Vec::new(alloc)),
            sites: Sequence::from_vec(Vec::new(alloc)),
            free: none(alloc),
            inner: none(alloc),
        },
        targets: none(alloc),
        flagged: false,
        size: 0,
    })
}

#[tactic(auto, using(crate::proofs::Few::all_two))]
fn two_rows(alloc: Global) -> Result<Graph, AllocError>
    ensures bare { IfOk result IsBare }
    ensures two { IfOk result (λ graph. length graph.rows ≡ 2) }
{
    let mut rows = Vec::new(alloc);
    rows.push(bare_row(alloc, "src/index.js", Kind::Es)?)?;
    rows.push(bare_row(alloc, "src/b.js", Kind::Cjs)?)?;
    Ok(Graph {
        rows: Sequence::from_vec(rows),
        entries: none(alloc),
    })
}

fn plain_body(alloc: Global, text: &str) -> Result<Body, AllocError>
    ensures { IfOk result HoldsPieces }
{
    Ok(Body {
        text: Text::from_slice(alloc, text.as_bytes())?,
        pieces: Sequence::from_vec(Vec::new(alloc)),
    })
}

#[tactic(auto, using(crate::proofs::Few::all_two))]
fn two_bodies(alloc: Global) -> Result<Sequence<Body>, AllocError>
    ensures pieces { IfOk result (λ bodies. All HoldsPieces bodies) }
    ensures two { IfOk result (λ bodies. length bodies ≡ 2) }
{
    let mut bodies = Vec::new(alloc);
    bodies.push(plain_body(alloc, "f();")?)?;
    bodies.push(plain_body(alloc, "g();")?)?;
    Ok(Sequence::from_vec(bodies))
}

// Both modules are reached, and the entry has an edge to the other one.
fn two_active(alloc: Global) -> Result<Active, AllocError> {
    let mut edges = Vec::new(alloc);
    edges.push(Sequence::from_vec(vec![in alloc; 1]?))?;
    edges.push(Sequence::from_vec(Vec::new(alloc)))?;
    Ok(Active {
        edges: Sequence::from_vec(edges),
        reached: Sequence::from_vec(vec![in alloc; true, true]?),
    })
}

// No name for each of the two modules.
fn no_names(alloc: Global) -> Result<Sequence<Sequence<Name>>, AllocError> {
    let mut names = Vec::new(alloc);
    names.push(Sequence::from_vec(Vec::new(alloc)))?;
    names.push(Sequence::from_vec(Vec::new(alloc)))?;
    Ok(Sequence::from_vec(names))
}

// Nothing of the two modules is used by name.
fn none_used(alloc: Global) -> Result<Used, AllocError> {
    Ok(Used {
        names: no_names(alloc)?,
        whole: Sequence::from_vec(vec![in alloc; false, false]?),
    })
}

#[tactic(auto, using(crate::proofs::Few::all_one))]
fn one_group(alloc: Global) -> Result<Groups, AllocError>
    ensures below { IfOk result (λ groups. AreBelow 2 groups.targets) }
    ensures one { IfOk result (λ groups. length groups.targets ≡ 1) }
{
    let mut closures = Vec::new(alloc);
    closures.push(Sequence::from_vec(vec![in alloc; 0, 1]?))?;
    let mut leads = Vec::new(alloc);
    leads.push(Sequence::from_vec(Vec::new(alloc)))?;
    Ok(Groups {
        targets: Sequence::from_vec(vec![in alloc; 0]?),
        entries: 1,
        closures: Sequence::from_vec(closures),
        leads: Sequence::from_vec(leads),
    })
}

#[tactic(auto, using(crate::proofs::Few::all_one, crate::proofs::Few::all_two, crate::proofs::Few::all_none))]
fn one_chunk(alloc: Global) -> Result<Chunks, AllocError>
    ensures below { IfOk result (λ chunks. All (AreBelow 2) chunks.modules) }
    ensures one { IfOk result (λ chunks. length chunks.modules ≡ 1) }
    ensures none { IfOk result (λ chunks. All (AreBelow 0) chunks.lists) }
    ensures list { IfOk result (λ chunks. length chunks.lists ≡ 1) }
{
    let mut modules = Vec::new(alloc);
    modules.push(Sequence::from_vec(vec![in alloc; 0, 1]?))?;
    let mut lists = Vec::new(alloc);
    lists.push(Sequence::from_vec(Vec::new(alloc)))?;
    Ok(Chunks {
        modules: Sequence::from_vec(modules),
        entries: 1,
        lists: Sequence::from_vec(lists),
    })
}

#[tactic(auto, using(crate::proofs::Few::all_one, crate::proofs::Few::all_two))]
fn two_scopes(alloc: Global) -> Result<Hoists, AllocError>
    ensures roots { IfOk result (λ hoists. length hoists.root ≡ 2) }
    ensures scopes { IfOk result (λ hoists. length hoists.items ≡ 2) }
    ensures below { IfOk result (λ hoists. All (All (λ item. module_of item < 2)) hoists.items) }
{
    let mut items = Vec::new(alloc);
    items.push(Sequence::from_vec(vec![in alloc; Item::Evaluate(1), Item::Segment(0)]?))?;
    items.push(Sequence::from_vec(vec![in alloc; Item::Segment(1)]?))?;
    Ok(Hoists {
        root: Sequence::from_vec(vec![in alloc; 0, 1]?),
        items: Sequence::from_vec(items),
    })
}

fn two_ids(alloc: Global) -> Result<Ids, AllocError>
    ensures modules { IfOk result (λ ids. length ids.modules ≡ 2) }
    ensures chunks { IfOk result (λ ids. length ids.chunks ≡ 0) }
{
    Ok(Ids {
        modules: Sequence::from_vec(vec![in alloc; 0, 1]?),
        chunks: Sequence::from_vec(Vec::new(alloc)),
    })
}

/// The entry file of the two modules.
pub fn two_modules_file(alloc: Global) -> Result<Text, AllocError> {
    let graph = two_rows(alloc)?;
    let bodies = two_bodies(alloc)?;
    let plan = Plan {
        active: two_active(alloc)?,
        used: none_used(alloc)?,
        groups: one_group(alloc)?,
        chunks: one_chunk(alloc)?,
        hoists: two_scopes(alloc)?,
        names: no_names(alloc)?,
        ids: two_ids(alloc)?,
    };
    let hashes = Sequence::from_vec(Vec::new(alloc));
    entry_file(alloc, &graph, &plan, &bodies, &hashes, 0)
}
