// The factories of a bundle.
ghost use Rattle.std.specs.Prelude.{◌≡◌, ◌<◌, ◌≤◌, ◌-◌, ◌++◌, ℕ, length, IfOk, OnOk, codes};
ghost use Rattle.std.specs.Fmt.{decimal};
ghost use Rattle.std.specs.List.{All};
ghost use Rattle.emit_body.specs.Pieces.{HoldsPieces, pieces_size};
ghost use Rattle.emit_chunk.specs.Bare.{IsBare};
ghost use Rattle.emit_chunk.specs.Factories as spec;
ghost use Rattle.emit_chunk.specs.Factories.{id_text, segment_text, item_text, evaluation_text, es_factory, cjs_factory, factory_of};
ghost use Rattle.emit_chunk.specs.Joined.{all_of, joined};
ghost use Rattle.emit_chunk.specs.Marks.{mark_of, marks_of};
ghost use Rattle.emit_chunk.specs.Ranges.{AreBelow, InRange, HaveBodies, module_of};

use crate::write::{put_id, put_ids, put_number};
use emit_body::{Body, Piece};
use pk_types::{Graph, Item, Kind, Plan};
use std::alloc::{AllocError, Global};

// Writes a mark for each site.
fn put_sites(alloc: Global, out: &mut Vec<u8>, pieces: &[Piece]) -> Result<(), AllocError>
    ensures { OnOk result (out.new.items ≡ out.old.items ++ all_of mark_of pieces.now) }
{
    for piece in pieces {
        put_number(alloc, out, piece.plain)?;
        out.push(piece.kind)?;
        put_number(alloc, out, piece.site)?;
        out.extend_from_slice(b" ")?;
    }
    Ok(())
}

// How many bytes of a text are left behind the pieces.
fn plain_behind(size: u64, pieces: &[Piece]) -> u64
    requires { pieces_size pieces.now ≤ size }
    ensures { result ≡ size - pieces_size pieces.now }
{
    let mut left = size;
    for piece in pieces {
        left = left - piece.plain - piece.site;
    }
    left
}

// Writes the marks of a body.
fn put_marks(alloc: Global, out: &mut Vec<u8>, body: &Body) -> Result<(), AllocError>
    requires { HoldsPieces body.now }
    ensures { OnOk result (out.new.items ≡ out.old.items ++ marks_of body.now) }
{
    let pieces = body.pieces.as_slice();
    put_sites(alloc, out, pieces)?;
    put_number(alloc, out, plain_behind(body.text.len() as u64, pieces))
}

// Writes a module's label, the marks of its body, and the body.
#[tactic(auto, using(crate::proofs::Rows::label_read, crate::proofs::Rows::marks_read, crate::proofs::Rows::body_read, crate::proofs::Texts::segment_joins), unfolding(crate::specs::Factories::segment_text))]
fn put_segment(
    alloc: Global,
    out: &mut Vec<u8>,
    graph: &Graph,
    bodies: &[Body],
    number: u32,
) -> Result<(), AllocError>
    requires bodies { HaveBodies graph.now bodies.now }
    requires number { number < length (graph.now.rows) }
    ensures { OnOk result (out.new.items ≡ out.old.items ++ segment_text graph.now bodies.now number) }
{
    let body = &bodies[number as usize];
    out.extend_from_slice(b"/*m \"")?;
    out.extend_from_slice(graph.rows.as_slice()[number as usize].label.as_slice())?;
    out.extend_from_slice(b"\" ")?;
    put_marks(alloc, out, body)?;
    out.extend_from_slice(b"*/\n")?;
    out.extend_from_slice(body.text.as_slice())?;
    out.extend_from_slice(b"\n")?;
    Ok(())
}

// Writes the evaluation of a module of another scope.
fn put_evaluation(
    alloc: Global,
    out: &mut Vec<u8>,
    plan: &Plan,
    number: u32,
) -> Result<(), AllocError>
    requires { number < length (plan.now.ids.modules) }
    ensures { OnOk result (out.new.items ≡ out.old.items ++ evaluation_text plan.now number) }
{
    out.extend_from_slice(b"__webpack_r.e(")?;
    put_id(alloc, out, plan, number)?;
    out.extend_from_slice(b");\n")?;
    Ok(())
}

// Writes one thing that a scope runs.
fn put_item(
    alloc: Global,
    out: &mut Vec<u8>,
    graph: &Graph,
    plan: &Plan,
    bodies: &[Body],
    item: Item,
) -> Result<(), AllocError>
    requires range { InRange graph.now plan.now }
    requires bodies { HaveBodies graph.now bodies.now }
    requires item { module_of item < length (graph.now.rows) }
    ensures { OnOk result (out.new.items ≡ out.old.items ++ item_text graph.now plan.now bodies.now item) }
{
    match item {
        Item::Segment(number) => put_segment(alloc, out, graph, bodies, number),
        Item::Evaluate(number) => put_evaluation(alloc, out, plan, number),
    }
}

// Writes what a scope runs.
fn put_items(
    alloc: Global,
    out: &mut Vec<u8>,
    graph: &Graph,
    plan: &Plan,
    bodies: &[Body],
    items: &[Item],
) -> Result<(), AllocError>
    requires range { InRange graph.now plan.now }
    requires bodies { HaveBodies graph.now bodies.now }
    requires items { All (λ item. module_of item < length (graph.now.rows)) items.now }
    ensures { OnOk result (out.new.items ≡ out.old.items ++ all_of (item_text graph.now plan.now bodies.now) items.now) }
{
    for item in items {
        put_item(alloc, out, graph, plan, bodies, *item)?;
    }
    Ok(())
}

// The modules of other scopes that are evaluated, in order.
fn evaluated(alloc: Global, items: &[Item]) -> Result<Vec<u32>, AllocError>
    ensures { IfOk result (λ modules. modules.items ≡ spec.evaluated items.now) }
{
    let mut modules = Vec::new(alloc);
    for item in items {
        if let Item::Evaluate(module) = *item {
            modules.push(module)?;
        }
    }
    Ok(modules)
}

// What a scope runs.
#[tactic(auto, using(crate::proofs::Within::items_below))]
fn items_of<'a>(graph: &Graph, plan: &'a Plan, root: u32) -> &'a [Item]
    requires range { InRange graph.now plan.now }
    requires root { root < length (graph.now.rows) }
    ensures items { result.now ≡ spec.items_of plan.now root }
    ensures below { All (λ item. module_of item < length (graph.now.rows)) result.now }
{
    plan.hoists.items.as_slice()[root as usize].as_slice()
}

// Writes the ids of the modules of other scopes that are evaluated.
#[tactic(auto, using(crate::proofs::Within::evaluated_below))]
fn put_evaluated(
    alloc: Global,
    out: &mut Vec<u8>,
    plan: &Plan,
    items: &[Item],
) -> Result<(), AllocError>
    requires { All (λ item. module_of item < length (plan.now.ids.modules)) items.now }
    ensures { OnOk result (out.new.items ≡ out.old.items ++ joined (codes ", ") (id_text plan.now) (spec.evaluated items.now)) }
{
    let modules = evaluated(alloc, items)?;
    put_ids(alloc, out, plan, modules.as_slice())
}

// Writes the factory of an ECMAScript scope.
#[tactic(auto, using(crate::proofs::Texts::es_joins))]
fn put_es_factory(
    alloc: Global,
    out: &mut Vec<u8>,
    graph: &Graph,
    plan: &Plan,
    bodies: &[Body],
    root: u32,
) -> Result<(), AllocError>
    requires range { InRange graph.now plan.now }
    requires bodies { HaveBodies graph.now bodies.now }
    requires root { root < length (graph.now.rows) }
    ensures { OnOk result (out.new.items ≡ out.old.items ++ es_factory graph.now plan.now bodies.now root) }
{
    let items = items_of(graph, plan, root);
    out.extend_from_slice(b"[")?;
    put_id(alloc, out, plan, root)?;
    out.extend_from_slice(b", 1, [")?;
    put_evaluated(alloc, out, plan, items)?;
    out.extend_from_slice(b"], function* (__webpack_r) {\n\"use strict\";\n/*v*/\nyield;\n")?;
    put_items(alloc, out, graph, plan, bodies, items)?;
    out.extend_from_slice(b"}]")?;
    Ok(())
}

// Writes the factory of a CommonJS module.
#[tactic(auto, using(crate::proofs::Texts::cjs_joins))]
fn put_cjs_factory(
    alloc: Global,
    out: &mut Vec<u8>,
    graph: &Graph,
    plan: &Plan,
    bodies: &[Body],
    number: u32,
) -> Result<(), AllocError>
    requires range { InRange graph.now plan.now }
    requires bodies { HaveBodies graph.now bodies.now }
    requires number { number < length (graph.now.rows) }
    ensures { OnOk result (out.new.items ≡ out.old.items ++ cjs_factory graph.now plan.now bodies.now number) }
{
    out.extend_from_slice(b"[")?;
    put_id(alloc, out, plan, number)?;
    out.extend_from_slice(b", 0, [], function (module, exports, __webpack_r) {\n")?;
    put_segment(alloc, out, graph, bodies, number)?;
    out.extend_from_slice(b"}]")?;
    Ok(())
}

/// Writes the factory of a scope, by the kind of the module that it is named by.
#[tactic(auto, using(crate::proofs::Rows::factory_read), unfolding(crate::specs::Factories::factory_of))]
pub fn put_factory(
    alloc: Global,
    out: &mut Vec<u8>,
    graph: &Graph,
    plan: &Plan,
    bodies: &[Body],
    root: u32,
) -> Result<(), AllocError>
    requires range { InRange graph.now plan.now }
    requires bodies { HaveBodies graph.now bodies.now }
    requires root { root < length (graph.now.rows) }
    ensures { OnOk result (out.new.items ≡ out.old.items ++ factory_of graph.now plan.now bodies.now root) }
{
    match graph.rows.as_slice()[root as usize].facts.kind {
        Kind::Es => put_es_factory(alloc, out, graph, plan, bodies, root),
        Kind::Cjs => put_cjs_factory(alloc, out, graph, plan, bodies, root),
        Kind::Json => Ok(()),
    }
}
