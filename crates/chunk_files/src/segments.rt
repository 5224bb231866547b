// What a factory runs: the bodies of its modules, and evaluations of modules of other scopes.
ghost use Rattle.std.specs.Prelude.{◌≡◌, ◌<◌, ◌≤◌, ◌-◌, ℕ, length, OnOk};
ghost use Rattle.std.specs.List.{All};
ghost use Rattle.emit_body.specs.Pieces.{HoldsPieces, pieces_size};
ghost use Rattle.emit_chunk.specs.Factories.{segment_text, evaluation_text, item_text};
ghost use Rattle.emit_chunk.specs.Joined.{all_of};
ghost use Rattle.emit_chunk.specs.Marks.{mark_of, marks_of};
ghost use Rattle.emit_chunk.specs.Ranges.{module_of};
ghost use Rattle.chunk_files.specs.Factories.{run_text};
ghost use Rattle.chunk_files.specs.Pens.{penned};

use crate::ids::put_id;
use crate::material::Material;
use crate::pen::Pen;
use emit_body::{Body, Piece};
use pk_types::Item;
use std::alloc::AllocError;

// Writes the mark of a site, and a space.
#[tactic(auto, using(crate::proofs::Penning::penned_twice))]
fn put_mark(pen: &mut Pen, piece: Piece) -> Result<(), AllocError>
    ensures { OnOk result (pen.new ≡ penned pen.old (mark_of piece)) }
{
    pen.put_number(piece.plain)?;
    pen.put(&[piece.kind])?;
    pen.put_number(piece.site)?;
    pen.put(b" ")
}

// Writes a mark for each site.
#[tactic(auto, using(crate::proofs::Penning::penned_twice, crate::proofs::Penning::penned_nothing))]
fn put_sites(pen: &mut Pen, pieces: &[Piece]) -> Result<(), AllocError>
    ensures { OnOk result (pen.new ≡ penned pen.old (all_of mark_of pieces.now)) }
{
    for piece in pieces {
        put_mark(pen, *piece)?;
    }
    Ok(())
}

// How many bytes of a text are left behind the pieces.
fn plain_behind(size: u64, pieces: &[Piece]) -> u64
    requires { pieces_size pieces.now ≤ size }
    ensures { result ≡ size - pieces_size pieces.now }
{
    let mut left = size;
    for piece in pieces {
        left = left - piece.plain - piece.site;
    }
    left
}

// Writes the marks of a body.
#[tactic(auto, using(crate::proofs::Penning::penned_twice))]
fn put_marks(pen: &mut Pen, body: &Body) -> Result<(), AllocError>
    requires { HoldsPieces body.now }
    ensures { OnOk result (pen.new ≡ penned pen.old (marks_of body.now)) }
{
    let pieces = body.pieces.as_slice();
    put_sites(pen, pieces)?;
    pen.put_number(plain_behind(body.text.len() as u64, pieces))
}

/// Writes a module's label, the marks of its body, and the body.
#[tactic(auto, unfolding(emit_chunk::specs::Factories::segment_text), using(crate::proofs::Penning::penned_twice))]
pub(crate) fn put_segment(
    pen: &mut Pen,
    material: &Material<'_>,
    module: u32,
) -> Result<(), AllocError>
    requires { «module» < length material.now.graph.rows }
    ensures { OnOk result (pen.new ≡ penned pen.old (segment_text material.now.graph material.now.bodies «module»)) }
{
    let body = material.body(module);
    pen.put(b"/*m \"")?;
    pen.put(material.row(module).label.as_slice())?;
    pen.put(b"\" ")?;
    put_marks(pen, body)?;
    pen.put(b"*/\n")?;
    pen.put(body.text.as_slice())?;
    pen.put(b"\n")
}

// Writes the evaluation of a module of another scope.
#[tactic(auto, unfolding(emit_chunk::specs::Factories::evaluation_text), using(crate::proofs::Penning::penned_twice))]
fn put_evaluation(pen: &mut Pen, material: &Material<'_>, module: u32) -> Result<(), AllocError>
    requires { «module» < length material.now.graph.rows }
    ensures { OnOk result (pen.new ≡ penned pen.old (evaluation_text material.now.plan «module»)) }
{
    pen.put(b"__webpack_r.e(")?;
    put_id(pen, material, module)?;
    pen.put(b");\n")
}

// Writes one thing that a scope runs.
fn put_item(pen: &mut Pen, material: &Material<'_>, item: Item) -> Result<(), AllocError>
    requires { module_of item < length material.now.graph.rows }
    ensures { OnOk result
        (pen.new ≡ penned pen.old (item_text material.now.graph material.now.plan material.now.bodies item)) }
{
    match item {
        Item::Segment(module) => put_segment(pen, material, module),
        Item::Evaluate(module) => put_evaluation(pen, material, module),
    }
}

/// Writes what the scope of a root runs.
#[tactic(auto, using(crate::proofs::Penning::penned_twice, crate::proofs::Penning::penned_nothing))]
pub(crate) fn put_items(
    pen: &mut Pen,
    material: &Material<'_>,
    items: &[Item],
) -> Result<(), AllocError>
    requires { All (λ item. module_of item < length material.now.graph.rows) items.now }
    ensures { OnOk result (pen.new ≡ penned pen.old
        (all_of (item_text material.now.graph material.now.plan material.now.bodies) items.now)) }
{
    for item in items {
        put_item(pen, material, *item)?;
    }
    Ok(())
}
