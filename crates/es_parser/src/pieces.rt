//! Parts of a text: an expression, an item, what `export default` takes.
ghost use Rattle.std.specs.Prelude.{◌<◌, ◌^◌, ◌≤◌, ◌≡◌, length, IfOk};
ghost use Rattle.es_trace.specs.Tying.{tracers_to};
ghost use Rattle.es_cursor.specs.Standing.{Stands};
ghost use Rattle.es_nest.specs.Ties.{Given};
ghost use Rattle.es_parser.specs.Pieces.{TracesAlone, traced_piece};
ghost use Rattle.es_parser.specs.declared.pieces.Piece.TheVariants as part;

use crate::knot::tie;
use es_cursor::Cursor;
use es_functions::trace_closed_item;
use es_grammar::{Context, Stop};
use es_modules::trace_default;
use es_nest::Knot;
use es_operands::trace_closed_expr;
use es_outline::Outline;
use es_reader::ParseFault;
use es_trace::Rule;
use std::alloc::Global;

/// What may be parsed by itself.
#[derive(Clone, Copy)]
pub enum Piece {
    Expression,
    Item,
    Default,
}

// What is traced of a piece at a place, with the place where it ends.
fn trace_piece(
    alloc: Global,
    bytes: &[u8],
    at: u32,
    c: Context,
    nest: u32,
    piece: Piece,
) -> Result<(Outline, u32), ParseFault>
    requires short { length bytes.now < 2 ^ 32 }
    requires stands { Stands bytes.now at }
    ensures traced { TracesAlone (traced_piece bytes.now nest piece c at) result }
{
    let mut cursor = Cursor::new(alloc, bytes);
    let mut outline = Outline::new(alloc);
    let call = |cursor: &mut Cursor, outline: &mut Outline, rule: Rule, c: Context, at: u32| -> Result<
        Stop,
        ParseFault,
    >
        requires stands { Stands cursor.old at }
        ensures given { Given (tracers_to cursor.old nest) rule c outline.old.marks at
            outline.new.marks result }
        ensures within { IfOk result (λ end. end.at ≤ length cursor.old) }
        ensures same { cursor.new ≡ cursor.old }
        ensures kept { outline.new.kept ≡ outline.old.kept }
    { tie(cursor, outline, nest, rule, c, at) };
    let knot = Knot { call: &call, nest };
    let end = match piece {
        Piece::Expression => trace_closed_expr(&mut cursor, &mut outline, &knot, c, at)?,
        Piece::Item => trace_closed_item(&mut cursor, &mut outline, &knot, c, at)?,
        Piece::Default => trace_default(&mut cursor, &mut outline, &knot, c, at)?,
    };
    Ok((outline, end))
}

/// The outline of the expression that begins at a byte place and that the token behind it closes, with the place where it
/// ends. It has at most this nest.
pub fn parse_expression(
    alloc: Global,
    bytes: &[u8],
    at: u32,
    c: Context,
    nest: u32,
) -> Result<(Outline, u32), ParseFault>
    requires short { length bytes.now < 2 ^ 32 }
    requires stands { Stands bytes.now at }
    ensures traced { TracesAlone (traced_piece bytes.now nest part.Expression c at) result }
{
    trace_piece(alloc, bytes, at, c, nest, Piece::Expression)
}

/// The outline of the statement or declaration that begins at a byte place, with the place where it ends. It has at most
/// this nest.
pub fn parse_item(
    alloc: Global,
    bytes: &[u8],
    at: u32,
    c: Context,
    nest: u32,
) -> Result<(Outline, u32), ParseFault>
    requires short { length bytes.now < 2 ^ 32 }
    requires stands { Stands bytes.now at }
    ensures traced { TracesAlone (traced_piece bytes.now nest part.Item c at) result }
{
    trace_piece(alloc, bytes, at, c, nest, Piece::Item)
}

/// The outline of the function or class that begins at a byte place, whose name may be left out as behind `export default`,
/// with the place where it ends. What nests in it has at most this nest.
pub fn parse_default(
    alloc: Global,
    bytes: &[u8],
    at: u32,
    c: Context,
    nest: u32,
) -> Result<(Outline, u32), ParseFault>
    requires short { length bytes.now < 2 ^ 32 }
    requires stands { Stands bytes.now at }
    ensures traced { TracesAlone (traced_piece bytes.now nest part.Default c at) result }
{
    trace_piece(alloc, bytes, at, c, nest, Piece::Default)
}
