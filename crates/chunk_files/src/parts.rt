// Texts that are written one behind the other.
ghost use Rattle.std.specs.Prelude.{◌≡◌, ◌<◌, ℕ, List, [], drop, length, slice_index_or, OnOk};
ghost use Rattle.chunk_files.specs.Joined.{each_behind, joined};
ghost use Rattle.chunk_files.specs.Pens.{penned};

use crate::pen::Pen;
use std::alloc::AllocError;

/// Texts that can be written by their places.
pub(crate) trait Parts {
    ghost texts: { Self → List (List ℕ) };

    // what has to be true of the numbers that are written
    ghost stand: { Self → Type 0 };

    /// How many texts there are.
    fn count(&self) -> usize
        ensures { result ≡ length (texts self.now) };

    /// Writes one of them.
    fn put(&self, pen: &mut Pen, place: usize) -> Result<(), AllocError>
        requires stand { stand self.now }
        requires place { «place» < length (texts self.now) }
        ensures { OnOk result (pen.new ≡ penned pen.old (slice_index_or (texts self.now) «place» [])) };
}

// Writes the texts from a place on, each with the separator before it.
#[tactic(auto, using(crate::proofs::Penning::penned_twice, crate::proofs::Penning::penned_nothing))]
fn put_from<P: Parts>(
    pen: &mut Pen,
    separator: &[u8],
    parts: &P,
    first: usize,
) -> Result<(), AllocError>
    requires { P.stand parts.now }
    ensures { OnOk result (pen.new ≡ penned pen.old (each_behind separator.now (drop first (P.texts parts.now)))) }
{
    for place in first..parts.count() {
        pen.put(separator)?;
        parts.put(pen, place)?;
    }
    Ok(())
}

/// Writes the texts, each with the separator before it.
pub(crate) fn put_behind<P: Parts>(
    pen: &mut Pen,
    separator: &[u8],
    parts: &P,
) -> Result<(), AllocError>
    requires { P.stand parts.now }
    ensures { OnOk result (pen.new ≡ penned pen.old (each_behind separator.now (P.texts parts.now))) }
{
    put_from(pen, separator, parts, 0)
}

/// Writes the texts, with the separator between each two.
#[tactic(auto, using(crate::proofs::Penning::penned_twice, crate::proofs::Penning::penned_nothing))]
pub(crate) fn put_joined<P: Parts>(
    pen: &mut Pen,
    separator: &[u8],
    parts: &P,
) -> Result<(), AllocError>
    requires { P.stand parts.now }
    ensures { OnOk result (pen.new ≡ penned pen.old (joined separator.now (P.texts parts.now))) }
{
    if parts.count() == 0 {
        return Ok(());
    }
    parts.put(pen, 0)?;
    put_from(pen, separator, parts, 1)
}
