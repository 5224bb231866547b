// Which of two faults is the first.
ghost use Rattle.std.specs.Prelude.{◌≡◌};
ghost use Rattle.export_faults.specs.Order.{rank, is_before, first_of, earlier};

use crate::fault::{ExportFault, FaultKind};

fn rank(kind: FaultKind) -> u8
    ensures { result ≡ rank kind }
{
    match kind {
        FaultKind::Missing => 0,
        FaultKind::Ambiguous => 1,
    }
}

fn is_before(one: ExportFault, other: ExportFault) -> bool
    ensures { result ≡ is_before one other }
{
    one.module < other.module
        || one.module == other.module
            && (one.place < other.place
                || one.place == other.place && rank(one.kind) < rank(other.kind))
}

fn first_of(one: ExportFault, other: ExportFault) -> ExportFault
    ensures { result ≡ first_of one other }
{
    if is_before(other, one) { other } else { one }
}

// The first of two faults, if there is one.
pub fn earlier(one: Option<ExportFault>, other: Option<ExportFault>) -> Option<ExportFault>
    ensures { result ≡ earlier one other }
{
    match (one, other) {
        (Some(one), Some(other)) => Some(first_of(one, other)),
        (None, other) => other,
        (one, None) => one,
    }
}
