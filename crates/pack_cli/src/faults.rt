// Why a round ended early.
ghost use Rattle.std.specs.Prelude.{◌≡◌};

use pk_base::ReadFail;
use std::alloc::AllocError;
use watch_core::BuildFault;

/// Why a round was not built.
#[derive(Drop)]
pub enum RoundFault {
    /// The tree has this fault.
    Refused(BuildFault),
    /// A file could not be read.
    ReadFault,
    /// A file could not be written.
    WriteFault,
    /// Memory ran out.
    NoMemory,
}

impl From<ReadFail> for RoundFault {
    ghost use Rattle.pack_cli.specs.Answers.{as_round_fault};

    ghost from_gives = { λ e f. f ≡ as_round_fault e };

    fn from(fail: ReadFail) -> RoundFault {
        match fail {
            ReadFail::Failed => RoundFault::ReadFault,
            ReadFail::NoMemory => RoundFault::NoMemory,
        }
    }
}

impl From<AllocError> for RoundFault {
    ghost use Rattle.pack_cli.specs.declared.faults.RoundFault.TheVariants.{NoMemory};

    ghost from_gives = { λ e f. f ≡ NoMemory };

    fn from(_: AllocError) -> RoundFault {
        RoundFault::NoMemory
    }
}
