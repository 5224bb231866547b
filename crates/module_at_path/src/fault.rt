//! Why there is no module at a path.
ghost use Rattle.std.specs.Prelude.{◌≡◌};
ghost use Rattle.module_at_path.specs.declared.fault.FileFault.TheVariants.{NoMemory};
ghost use Rattle.module_at_path.specs.Faults.{of_text};

use es_facts::ModuleFault;
use es_scope::{EarlyError, Refusal};
use pk_base::Path;
use pk_types::Name;
use std::alloc::AllocError;

/// Why there is no module at a path, in the order in which these are looked for. The numbers are places in bytes.
#[derive(Debug, Drop)]
pub enum FileFault {
    /// The file has more bytes than a file may have.
    TooLarge,
    /// A script or a module that is not UTF-8.
    NotUtf8,
    /// The nearest manifest, which stands at this path, is none.
    BadScope(Path),
    /// No tree at any goal that the name allows.
    Syntax,
    /// The first early error, and the name that it speaks of.
    Early(EarlyError, u32, Name),
    /// The first construct that is not bundled.
    Refused(Refusal, u32),
    /// A JSON module that is not JSON.
    BadJson,
    /// The name says no kind of module.
    UnknownType,
    NoMemory,
}

impl From<AllocError> for FileFault {
    ghost from_gives = { λ _ fault. fault ≡ NoMemory };

    fn from(_error: AllocError) -> FileFault {
        FileFault::NoMemory
    }
}

impl From<ModuleFault> for FileFault {
    ghost from_gives = { λ given fault. fault ≡ of_text given };

    fn from(given: ModuleFault) -> FileFault {
        match given {
            ModuleFault::NotUtf8 => FileFault::NotUtf8,
            ModuleFault::Syntax => FileFault::Syntax,
            ModuleFault::Early(error, place, name) => FileFault::Early(error, place, name),
            ModuleFault::Refused(refusal, place) => FileFault::Refused(refusal, place),
            ModuleFault::BadJson => FileFault::BadJson,
            ModuleFault::NoMemory => FileFault::NoMemory,
        }
    }
}
