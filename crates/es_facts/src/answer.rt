//! What is answered of a module's text.
ghost use Rattle.std.specs.Prelude.{◌≡◌};
ghost use Rattle.es_facts.specs.declared.answer.ModuleFault.TheVariants.{NoMemory};

use es_outline::Outline;
use es_scope::{EarlyError, Refusal};
use pk_types::{Facts, Name};
use std::alloc::AllocError;

/// The facts of a module, and the outline that gave them; a JSON module has none.
#[derive(Drop)]
pub struct Parsed {
    pub facts: Facts,
    pub outline: Option<Outline>,
}

/// Why a module's text has no facts. The numbers are places in bytes.
#[derive(Debug, Drop)]
pub enum ModuleFault {
    /// A script or a module that is not UTF-8.
    NotUtf8,
    /// No tree at any goal that the name allows.
    Syntax,
    /// The first early error, and the name that it speaks of.
    Early(EarlyError, u32, Name),
    /// The first construct that is not bundled.
    Refused(Refusal, u32),
    /// A JSON module that is not JSON.
    BadJson,
    NoMemory,
}

impl From<AllocError> for ModuleFault {
    ghost from_gives = { λ _ fault. fault ≡ NoMemory };

    fn from(_error: AllocError) -> ModuleFault {
        ModuleFault::NoMemory
    }
}
