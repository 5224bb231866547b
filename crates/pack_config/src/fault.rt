ghost use Rattle.std.specs.Prelude.{◌≡◌, ◌≢◌, ◌++◌, IfOk};

use pk_types::Text;
use std::alloc::{AllocError, Global};

/// Why the settings were not read. A key stands as its bytes: who prints it replaces control
/// characters.
#[derive(Debug, Drop)]
pub enum ConfigFault {
    /// The file is no JSON, or its value is no object.
    BadJson,
    /// No setting has this key, which is the keys from the top joined by dots.
    Unknown(Text),
    /// The value of this key, the keys from the top joined by dots, is not of its kind or range.
    BadValue(Text),
    /// The object of `entry` is empty.
    NoEntry,
    NoMemory,
}

impl From<AllocError> for ConfigFault {
    ghost use Rattle.pack_config.specs.declared.fault.ConfigFault.TheVariants.{NoMemory};
    ghost use Rattle.std.specs.Prelude.{◌≡◌};

    ghost from_gives = { λ _ fault. fault ≡ NoMemory };

    fn from(_refused: AllocError) -> ConfigFault {
        ConfigFault::NoMemory
    }
}

/// The key that stands below `above`, which is empty or ends in a dot.
pub(crate) fn joined(alloc: Global, above: &str, key: &str) -> Result<Text, AllocError>
    ensures { IfOk result (λ text. text ≡ above.now ++ key.now) }
{
    let mut bytes = Vec::from_slice(alloc, above.as_bytes())?;
    bytes.extend_from_slice(key.as_bytes())?;
    Ok(Text::from_vec(bytes))
}

pub(crate) fn unknown(alloc: Global, above: &str, key: &str) -> ConfigFault
    ensures { result ≢ ConfigFault.NoMemory → result ≡ ConfigFault.Unknown (above.now ++ key.now) }
{
    match joined(alloc, above, key) {
        Ok(text) => ConfigFault::Unknown(text),
        Err(_) => ConfigFault::NoMemory,
    }
}

pub(crate) fn bad_value(alloc: Global, above: &str, key: &str) -> ConfigFault
    ensures { result ≢ ConfigFault.NoMemory → result ≡ ConfigFault.BadValue (above.now ++ key.now) }
{
    match joined(alloc, above, key) {
        Ok(text) => ConfigFault::BadValue(text),
        Err(_) => ConfigFault::NoMemory,
    }
}
