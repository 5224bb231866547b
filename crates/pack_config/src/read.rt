ghost use Rattle.std.specs.Prelude.{◌≡◌, ◌⊎◌, Err, IfOk, Some, option_map};
ghost use Rattle.pk_types.specs.CacheGroups.{HasGroupsNamedApart};
ghost use Rattle.pack_config.specs.Config.{settings_of};

use crate::check::check_top;
use crate::fault::ConfigFault;
use crate::make::settings;
use crate::plain::read_value;
use pk_types::Config;
use serde_json::Value;
use std::alloc::Global;

/// The settings that the bytes of `pack.json` say. An absent file is as `{}`.
pub fn config(alloc: Global, bytes: Option<&[u8]>) -> Result<Config, ConfigFault>
    ensures answer { (result ≡ settings_of (option_map (λ bytes. bytes.now) bytes.entry))
        ⊎ (result ≡ Err ConfigFault.NoMemory) }
    ensures apart { IfOk result HasGroupsNamedApart }
{
    match bytes {
        Some(bytes) => read_config(alloc, bytes),
        None => Ok(settings(alloc, None)?),
    }
}

#[tactic(auto, unfolding(crate::specs::Config::settings_of))]
fn read_config(alloc: Global, bytes: &[u8]) -> Result<Config, ConfigFault>
    ensures answer { (result ≡ settings_of (Some bytes.now)) ⊎ (result ≡ Err ConfigFault.NoMemory) }
    ensures apart { IfOk result HasGroupsNamedApart }
{
    let Ok(text) = std::str::from_utf8(bytes) else {
        return Err(ConfigFault::BadJson);
    };
    let value = read_value(alloc, text)?;
    let Some(members) = value.as_object() else {
        return Err(ConfigFault::BadJson);
    };
    check_top(alloc, members)?;
    Ok(settings(alloc, Some(&value))?)
}
