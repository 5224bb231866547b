// The lists of what was asked of files and done to a store.
ghost use Rattle.std.specs.Prelude.{◌≡◌, ◌++◌, ◌∷◌, [], OnOk, OnErr};
ghost use Rattle.pk_base.specs.declared.outside.Call.TheVariants.{Put, Remove};

use crate::{Call, Path, Text};
use std::alloc::{AllocError, Global};

pub fn keep_ask(alloc: Global, asks: &mut Vec<Text>, path: &Path) -> Result<(), AllocError>
    ensures ok { OnOk result (asks.new.items ≡ asks.old.items ++ path.now ∷ []) }
    ensures err { OnErr result (asks.new.items ≡ asks.old.items) }
{
    let ask = Text::from_slice(alloc, path.text().as_bytes())?;
    asks.push(ask)?;
    Ok(())
}

pub fn keep_put(alloc: Global, calls: &mut Vec<Call>, name: &[u8]) -> Result<(), AllocError>
    ensures ok { OnOk result (calls.new.items ≡ calls.old.items ++ Put name.now ∷ []) }
    ensures err { OnErr result (calls.new.items ≡ calls.old.items) }
{
    let name = Text::from_slice(alloc, name)?;
    calls.push(Call::Put(name))?;
    Ok(())
}

pub fn keep_remove(alloc: Global, calls: &mut Vec<Call>, name: &[u8]) -> Result<(), AllocError>
    ensures ok { OnOk result (calls.new.items ≡ calls.old.items ++ Remove name.now ∷ []) }
    ensures err { OnErr result (calls.new.items ≡ calls.old.items) }
{
    let name = Text::from_slice(alloc, name)?;
    calls.push(Call::Remove(name))?;
    Ok(())
}
