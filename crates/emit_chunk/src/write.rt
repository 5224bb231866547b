// Numbers and ids, written behind a text.
ghost use Rattle.std.specs.Prelude.{◌≡◌, ◌<◌, ◌++◌, length, OnOk, codes};
ghost use Rattle.std.specs.Fmt.{decimal};
ghost use Rattle.emit_chunk.specs.Entry.{chunk_id_text};
ghost use Rattle.emit_chunk.specs.Factories.{id_text};
ghost use Rattle.emit_chunk.specs.Joined.{each_behind, joined};
ghost use Rattle.emit_chunk.specs.Ranges.{AreBelow};

use pk_types::Plan;
use std::alloc::{AllocError, Global};

pub fn put_number(alloc: Global, out: &mut Vec<u8>, number: u64) -> Result<(), AllocError>
    ensures { OnOk result (out.new.items ≡ out.old.items ++ decimal number) }
{
    out.extend_from_slice(number.to_string(alloc)?.as_bytes())?;
    Ok(())
}

/// Writes the id of a module.
pub fn put_id(alloc: Global, out: &mut Vec<u8>, plan: &Plan, number: u32) -> Result<(), AllocError>
    requires { number < length (plan.now.ids.modules) }
    ensures { OnOk result (out.new.items ≡ out.old.items ++ id_text plan.now number) }
{
    put_number(
        alloc,
        out,
        u64::from(plan.ids.modules.as_slice()[number as usize]),
    )
}

/// Writes the id of a chunk that is no entry chunk.
pub fn put_chunk_id(
    alloc: Global,
    out: &mut Vec<u8>,
    plan: &Plan,
    chunk: u32,
) -> Result<(), AllocError>
    requires { chunk < length (plan.now.ids.chunks) }
    ensures { OnOk result (out.new.items ≡ out.old.items ++ chunk_id_text plan.now chunk) }
{
    put_number(
        alloc,
        out,
        u64::from(plan.ids.chunks.as_slice()[chunk as usize]),
    )
}

// Writes the ids of modules, each behind a comma.
fn put_more_ids(
    alloc: Global,
    out: &mut Vec<u8>,
    plan: &Plan,
    modules: &[u32],
) -> Result<(), AllocError>
    requires { AreBelow (length (plan.now.ids.modules)) modules.now }
    ensures { OnOk result (out.new.items ≡ out.old.items ++ each_behind (codes ", ") (id_text plan.now) modules.now) }
{
    for module in modules {
        out.extend_from_slice(b", ")?;
        put_id(alloc, out, plan, *module)?;
    }
    Ok(())
}

/// Writes the ids of modules, with a comma between each two.
pub fn put_ids(
    alloc: Global,
    out: &mut Vec<u8>,
    plan: &Plan,
    modules: &[u32],
) -> Result<(), AllocError>
    requires { AreBelow (length (plan.now.ids.modules)) modules.now }
    ensures { OnOk result (out.new.items ≡ out.old.items ++ joined (codes ", ") (id_text plan.now) modules.now) }
{
    match modules {
        [] => Ok(()),
        [first, rest @ ..] => {
            put_id(alloc, out, plan, *first)?;
            put_more_ids(alloc, out, plan, rest)
        }
    }
}
