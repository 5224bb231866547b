// Gives paths their numbers, in the order of first sight.
ghost use Rattle.std.specs.Prelude.{◌≡◌, ◌<◌, ◌≤◌, length, take, Err, IfOk, OnOk, OnErr};
ghost use Rattle.pk_types.specs.declared.limits.TheConstants.{MAX_MODULES};
ghost use Rattle.module_graph.specs.Known.{with_paths, numbers_in};

use crate::fault::GraphFault;
use indexmap::IndexSet;
use pk_base::Path;
use pk_types::MAX_MODULES;
use std::alloc::Global;

// The numbers of the paths, of which those that are new become known. After an `Err` the known ones are as before.
pub fn number(
    alloc: Global,
    known: &mut IndexSet<Path>,
    paths: Vec<Path>,
) -> Result<Vec<u32>, GraphFault>
    requires { length known.old.keys ≤ MAX_MODULES }
    ensures known { OnOk result (known.new.keys ≡ with_paths known.old.keys paths.items) }
    ensures numbers { IfOk result (λ numbers.
        numbers.items ≡ numbers_in (with_paths known.old.keys paths.items) paths.items) }
    ensures few { OnOk result (length (with_paths known.old.keys paths.items) ≤ MAX_MODULES) }
    ensures too_many { result ≡ Err GraphFault.TooMany
        → MAX_MODULES < length (with_paths known.old.keys paths.items) }
    ensures err { OnErr result (known.new.keys ≡ known.old.keys) }
{
    let count = known.len();
    let numbers = see(alloc, known, paths);
    if numbers.is_err() {
        known.truncate(count);
    }
    numbers
}

// The same, but after an `Err` some of the new paths may be known.
fn see(alloc: Global, known: &mut IndexSet<Path>, paths: Vec<Path>) -> Result<Vec<u32>, GraphFault>
    requires { length known.old.keys ≤ MAX_MODULES }
    ensures known { OnOk result (known.new.keys ≡ with_paths known.old.keys paths.items) }
    ensures numbers { IfOk result (λ numbers.
        numbers.items ≡ numbers_in (with_paths known.old.keys paths.items) paths.items) }
    ensures few { OnOk result (length (with_paths known.old.keys paths.items) ≤ MAX_MODULES) }
    ensures too_many { result ≡ Err GraphFault.TooMany
        → MAX_MODULES < length (with_paths known.old.keys paths.items) }
    ensures kept { take (length known.old.keys) known.new.keys ≡ known.old.keys }
{
    let mut numbers = Vec::with_capacity(alloc, paths.len())?;
    for path in paths {
        let (number, _) = known.insert_full(path)?;
        if number >= MAX_MODULES {
            return Err(GraphFault::TooMany);
        }
        numbers.push(number as u32)?;
    }
    Ok(numbers)
}
