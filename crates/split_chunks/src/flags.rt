// Sets of numbers as flags.
ghost use Rattle.std.specs.Prelude.{◌<◌, length, IfOk};
ghost use Rattle.std.specs.List.{All};
ghost use Rattle.split_chunks.specs.Marked.{Marks, AreFlags};

use std::alloc::{AllocError, Global};

/// Sets the flags of these numbers.
pub fn mark(flags: &mut Vec<bool>, numbers: &[u32])
    requires { All (λ number. number < length flags.old.items) numbers.now }
    ensures { Marks numbers.now flags.old.items flags.new.items }
{
    for number in numbers {
        flags[*number as usize] = true;
    }
}

/// So many flags, of which those of the numbers are set.
pub fn flags(alloc: Global, numbers: &[u32], count: usize) -> Result<Vec<bool>, AllocError>
    requires { All (λ number. number < count) numbers.now }
    ensures { IfOk result (λ flags. AreFlags numbers.now count flags.items) }
{
    let mut flags = vec![in alloc; false; count]?;
    mark(&mut flags, numbers);
    Ok(flags)
}
