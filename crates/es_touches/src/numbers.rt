//! Which binding has which name.
ghost use Rattle.std.specs.Prelude.{◌≡◌, ◌<◌, ◌^◌, None, length, replicate, IfOk};
ghost use Rattle.std.specs.Str.{bytes_eq};
ghost use Rattle.pk_text.specs.Places.{place_of};
ghost use Rattle.es_scope.specs.Declaring.{default_binding};
ghost use Rattle.es_touches.specs.Told as spec;

use es_scope::Scopes;
use pk_types::Binding;
use std::alloc::{AllocError, Global};

// Notes a number at a place of a table, if there is one.
fn note(table: &mut Vec<Option<u32>>, at: Option<u32>, number: u32)
    requires { spec.IsWithin at (length table.old.items) }
    ensures { table.new.items ≡ spec.noted at number table.old.items }
{
    if let Some(at) = at {
        table[at as usize] = Some(number);
    }
}

// A table of so many places without a number.
fn nothing(alloc: Global, count: usize) -> Result<Vec<Option<u32>>, AllocError>
    ensures { IfOk result (λ table. table.items ≡ replicate count None) }
{
    vec![in alloc; None; count]
}

/// By the numbers of names, the number of the binding of the name.
pub(crate) fn numbers_of(
    alloc: Global,
    scopes: &Scopes,
    bindings: &[Binding],
) -> Result<Vec<Option<u32>>, AllocError>
    requires { length bindings.now < 2 ^ 32 }
    ensures { IfOk result (λ table. spec.AreNumbers scopes.now.texts bindings.now table.items) }
{
    let mut table = nothing(alloc, scopes.names_len())?;
    for (index, binding) in bindings.iter().enumerate() {
        let at = scopes.number_of(binding.name.as_slice());
        note(&mut table, at, index as u32);
    }
    Ok(table)
}

// Whether a binding is that of an `export default` without a name.
fn is_default(binding: &Binding) -> bool
    ensures { result ≡ bytes_eq binding.now.name default_binding }
{
    binding.name.as_slice() == b"__webpack_default".as_slice()
}

/// The number of the binding of an `export default` without a name.
pub(crate) fn default_number(bindings: &[Binding]) -> Option<u32>
    requires { length bindings.now < 2 ^ 32 }
    ensures { spec.IsNumber bindings.now default_binding result }
{
    for (index, binding) in bindings.iter().enumerate() {
        if is_default(binding) {
            return Some(index as u32);
        }
    }
    None
}
