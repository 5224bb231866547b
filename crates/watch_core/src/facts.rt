// The facts of a module that binds nothing.
ghost use Rattle.std.specs.Prelude.{◌≡◌, ◌<◌, ◌^◌, IfOk};
ghost use Rattle.std.specs.List.{range_with_len};
ghost use Rattle.pk_types.specs.Fitting.{AreFitting};
ghost use Rattle.watch_core.specs.Modules as spec;
ghost use Rattle.watch_core.specs.Visits.{IsModuleTextOf};

use bare_modules::ModuleText;
use pk_types::{Facts, Form, Request, Sequence, Text};
use std::alloc::{AllocError, Global};

// The numbers from 0 on.
fn first_numbers(alloc: Global, count: usize) -> Result<Sequence<u32>, AllocError>
    requires { count < 2 ^ 32 }
    ensures { IfOk result (λ numbers. numbers ≡ range_with_len 0 count) }
{
    let numbers = (0..count as u32).collect(alloc)?;
    Ok(Sequence::from_vec(numbers))
}

// The requests of import declarations.
fn imported(alloc: Global, texts: Sequence<Text>) -> Result<Sequence<Request>, AllocError>
    ensures { IfOk result (λ requests. requests ≡ spec.imported texts) }
{
    let requests = texts
        .into_vec()
        .into_iter()
        .map(|text| Request {
            text,
            form: Form::Import,
            json: false,
        })
        .collect(alloc)?;
    Ok(Sequence::from_vec(requests))
}

/// The facts of a module whose text says this, and its body.
pub fn into_facts(alloc: Global, said: ModuleText) -> Result<(Facts, Text), AllocError>
    requires { IsModuleTextOf said }
    ensures facts { IfOk result (λ parts. parts.0 ≡ spec.facts_of said) }
    ensures fitting { IfOk result (λ parts. AreFitting parts.0) }
    ensures body { IfOk result (λ parts. parts.1 ≡ said.body) }
{
    let ModuleText {
        kind,
        requests,
        body,
    } = said;
    let facts = Facts {
        kind,
        order: first_numbers(alloc, requests.len())?,
        requests: imported(alloc, requests)?,
        imports: Sequence::from_vec(Vec::new(alloc)),
        exports: Sequence::from_vec(Vec::new(alloc)),
        stars: Sequence::from_vec(Vec::new(alloc)),
        bindings: Sequence::from_vec(Vec::new(alloc)),
        sites: Sequence::from_vec(Vec::new(alloc)),
        free: Sequence::from_vec(Vec::new(alloc)),
        inner: Sequence::from_vec(Vec::new(alloc)),
    };
    Ok((facts, body))
}
