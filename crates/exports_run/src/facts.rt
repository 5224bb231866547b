// The facts of a module, where a graph may hold them.
ghost use Rattle.std.specs.Prelude.{◌≡◌, ◌<◌, ◌^◌, ◌++◌, ◌∷◌, [], length, map, IfOk, IsTrue};
ghost use Rattle.std.specs.List.{All, IsDistinct, range_with_len};
ghost use Rattle.std.specs.Str.{bytes_eq};
ghost use Rattle.pk_types.specs.Fitting.{AreFitting};
ghost use Rattle.exports_run.specs.Exporting.{exporting, IsInPlace};

use crate::draft::Draft;
use crate::fault::Fault;
use indexmap::IndexSet;
use pk_base::Path;
use pk_types::{Binding, ExportEntry, Facts, Form, Kind, Origin, Request, Sequence, Text};
use std::alloc::{AllocError, Global};

// A list whose places 32 bits can number has fewer items.
const TOO_MANY: usize = 4_294_967_296;

// The facts of a module that only exports.
fn exporting(
    alloc: Global,
    kind: Kind,
    requests: Sequence<Request>,
    order: Sequence<u32>,
    exports: Sequence<ExportEntry>,
    stars: Sequence<u32>,
    bindings: Sequence<Binding>,
) -> Facts
    ensures { result ≡ exporting kind requests order exports stars bindings }
{
    Facts {
        kind,
        requests,
        order,
        imports: Sequence::from_vec(Vec::new(alloc)),
        exports,
        stars,
        bindings,
        sites: Sequence::from_vec(Vec::new(alloc)),
        free: Sequence::from_vec(Vec::new(alloc)),
        inner: Sequence::from_vec(Vec::new(alloc)),
    }
}

// So many requests.
#[tactic(auto, using(crate::proofs::Few::all_push))]
fn requests_of(alloc: Global, count: u32) -> Result<Vec<Request>, AllocError>
    ensures count { IfOk result (λ requests. length requests.items ≡ count) }
    ensures form { IfOk result (λ requests. All (λ request. request.form ≡ Form.Import) requests.items) }
{
    let mut requests = Vec::new(alloc);
    for _ in 0..count {
        requests.push(Request {
            text: Text::from_slice(alloc, b"")?,
            form: Form::Import,
            json: false,
        })?;
    }
    Ok(requests)
}

// The numbers below a count.
#[tactic(auto, using(crate::proofs::Few::range_more))]
fn first_numbers(alloc: Global, count: u32) -> Result<Vec<u32>, AllocError>
    ensures { IfOk result (λ numbers. numbers.items ≡ range_with_len 0 count) }
{
    let mut numbers = Vec::with_capacity(alloc, count as usize)?;
    for number in 0..count {
        numbers.push(number)?;
    }
    Ok(numbers)
}

// Puts a name behind those that were seen, unless it is one of them.
fn see(alloc: Global, seen: &mut IndexSet<Text>, name: &Text) -> Result<bool, AllocError>
    ensures keys { IfOk result (λ new. IsTrue new → seen.new.keys ≡ seen.old.keys ++ name.now ∷ []) }
    ensures distinct { IfOk result (λ _. IsDistinct bytes_eq seen.new.keys) }
{
    let name = Text::from_slice(alloc, name.as_slice())?;
    let (_, new) = seen.insert_full(name)?;
    Ok(new)
}

fn has_distinct_exports(alloc: Global, exports: &[ExportEntry]) -> Result<bool, AllocError>
    ensures { IfOk result (λ yes. IsTrue yes → IsDistinct bytes_eq (map (λ entry. entry.name) exports.now)) }
{
    let mut seen = IndexSet::new(alloc);
    for entry in exports {
        if !see(alloc, &mut seen, &entry.name)? {
            return Ok(false);
        }
    }
    Ok(true)
}

fn has_distinct_bindings(alloc: Global, bindings: &[Binding]) -> Result<bool, AllocError>
    ensures { IfOk result (λ yes. IsTrue yes → IsDistinct bytes_eq (map (λ binding. binding.name) bindings.now)) }
{
    let mut seen = IndexSet::new(alloc);
    for binding in bindings {
        if !see(alloc, &mut seen, &binding.name)? {
            return Ok(false);
        }
    }
    Ok(true)
}

// Whether the origin names a request below the count, or a binding below theirs.
fn is_in_place(origin: &Origin, requests: u32, bindings: usize) -> bool
    ensures { IsTrue result → IsInPlace requests bindings origin.now }
{
    match origin {
        Origin::Own(binding) => (*binding as usize) < bindings,
        Origin::Other(request, _) => *request < requests,
        Origin::Space(request) => *request < requests,
    }
}

fn has_places(exports: &[ExportEntry], requests: u32, bindings: usize) -> bool
    ensures { IsTrue result → All (λ entry. IsInPlace requests bindings entry.origin) exports.now }
{
    exports
        .iter()
        .all(|entry| is_in_place(&entry.origin, requests, bindings))
}

fn are_below(numbers: &[u32], count: u32) -> bool
    ensures { IsTrue result → All (λ number. number < count) numbers.now }
{
    numbers.iter().all(|number| *number < count)
}

// The facts of a module of ECMAScript with so many requests, where a graph may hold them.
fn checked(
    alloc: Global,
    count: u32,
    exports: Vec<ExportEntry>,
    stars: Vec<u32>,
    bindings: Vec<Binding>,
) -> Result<Facts, Fault>
    ensures fitting { IfOk result AreFitting }
    ensures requests { IfOk result (λ facts. length facts.requests ≡ count) }
{
    if exports.len() >= TOO_MANY || stars.len() >= TOO_MANY || bindings.len() >= TOO_MANY {
        return Err(Fault::TooMany);
    }
    if !has_distinct_exports(alloc, exports.as_slice())?
        || !has_distinct_bindings(alloc, bindings.as_slice())?
        || !has_places(exports.as_slice(), count, bindings.len())
        || !are_below(stars.as_slice(), count)
    {
        return Err(Fault::Unread);
    }
    let requests = Sequence::from_vec(requests_of(alloc, count)?);
    let order = Sequence::from_vec(first_numbers(alloc, count)?);
    let exports = Sequence::from_vec(exports);
    let stars = Sequence::from_vec(stars);
    let bindings = Sequence::from_vec(bindings);
    Ok(exporting(alloc, Kind::Es, requests, order, exports, stars, bindings))
}

// The facts of a module of ECMAScript, and what its requests lead to.
fn drafted(alloc: Global, draft: Draft) -> Result<(Facts, Vec<Path>), Fault>
    ensures fitting { IfOk result (λ both. AreFitting both.0) }
    ensures each { IfOk result (λ both. length both.1.items ≡ length both.0.requests) }
{
    let Draft {
        targets,
        exports,
        stars,
        bindings,
    } = draft;
    let Ok(count) = u32::try_from(targets.len()) else {
        return Err(Fault::TooMany);
    };
    let facts = checked(alloc, count, exports, stars, bindings)?;
    Ok((facts, targets))
}

/// The facts that a line says, and what the requests lead to.
pub fn facts_of(alloc: Global, line: &str) -> Result<(Facts, Vec<Path>), Fault>
    ensures fitting { IfOk result (λ both. AreFitting both.0) }
    ensures each { IfOk result (λ both. length both.1.items ≡ length both.0.requests) }
{
    match line {
        "C" => Ok((Facts::none(alloc, Kind::Cjs), Vec::new(alloc))),
        "J" => Ok((Facts::none(alloc, Kind::Json), Vec::new(alloc))),
        _ => match line.strip_prefix('E') {
            Some(words) => drafted(alloc, Draft::read(alloc, words)?),
            None => Err(Fault::Unread),
        },
    }
}
