//! The requests of a text.
ghost use Rattle.std.specs.Prelude.{◌≡◌, ◌<◌, ◌^◌, ◌+◌, [], List, length, slice_get, IfOk, OnOk};
ghost use Rattle.es_tree.specs.declared.tokens.ProgramGoal.TheVariants.{Script};
ghost use Rattle.pk_types.specs.declared.facts.Request.{Request as RequestValue};
ghost use Rattle.es_scope.specs.FactsOf.{IsOrdered};
ghost use Rattle.es_scope.specs.Listed.{AreThose};
ghost use Rattle.es_scope.specs.Telling.{AreScopes};
ghost use Rattle.es_asks.specs.Asked.{Passes, asked_for};
ghost use Rattle.es_asks.specs.Forwarding.{AreForwarded};
ghost use Rattle.es_asks.specs.Numbering as spec;
ghost use Rattle.es_asks.specs.Passing as passing;
ghost use Rattle.es_asks.specs.Requested.{AreKeyed, Takes};

use crate::asking::{Asking, asked_at, is_request};
use crate::forwarded::{Forwarded, note};
use crate::requests::Requests;
use es_scope::{Outlined, Scopes};
use es_tree::ProgramGoal;
use indexmap::IndexSet;
use pk_text::Sequence;
use pk_types::Request;
use std::alloc::{AllocError, Global};

/// The requests of a text; of each place the number of the request that it asks for, if it does; and the requests of
/// declarations, in the order of their first ones.
#[derive(Drop)]
pub struct Asked {
    pub requests: Sequence<Request>,
    pub numbers: Vec<Option<u32>>,
    pub order: Sequence<u32>,
}

// The names of a text that are those of another module, where calls of `require` ask.
fn forwarded_in_script(alloc: Global, outlined: &Outlined<'_>) -> Result<Forwarded, AllocError>
    requires { length outlined.now.marks + 2 < 2 ^ 32 }
    ensures { IfOk result (λ forwarded.
        outlined.now.goal ≡ Script → AreForwarded outlined.now forwarded) }
{
    match outlined.goal() {
        ProgramGoal::Script => Forwarded::of_text(alloc, outlined),
        ProgramGoal::Module => Ok(Forwarded::none(alloc)),
    }
}

// The number of what is asked for.
fn take(
    requests: &mut Requests,
    alloc: Global,
    outlined: &Outlined<'_>,
    asking: Asking,
) -> Result<u32, AllocError>
    requires keyed { AreKeyed requests.old.numbers.entries requests.old.items.items }
    requires short { length requests.old.items.items < 2 ^ 32 }
    ensures takes { IfOk result
        (Takes requests.old.items.items requests.new.items.items (asked_for outlined.now asking)) }
    ensures keyed { OnOk result (AreKeyed requests.new.numbers.entries requests.new.items.items) }
{
    let spelling = outlined.spelled_at(asking.text as usize);
    if es_strings::is_plain(spelling) {
        let number = requests.number(alloc, es_strings::within(spelling), asking.how)?;
        Ok(number)
    } else {
        let text = es_strings::value(alloc, spelling)?;
        let number = requests.number(alloc, text.as_slice(), asking.how)?;
        Ok(number)
    }
}

// The number of the request that a place asks for.
fn number_at(
    requests: &mut Requests,
    alloc: Global,
    outlined: &Outlined<'_>,
    scopes: &Scopes,
    forwarded: &Forwarded,
    place: u32,
) -> Result<Option<u32>, AllocError>
    requires short { length outlined.now.marks + 2 < 2 ^ 32 }
    requires within { place < length outlined.now.marks }
    requires scopes { AreScopes outlined.now scopes.now }
    requires forwarded { outlined.now.goal ≡ Script → AreForwarded outlined.now forwarded.now }
    requires keyed { AreKeyed requests.old.numbers.entries requests.old.items.items }
    requires few { length requests.old.items.items < 2 ^ 32 }
    ensures passes { IfOk result
        (Passes outlined.now place requests.old.items.items requests.new.items.items) }
    ensures keyed { OnOk result (AreKeyed requests.new.numbers.entries requests.new.items.items) }
{
    match asked_at(alloc, outlined, scopes, forwarded, place)? {
        Some(asking) => {
            let number = take(requests, alloc, outlined, asking)?;
            Ok(Some(number))
        }
        None => Ok(None),
    }
}

// The number of the request of a declaration that stands at a place.
fn order_at(outlined: &Outlined<'_>, numbers: &[Option<u32>], place: u32) -> Option<u32>
    ensures { result ≡ passing.order_at outlined.now numbers.now place }
{
    if is_request(outlined, place) {
        *numbers.get(place as usize)?
    } else {
        None
    }
}

// The requests of declarations, in the order of their first ones.
fn ordered(
    alloc: Global,
    outlined: &Outlined<'_>,
    numbers: &[Option<u32>],
) -> Result<Sequence<u32>, AllocError>
    requires { length outlined.now.marks + 2 < 2 ^ 32 }
    ensures { IfOk result (λ order. (requests : List RequestValue)
        → passing.AsksOnce outlined.now
        → passing.AreAskedTo outlined.now (length outlined.now.marks) requests numbers.now
        → AreThose (IsOrdered outlined.now requests) order) }
{
    let mut order = IndexSet::new(alloc);
    for place in 0..outlined.marks().len() {
        note(&mut order, order_at(outlined, numbers, place as u32))?;
    }
    let items = Vec::from_slice(alloc, order.as_slice())?;
    Ok(Sequence::from_vec(items))
}

// Of each place the number of the request that it asks for.
fn numbered(
    requests: &mut Requests,
    alloc: Global,
    outlined: &Outlined<'_>,
    scopes: &Scopes,
    forwarded: &Forwarded,
) -> Result<Vec<Option<u32>>, AllocError>
    requires short { length outlined.now.marks + 2 < 2 ^ 32 }
    requires scopes { AreScopes outlined.now scopes.now }
    requires forwarded { outlined.now.goal ≡ Script → AreForwarded outlined.now forwarded.now }
    requires keyed { AreKeyed requests.old.numbers.entries requests.old.items.items }
    requires none { requests.old.items.items ≡ [] }
    ensures { IfOk result (λ numbers.
        passing.AreAskedTo
        outlined.now (length outlined.now.marks) requests.new.items.items numbers.items) }
{
    let mut numbers = Vec::with_capacity(alloc, outlined.marks().len())?;
    for place in 0..outlined.marks().len() {
        let number = number_at(requests, alloc, outlined, scopes, forwarded, place as u32)?;
        numbers.push(number)?;
    }
    Ok(numbers)
}

impl Asked {
    /// What a text asks for.
    pub fn new(alloc: Global, outlined: &Outlined<'_>, scopes: &Scopes) -> Result<Asked, AllocError>
        requires short { length outlined.now.marks + 2 < 2 ^ 32 }
        requires scopes { AreScopes outlined.now scopes.now }
        ensures { IfOk result (spec.AreAsked outlined.now) }
    {
        let forwarded = forwarded_in_script(alloc, outlined)?;
        let mut requests = Requests::new(alloc);
        let numbers = numbered(&mut requests, alloc, outlined, scopes, &forwarded)?;
        let order = ordered(alloc, outlined, numbers.as_slice())?;
        Ok(Asked {
            requests: Sequence::from_vec(requests.items),
            numbers,
            order,
        })
    }
}
