ghost use Rattle.std.specs.Prelude.{◌≡◌, ◌≢◌, ◌⊎◌, ◌↔◌, Err, true, Result};
ghost use Rattle.pkg_exports.specs.declared.answer.Target.{Target as Found};
ghost use Rattle.pkg_exports.specs.declared.answer.TargetFault.{TargetFault as Fault};
ghost use Rattle.pkg_exports.specs.Answers.{Answers, answer_of, is_mixed};
ghost use Rattle.pkg_exports.specs.Shapes.{IsShape, has_names};

use crate::answer::{Table, Target, TargetFault};
use crate::key::deciding;
use crate::meaning::{Outcome, meaning_of};
use crate::text::is;
use pk_types::Form;
use pkg_manifest::{Json, Member};
use std::alloc::Global;

/// The entries of a map.
#[derive(Clone, Copy)]
enum Shape<'a> {
    Mixed,
    Nothing,
    /// The map is itself the entry for `.`.
    Sole,
    Entries(&'a [Member<Json>]),
}

/// Whether some name begins with `.`, or else whether some does not.
fn has_name(members: &[Member<Json>], dotted: bool) -> bool
    ensures { result ≡ has_names dotted members.now }
{
    let mut members = members;
    while let [member, rest @ ..] = members {
        if member.name.as_slice().starts_with(b".") == dotted {
            return true;
        }
        members = rest;
    }
    false
}

fn exported(map: &Json) -> Shape<'_>
    ensures { IsShape Table.Exports map.now result }
{
    match map {
        Json::Null | Json::Bool(_) | Json::Number => Shape::Nothing,
        Json::Text(_) | Json::List(_) => Shape::Sole,
        Json::Object(members) => {
            let members = members.as_slice();
            if !has_name(members, true) {
                Shape::Sole
            } else if has_name(members, false) {
                Shape::Mixed
            } else {
                Shape::Entries(members)
            }
        }
    }
}

fn imported(map: &Json) -> Shape<'_>
    ensures { IsShape Table.Imports map.now result }
{
    match map {
        Json::Object(members) => Shape::Entries(members.as_slice()),
        _ => Shape::Nothing,
    }
}

fn shape_of(map: &Json, table: Table) -> Shape<'_>
    ensures { IsShape table map.now result }
{
    match table {
        Table::Exports => exported(map),
        Table::Imports => imported(map),
    }
}

fn answer(outcome: Outcome) -> Result<Target, TargetFault>
    ensures { result ≡ answer_of outcome }
{
    match outcome {
        Outcome::Undefined => Err(TargetFault::NotExported),
        Outcome::Excluded => Err(TargetFault::NotExported),
        Outcome::Bad => Err(TargetFault::BadTarget),
        Outcome::Usable(target) => Ok(target),
    }
}

/// What the key stands for in a manifest's `exports` or `imports`, as `map` is. The key is `.`, `./`
/// and the rest of a request, or `#` and a name. The active conditions are `webpack`, `module` and
/// `import` or `require`, by the form.
pub fn target(
    alloc: Global,
    map: &Json,
    key: &[u8],
    form: Form,
    table: Table,
) -> Result<Target, TargetFault>
    ensures answers { result ≢ Err TargetFault.NoMemory → Answers form table map.now key.now result }
    ensures only { (a : Result Found Fault) → Answers form table map.now key.now a → (result ≡ a) ⊎ (result ≡ Err TargetFault.NoMemory) }
    ensures mixed { (is_mixed table map.now ≡ true) ↔ (result ≡ Err TargetFault.BadMap) }
{
    match shape_of(map, table) {
        Shape::Mixed => Err(TargetFault::BadMap),
        Shape::Nothing => Err(TargetFault::NotExported),
        Shape::Sole => {
            if !is(key, b".") {
                return Err(TargetFault::NotExported);
            }
            answer(meaning_of(alloc, map, b"*", form, table)?)
        }
        Shape::Entries(entries) => match deciding(entries, key) {
            None => Err(TargetFault::NotExported),
            Some(fit) => answer(meaning_of(
                alloc,
                &entries[fit.place].value,
                fit.part,
                form,
                table,
            )?),
        },
    }
}
