ghost use Rattle.std.specs.Prelude.{◌≡◌, map, IfOk};
ghost use Rattle.pkg_exports.specs.Meanings.{meaning, is_active as active, list_outcome, object_outcome, with_meaning};

use crate::answer::{Table, Target};
use crate::text::{is, of_text};
use pk_types::Form;
use pkg_manifest::{Json, Member};
use std::alloc::{AllocError, Global};

/// What a value stands for as a target.
#[derive(Drop)]
pub(crate) enum Outcome {
    /// No condition of it holds, so that another one may be taken.
    Undefined,
    Excluded,
    Bad,
    Usable(Target),
}

fn is_active(condition: &[u8], form: Form) -> bool
    ensures { result ≡ active form condition.now }
{
    let of_form: &[u8] = match form {
        Form::Import => b"import",
        Form::Require => b"require",
    };
    is(condition, b"default")
        || is(condition, b"webpack")
        || is(condition, b"module")
        || is(condition, of_form)
}

#[cycle(meaning)]
pub(crate) fn meaning_of(
    alloc: Global,
    value: &Json,
    part: &[u8],
    form: Form,
    table: Table,
) -> Result<Outcome, AllocError>
    ensures { IfOk result (λ outcome. outcome ≡ meaning form table part.now value.now) }
{
    match value {
        Json::Null => Ok(Outcome::Excluded),
        Json::Bool(_) => Ok(Outcome::Bad),
        Json::Number => Ok(Outcome::Bad),
        Json::Text(text) => of_text(alloc, text.as_slice(), part, table),
        Json::List(items) => of_items(alloc, items.as_slice(), part, form, table),
        Json::Object(members) => of_members(alloc, members.as_slice(), part, form, table),
    }
}

#[cycle(meaning)]
fn of_items(
    alloc: Global,
    items: &[Json],
    part: &[u8],
    form: Form,
    table: Table,
) -> Result<Outcome, AllocError>
    ensures { IfOk result (λ outcome. outcome ≡ list_outcome (map (meaning form table part.now) items.now)) }
{
    if items.is_empty() {
        return Ok(Outcome::Excluded);
    }
    let mut last = Outcome::Undefined;
    for item in items {
        match meaning_of(alloc, item, part, form, table)? {
            Outcome::Undefined => {}
            Outcome::Excluded => last = Outcome::Excluded,
            Outcome::Bad => last = Outcome::Bad,
            Outcome::Usable(target) => return Ok(Outcome::Usable(target)),
        }
    }
    Ok(last)
}

#[cycle(meaning)]
fn of_members(
    alloc: Global,
    members: &[Member<Json>],
    part: &[u8],
    form: Form,
    table: Table,
) -> Result<Outcome, AllocError>
    ensures { IfOk result (λ outcome. outcome ≡ object_outcome form (map (with_meaning form table part.now) members.now)) }
{
    for member in members {
        if is_active(member.name.as_slice(), form) {
            match meaning_of(alloc, &member.value, part, form, table)? {
                Outcome::Undefined => {}
                outcome => return Ok(outcome),
            }
        }
    }
    Ok(Outcome::Undefined)
}
