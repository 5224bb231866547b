//! The first construct of a text that is not bundled.
//!
//! The marks are gone through once. At each token that some construct begins with, the marks near it and some tables tell
//! whether it is one: tables of what names refer to, of the parts around places, of what binds, and of the names that are
//! exported from another module. Of the reasons of one place any may be given, here the first that is met.
ghost use Rattle.std.specs.Prelude.{◌≡◌, ◌<◌, ◌^◌, ◌+◌, Some, None, is_some, true, length, slice_get, IfOk};
ghost use Rattle.std.specs.Str.{bytes_eq};
ghost use Rattle.es_tree.specs.Names.{name_of};
ghost use Rattle.es_tree.specs.declared.tokens.ProgramGoal.TheVariants.{Script};
ghost use Rattle.es_scope.specs.Frames.{declared_at};
ghost use Rattle.es_scope.specs.Named as named;
ghost use Rattle.es_scope.specs.Source as source;
ghost use Rattle.es_scope.specs.Telling.{AreScopes};
ghost use Rattle.es_parts.specs.Around.{AreAround};
ghost use Rattle.es_parts.specs.Binding.{AreBinders};
ghost use Rattle.es_refusals.specs.First as first;
ghost use Rattle.es_refusals.specs.Refusing as spec;

use crate::around::{goes_on_as_member, is_called, is_dot, is_typeof, mark_at};
use es_asks::{Forwarded, asks_for_json, has_no_pair, import_end, is_free, name_at, require_end};
use es_names::{is_plain, name};
use es_outline::{Mark, Role};
use es_parts::{Binders, Enclosing, declared};
use es_scope::{Outlined, Refusal, Scopes};
use es_tree::ProgramGoal;
use std::alloc::{AllocError, Global};

// Whether a name begins like those that bundles use.
fn is_reserved(name: &[u8]) -> bool
    ensures { result ≡ spec.is_reserved name.now }
{
    name.starts_with(b"__webpack_".as_slice())
}

// Whether a spelling spells a name that begins so.
fn spells_reserved(alloc: Global, spelling: &[u8]) -> Result<bool, AllocError>
    ensures { IfOk result (λ is. is ≡ spec.is_reserved (name_of spelling.now)) }
{
    if is_plain(spelling) {
        return Ok(is_reserved(spelling));
    }
    let decoded = name(alloc, spelling)?;
    Ok(is_reserved(decoded.as_slice()))
}

// Whether a spelling spells this name.
fn spells_name(alloc: Global, spelling: &[u8], word: &[u8]) -> Result<bool, AllocError>
    ensures { IfOk result (λ is. is ≡ bytes_eq (name_of spelling.now) word.now) }
{
    if is_plain(spelling) {
        return Ok(spelling == word);
    }
    let decoded = name(alloc, spelling)?;
    Ok(decoded.as_slice() == word)
}

// Whether the name at a place is declared there.
fn is_declared(outlined: &Outlined<'_>, binders: &Binders, place: u32) -> bool
    requires binders { AreBinders outlined.now.marks binders.now }
    requires place { place < length outlined.now.marks }
    ensures { result ≡ is_some (declared_at outlined.now place) }
{
    declared(outlined, binders, place).is_some()
}

// Whether a name of this module stands at a place.
fn occurs(outlined: &Outlined<'_>, binders: &Binders, forwarded: &Forwarded, place: u32) -> bool
    requires binders { AreBinders outlined.now.marks binders.now }
    requires place { place < length outlined.now.marks }
    ensures { result ≡ spec.occurs outlined.now forwarded.now place }
{
    match mark_at(outlined, place as usize) {
        Some(Mark::Token(Role::Reference, _)) => true,
        Some(Mark::Token(Role::Exported, _)) => !forwarded.has(place),
        _ => is_declared(outlined, binders, place),
    }
}

// What is not bundled at an `await`.
fn await_refusal(enclosing: &Enclosing, place: u32) -> Option<Refusal>
    requires { place < length enclosing.now }
    ensures { result ≡ spec.await_by (slice_get enclosing.now place) }
{
    if enclosing.around(place).in_function {
        None
    } else {
        Some(Refusal::TopLevelAwait)
    }
}

// What is not bundled at an `import()`.
fn import_refusal(outlined: &Outlined<'_>, place: u32) -> Option<Refusal>
    requires short { length outlined.now.marks + 2 < 2 ^ 32 }
    requires place { place < length outlined.now.marks }
    ensures { result ≡ spec.import_refusal outlined.now place }
{
    if import_end(outlined, place).is_some() {
        None
    } else {
        Some(Refusal::ComputedImport)
    }
}

// What is not bundled at a label.
fn label_refusal(
    alloc: Global,
    outlined: &Outlined<'_>,
    place: u32,
) -> Result<Option<Refusal>, AllocError>
    ensures { IfOk result (λ refusal. refusal ≡ spec.label_refusal outlined.now place) }
{
    if spells_reserved(alloc, outlined.spelled_at(place as usize))? {
        Ok(Some(Refusal::ReservedName))
    } else {
        Ok(None)
    }
}

// What is not bundled at the `with` of import attributes: any but none, or the pair for JSON.
fn attribute_refusal(
    alloc: Global,
    outlined: &Outlined<'_>,
    place: u32,
) -> Result<Option<Refusal>, AllocError>
    ensures { IfOk result (λ refusal. refusal ≡ spec.attribute_refusal outlined.now place) }
{
    if place == 0 {
        return Ok(None);
    }
    let request = place - 1;
    if has_no_pair(outlined, request) {
        return Ok(None);
    }
    if asks_for_json(alloc, outlined, request)? {
        Ok(None)
    } else {
        Ok(Some(Refusal::ImportAttribute))
    }
}

// What is not bundled at a free `require` of a script.
fn require_in_script(
    outlined: &Outlined<'_>,
    scopes: &Scopes,
    forwarded: &Forwarded,
    place: u32,
) -> Option<Refusal>
    requires short { length outlined.now.marks + 2 < 2 ^ 32 }
    requires place { place < length outlined.now.marks }
    requires scopes { AreScopes outlined.now scopes.now }
    ensures { result ≡ spec.require_by outlined.now scopes.now forwarded.now place Script }
{
    if goes_on_as_member(outlined, place as usize + 1) {
        return Some(Refusal::RequireMember);
    }
    if is_typeof(outlined, place) || require_end(outlined, scopes, forwarded, place).is_some() {
        None
    } else {
        Some(Refusal::ComputedRequire)
    }
}

// What is not bundled at a free `require`.
fn require_refusal(
    outlined: &Outlined<'_>,
    scopes: &Scopes,
    forwarded: &Forwarded,
    place: u32,
) -> Option<Refusal>
    requires short { length outlined.now.marks + 2 < 2 ^ 32 }
    requires place { place < length outlined.now.marks }
    requires scopes { AreScopes outlined.now scopes.now }
    ensures { result
        ≡ spec.require_by outlined.now scopes.now forwarded.now place outlined.now.goal }
{
    match outlined.goal() {
        ProgramGoal::Script => require_in_script(outlined, scopes, forwarded, place),
        ProgramGoal::Module if is_typeof(outlined, place) => None,
        ProgramGoal::Module => Some(Refusal::RequireInModule),
    }
}

// What is not bundled at a free `eval`.
fn eval_refusal(outlined: &Outlined<'_>, place: u32) -> Option<Refusal>
    ensures { result ≡ spec.eval_refusal outlined.now place }
{
    if is_called(outlined, place) {
        Some(Refusal::Eval)
    } else {
        None
    }
}

// Whether `.hot` goes on behind a place.
fn is_hot(alloc: Global, outlined: &Outlined<'_>, place: u32) -> Result<bool, AllocError>
    ensures { IfOk result (λ is. is ≡ spec.is_hot outlined.now place) }
{
    if !is_dot(mark_at(outlined, place as usize + 1)) {
        return Ok(false);
    }
    spells_name(alloc, outlined.spelled_at(place as usize + 2), b"hot")
}

// What is not bundled at a free `module`.
fn module_refusal(
    alloc: Global,
    outlined: &Outlined<'_>,
    place: u32,
) -> Result<Option<Refusal>, AllocError>
    ensures { IfOk result (λ refusal. refusal ≡ spec.module_refusal outlined.now place) }
{
    if is_hot(alloc, outlined, place)? {
        Ok(Some(Refusal::ModuleHot))
    } else {
        Ok(None)
    }
}

// What is not bundled at a free name.
fn free_refusal(
    alloc: Global,
    outlined: &Outlined<'_>,
    scopes: &Scopes,
    forwarded: &Forwarded,
    place: u32,
    name: &[u8],
) -> Result<Option<Refusal>, AllocError>
    requires short { length outlined.now.marks + 2 < 2 ^ 32 }
    requires place { place < length outlined.now.marks }
    requires scopes { AreScopes outlined.now scopes.now }
    ensures { IfOk result (λ refusal. refusal
        ≡ spec.free_refusal outlined.now scopes.now forwarded.now place name.now) }
{
    if name == b"require".as_slice() {
        Ok(require_refusal(outlined, scopes, forwarded, place))
    } else if name == b"eval".as_slice() {
        Ok(eval_refusal(outlined, place))
    } else if name == b"module".as_slice() {
        module_refusal(alloc, outlined, place)
    } else {
        Ok(None)
    }
}

// What is not bundled at a name.
fn name_refusal(
    alloc: Global,
    outlined: &Outlined<'_>,
    scopes: &Scopes,
    binders: &Binders,
    forwarded: &Forwarded,
    place: u32,
) -> Result<Option<Refusal>, AllocError>
    requires short { length outlined.now.marks + 2 < 2 ^ 32 }
    requires place { place < length outlined.now.marks }
    requires named { named.names_it (slice_get outlined.now.marks place) ≡ true }
    requires scopes { AreScopes outlined.now scopes.now }
    requires binders { AreBinders outlined.now.marks binders.now }
    ensures { IfOk result (λ refusal. refusal
        ≡ spec.name_refusal outlined.now scopes.now forwarded.now place) }
{
    let name = name_at(outlined, scopes, place);
    if is_reserved(name) && occurs(outlined, binders, forwarded, place) {
        return Ok(Some(Refusal::ReservedName));
    }
    if is_free(outlined, scopes, forwarded, place) {
        free_refusal(alloc, outlined, scopes, forwarded, place, name)
    } else {
        Ok(None)
    }
}

// What is not bundled at a token that is no such name.
fn other_refusal(
    alloc: Global,
    outlined: &Outlined<'_>,
    enclosing: &Enclosing,
    place: u32,
    role: Role,
) -> Result<Option<Refusal>, AllocError>
    requires short { length outlined.now.marks + 2 < 2 ^ 32 }
    requires place { place < length outlined.now.marks }
    requires around { length enclosing.now ≡ length outlined.now.marks }
    ensures { IfOk result (λ refusal. refusal
        ≡ spec.other_refusal outlined.now enclosing.now place role) }
{
    match role {
        Role::Await => Ok(await_refusal(enclosing, place)),
        Role::ImportCall => Ok(import_refusal(outlined, place)),
        Role::ImportMeta => Ok(Some(Refusal::ImportMeta)),
        Role::With => Ok(Some(Refusal::With)),
        Role::Label => label_refusal(alloc, outlined, place),
        Role::Attributes => attribute_refusal(alloc, outlined, place),
        _ => Ok(None),
    }
}

// Whether tokens of a role are names that scopes tell of.
fn is_naming(role: Role) -> bool
    ensures { result ≡ named.is_naming role }
{
    matches!(
        role,
        Role::Reference
            | Role::Bound
            | Role::FunctionName
            | Role::ClassName
            | Role::Imported
            | Role::ImportedDefault
            | Role::ImportedSpace
            | Role::Exported
    )
}

// What is known of a text: what its names refer to, what is around its places, what binds there, and which names are those of
// another module.
#[derive(Drop)]
struct Tables<'a> {
    scopes: &'a Scopes,
    enclosing: &'a Enclosing,
    binders: &'a Binders,
    forwarded: &'a Forwarded,
}

// What is not bundled at a mark.
fn refusal_at(
    alloc: Global,
    outlined: &Outlined<'_>,
    tables: &Tables<'_>,
    mark: Mark,
    place: u32,
) -> Result<Option<Refusal>, AllocError>
    requires short { length outlined.now.marks + 2 < 2 ^ 32 }
    requires mark { slice_get outlined.now.marks place ≡ Some mark }
    requires scopes { AreScopes outlined.now tables.now.scopes.now }
    requires around { length tables.now.enclosing.now ≡ length outlined.now.marks }
    requires binders { AreBinders outlined.now.marks tables.now.binders.now }
    ensures { IfOk result (λ refusal. refusal ≡ spec.refusal_at outlined.now
        tables.now.scopes.now tables.now.enclosing.now tables.now.forwarded.now place) }
{
    let Mark::Token(role, _) = mark else {
        return Ok(None);
    };
    if is_naming(role) {
        let (scopes, binders, forwarded) = (tables.scopes, tables.binders, tables.forwarded);
        name_refusal(alloc, outlined, scopes, binders, forwarded, place)
    } else {
        other_refusal(alloc, outlined, tables.enclosing, place, role)
    }
}

/// The first construct of a text that is not bundled, and its place among the marks.
pub fn first_refused(
    alloc: Global,
    outlined: &Outlined<'_>,
    scopes: &Scopes,
    enclosing: &Enclosing,
) -> Result<Option<(u32, Refusal)>, AllocError>
    requires short { length outlined.now.marks + 2 < 2 ^ 32 }
    requires scopes { AreScopes outlined.now scopes.now }
    requires enclosing { AreAround outlined.now.marks enclosing.now }
    ensures { IfOk result (first.IsFirst outlined.now) }
{
    let binders = Binders::new(alloc, outlined.marks())?;
    let forwarded = Forwarded::new(alloc, outlined, enclosing)?;
    let tables = Tables {
        scopes,
        enclosing,
        binders: &binders,
        forwarded: &forwarded,
    };
    for (index, mark) in outlined.marks().iter().enumerate() {
        let place = index as u32;
        if let Some(refusal) = refusal_at(alloc, outlined, &tables, *mark, place)? {
            return Ok(Some((place, refusal)));
        }
    }
    Ok(None)
}
