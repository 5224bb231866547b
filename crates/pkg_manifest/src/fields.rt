ghost use Rattle.std.specs.Prelude.{◌≡◌, ◌≢◌, [], codes, IfOk, Err, Ok, OnErr};
ghost use Rattle.std.specs.Str.{bytes_eq};
ghost use Rattle.pkg_manifest.specs.Fields.{text_in, text_of, texts_of, object_in, is_text, side_effects_of, manifest_of};

use crate::package::{Manifest, SideEffects};
use crate::value::{Json, Member};
use pk_types::{Sequence, Text};
use std::alloc::{AllocError, Global};

/// The values of the fields that a manifest is made of.
#[derive(Drop)]
pub(crate) struct Fields {
    name: Option<Json>,
    main: Option<Json>,
    module: Option<Json>,
    kind: Option<Json>,
    exports: Option<Json>,
    imports: Option<Json>,
    side_effects: Option<Json>,
}

impl Fields {
    ghost use Rattle.pkg_manifest.specs.Named.{fields_of, with_member};

    fn none() -> Fields
        ensures { result ≡ fields_of [] }
    {
        Fields {
            name: None,
            main: None,
            module: None,
            kind: None,
            exports: None,
            imports: None,
            side_effects: None,
        }
    }

    /// Takes a member that stands before those that were taken.
    fn put(&mut self, member: Member<Json>)
        ensures { self.new ≡ with_member self.old member }
    {
        let Member { name, value } = member;
        if is(&name, b"name") {
            self.name = Some(value);
        } else if is(&name, b"main") {
            self.main = Some(value);
        } else if is(&name, b"module") {
            self.module = Some(value);
        } else if is(&name, b"type") {
            self.kind = Some(value);
        } else if is(&name, b"exports") {
            self.exports = Some(value);
        } else if is(&name, b"imports") {
            self.imports = Some(value);
        } else if is(&name, b"sideEffects") {
            self.side_effects = Some(value);
        }
    }

    fn of(members: Sequence<Member<Json>>) -> Fields
        ensures { result ≡ fields_of members }
    {
        let mut fields = Fields::none();
        let mut members = members.into_vec();
        while let Some(member) = members.pop() {
            fields.put(member);
        }
        fields
    }
}

pub(crate) fn from_members(
    alloc: Global,
    members: Sequence<Member<Json>>,
) -> Result<Manifest, AllocError>
    ensures { IfOk result (λ manifest. manifest ≡ manifest_of members) }
{
    let fields = Fields::of(members);
    let Fields {
        name,
        main,
        module,
        kind,
        exports,
        imports,
        side_effects,
    } = fields;
    Ok(Manifest {
        name: text(name),
        main: text(main),
        module: text(module),
        is_module: is_module(kind),
        exports,
        imports: object(imports),
        side_effects: listed(alloc, side_effects)?,
    })
}

fn is(text: &Text, word: &[u8]) -> bool
    ensures { result ≡ bytes_eq text.now word.now }
{
    text.as_slice() == word
}

fn text(value: Option<Json>) -> Option<Text>
    ensures { result ≡ text_in value }
{
    match value {
        Some(Json::Text(text)) => Some(text),
        _ => None,
    }
}

fn object(value: Option<Json>) -> Option<Json>
    ensures { result ≡ object_in value }
{
    match value {
        Some(Json::Object(members)) => Some(Json::Object(members)),
        _ => None,
    }
}

fn is_module(value: Option<Json>) -> bool
    ensures { result ≡ is_text (codes "module") (text_in value) }
{
    match text(value) {
        Some(text) => is(&text, b"module"),
        None => false,
    }
}

fn listed(alloc: Global, value: Option<Json>) -> Result<SideEffects, AllocError>
    ensures { IfOk result (λ effects. effects ≡ side_effects_of value) }
{
    match value {
        Some(Json::Bool(false)) => Ok(SideEffects::Free),
        Some(Json::Text(text)) => {
            let texts = Vec::from_array(alloc, [text])?;
            Ok(SideEffects::Listed(Sequence::from_vec(texts)))
        }
        Some(Json::List(items)) => match texts(alloc, items)? {
            Some(texts) => Ok(SideEffects::Listed(texts)),
            None => Ok(SideEffects::Unstated),
        },
        _ => Ok(SideEffects::Unstated),
    }
}

/// The items, where each is a text.
fn texts(alloc: Global, items: Sequence<Json>) -> Result<Option<Sequence<Text>>, AllocError>
    ensures { IfOk result (λ texts. texts ≡ texts_of items) }
{
    let items = items.into_vec();
    let mut texts = Vec::with_capacity(alloc, items.len())?;
    for item in items {
        match item {
            Json::Text(text) => texts.push(text)?,
            _ => return Ok(None),
        }
    }
    Ok(Some(Sequence::from_vec(texts)))
}
