use crate::bytes::{put_bytes, read_bytes};
use crate::show::{put_fault, put_field, put_manifest};
use pk_types::Form;
use pkg_exports::{Table, Target, TargetFault, target};
use pkg_manifest::{Manifest, ManifestFault};
use std::alloc::{AllocError, Global};

/// What a line says: its first word is the kind, and TABs stand between the words.
#[derive(Clone, Copy)]
pub(crate) enum Question<'a> {
    /// `manifest TEXT`: the lines that follow ask about it.
    Manifest(&'a str),
    /// `exports FORM KEY` and `imports FORM KEY`
    Target(Table, Form, &'a str),
    /// `flagged PATH`
    Flagged(&'a str),
    /// `value`: what `exports` is.
    Value,
    /// `fields`
    Fields,
}

fn form_of(word: &str) -> Option<Form> {
    match word {
        "import" => Some(Form::Import),
        "require" => Some(Form::Require),
        _ => None,
    }
}

impl<'a> Question<'a> {
    pub(crate) fn read(line: &'a str) -> Option<Question<'a>> {
        let mut words = line.split('\t');
        match words.next()? {
            "manifest" => Some(Question::Manifest(words.next()?)),
            "exports" => {
                let form = form_of(words.next()?)?;
                Some(Question::Target(Table::Exports, form, words.next()?))
            }
            "imports" => {
                let form = form_of(words.next()?)?;
                Some(Question::Target(Table::Imports, form, words.next()?))
            }
            "flagged" => Some(Question::Flagged(words.next()?)),
            "value" => Some(Question::Value),
            "fields" => Some(Question::Fields),
            _ => None,
        }
    }
}

fn put_target(
    alloc: Global,
    out: &mut Vec<u8>,
    found: &Manifest,
    table: Table,
    form: Form,
    key: &[u8],
) -> Result<(), AllocError> {
    let map = match table {
        Table::Exports => &found.exports,
        Table::Imports => &found.imports,
    };
    let Some(map) = map else {
        return out.extend_from_slice(b"no map");
    };
    match target(alloc, map, key, form, table) {
        Ok(Target::File(file)) => {
            out.extend_from_slice(b"file ")?;
            put_bytes(out, file.as_slice())
        }
        Ok(Target::Bare(request)) => {
            out.extend_from_slice(b"bare ")?;
            put_bytes(out, request.as_slice())
        }
        Err(TargetFault::NotExported) => out.extend_from_slice(b"not exported"),
        Err(TargetFault::BadTarget) => out.extend_from_slice(b"bad target"),
        Err(TargetFault::BadMap) => out.extend_from_slice(b"bad map"),
        Err(TargetFault::NoMemory) => out.extend_from_slice(b"no memory"),
    }
}

/// Writes the answer to a question about a manifest.
pub(crate) fn put_answer(
    alloc: Global,
    out: &mut Vec<u8>,
    found: &Result<Manifest, ManifestFault>,
    question: &Question<'_>,
) -> Result<(), AllocError> {
    let found = match found {
        Ok(found) => found,
        Err(fault) => return put_fault(out, *fault),
    };
    match question {
        Question::Manifest(_) => Ok(()),
        Question::Target(table, form, key) => {
            let key = read_bytes(alloc, key)?;
            put_target(alloc, out, found, *table, *form, key.as_slice())
        }
        Question::Flagged(path) => {
            let path = read_bytes(alloc, path)?;
            let flagged = found.flagged(path.as_slice());
            out.extend_from_slice(if flagged {
                b"flagged".as_slice()
            } else {
                b"kept".as_slice()
            })
        }
        Question::Value => put_field(out, &found.exports),
        Question::Fields => put_manifest(out, found),
    }
}
