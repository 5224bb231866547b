//! Facts and faults, printed.

use es_facts::{ModuleFault, Parsed};
use es_scope::{EarlyError, Refusal};
use pk_types::{
    BindKind, Binding, ExportEntry, Facts, Form, ImportEntry, Kind, Name, Origin, Ref, Request,
    Sequence, Site, SiteKind,
};
use std::io;

// Bytes as they are, each as a character.
fn show_bytes(rt: &impl Print, bytes: &[u8]) -> io::Result<()> {
    for byte in bytes {
        print!(rt; "{}", *byte as char)?;
    }
    Ok(())
}

fn show_name(rt: &impl Print, before: &str, name: &Name) -> io::Result<()> {
    print!(rt; "{before}")?;
    show_bytes(rt, name.as_slice())
}

fn show_requests(rt: &impl Print, requests: &[Request]) -> io::Result<()> {
    for request in requests {
        let word = match request.form {
            Form::Import => "import",
            Form::Require => "require",
        };
        print!(rt; "; {word}")?;
        if request.json {
            print!(rt; " json")?;
        }
        show_name(rt, " \"", &request.text)?;
        print!(rt; "\"")?;
    }
    Ok(())
}

fn show_numbers(rt: &impl Print, word: &str, numbers: &[u32]) -> io::Result<()> {
    if numbers.is_empty() {
        return Ok(());
    }
    print!(rt; "; {word}")?;
    for number in numbers {
        print!(rt; " {number}")?;
    }
    Ok(())
}

fn show_imports(rt: &impl Print, imports: &[ImportEntry]) -> io::Result<()> {
    for entry in imports {
        print!(rt; "; import {}", entry.request)?;
        match &entry.name {
            Some(name) => show_name(rt, ".", name)?,
            None => print!(rt; ".*")?,
        }
        print!(rt; " at {}", entry.place)?;
    }
    Ok(())
}

fn show_origin(rt: &impl Print, origin: &Origin) -> io::Result<()> {
    match origin {
        Origin::Own(binding) => print!(rt; " own {binding}"),
        Origin::Space(request) => print!(rt; " {request}.*"),
        Origin::Other(request, name) => {
            print!(rt; " {request}")?;
            show_name(rt, ".", name)
        }
    }
}

fn show_exports(rt: &impl Print, exports: &[ExportEntry]) -> io::Result<()> {
    for entry in exports {
        show_name(rt, "; export ", &entry.name)?;
        show_origin(rt, &entry.origin)?;
        print!(rt; " at {}", entry.place)?;
    }
    Ok(())
}

fn show_bindings(rt: &impl Print, bindings: &[Binding]) -> io::Result<()> {
    for binding in bindings {
        let word = match binding.kind {
            BindKind::Var => "; var ",
            BindKind::Let => "; let ",
            BindKind::Const => "; const ",
            BindKind::Class => "; class ",
            BindKind::Function => "; function ",
        };
        show_name(rt, word, &binding.name)?;
    }
    Ok(())
}

fn show_ref(rt: &impl Print, word: &str, to: Ref) -> io::Result<()> {
    match to {
        Ref::Own(binding) => print!(rt; "; {word} own {binding}"),
        Ref::Imported(import) => print!(rt; "; {word} import {import}"),
    }
}

fn show_sites(rt: &impl Print, sites: &[Site]) -> io::Result<()> {
    for site in sites {
        match &site.kind {
            SiteKind::Init(binding) => print!(rt; "; init {binding}")?,
            SiteKind::Read(to) => show_ref(rt, "read", *to)?,
            SiteKind::Write(to) => show_ref(rt, "write", *to)?,
            SiteKind::Member(request, name) => {
                print!(rt; "; member {request}")?;
                show_name(rt, ".", name)?;
            }
            SiteKind::Space(request) => print!(rt; "; space {request}")?,
            SiteKind::Require(request) => print!(rt; "; require {request}")?,
            SiteKind::Import(request) => print!(rt; "; call {request}")?,
        }
        print!(rt; " at {}-{}", site.start, site.end)?;
    }
    Ok(())
}

fn show_names(rt: &impl Print, word: &str, names: &[Name]) -> io::Result<()> {
    if names.is_empty() {
        return Ok(());
    }
    print!(rt; "; {word}")?;
    for name in names {
        show_name(rt, " ", name)?;
    }
    Ok(())
}

/// Prints the kind and then the lists of facts.
pub(crate) fn show_parsed(rt: &impl Print, parsed: &Parsed) -> io::Result<()> {
    let facts = &parsed.facts;
    let word = match facts.kind {
        Kind::Es => "es",
        Kind::Cjs => "cjs",
        Kind::Json => "json",
    };
    print!(rt; " {word}")?;
    show_requests(rt, facts.requests.as_slice())?;
    show_numbers(rt, "order", facts.order.as_slice())?;
    show_imports(rt, facts.imports.as_slice())?;
    show_exports(rt, facts.exports.as_slice())?;
    show_numbers(rt, "stars", facts.stars.as_slice())?;
    show_bindings(rt, facts.bindings.as_slice())?;
    show_sites(rt, facts.sites.as_slice())?;
    show_names(rt, "free", facts.free.as_slice())?;
    show_names(rt, "inner", facts.inner.as_slice())?;
    println!(rt;)
}

fn word_of_error(error: EarlyError) -> &'static str {
    match error {
        EarlyError::DeclaredTwice => "declared twice",
        EarlyError::ExportedTwice => "exported twice",
        EarlyError::ExportsUndeclared => "exports undeclared",
    }
}

fn word_of_refusal(refusal: Refusal) -> &'static str {
    match refusal {
        Refusal::TopLevelAwait => "top-level await",
        Refusal::ComputedImport => "computed import",
        Refusal::ComputedRequire => "computed require",
        Refusal::Eval => "eval",
        Refusal::ImportMeta => "import.meta",
        Refusal::With => "with",
        Refusal::RequireInModule => "require in a module",
        Refusal::RequireMember => "require member",
        Refusal::ModuleHot => "module.hot",
        Refusal::ReservedName => "reserved name",
        Refusal::ImportAttribute => "import attribute",
    }
}

/// Prints a fault, with the byte where it stands.
pub(crate) fn show_fault(rt: &impl Print, fault: ModuleFault) -> io::Result<()> {
    match fault {
        ModuleFault::NotUtf8 => println!(rt; " not UTF-8"),
        ModuleFault::Syntax => println!(rt; " syntax"),
        ModuleFault::Early(error, place, name) => {
            print!(rt; " {}", word_of_error(error))?;
            show_name(rt, " ", &name)?;
            println!(rt; " at {place}")
        }
        ModuleFault::Refused(refusal, place) => {
            println!(rt; " {} at {place}", word_of_refusal(refusal))
        }
        ModuleFault::BadJson => println!(rt; " bad JSON"),
        ModuleFault::NoMemory => println!(rt; " no memory"),
    }
}
