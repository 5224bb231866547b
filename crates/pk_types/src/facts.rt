ghost use Rattle.std.specs.Prelude.{◌≡◌};
ghost use Rattle.pk_types.specs.Fitting.{AreFitting};
ghost use Rattle.pk_types.specs.NoFacts.{no_facts};

use crate::form::Form;
use pk_text::{Sequence, Text};
use std::alloc::Global;

/// The name of a binding, an import or an export.
pub type Name = Text;

/// What a module is: of ECMAScript, of CommonJS, or JSON.
#[derive(Clone, Copy, Debug, PartialEq, Eq)]
pub enum Kind {
    Es,
    Cjs,
    Json,
}

/// What the name of a file says of its kind. At `Either` the text decides.
#[derive(Clone, Copy, Debug, PartialEq, Eq)]
pub enum NameKind {
    Module,
    Common,
    Either,
    Json,
}

/// What the bundler knows of a module's text. Each number that names a request, an import or a binding is a place in
/// the list of these.
#[derive(Debug, Drop)]
pub struct Facts {
    pub kind: Kind,
    /// In the order of their first places in the text.
    pub requests: Sequence<Request>,
    /// The requests of import and export-from declarations, in the order of their first such places.
    pub order: Sequence<u32>,
    pub imports: Sequence<ImportEntry>,
    pub exports: Sequence<ExportEntry>,
    /// The requests of `export * from`.
    pub stars: Sequence<u32>,
    /// What the module declares at its top, in the order of places.
    pub bindings: Sequence<Binding>,
    pub sites: Sequence<Site>,
    /// The names that it uses without declaring them, in byte order, each once.
    pub free: Sequence<Name>,
    /// The names that its inner scopes declare, in byte order, each once. The top is none of these, and neither is the scope
    /// that holds the name of a class declared at the top.
    pub inner: Sequence<Name>,
}

impl Facts {
    /// Facts without an item, as of a module of which the kind alone is known.
    pub fn none(alloc: Global, kind: Kind) -> Facts
        ensures empty { result ≡ no_facts kind }
        ensures fitting { AreFitting result }
    {
        Facts {
            kind,
            requests: Sequence::new(alloc),
            order: Sequence::new(alloc),
            imports: Sequence::new(alloc),
            exports: Sequence::new(alloc),
            stars: Sequence::new(alloc),
            bindings: Sequence::new(alloc),
            sites: Sequence::new(alloc),
            free: Sequence::new(alloc),
            inner: Sequence::new(alloc),
        }
    }
}

/// What a module asks for, and how.
#[derive(Debug, Drop)]
pub struct Request {
    pub text: Text,
    pub form: Form,
    /// Whether a declaration asks for JSON by it, `with { type: "json" }`.
    pub json: bool,
}

/// A name that is imported. Without a name it is the namespace.
#[derive(Debug, Drop)]
pub struct ImportEntry {
    pub request: u32,
    pub name: Option<Name>,
    /// The byte place at which its specifier in braces begins; outside braces that of the `*` of a namespace, or of the
    /// bound name.
    pub place: u32,
}

/// A name that is exported.
#[derive(Debug, Drop)]
pub struct ExportEntry {
    pub name: Name,
    pub origin: Origin,
    /// The byte place at which its specifier in braces begins; outside braces that of the `*` of a namespace, of the
    /// word `default`, or of the bound name.
    pub place: u32,
}

/// Where an exported value comes from.
#[derive(Debug, Drop)]
pub enum Origin {
    /// A binding of the module.
    Own(u32),

    /// A name of what a request leads to.
    Other(u32, Name),

    /// The namespace of what a request leads to.
    Space(u32),
}

/// A declaration at the top of a module. An `export default` without a name declares `__webpack_default`.
#[derive(Debug, Drop)]
pub struct Binding {
    pub name: Name,
    pub kind: BindKind,
}

#[derive(Clone, Copy, Debug, PartialEq, Eq)]
pub enum BindKind {
    Var,
    Let,
    Const,
    Class,
    Function,
}

/// A place of the text that is written anew, from `start` up to `end`, in bytes.
#[derive(Debug, Drop)]
pub struct Site {
    pub kind: SiteKind,
    pub start: u32,
    pub end: u32,
}

/// What stands at a site.
#[derive(Debug, Drop)]
pub enum SiteKind {
    /// The first value of a binding.
    Init(u32),

    Read(Ref),

    Write(Ref),

    /// A name of the namespace that a request leads to.
    Member(u32, Name),

    /// The namespace that a request leads to.
    Space(u32),

    /// `require` of a request.
    Require(u32),

    /// `import()` of a request.
    Import(u32),
}

/// What a name in the text stands for.
#[derive(Clone, Copy, Debug, PartialEq, Eq)]
pub enum Ref {
    /// A binding of the module.
    Own(u32),

    /// One of its imports.
    Imported(u32),
}
