ghost use Rattle.std.specs.Prelude.{◌≡◌, ◌<◌, ℕ, Some, length, slice_get, slice_index, codes, if◌then◌else◌, if◌then◌else◌, IfOk};
ghost use Rattle.pk_types.specs.declared.facts.Kind.TheVariants.{Json};
ghost use Rattle.pk_types.specs.declared.graph.Row.{Row};
ghost use Rattle.pk_types.specs.Fitting.{RowFits};
ghost use Rattle.pk_types.specs.Resolving.{kind_at, Resolves};
ghost use Rattle.module_spelling.specs.Layout.{Layout, LayoutFits, FoundFits, root_of, id_of, names_of, name_of};
ghost use Rattle.module_spelling.specs.Spelled.{binding_text, called, default_head, found_text, foreign_text};

use crate::texts::{call_text, is_default, member_text};
use export_names::Resolver;
use pk_types::{Found, Graph, Kind, Name, Row, Sequence, Text};
use std::alloc::{AllocError, Global};
use std::marker::Model;

/// How the modules of a graph are spelled in a bundle: the sets by their roots, the names of the bindings, and the ids.
#[derive(Drop)]
pub struct Speller<'a> {
    resolver: Resolver<'a>,
    roots: &'a [u32],
    names: &'a [Sequence<Name>],
    ids: &'a [u32],
}

impl<'a> Model for Speller<'a> {
    ghost use Rattle.module_spelling.specs.Layout.{Layout, LayoutFits};

    ghost Value = { Layout };

    ghost view = { λ speller. record { graph = speller.resolver; roots = speller.roots.now; names = speller.names.now; ids = speller.ids.now } };

    ghost invariant = { λ speller. LayoutFits (record { graph = speller.resolver; roots = speller.roots.now; names = speller.names.now; ids = speller.ids.now }) };
}

impl<'a> Speller<'a> {
    /// A speller of the graph. For each module it is given the root of its set, the names that its bindings have, and
    /// its id.
    pub fn new(
        alloc: Global,
        graph: &'a Graph,
        roots: &'a [u32],
        names: &'a [Sequence<Name>],
        ids: &'a [u32],
    ) -> Speller<'a>
        requires { LayoutFits (record { graph = graph.now; roots = roots.now; names = names.now; ids = ids.now }) }
        ensures { result ≡ record { graph = graph.now; roots = roots.now; names = names.now; ids = ids.now } }
    {
        let resolver = Resolver::new(alloc, graph);
        Speller {
            resolver,
            roots,
            names,
            ids,
        }
    }

    /// The graph that it was made for.
    pub fn graph(&self) -> &'a Graph
        ensures graph { result.now ≡ self.now.graph }
        ensures fits { LayoutFits self.now }
    {
        self.resolver.graph()
    }

    /// The row of a module.
    pub fn row(&self, number: u32) -> &'a Row
        requires { number < length self.now.graph.rows }
        ensures at { slice_get self.now.graph.rows number ≡ Some result.now }
        ensures fits { RowFits self.now.graph result.now }
    {
        self.resolver.row(number)
    }

    /// The root of the set of a module.
    pub fn root(&self, number: u32) -> u32
        requires { number < length self.now.graph.rows }
        ensures root { result ≡ root_of self.now number }
        ensures within { result < length self.now.graph.rows }
    {
        self.roots[number as usize]
    }

    // The id of a module.
    fn id(&self, number: u32) -> u32
        requires { number < length self.now.graph.rows }
        ensures { result ≡ id_of self.now number }
    {
        self.ids[number as usize]
    }

    /// The names that the bindings of a module have, by place.
    pub fn names(&self, number: u32) -> &'a [Name]
        requires { number < length self.now.graph.rows }
        ensures names { result.now ≡ names_of self.now number }
        ensures each { (row : Row) → slice_get self.now.graph.rows number ≡ Some row
            → length result.now ≡ length row.facts.bindings }
    {
        self.names[number as usize].as_slice()
    }

    // The name that a binding has.
    fn name(&self, owner: u32, binding: u32) -> &'a [u8]
        requires { (row : Row) × (slice_get self.now.graph.rows owner ≡ Some row)
            × (binding < length row.facts.bindings) }
        ensures { result.now ≡ name_of self.now owner binding }
    {
        self.names(owner)[binding as usize].as_slice()
    }

    /// What is written for a binding within its own set: its name.
    pub fn own_text(&self, alloc: Global, owner: u32, binding: u32) -> Result<Text, AllocError>
        requires { (row : Row) × (slice_get self.now.graph.rows owner ≡ Some row)
            × (binding < length row.facts.bindings) }
        ensures { IfOk result (λ text. text ≡ name_of self.now owner binding) }
    {
        Text::from_slice(alloc, self.name(owner, binding))
    }

    // What is written in a module where a binding is read.
    fn binding_text(
        &self,
        alloc: Global,
        from: u32,
        owner: u32,
        binding: u32,
    ) -> Result<Text, AllocError>
        requires from { from < length self.now.graph.rows }
        requires found { (row : Row) × (slice_get self.now.graph.rows owner ≡ Some row)
            × (binding < length row.facts.bindings) }
        ensures { IfOk result (λ text. text ≡ binding_text self.now from owner binding) }
    {
        let name = self.name(owner, binding);
        let root = self.root(owner);
        if self.root(from) == root {
            Text::from_slice(alloc, name)
        } else {
            member_text(alloc, b"__webpack_r.m(", self.id(root), name)
        }
    }

    // Whether a module is JSON.
    fn is_json(&self, number: u32) -> bool
        requires { number < length self.now.graph.rows }
        ensures { default_head (kind_at self.now.graph number)
            ≡ if result then codes "__webpack_r.w(" else codes "__webpack_r.i(" }
    {
        self.row(number).facts.kind == Kind::Json
    }

    // What is written where a name is read of a module that is none of ECMAScript.
    fn foreign_text(&self, alloc: Global, number: u32, name: &[u8]) -> Result<Text, AllocError>
        requires { number < length self.now.graph.rows }
        ensures { IfOk result (λ text. text ≡ foreign_text self.now number name.now) }
    {
        let id = self.id(number);
        if !is_default(name) {
            member_text(alloc, b"__webpack_r.w(", id, name)
        } else if self.is_json(number) {
            call_text(alloc, b"__webpack_r.w(", id)
        } else {
            call_text(alloc, b"__webpack_r.i(", id)
        }
    }

    /// What is written for the namespace of a module.
    pub fn space_text(&self, alloc: Global, number: u32) -> Result<Text, AllocError>
        requires { number < length self.now.graph.rows }
        ensures { IfOk result (λ text. text ≡ called (codes "__webpack_r.s(") (id_of self.now number)) }
    {
        call_text(alloc, b"__webpack_r.s(", self.id(number))
    }

    /// What is written for a call of `require`.
    pub fn require_text(&self, alloc: Global, number: u32) -> Result<Text, AllocError>
        requires { number < length self.now.graph.rows }
        ensures { IfOk result (λ text. text ≡ called (codes "__webpack_r(") (id_of self.now number)) }
    {
        call_text(alloc, b"__webpack_r(", self.id(number))
    }

    /// What is written for a call of `import()`.
    pub fn import_text(&self, alloc: Global, number: u32) -> Result<Text, AllocError>
        requires { number < length self.now.graph.rows }
        ensures { IfOk result (λ text. text ≡ called (codes "__webpack_r.d(") (id_of self.now number)) }
    {
        call_text(alloc, b"__webpack_r.d(", self.id(number))
    }

    /// What is written in a module where a name is read that stands for this.
    pub fn found_text(&self, alloc: Global, from: u32, found: &Found) -> Result<Text, AllocError>
        requires from { from < length self.now.graph.rows }
        requires found { FoundFits self.now.graph found.now }
        ensures { IfOk result (λ text. text ≡ found_text self.now from found.now) }
    {
        match found {
            Found::Binding(owner, binding) => self.binding_text(alloc, from, *owner, *binding),
            Found::Namespace(number) => self.space_text(alloc, *number),
            Found::Foreign(number, name) => self.foreign_text(alloc, *number, name.as_slice()),
            Found::Nothing | Found::Ambiguous => Text::from_slice(alloc, b"(void 0)"),
        }
    }

    /// What a name of a module stands for.
    pub fn resolve(&mut self, alloc: Global, number: u32, name: &Name) -> Result<Found, AllocError>
        requires { number < length self.old.graph.rows }
        ensures found { IfOk result (Resolves self.old.graph number name.now) }
        ensures fits { IfOk result (FoundFits self.old.graph) }
        ensures same { self.new ≡ self.old }
    {
        self.resolver.resolve(alloc, number, name)
    }
}
