ghost use Rattle.std.specs.Prelude.{◌≡◌, ◌<◌, ℕ, List, length, map, find, slice_get, Some, IfOk, IfSome, option_copied};
ghost use Rattle.std.specs.Str.{bytes_eq};
ghost use Rattle.pk_types.specs.declared.graph.Row.{Row};
ghost use Rattle.pk_types.specs.Fitting.{Fits, RowFits};
ghost use Rattle.pk_types.specs.Resolving.{origin_of};
ghost use Rattle.export_names.specs.Indexed.{HaveApartNames, export_names};

use indexmap::{IndexMap, IndexSet};
use pk_types::{ExportEntry, Graph, Key, Origin, Row};
use std::alloc::{AllocError, Global};
use std::marker::Model;

/// Answers what the names of a graph's modules stand for. The first question that comes to a module goes through its
/// exports once; then each of them is found by its name, without going through the others.
#[derive(Drop)]
pub struct Resolver<'a> {
    graph: &'a Graph,

    // For each module that was asked, the names of its exports, in their order.
    names: IndexMap<u32, IndexSet<Key<'a>>>,
}

impl<'a> Model for Resolver<'a> {
    ghost use Rattle.pk_types.specs.declared.graph.Graph.{Graph};
    ghost use Rattle.pk_types.specs.Fitting.{Fits};
    ghost use Rattle.export_names.specs.Indexed.{AreIndexed};

    ghost Value = { Graph };

    ghost view = { λ resolver. resolver.graph.now };

    ghost invariant = { λ resolver. Fits resolver.graph.now × AreIndexed resolver.graph.now resolver.names };
}

// The names of exports, in their order.
fn index<'a>(alloc: Global, exports: &'a [ExportEntry]) -> Result<IndexSet<Key<'a>>, AllocError>
    requires { HaveApartNames exports.now }
    ensures { IfOk result (λ names. map (λ key. key.0.now) names.keys ≡ export_names exports.now) }
{
    let mut names = IndexSet::with_capacity(alloc, exports.len())?;
    for entry in exports {
        names.insert(Key(entry.name.as_slice()))?;
    }
    Ok(names)
}

// The export that has the name, where its place among the exports is that of its name among these.
fn export_of<'a>(
    exports: &'a [ExportEntry],
    names: &IndexSet<Key<'a>>,
    name: &[u8],
) -> Option<&'a ExportEntry>
    requires { map (λ key. key.0.now) names.now.keys ≡ export_names exports.now }
    ensures { option_copied result ≡ find (λ entry. bytes_eq entry.name name.now) exports.now }
{
    let place = names.get_index_of(&Key(name))?;
    Some(&exports[place])
}

impl<'a> Resolver<'a> {
    /// A resolver of the graph, which has gone through no exports yet.
    pub fn new(alloc: Global, graph: &'a Graph) -> Resolver<'a>
        requires { Fits graph.now }
        ensures { result ≡ graph.now }
    {
        Resolver {
            graph,
            names: IndexMap::new(alloc),
        }
    }

    /// The graph that it was made for.
    pub fn graph(&self) -> &'a Graph
        ensures graph { result.now ≡ self.now }
        ensures fits { Fits self.now }
    {
        self.graph
    }

    /// The row of a module.
    pub fn row(&self, module: u32) -> &'a Row
        requires { «module» < length self.now.rows }
        ensures at { slice_get self.now.rows «module» ≡ Some result.now }
        ensures fits { RowFits self.now result.now }
    {
        &self.graph.rows.as_slice()[module as usize]
    }

    // The export that has the name, if the module of this row has one.
    fn export(
        &mut self,
        alloc: Global,
        module: u32,
        row: &'a Row,
        name: &[u8],
    ) -> Result<Option<&'a ExportEntry>, AllocError>
        requires at { slice_get self.old.rows «module» ≡ Some row.now }
        requires apart { HaveApartNames row.now.facts.exports }
        ensures export { IfOk result (λ export. option_copied export ≡ find (λ entry. bytes_eq entry.name name.now) row.now.facts.exports) }
        ensures same { self.new ≡ self.old }
    {
        let exports = row.facts.exports.as_slice();
        if let Some(names) = self.names.get(&module) {
            return Ok(export_of(exports, names, name));
        }
        let names = index(alloc, exports)?;
        let export = export_of(exports, &names, name);
        self.names.insert(module, names)?;
        Ok(export)
    }

    /// Where the export of this name comes from, if the module has one.
    pub fn origin(
        &mut self,
        alloc: Global,
        module: u32,
        name: &[u8],
    ) -> Result<Option<&'a Origin>, AllocError>
        requires { «module» < length self.old.rows }
        ensures origin { IfOk result (λ origin. (row : Row) → slice_get self.old.rows «module» ≡ Some row → option_copied origin ≡ origin_of row.facts name.now) }
        ensures same { self.new ≡ self.old }
    {
        let row = self.row(module);
        match self.export(alloc, module, row, name)? {
            Some(export) => Ok(Some(&export.origin)),
            None => Ok(None),
        }
    }
}
