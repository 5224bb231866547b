ghost use Rattle.std.specs.Prelude.{◌≡◌, ◌<◌, ◌≤◌, ◌^◌, ℕ, List, [], ◌∷◌, ◌++◌, length, map, take, slice_get, Some, Err, IsTrue, IfOk, OnOk, OnErr, MatchOption};
ghost use Rattle.std.specs.List.{All, Contains};
ghost use Rattle.pk_base.specs.Paths.{is_path};
ghost use Rattle.pk_types.specs.declared.limits.TheConstants.{MAX_MODULES};
ghost use Rattle.pk_types.specs.Fitting.{AreFitting, Fits};
ghost use Rattle.module_graph.specs.Building.{Building, IsWanting, row_of, so_far};
ghost use Rattle.module_graph.specs.Known.{with_paths, numbers_in};
ghost use Rattle.module_graph.specs.ModuleGraph.{LeadsTo, IsModuleGraph};
ghost use Rattle.module_graph.specs.ModuleOrder.{IsModuleOrder};

use crate::fault::GraphFault;
use crate::sighting::number;
use indexmap::IndexSet;
use pk_base::Path;
use pk_types::{Facts, Graph, Row, Sequence, Text};
use std::alloc::Global;
use std::marker::Model;

/// Gathers the modules that the entries lead to. They are added one after another by their numbers, which they have
/// as soon as their paths are known.
#[derive(Drop)]
pub struct GraphBuilder {
    // By number.
    known: IndexSet<Path>,
    rows: Vec<Row>,
    entries: Vec<u32>,
}

impl Model for GraphBuilder {
    ghost use Rattle.module_graph.specs.Building.{Building};
    ghost use Rattle.module_graph.specs.Soundness.{IsSound};

    ghost Value = { Building };

    ghost view = { λ builder. record { known = builder.known.keys; rows = builder.rows.items; entries = builder.entries.items } };

    ghost invariant = { λ builder. IsSound (record { known = builder.known.keys; rows = builder.rows.items; entries = builder.entries.items }) };
}

impl GraphBuilder {
    /// A builder that knows the modules of the entries, none of which is added yet. `TooMany` comes where these are more
    /// than `MAX_MODULES`.
    pub fn new(alloc: Global, entries: Vec<Path>) -> Result<GraphBuilder, GraphFault>
        requires { length entries.items < 2 ^ 32 }
        ensures known { IfOk result (λ builder. builder.known ≡ with_paths [] entries.items) }
        ensures rows { IfOk result (λ builder. builder.rows ≡ []) }
        ensures entries { IfOk result (λ builder.
            builder.entries ≡ numbers_in builder.known entries.items) }
        ensures by_path { IfOk result (λ builder.
            map (slice_get builder.known) builder.entries ≡ map Some entries.items) }
        ensures few { OnOk result (length (with_paths [] entries.items) ≤ MAX_MODULES) }
        ensures too_many { result ≡ Err GraphFault.TooMany
            → MAX_MODULES < length (with_paths [] entries.items) }
    {
        let mut known = IndexSet::new(alloc);
        let entries = number(alloc, &mut known, entries)?;
        Ok(GraphBuilder {
            known,
            rows: Vec::new(alloc),
            entries,
        })
    }

    /// The least module that wasn't added yet. Whether or not there is one, the modules that are known stand in order.
    pub fn next_wanted(&self) -> Option<u32>
        ensures wanted { MatchOption result (length self.now.rows ≡ length self.now.known)
            (λ number. (number ≡ length self.now.rows) × IsWanting self.now) }
        ensures labels { map (λ row. row.label) (so_far self.now).rows ≡ self.now.known }
        ensures fits { Fits (so_far self.now) }
        ensures order { IsModuleOrder (so_far self.now) }
    {
        let wanted = self.rows.len();
        if wanted < self.known.len() {
            Some(wanted as u32)
        } else {
            None
        }
    }

    /// The path of a known module, whether or not it was added.
    pub fn path_of(&self, module: u32) -> &Path
        requires { «module» < length self.now.known }
        ensures { slice_get self.now.known «module» ≡ Some result.now }
    {
        &self.known.as_slice()[module as usize]
    }

    /// The number of the module at a path, if it is known.
    pub fn number_of(&self, path: &Path) -> Option<u32>
        ensures { MatchOption result (¬ Contains self.now.known path.now)
            (λ number. slice_get self.now.known number ≡ Some path.now) }
    {
        let number = self.known.get_index_of(path)?;
        Some(number as u32)
    }

    /// Adds the wanted module, whose requests lead to the targets. Its file has `size` bytes. `TooMany` comes where more
    /// than `MAX_MODULES` modules would be known.
    pub fn add(
        &mut self,
        facts: Facts,
        targets: Vec<Path>,
        flagged: bool,
        size: u32,
    ) -> Result<(), GraphFault>
        requires wanted { IsWanting self.old }
        requires each { length targets.items ≡ length facts.requests }
        requires facts { AreFitting facts }
        ensures known { OnOk result (self.new.known ≡ with_paths self.old.known targets.items) }
        ensures row { OnOk result (self.new.rows ≡ self.old.rows
            ++ row_of self.old self.new.known facts targets.items flagged size ∷ []) }
        ensures entries { OnOk result (self.new.entries ≡ self.old.entries) }
        ensures kept { OnOk result (take (length self.old.known) self.new.known ≡ self.old.known) }
        ensures by_path { OnOk result (map (slice_get self.new.known)
            (numbers_in self.new.known targets.items) ≡ map Some targets.items) }
        ensures few { OnOk result (length (with_paths self.old.known targets.items) ≤ MAX_MODULES) }
        ensures too_many { result ≡ Err GraphFault.TooMany
            → MAX_MODULES < length (with_paths self.old.known targets.items) }
        ensures err { OnErr result (self.new ≡ self.old) }
    {
        let alloc = *self.rows.allocator();
        let path = &self.known.as_slice()[self.rows.len()];
        let label = Text::from_slice(alloc, path.as_bytes())?;
        self.rows.reserve(1)?;
        let targets = number(alloc, &mut self.known, targets)?;
        self.rows
            .push(Row {
                label,
                facts,
                targets: Sequence::from_vec(targets),
                flagged,
                size,
            })
            .unwrap();
        Ok(())
    }

    /// The graph of the modules that were added, once none is wanted.
    pub fn finish(self) -> Graph
        requires { length self.rows ≡ length self.known }
        ensures rows { result.rows ≡ self.rows }
        ensures entries { result.entries ≡ self.entries }
        ensures labels { map (λ row. row.label) result.rows ≡ self.known }
        ensures paths { All (λ row. IsTrue (is_path row.label)) result.rows }
        ensures fits { Fits result }
        ensures order { IsModuleOrder result }
        ensures graph { (entries : List (List ℕ)) (leads : List ℕ → List (List ℕ))
            → LeadsTo entries leads result → IsModuleGraph entries leads result }
    {
        let GraphBuilder { rows, entries, .. } = self;
        Graph {
            rows: Sequence::from_vec(rows),
            entries: Sequence::from_vec(entries),
        }
    }
}
