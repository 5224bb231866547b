// The modules of a tree.
ghost use Rattle.std.specs.Prelude.{◌≡◌, ◌≢◌, ◌+◌, ◌<◌, ◌≤◌, ◌++◌, ◌∷◌, [], List, ℕ, Err, IfOk, OnOk, OnErr, IsTrue, false, length};
ghost use Rattle.std.specs.Map.{keys_of};
ghost use Rattle.module_graph.specs.Building.{IsWanting, row_of};
ghost use Rattle.module_graph.specs.Known.{with_paths};
ghost use Rattle.pk_base.specs.FileTree.{FileTree};
ghost use Rattle.watch_core.specs.Asking.{Looks, Sees};
ghost use Rattle.watch_core.specs.Modules.{facts_of};
ghost use Rattle.watch_core.specs.Trees.{is_there, seen};
ghost use Rattle.watch_core.specs.Visits.{IsText};
ghost use Rattle.watch_core.specs.Walks.{IsWritable, Walks};
ghost use Rattle.pk_types.specs.declared.limits.TheConstants.{MAX_MODULES, MAX_SOURCE_BYTES};

use crate::facts::into_facts;
use crate::faults::{BuildFault, What};
use crate::module::{Visited, visit};
use crate::sights::Sights;
use emit_body::Body;
use module_graph::{GraphBuilder, GraphFault};
use pk_base::{Files, Path, ReadFail};
use pk_types::{Graph, Sequence};
use std::alloc::Global;

/// The modules of a tree, with their bodies by number.
#[derive(Drop)]
pub struct FoundModules {
    pub graph: Graph,
    pub bodies: Sequence<Body>,
}

// The modules that were followed so far, with their bodies by number.
#[derive(Drop)]
struct Walker {
    builder: GraphBuilder,
    bodies: Vec<Body>,
    source_bytes: u32,
}

impl Walker {
    // Wants the module of the entry, and has followed none.
    fn new(alloc: Global, entry: Path) -> Result<Walker, GraphFault>
        ensures known { IfOk result (λ walker. walker.builder.known ≡ entry ∷ []) }
        ensures rows { IfOk result (λ walker. walker.builder.rows ≡ []) }
        ensures entries { IfOk result (λ walker. walker.builder.entries ≡ 0 ∷ []) }
        ensures bodies { IfOk result (λ walker. walker.bodies.items ≡ []) }
        ensures source_bytes { IfOk result (λ walker. walker.source_bytes ≡ 0) }
        ensures one { result ≢ Err GraphFault.TooMany }
    {
        let mut entries = Vec::new(alloc);
        entries.push(entry)?;
        Ok(Walker {
            builder: GraphBuilder::new(alloc, entries)?,
            bodies: Vec::new(alloc),
            source_bytes: 0,
        })
    }

    // Adds the wanted module, which was looked at.
    fn take(&mut self, alloc: Global, visited: Visited) -> Result<(), GraphFault>
        requires wanted { IsWanting self.old.builder }
        requires text { IsText visited }
        requires each { length visited.targets.items ≡ length visited.said.requests }
        requires few { self.old.source_bytes + visited.size ≤ MAX_SOURCE_BYTES }
        ensures known { OnOk result (self.new.builder.known
            ≡ with_paths self.old.builder.known visited.targets.items) }
        ensures row { OnOk result (self.new.builder.rows ≡ self.old.builder.rows
            ++ row_of self.old.builder self.new.builder.known
            (facts_of visited.said) visited.targets.items false visited.size ∷ []) }
        ensures entries { OnOk result (self.new.builder.entries ≡ self.old.builder.entries) }
        ensures body { OnOk result (self.new.bodies.items ≡ self.old.bodies.items
            ++ record { text = visited.said.body; pieces = [] } ∷ []) }
        ensures source_bytes { OnOk result (self.new.source_bytes
            ≡ self.old.source_bytes + visited.size) }
        ensures few { OnOk result (length self.new.builder.known ≤ MAX_MODULES) }
        ensures too_many { result ≡ Err GraphFault.TooMany → MAX_MODULES < length
            (with_paths self.old.builder.known visited.targets.items) }
    {
        let Visited {
            said,
            targets,
            size,
        } = visited;
        let (facts, text) = into_facts(alloc, said)?;
        self.builder.add(facts, targets, false, size)?;
        self.bodies.push(Body {
            text,
            pieces: Sequence::from_vec(Vec::new(alloc)),
        })?;
        self.source_bytes += size;
        Ok(())
    }
}

/// Follows the requests of the modules from an entry on, at which something stands.
#[tactic(auto, using(crate::proofs::Seeing::looks_nothing))]
pub fn walk<F: Files>(
    alloc: Global,
    sights: &mut Sights,
    files: &mut F,
    entry: Path,
) -> Result<Result<FoundModules, BuildFault>, ReadFail>
    ensures value { IfOk result (λ found. (t : FileTree) → Sees (F.means files.old) sights.old t
        → IsTrue (is_there (seen t entry)) → Walks t entry (keys_of sights.old)
        (keys_of sights.new) found) }
    ensures writable { IfOk result (λ answer. IfOk answer IsWritable) }
    ensures looks { Looks result (F.means files.old) (F.means files.new) sights.old sights.new }
{
    let mut walker = match Walker::new(alloc, entry) {
        Ok(walker) => walker,
        Err(GraphFault::NoMemory) => return Err(ReadFail::NoMemory),
        Err(GraphFault::TooMany) => unreachable!(),
    };
    'modules: while let Some(number) = walker.builder.next_wanted() {
        let path = walker.builder.path_of(number);
        let visited = match visit(alloc, sights, files, path, walker.source_bytes)? {
            Ok(visited) => visited,
            Err(fault) => return Ok(Err(fault)),
        };
        match walker.take(alloc, visited) {
            Ok(()) => {}
            Err(GraphFault::TooMany) => return Ok(Err(BuildFault::TooMany(What::Modules))),
            Err(GraphFault::NoMemory) => return Err(ReadFail::NoMemory),
        }
    }
    let Walker {
        builder,
        bodies,
        ..
    } = walker;
    Ok(Ok(FoundModules {
        graph: builder.finish(),
        bodies: Sequence::from_vec(bodies),
    }))
}
