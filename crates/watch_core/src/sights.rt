// What a round has seen of its tree: each path is asked for once.
ghost use Rattle.std.specs.Prelude.{◌≡◌, ◌<◌, ◌≤◌, ◌++◌, ◌∷◌, [], List, ℕ, Some, false, IfOk, OnOk, OnErr, IsTrue, length, slice_get, option_copied};
ghost use Rattle.std.specs.Map.{keys_of};
ghost use Rattle.std.specs.List.{list_any};
ghost use Rattle.std.specs.Option.{option_map};
ghost use Rattle.std.specs.Str.{bytes_eq};
ghost use Rattle.module_graph.specs.Known.{with_path, with_paths};
ghost use Rattle.pk_base.specs.FileTree.{FileTree};
ghost use Rattle.pk_base.specs.Keeping.{AsksFor};
ghost use Rattle.watch_core.specs.Trees.{seen, bytes_of, is_there, first_there, looked_at};
ghost use Rattle.watch_core.specs.Asking.{Looks, Sees, StandsAt};

use indexmap::IndexMap;
use pk_base::{Files, Path, Read, ReadFail};
use pk_types::MAX_FILE_LEN;
use std::alloc::Global;
use std::marker::Model;

/// Paths with what was seen there, in the order in which they were asked for.
#[derive(Drop)]
pub struct Sights {
    reads: IndexMap<Path, Read>,
}

impl Model for Sights {
    ghost use Rattle.watch_core.specs.Asking.{AreShort, Entries};

    ghost Value = { Entries };

    ghost view = { λ sights. sights.reads.entries };

    ghost invariant = { λ sights. AreShort sights.reads.entries };
}

impl Sights {
    /// Nothing was seen yet.
    pub fn new(alloc: Global) -> Sights
        ensures { result ≡ [] }
    {
        Sights {
            reads: IndexMap::new(alloc),
        }
    }
}

// Asks for one file.
fn ask<F: Files>(files: &mut F, path: &Path) -> Result<Read, ReadFail>
    ensures answer { IfOk result (λ r. IsTrue ((F.means files.old).told)
        → r ≡ seen ((F.means files.old).tree) path.now) }
    ensures within { IfOk result (λ r. length (bytes_of r) ≤ MAX_FILE_LEN) }
    ensures asks { AsksFor path.now result (F.means files.old) (F.means files.new) }
{
    match files.read(path, MAX_FILE_LEN)? {
        Read::Bytes(bytes) if bytes.len() > MAX_FILE_LEN as usize => Ok(Read::Longer),
        found => Ok(found),
    }
}

impl Sights {
    /// The number of the path among those that were seen. A path that is new is asked for.
    pub fn look<F: Files>(&mut self, files: &mut F, path: &Path) -> Result<usize, ReadFail>
        ensures place { IfOk result (λ n. StandsAt self.new n path.now) }
        ensures looks { Looks result (F.means files.old) (F.means files.new) self.old self.new }
        ensures keys { OnOk result (keys_of self.new ≡ with_path (keys_of self.old) path.now) }
    {
        match self.reads.get_index_of(path) {
            Some(number) => Ok(number),
            None => self.add(files, path),
        }
    }

    // The number of a path that wasn't seen.
    fn add<F: Files>(&mut self, files: &mut F, path: &Path) -> Result<usize, ReadFail>
        requires new { list_any (bytes_eq path.now) (keys_of self.old) ≡ false }
        ensures place { IfOk result (λ n. StandsAt self.new n path.now) }
        ensures looks { Looks result (F.means files.old) (F.means files.new) self.old self.new }
        ensures keys { OnOk result (keys_of self.new ≡ keys_of self.old ++ path.now ∷ []) }
    {
        let number = self.reads.len();
        let path = path.copy()?;
        let read = ask(files, &path)?;
        match self.reads.insert(path, read) {
            Ok(_) => Ok(number),
            Err(_) => Err(ReadFail::NoMemory),
        }
    }

    /// Whether something stands at a path.
    pub fn is_there<F: Files>(&mut self, files: &mut F, path: &Path) -> Result<bool, ReadFail>
        ensures value { IfOk result (λ there. (t : FileTree) → Sees (F.means files.old) self.old t
            → there ≡ is_there (seen t path.now)) }
        ensures looks { Looks result (F.means files.old) (F.means files.new) self.old self.new }
        ensures keys { OnOk result (keys_of self.new ≡ with_path (keys_of self.old) path.now) }
    {
        let number = self.look(files, path)?;
        match self.read_at(number) {
            Read::Absent => Ok(false),
            Read::Bytes(_) | Read::Longer => Ok(true),
        }
    }

    /// The first of some paths at which something stands. None behind it is looked at.
    pub fn first_there<'a, F: Files>(
        &mut self,
        files: &mut F,
        paths: &'a [Path],
    ) -> Result<Option<&'a Path>, ReadFail>
        ensures value { IfOk result (λ first. (t : FileTree) → Sees (F.means files.old) self.old t
            → option_copied first ≡ first_there t paths.now) }
        ensures looks { Looks result (F.means files.old) (F.means files.new) self.old self.new }
        ensures keys { OnOk result ((t : FileTree) → Sees (F.means files.old) self.old t
            → keys_of self.new ≡ with_paths (keys_of self.old) (looked_at t paths.now)) }
    {
        for path in paths {
            if self.is_there(files, path)? {
                return Ok(Some(path));
            }
        }
        Ok(None)
    }

    /// What was seen at the path of a number.
    pub fn read_at(&self, number: usize) -> &Read
        requires { number < length self.now }
        ensures read { option_map (λ entry. entry.1) (slice_get self.now number) ≡ Some result.now }
        ensures short { length (bytes_of result.now) ≤ MAX_FILE_LEN }
    {
        match self.reads.get_index(number) {
            Some((_, read)) => read,
            None => unreachable!(),
        }
    }
}
