// Files in memory, whose reads fail at the calls whose numbers they are given.
ghost use Rattle.std.specs.List.{All};
ghost use Rattle.std.specs.Prelude.{◌≡◌, ◌<◌, ℕ, List, [], Some, None, true, false, length, vec_len, drop, map, slice_index_or, option_copied, IfOk, OnOk, IsSome, IsTrue, if◌then◌else◌};
ghost use Rattle.pk_base.specs.Memory.{held_in, AreKnown};
ghost use Rattle.pk_base.specs.Starts.{first_of};
ghost use Rattle.pk_base.specs.Causes.{Counts, is_failed};
ghost use Rattle.pk_base.specs.Outside.{covers as covers_path, is_under as is_under_folder, turned, read_of, Asked};
ghost use Rattle.pk_base.specs.Schedules.{failing_at, is_due, with_call};
ghost use Rattle.pk_text.specs.Places.{place_of};
ghost use Rattle.std.specs.Str.{bytes_eq};
ghost use Rattle.pk_base.specs.Trees.{held_of};

use crate::failures::{FailsByNumber, Failures};
use crate::kept::keep_ask;
use crate::{Files, Interner, Path, Read, ReadFail, Text, Tree};
use std::alloc::{AllocError, Global};
use std::collections::VecDeque;

/// Files in memory. The paths of all trees have numbers, and each tree is a column of what stands at each number.
#[derive(Drop)]
pub struct MemFiles {
    alloc: Global,
    paths: Interner,
    present: Vec<Option<Text>>,
    coming: VecDeque<Vec<Option<Text>>>,
    asks: Vec<Text>,
    failures: Failures,
    ghost present_len: { vec_len present ≡ length paths },
    ghost coming_len: { All (λ column. vec_len column ≡ length paths) coming.items },
}

// Gives each path a number.
fn list_paths(paths: &mut Interner, files: &[(Path, Text)]) -> Result<(), AllocError>
    ensures kept { (q : List ℕ) → IsSome (place_of paths.old q) → IsSome (place_of paths.new q) }
    ensures known { OnOk result (AreKnown paths.new files.now) }
{
    for file in files {
        paths.intern(file.0.text().as_bytes())?;
    }
    Ok(())
}

// A column in which nothing stands.
fn empty_column(alloc: Global, len: usize) -> Result<Vec<Option<Text>>, AllocError>
    ensures len { IfOk result (λ column. vec_len column ≡ len) }
    ensures empty { IfOk result (λ column. (n : ℕ) → slice_index_or column.items n None ≡ None) }
{
    let mut column = Vec::with_capacity(alloc, len)?;
    for _place in 0..len {
        column.push(None)?;
    }
    Ok(column)
}

// Puts bytes at the place of a path.
fn fill(paths: &Interner, column: &mut Vec<Option<Text>>, path: &[u8], bytes: Text)
    requires len { vec_len column.old ≡ length paths.now }
    requires known { IsSome (place_of paths.now path.now) }
    ensures len { vec_len column.new ≡ length paths.now }
    ensures held { (q : List ℕ) → held_in paths.now column.new.items q ≡ (if bytes_eq q path.now then Some bytes else held_in paths.now column.old.items q) }
{
    if let Some(n) = paths.find(path) {
        column[n as usize] = Some(bytes);
    }
}

// The column of a tree.
fn column_of(alloc: Global, paths: &Interner, tree: Tree) -> Result<Vec<Option<Text>>, AllocError>
    requires { AreKnown paths.now tree.files }
    ensures len { IfOk result (λ column. vec_len column ≡ length paths.now) }
    ensures held { IfOk result (λ column. held_in paths.now column.items ≡ held_of tree) }
{
    let mut column = empty_column(alloc, paths.len())?;
    let mut files = tree.files.into_vec();
    while let Some((path, bytes)) = files.pop() {
        fill(paths, &mut column, path.text().as_bytes(), bytes);
    }
    Ok(column)
}

// Gives each path of all trees a number.
fn list_all(alloc: Global, trees: &[Tree]) -> Result<Interner, AllocError>
    ensures { IfOk result (λ paths. All (λ tree. AreKnown paths tree.files) trees.now) }
{
    let mut paths = Interner::new(alloc);
    for tree in trees {
        list_paths(&mut paths, tree.files.as_slice())?;
    }
    Ok(paths)
}

// The columns of all trees.
fn columns_of(
    alloc: Global,
    paths: &Interner,
    mut trees: Vec<Tree>,
) -> Result<VecDeque<Vec<Option<Text>>>, AllocError>
    requires { All (λ tree. AreKnown paths.now tree.files) trees.items }
    ensures len { IfOk result (λ columns. All (λ column. vec_len column ≡ length paths.now) columns.items) }
    ensures held { IfOk result (λ columns. map (λ column. held_in paths.now column.items) columns.items ≡ map held_of trees.items) }
{
    let mut columns = VecDeque::new(alloc);
    while let Some(tree) = trees.pop() {
        columns.push_front(column_of(alloc, paths, tree)?)?;
    }
    Ok(columns)
}

// Whether a folder is the path or stands above it.
fn is_under(folder: &[u8], path: &[u8]) -> bool
    ensures { result ≡ is_under_folder folder.now path.now }
{
    if folder.is_empty() || folder == path {
        return true;
    }
    if path.len() <= folder.len() {
        return false;
    }
    path[folder.len()] == b'/' && path.starts_with(folder)
}

fn covers(folders: &[Path], path: &[u8]) -> bool
    ensures { result ≡ covers_path folders.now path.now }
{
    for folder in folders {
        if is_under(folder.text().as_bytes(), path) {
            return true;
        }
    }
    false
}

// Takes from the next column what stands at the listed paths.
fn take_covered(
    paths: &Interner,
    listed: &[Path],
    mut next: Vec<Option<Text>>,
    present: &mut Vec<Option<Text>>,
)
    requires present_len { vec_len present.old ≡ length paths.now }
    requires next_len { vec_len next ≡ length paths.now }
    ensures len { vec_len present.new ≡ length paths.now }
    ensures held { held_in paths.now present.new.items ≡ (λ path. if covers_path listed.now path then held_in paths.now next.items path else held_in paths.now present.old.items path) }
{
    for n in 0..paths.len() {
        if covers(listed, paths.text_of(n as u32)) {
            present[n] = next[n].take();
        }
    }
}

impl MemFiles {
    /// The first of `trees` is there, or the empty tree, and the others are to come. The calls of `read`, counted
    /// from 0, whose numbers stand in `fails` fail.
    pub fn new(alloc: Global, trees: Vec<Tree>, fails: Vec<u64>) -> Result<Self, AllocError>
        ensures means { IfOk result (λ m. ⟦<MemFiles as Files>⟧.means m ≡ first_of (map held_of trees.items)) }
        ensures schedule { IfOk result (λ m. ⟦<MemFiles as FailsByNumber>⟧.schedule m ≡ failing_at fails.items) }
    {
        let paths = list_all(alloc, trees.as_slice())?;
        let mut coming = columns_of(alloc, &paths, trees)?;
        let present = match coming.pop_front() {
            Some(column) => column,
            None => empty_column(alloc, paths.len())?,
        };
        Ok(MemFiles {
            alloc,
            paths,
            present,
            coming,
            asks: Vec::new(alloc),
            failures: Failures::at(fails),
        })
    }

    /// The written paths that were asked for, in order.
    pub fn asks(&self) -> &[Text]
        ensures { result.now ≡ (⟦<MemFiles as Files>⟧.means self.now).asks }
    {
        self.asks.as_slice()
    }

    // What stands at a path.
    fn find(&self, path: &[u8]) -> Option<&Text>
        ensures { option_copied result ≡ (⟦<MemFiles as Files>⟧.means self.now).tree path.now }
    {
        match self.paths.find(path) {
            Some(n) => self.present[n as usize].as_ref(),
            None => None,
        }
    }
}

impl FailsByNumber for MemFiles {
    ghost schedule = { λ m. ⟦<Failures as FailsByNumber>⟧.schedule m.failures };

    fn is_next_due(&self) -> bool {
        self.failures.is_next_due()
    }
}

impl Files for MemFiles {
    ghost means = { λ m. record { told = true; tree = held_in m.paths m.present.items; coming = map (λ column. held_in m.paths column.items) m.coming.items; asks = m.asks.items; faults = m.failures.count } };

    fn read(&mut self, path: &Path, limit: u32) -> Result<Read, ReadFail>
        ensures answer { IfOk result (λ r. IsTrue ((⟦<MemFiles as Files>⟧.means self.old).told) → r ≡ read_of ((⟦<MemFiles as Files>⟧.means self.old).tree path.now) limit) }
        ensures told { (⟦<MemFiles as Files>⟧.means self.new).told ≡ (⟦<MemFiles as Files>⟧.means self.old).told }
        ensures tree { (⟦<MemFiles as Files>⟧.means self.new).tree ≡ (⟦<MemFiles as Files>⟧.means self.old).tree }
        ensures coming { (⟦<MemFiles as Files>⟧.means self.new).coming ≡ (⟦<MemFiles as Files>⟧.means self.old).coming }
        ensures asked { Asked ((⟦<MemFiles as Files>⟧.means self.old).asks) ((⟦<MemFiles as Files>⟧.means self.new).asks) path.now result }
        ensures cause { Counts (is_failed result) ((⟦<MemFiles as Files>⟧.means self.old).faults) ((⟦<MemFiles as Files>⟧.means self.new).faults) }
        ensures passes { OnOk result (is_due (⟦<MemFiles as FailsByNumber>⟧.schedule self.old) ≡ false) }
        ensures fails { is_failed result ≡ true → is_due (⟦<MemFiles as FailsByNumber>⟧.schedule self.old) ≡ true }
        ensures schedule { ⟦<MemFiles as FailsByNumber>⟧.schedule self.new ≡ with_call (⟦<MemFiles as FailsByNumber>⟧.schedule self.old) }
    {
        let fails = self.failures.count_call();
        keep_ask(self.alloc, &mut self.asks, path)?;
        if fails {
            self.failures.fault();
            return Err(ReadFail::Failed);
        }
        match self.find(path.text().as_bytes()) {
            None => Ok(Read::Absent),
            Some(bytes) if bytes.len() > limit as usize => Ok(Read::Longer),
            Some(bytes) => Ok(Read::Bytes(Text::from_slice(self.alloc, bytes.as_slice())?)),
        }
    }

    fn turn(&mut self, listed: &Vec<Path>)
        ensures told { (⟦<MemFiles as Files>⟧.means self.new).told ≡ (⟦<MemFiles as Files>⟧.means self.old).told }
        ensures turned { IsTrue ((⟦<MemFiles as Files>⟧.means self.old).told) → (⟦<MemFiles as Files>⟧.means self.new).tree ≡ turned listed.now.items ((⟦<MemFiles as Files>⟧.means self.old).coming) ((⟦<MemFiles as Files>⟧.means self.old).tree) }
        ensures later { IsTrue ((⟦<MemFiles as Files>⟧.means self.old).told) → (⟦<MemFiles as Files>⟧.means self.new).coming ≡ drop 1 ((⟦<MemFiles as Files>⟧.means self.old).coming) }
        ensures asks { (⟦<MemFiles as Files>⟧.means self.new).asks ≡ (⟦<MemFiles as Files>⟧.means self.old).asks }
        ensures faults { (⟦<MemFiles as Files>⟧.means self.new).faults ≡ (⟦<MemFiles as Files>⟧.means self.old).faults }
        ensures schedule { ⟦<MemFiles as FailsByNumber>⟧.schedule self.new ≡ ⟦<MemFiles as FailsByNumber>⟧.schedule self.old }
    {
        if let Some(next) = self.coming.pop_front() {
            take_covered(&self.paths, listed.as_slice(), next, &mut self.present);
        }
    }
}
