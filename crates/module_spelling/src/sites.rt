// The sites of a module.
ghost use Rattle.std.specs.Prelude.{◌≡◌, ◌<◌, ℕ, Some, length, slice_get, slice_index, IfOk};
ghost use Rattle.std.specs.List.{AllZip};
ghost use Rattle.pk_types.specs.Fitting.{RowFits};
ghost use Rattle.pk_types.specs.Places.{ArePlacesIn};
ghost use Rattle.pk_types.specs.Sites.{ref_bindings, ref_imports};
ghost use Rattle.module_spelling.specs.Layout.{names_of, name_of};
ghost use Rattle.module_spelling.specs.SiteFits.{SiteFits};
ghost use Rattle.module_spelling.specs.Spelled.{SpellsName, SpellsNamed, SpellsImport, SpellsRef, SpellsSite, IsSpelling};

use crate::speller::Speller;
use pk_types::{Name, Ref, Row, Sequence, SiteKind, Spelling, Text};
use std::alloc::{AllocError, Global};

// Copies of names.
fn copies(alloc: Global, names: &[Name]) -> Result<Vec<Name>, AllocError>
    ensures { IfOk result (λ copies. copies.items ≡ names.now) }
{
    let mut copies = Vec::with_capacity(alloc, names.len())?;
    for name in names {
        copies.push(Text::from_slice(alloc, name.as_slice())?)?;
    }
    Ok(copies)
}

impl<'a> Speller<'a> {
    // What is written for a name of a module.
    fn name_text(
        &mut self,
        alloc: Global,
        from: u32,
        target: u32,
        name: &Name,
    ) -> Result<Text, AllocError>
        requires from { from < length self.old.graph.rows }
        requires target { target < length self.old.graph.rows }
        ensures text { IfOk result (SpellsName self.old from target name.now) }
        ensures same { self.new ≡ self.old }
    {
        let found = self.resolve(alloc, target, name)?;
        self.found_text(alloc, from, &found)
    }

    // What is written for a name of a module, or for its namespace.
    fn named_text(
        &mut self,
        alloc: Global,
        from: u32,
        target: u32,
        name: &Option<Name>,
    ) -> Result<Text, AllocError>
        requires from { from < length self.old.graph.rows }
        requires target { target < length self.old.graph.rows }
        ensures text { IfOk result (SpellsNamed self.old from target name.now) }
        ensures same { self.new ≡ self.old }
    {
        match name {
            Some(name) => self.name_text(alloc, from, target, name),
            None => self.space_text(alloc, target),
        }
    }

    // What is written for an import.
    fn imported_text(
        &mut self,
        alloc: Global,
        from: u32,
        row: &Row,
        place: u32,
    ) -> Result<Text, AllocError>
        requires from { from < length self.old.graph.rows }
        requires row { RowFits self.old.graph row.now }
        requires place { place < length row.now.facts.imports }
        ensures text { IfOk result (SpellsImport self.old from row.now place) }
        ensures same { self.new ≡ self.old }
    {
        let entry = &row.facts.imports.as_slice()[place as usize];
        let target = row.targets.as_slice()[entry.request as usize];
        self.named_text(alloc, from, target, &entry.name)
    }

    // What is written for a name in the text.
    fn ref_text(
        &mut self,
        alloc: Global,
        from: u32,
        row: &Row,
        named: Ref,
    ) -> Result<Text, AllocError>
        requires from { slice_get self.old.graph.rows from ≡ Some row.now }
        requires row { RowFits self.old.graph row.now }
        requires bindings { ArePlacesIn row.now.facts.bindings (ref_bindings named) }
        requires imports { ArePlacesIn row.now.facts.imports (ref_imports named) }
        ensures text { IfOk result (SpellsRef self.old from row.now named) }
        ensures same { self.new ≡ self.old }
    {
        match named {
            Ref::Own(binding) => self.own_text(alloc, from, binding),
            Ref::Imported(place) => self.imported_text(alloc, from, row, place),
        }
    }

    // What is written at a site.
    fn site_text(
        &mut self,
        alloc: Global,
        from: u32,
        row: &Row,
        kind: &SiteKind,
    ) -> Result<Text, AllocError>
        requires from { slice_get self.old.graph.rows from ≡ Some row.now }
        requires row { RowFits self.old.graph row.now }
        requires site { SiteFits row.now kind.now }
        ensures text { IfOk result (SpellsSite self.old from row.now kind.now) }
        ensures same { self.new ≡ self.old }
    {
        let targets = row.targets.as_slice();
        match kind {
            SiteKind::Init(binding) => self.own_text(alloc, from, *binding),
            SiteKind::Read(named) => self.ref_text(alloc, from, row, *named),
            SiteKind::Write(named) => self.ref_text(alloc, from, row, *named),
            SiteKind::Member(request, name) => {
                self.name_text(alloc, from, targets[*request as usize], name)
            }
            SiteKind::Space(request) => self.space_text(alloc, targets[*request as usize]),
            SiteKind::Require(request) => self.require_text(alloc, targets[*request as usize]),
            SiteKind::Import(request) => self.import_text(alloc, targets[*request as usize]),
        }
    }

    // What is written at the sites of a module, by place.
    fn site_texts(&mut self, alloc: Global, from: u32, row: &Row) -> Result<Vec<Text>, AllocError>
        requires from { slice_get self.old.graph.rows from ≡ Some row.now }
        requires row { RowFits self.old.graph row.now }
        ensures texts { IfOk result (λ texts.
            AllZip (λ site text. SpellsSite self.old from row.now site.kind text) row.now.facts.sites texts.items) }
        ensures same { self.new ≡ self.old }
    {
        let mut texts = Vec::with_capacity(alloc, row.facts.sites.len())?;
        for site in row.facts.sites.as_slice() {
            texts.push(self.site_text(alloc, from, row, &site.kind)?)?;
        }
        Ok(texts)
    }

    /// The spelling of a module: what is written at each of its sites, by place, and the names of its bindings.
    pub fn spelling(&mut self, alloc: Global, number: u32) -> Result<Spelling, AllocError>
        requires { number < length self.old.graph.rows }
        ensures spelled { IfOk result (IsSpelling self.old number) }
        ensures same { self.new ≡ self.old }
    {
        let row = self.row(number);
        let sites = self.site_texts(alloc, number, row)?;
        let names = copies(alloc, self.names(number))?;
        Ok(Spelling {
            sites: Sequence::from_vec(sites),
            names: Sequence::from_vec(names),
        })
    }
}
