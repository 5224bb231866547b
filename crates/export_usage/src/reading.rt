// The use of a graph, read off from what is known.
ghost use Rattle.std.specs.Prelude.{◌≡◌, ◌↔◌, ◌<◌, ◌≤◌, ◌^◌, ℕ, List, [], false, length, slice_index_or, IfOk, OnOk};
ghost use Rattle.std.specs.List.{Contains};
ghost use Rattle.pk_types.specs.ActiveEdges.{IsActive};
ghost use Rattle.pk_types.specs.ExportedNames.{AreInByteOrder};
ghost use Rattle.pk_types.specs.Fitting.{Fits};
ghost use Rattle.pk_types.specs.Use.{HasUse};
ghost use Rattle.prune_graph.specs.Gathering.{the_names, HasRequests, Gains, IsNamed};
ghost use Rattle.export_usage.specs.declared.facts.Fact.{Fact};
ghost use Rattle.export_usage.specs.Reading.{AreByModule, IsInRange, IsRead, SaysName, SaysSpace};
ghost use Rattle.export_usage.specs.Spreading.{IsAll};

use crate::facts::{Fact, Facts};
use crate::spread::all_facts;
use pk_text::Interner;
use pk_types::{Active, Graph, Name, Sequence, Text, Used};
use prune_graph::{Through, active_edges};
use std::alloc::{AllocError, Global};

// Copies of the names, by number.
fn texts(alloc: Global, names: &Interner) -> Result<Vec<Name>, AllocError>
    ensures { IfOk result (λ texts. texts.items ≡ names.now) }
{
    let count = names.len();
    let mut texts = Vec::with_capacity(alloc, count)?;
    for number in 0..count {
        texts.push(Text::from_slice(alloc, names.text_of(number as u32))?)?;
    }
    Ok(texts)
}

// Adds what a fact says of the use of its module.
fn add_fact<'a>(fact: Fact, texts: &'a [Name], through: &mut Through<'a>) -> Result<(), AllocError>
    requires names { IsInRange texts.now (length through.old.names.items) fact }
    requires spaces { length through.old.spaces.items ≡ length through.old.names.items }
    ensures { OnOk result (Gains through.old (SaysName texts.now fact) (SaysSpace fact) through.new) }
{
    match fact {
        Fact::Used(module, number) => through.add_name(module, &texts[number as usize])?,
        Fact::Space(module) => through.add_space(module),
        Fact::Reached(_) | Fact::Exposed(_) => {}
    }
    Ok(())
}

// For each of so many modules what is used of it.
fn by_module<'a>(
    alloc: Global,
    count: usize,
    facts: &[Fact],
    texts: &'a [Name],
) -> Result<Through<'a>, AllocError>
    requires { (fact : Fact) → Contains facts.now fact → IsInRange texts.now count fact }
    ensures { IfOk result (AreByModule texts.now facts.now count) }
{
    let mut through = Through::none(alloc, count)?;
    for fact in facts {
        add_fact(*fact, texts, &mut through)?;
    }
    Ok(through)
}

// Copies of borrowed names.
fn copies(alloc: Global, names: &[&Name]) -> Result<Sequence<Name>, AllocError>
    ensures { IfOk result (λ copies. copies ≡ the_names names.now) }
{
    let mut copies = Vec::with_capacity(alloc, names.len())?;
    for name in names {
        copies.push(Text::from_slice(alloc, name.as_slice())?)?;
    }
    Ok(Sequence::from_vec(copies))
}

// The record of what is used of each module.
fn read(alloc: Global, count: u32, through: &Through<'_>) -> Result<Used, AllocError>
    requires { HasRequests count through.now }
    ensures { IfOk result (IsRead count through.now) }
{
    let mut names = Vec::with_capacity(alloc, count as usize)?;
    let mut whole = Vec::with_capacity(alloc, count as usize)?;
    for module in 0..count {
        let sorted = through.names(alloc, module)?;
        names.push(copies(alloc, sorted.as_slice())?)?;
        whole.push(through.is_space(module))?;
    }
    Ok(Used {
        names: Sequence::from_vec(names),
        whole: Sequence::from_vec(whole),
    })
}

// What of a graph is used.
fn used_names(alloc: Global, graph: &Graph) -> Result<Used, AllocError>
    requires { Fits graph.now }
    ensures { IfOk result (HasUse graph.now) }
{
    let facts = all_facts(alloc, graph)?;
    let texts = texts(alloc, &facts.names)?;
    let count = graph.rows.len();
    let through = by_module(alloc, count, facts.known.as_slice(), texts.as_slice())?;
    let used = read(alloc, count as u32, &through)?;
    Ok(used)
}

/// What of a graph is used, and its active edges.
pub fn usage(alloc: Global, graph: &Graph) -> Result<(Used, Active), AllocError>
    requires { Fits graph.now }
    ensures used { IfOk result (λ both. HasUse graph.now both.0) }
    ensures active { IfOk result (λ both. IsActive graph.now both.0 both.1) }
{
    let used = used_names(alloc, graph)?;
    let active = active_edges(alloc, graph, &used)?;
    Ok((used, active))
}
