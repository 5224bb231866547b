// The factories of a bundle.
ghost use Rattle.std.specs.Prelude.{◌≡◌, ◌<◌, map, codes, length, IfOk, OnOk};
ghost use Rattle.pk_types.specs.Fitting.{RowFits};
ghost use Rattle.emit_chunk.specs.Factories as spec;
ghost use Rattle.emit_chunk.specs.Ranges.{AreBelow};
ghost use Rattle.chunk_files.specs.Factories.{ids_text, es_factory, required_of, cjs_factory, factory_of};
ghost use Rattle.chunk_files.specs.Joined.{joined};
ghost use Rattle.chunk_files.specs.Pens.{penned};

use crate::heads::put_head;
use crate::ids::{put_id, put_ids};
use crate::json::put_json;
use crate::material::Material;
use crate::parts::{Parts, put_joined};
use crate::pen::Pen;
use crate::required::required;
use crate::segments::{put_items, put_segment};
use pk_types::{Item, Kind, Row};
use std::alloc::{AllocError, Global};

// The modules of other scopes that are evaluated, in order.
fn evaluated(alloc: Global, items: &[Item]) -> Result<Vec<u32>, AllocError>
    ensures { IfOk result (λ modules. modules.items ≡ spec.evaluated items.now) }
{
    let mut modules = Vec::new(alloc);
    for item in items {
        if let Item::Evaluate(module) = *item {
            modules.push(module)?;
        }
    }
    Ok(modules)
}

// Writes the ids of the modules of other scopes that the scope of a root evaluates.
#[tactic(auto, using(crate::proofs::Within::evaluated_below))]
fn put_evaluated(
    alloc: Global,
    pen: &mut Pen,
    material: &Material<'_>,
    root: u32,
) -> Result<(), AllocError>
    requires { «root» < length material.now.graph.rows }
    ensures { OnOk result (pen.new ≡ penned pen.old
        (ids_text material.now (spec.evaluated (spec.items_of material.now.plan «root»)))) }
{
    let modules = evaluated(alloc, material.items(root))?;
    put_ids(pen, material, modules.as_slice())
}

// Writes the factory of an ECMAScript scope.
#[tactic(auto, unfolding(crate::specs::Factories::es_factory), using(crate::proofs::Penning::penned_twice))]
fn put_es(
    alloc: Global,
    pen: &mut Pen,
    material: &Material<'_>,
    root: u32,
) -> Result<(), AllocError>
    requires { «root» < length material.now.graph.rows }
    ensures { OnOk result (pen.new ≡ penned pen.old (es_factory material.now «root»)) }
{
    pen.put(b"[")?;
    put_id(pen, material, root)?;
    pen.put(b", 1, [")?;
    put_evaluated(alloc, pen, material, root)?;
    pen.put(b"], function* (__webpack_r) {\n\"use strict\";\n")?;
    put_head(pen, material, root)?;
    pen.put(b"yield;\n")?;
    put_items(pen, material, material.items(root))?;
    pen.put(b"}]")
}

// Writes the ids of the modules that a module requires.
#[tactic(auto, using(crate::proofs::Within::required_below, crate::proofs::Within::calls_within))]
fn put_required(
    alloc: Global,
    pen: &mut Pen,
    material: &Material<'_>,
    row: &Row,
) -> Result<(), AllocError>
    requires { RowFits material.now.graph row.now }
    ensures { OnOk result (pen.new ≡ penned pen.old (ids_text material.now (required_of row.now))) }
{
    let modules = required(alloc, row)?;
    put_ids(pen, material, modules.as_slice())
}

// Writes the factory of a CommonJS module.
#[tactic(auto, unfolding(crate::specs::Factories::cjs_factory), using(crate::proofs::Penning::penned_twice))]
fn put_cjs(
    alloc: Global,
    pen: &mut Pen,
    material: &Material<'_>,
    row: &Row,
    module: u32,
) -> Result<(), AllocError>
    requires row { RowFits material.now.graph row.now }
    requires module { «module» < length material.now.graph.rows }
    ensures { OnOk result (pen.new ≡ penned pen.old (cjs_factory material.now row.now «module»)) }
{
    pen.put(b"[")?;
    put_id(pen, material, module)?;
    pen.put(b", 0, [")?;
    put_required(alloc, pen, material, row)?;
    pen.put(b"], function (module, exports, __webpack_r) {\n")?;
    put_segment(pen, material, module)?;
    pen.put(b"}]")
}

// Writes the factory of a scope, by the kind of the module that it is named by.
#[tactic(auto, unfolding(crate::specs::Factories::factory_of))]
fn put_factory(
    alloc: Global,
    pen: &mut Pen,
    material: &Material<'_>,
    root: u32,
) -> Result<(), AllocError>
    requires { «root» < length material.now.graph.rows }
    ensures { OnOk result (pen.new ≡ penned pen.old (factory_of material.now «root»)) }
{
    let row = material.row(root);
    match row.facts.kind {
        Kind::Es => put_es(alloc, pen, material, root),
        Kind::Cjs => put_cjs(alloc, pen, material, row, root),
        Kind::Json => put_json(pen, material, root, row.label.as_slice()),
    }
}

// The factories of these roots.
#[derive(Drop)]
struct Factories<'a> {
    alloc: Global,
    material: &'a Material<'a>,
    roots: &'a [u32],
}

impl<'a> Parts for Factories<'a> {
    ghost texts = { λ factories. map (factory_of factories.material.now) factories.roots.now };

    ghost stand = { λ factories. AreBelow (length factories.material.now.graph.rows) factories.roots.now };

    fn count(&self) -> usize {
        self.roots.len()
    }

    #[tactic(auto, using(crate::proofs::Places::text_read))]
    fn put(&self, pen: &mut Pen, place: usize) -> Result<(), AllocError> {
        put_factory(self.alloc, pen, self.material, self.roots[place])
    }
}

/// Writes the factories of these roots, with a comma and a line's end between each two.
pub(crate) fn put_factories(
    alloc: Global,
    pen: &mut Pen,
    material: &Material<'_>,
    roots: &[u32],
) -> Result<(), AllocError>
    requires { AreBelow (length material.now.graph.rows) roots.now }
    ensures { OnOk result
        (pen.new ≡ penned pen.old (joined (codes ",\n") (map (factory_of material.now) roots.now))) }
{
    put_joined(
        pen,
        b",\n",
        &Factories {
            alloc,
            material,
            roots,
        },
    )
}
