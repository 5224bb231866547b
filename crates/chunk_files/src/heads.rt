// The lines of a factory before `yield`.
ghost use Rattle.std.specs.Prelude.{◌≡◌, ◌<◌, map, length, OnOk};
ghost use Rattle.emit_chunk.specs.Factories.{id_text};
ghost use Rattle.chunk_files.specs.Factories.{head_of};
ghost use Rattle.chunk_files.specs.Getters as spec;
ghost use Rattle.chunk_files.specs.Getters.{variable_text, read_text, cell_text, getter_text};
ghost use Rattle.chunk_files.specs.Getters.{getters_line, cells_line, space_line};
ghost use Rattle.chunk_files.specs.Pens.{penned};

use crate::ids::put_id;
use crate::material::Material;
use crate::parts::{Parts, put_behind, put_joined};
use crate::pen::Pen;
use emit_body::{Getter, ScopeGetters, Variable};
use pk_types::{BindKind, Name};
use std::alloc::AllocError;

// The word that declares a binding of this kind.
fn word_of(kind: BindKind) -> &'static [u8]
    ensures { result.now ≡ spec.word_of kind }
{
    match kind {
        BindKind::Var => b"var",
        BindKind::Let => b"let",
        BindKind::Const => b"const",
        BindKind::Class => b"class",
        BindKind::Function => b"function",
    }
}

// Writes a name, and a function that reads what it stands for.
#[tactic(auto, unfolding(crate::specs::Getters::read_text), using(crate::proofs::Penning::penned_twice))]
fn put_read(pen: &mut Pen, name: &[u8], spelling: &[u8]) -> Result<(), AllocError>
    ensures { OnOk result (pen.new ≡ penned pen.old (read_text name.now spelling.now)) }
{
    pen.put(b"\"")?;
    pen.put(name)?;
    pen.put(b"\", () => ")?;
    pen.put(spelling)
}

// Writes a kind and a name.
#[tactic(auto, using(crate::proofs::Penning::penned_twice))]
fn put_variable(pen: &mut Pen, variable: &Variable) -> Result<(), AllocError>
    ensures { OnOk result (pen.new ≡ penned pen.old (variable_text variable.now)) }
{
    pen.put(word_of(variable.kind))?;
    pen.put(b" ")?;
    pen.put(variable.name.as_slice())
}

impl Parts for &[Variable] {
    ghost texts = { λ variables. map variable_text variables.now };

    ghost stand = { λ _. Unit };

    fn count(&self) -> usize {
        self.len()
    }

    #[tactic(auto, using(crate::proofs::Places::text_read))]
    fn put(&self, pen: &mut Pen, place: usize) -> Result<(), AllocError> {
        put_variable(pen, &self[place])
    }
}

impl Parts for &[Name] {
    ghost texts = { λ names. map cell_text names.now };

    ghost stand = { λ _. Unit };

    fn count(&self) -> usize {
        self.len()
    }

    #[tactic(auto, using(crate::proofs::Places::text_read))]
    fn put(&self, pen: &mut Pen, place: usize) -> Result<(), AllocError> {
        let name = self[place].as_slice();
        put_read(pen, name, name)
    }
}

impl Parts for &[Getter] {
    ghost texts = { λ getters. map getter_text getters.now };

    ghost stand = { λ _. Unit };

    fn count(&self) -> usize {
        self.len()
    }

    #[tactic(auto, using(crate::proofs::Places::text_read))]
    fn put(&self, pen: &mut Pen, place: usize) -> Result<(), AllocError> {
        let getter = &self[place];
        put_read(pen, getter.name.as_slice(), getter.spelling.as_slice())
    }
}

// Writes a line that hands the runtime getters, by a method of one letter.
#[tactic(auto, unfolding(crate::specs::Getters::getters_line), using(crate::proofs::Penning::penned_twice))]
fn put_getters<P: Parts>(
    pen: &mut Pen,
    material: &Material<'_>,
    root: u32,
    method: &[u8],
    getters: &P,
) -> Result<(), AllocError>
    requires root { «root» < length material.now.graph.rows }
    requires stand { P.stand getters.now }
    ensures { OnOk result (pen.new ≡ penned pen.old
        (getters_line method.now (id_text material.now.plan «root») (P.texts getters.now))) }
{
    pen.put(b"__webpack_r.")?;
    pen.put(method)?;
    pen.put(b"(")?;
    put_id(pen, material, root)?;
    pen.put(b", [")?;
    put_joined(pen, b", ", getters)?;
    pen.put(b"]);\n")
}

// Writes the line of the names that other scopes read, if there are any.
#[tactic(auto, using(crate::proofs::Penning::penned_nothing))]
fn put_cells(
    pen: &mut Pen,
    material: &Material<'_>,
    root: u32,
    cells: &[Name],
) -> Result<(), AllocError>
    requires { «root» < length material.now.graph.rows }
    ensures { OnOk result (pen.new ≡ penned pen.old (cells_line (id_text material.now.plan «root») cells.now)) }
{
    if cells.is_empty() {
        return Ok(());
    }
    put_getters(pen, material, root, b"c", &cells)
}

// Writes the line of the namespace, if it is asked for.
#[tactic(auto, using(crate::proofs::Penning::penned_nothing))]
fn put_space(
    pen: &mut Pen,
    material: &Material<'_>,
    root: u32,
    scope: &ScopeGetters,
) -> Result<(), AllocError>
    requires { «root» < length material.now.graph.rows }
    ensures { OnOk result (pen.new ≡ penned pen.old (space_line (id_text material.now.plan «root») scope.now.space)) }
{
    match &scope.space {
        Some(getters) => put_getters(pen, material, root, b"n", &getters.as_slice()),
        None => Ok(()),
    }
}

/// Writes the lines before `yield` of the scope of a root.
#[tactic(auto, unfolding(crate::specs::Getters::head_text), using(crate::proofs::Penning::penned_twice))]
pub(crate) fn put_head(pen: &mut Pen, material: &Material<'_>, root: u32) -> Result<(), AllocError>
    requires { «root» < length material.now.graph.rows }
    ensures { OnOk result (pen.new ≡ penned pen.old (head_of material.now «root»)) }
{
    let scope = material.scope(root);
    pen.put(b"/*v")?;
    put_behind(pen, b" ", &scope.variables.as_slice())?;
    pen.put(b"*/\n")?;
    put_cells(pen, material, root, scope.cells.as_slice())?;
    put_space(pen, material, root, scope)
}
