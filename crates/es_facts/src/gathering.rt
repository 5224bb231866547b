//! The facts of a text that parses.
ghost use Rattle.std.specs.Prelude.{◌≡◌, ◌<◌, ◌^◌, ◌+◌, length, IfOk};
ghost use Rattle.es_scope.specs.FactsOf as facts;
ghost use Rattle.es_facts.specs.Answer as spec;
ghost use Rattle.es_facts.specs.Errors.{IsFirstError};
ghost use Rattle.es_facts.specs.Tables.{AreTables};

use crate::answer::ModuleFault;
use crate::faults::{error_name, first_error, start_of};
use crate::tables::{Tables, make_tables};
use es_refusals::{first_refused, free, inner};
use es_scope::{EarlyError, Outlined};
use es_sites::sites;
use es_tree::ProgramGoal;
use pk_types::{Facts, Kind};
use std::alloc::{AllocError, Global};

fn kind_of(goal: ProgramGoal) -> Kind
    ensures { result ≡ facts.kind_of goal }
{
    match goal {
        ProgramGoal::Script => Kind::Cjs,
        ProgramGoal::Module => Kind::Es,
    }
}

// The first early error of a text.

fn early_error(outlined: &Outlined<'_>, tables: &Tables) -> Option<(u32, EarlyError)>
    requires tables { AreTables outlined.now tables.now }
    ensures { IsFirstError outlined.now result }
{
    let exports = &tables.exports;
    first_error(tables.scopes.twice(), exports.twice, exports.undeclared)
}

// The first fault of a text.

fn judge(alloc: Global, outlined: &Outlined<'_>, tables: &Tables) -> Result<(), ModuleFault>
    requires short { length outlined.now.marks + 2 < 2 ^ 32 }
    requires tables { AreTables outlined.now tables.now }
    ensures { spec.Judges outlined.now result }
{
    if let Some((place, error)) = early_error(outlined, tables) {
        let name = error_name(alloc, outlined, place, error)?;
        return Err(ModuleFault::Early(error, start_of(outlined, place), name));
    }
    match first_refused(alloc, outlined, &tables.scopes, &tables.enclosing)? {
        Some((place, refusal)) => Err(ModuleFault::Refused(refusal, start_of(outlined, place))),
        None => Ok(()),
    }
}

// The lists of facts.
fn gather(alloc: Global, outlined: &Outlined<'_>, tables: Tables) -> Result<Facts, AllocError>
    requires short { length outlined.now.marks + 2 < 2 ^ 32 }
    requires tables { AreTables outlined.now tables }
    ensures { IfOk result (facts.AreFacts outlined.now) }
{
    let Tables {
        scopes,
        enclosing,
        asked,
        declarations,
        exports,
    } = tables;
    let sites = sites(alloc, outlined, &scopes, &enclosing, &asked, &declarations)?;
    Ok(Facts {
        kind: kind_of(outlined.goal()),
        requests: asked.requests,
        order: asked.order,
        imports: declarations.imports,
        exports: exports.entries,
        stars: exports.stars,
        bindings: declarations.bindings,
        sites,
        free: free(alloc, outlined, &scopes)?,
        inner: inner(alloc, outlined, &scopes)?,
    })
}

/// The facts of a text that parses, or its first fault.
pub(crate) fn facts_of(alloc: Global, outlined: &Outlined<'_>) -> Result<Facts, ModuleFault>
    requires short { length outlined.now.marks + 2 < 2 ^ 32 }
    ensures { spec.AnswersAt outlined.now result }
{
    let tables = make_tables(alloc, outlined)?;
    judge(alloc, outlined, &tables)?;
    Ok(gather(alloc, outlined, tables)?)
}
