// Whether a question is asked in vain.
ghost use Rattle.std.specs.Prelude.{◌≡◌, ◌<◌, Some, length, slice_get, IfOk, IfSome};
ghost use Rattle.std.specs.Option.{option_map};
ghost use Rattle.pk_types.specs.declared.graph.Row.{Row};
ghost use Rattle.export_faults.specs.Questions.{question_of, kind_of};
ghost use Rattle.export_faults.specs.Asking.{asked, IsJudged};
ghost use Rattle.export_faults.specs.Faults.{AreLeast, StandsAt};

use crate::fault::{Asker, ExportFault, FaultKind};
use crate::question::Question;
use export_names::Resolver;
use pk_types::{Found, Name};
use std::alloc::{AllocError, Global};

// What is wrong where a name stands for this.
fn kind_of(found: &Found) -> Option<FaultKind>
    ensures { result ≡ kind_of found.now }
{
    match found {
        Found::Nothing => Some(FaultKind::Missing),
        Found::Ambiguous => Some(FaultKind::Ambiguous),
        _ => None,
    }
}

// What is wrong with a name of a module.
fn judge(
    alloc: Global,
    resolver: &mut Resolver<'_>,
    module: u32,
    name: &Name,
) -> Result<Option<FaultKind>, AllocError>
    requires { «module» < length resolver.old.rows }
    ensures judged { IfOk result (IsJudged resolver.old «module» name.now) }
    ensures same { resolver.new ≡ resolver.old }
{
    let found = resolver.resolve(alloc, module, name)?;
    Ok(kind_of(&found))
}

// The fault of what asks in a module, if it asks in vain.
pub fn fault_of(
    alloc: Global,
    resolver: &mut Resolver<'_>,
    module: u32,
    asker: Asker,
    question: Option<Question<'_>>,
) -> Result<Option<ExportFault>, AllocError>
    requires module { «module» < length resolver.old.rows }
    requires asks { (row : Row) → slice_get resolver.old.rows «module» ≡ Some row
        → option_map asked «question» ≡ question_of row «asker» }
    requires request { (row : Row) → slice_get resolver.old.rows «module» ≡ Some row
        → IfSome «question» (λ question. question.request < length row.targets) }
    ensures fault { IfOk result (AreLeast (StandsAt resolver.old «module» «asker»)) }
    ensures same { resolver.new ≡ resolver.old }
{
    let Some(question) = question else {
        return Ok(None);
    };
    let target = resolver.row(module).targets.as_slice()[question.request as usize];
    match judge(alloc, resolver, target, question.name)? {
        Some(kind) => Ok(Some(ExportFault {
            module,
            place: question.place,
            kind,
            asker,
        })),
        None => Ok(None),
    }
}
