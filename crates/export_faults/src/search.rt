// The first fault of a graph.
ghost use Rattle.std.specs.Prelude.{◌≡◌, ◌<◌, Some, length, slice_get, IfOk};
ghost use Rattle.pk_types.specs.Fitting.{Fits};
ghost use Rattle.export_faults.specs.Faults.{AreLeast, IsFirst, StandsInImports, StandsInExports, StandsIn};

use crate::fault::{Asker, ExportFault};
use crate::judging::fault_of;
use crate::order::earlier;
use crate::question::{of_export, of_import};
use export_names::Resolver;
use pk_types::Graph;
use std::alloc::{AllocError, Global};

// The first fault of the imports of a module.
fn import_fault(
    alloc: Global,
    resolver: &mut Resolver<'_>,
    module: u32,
) -> Result<Option<ExportFault>, AllocError>
    requires fits { Fits resolver.old }
    requires module { «module» < length resolver.old.rows }
    ensures first { IfOk result (AreLeast (StandsInImports resolver.old «module»)) }
    ensures same { resolver.new ≡ resolver.old }
{
    let imports = resolver.row(module).facts.imports.as_slice();
    let mut first = None;
    for number in 0..imports.len() as u32 {
        let question = of_import(&imports[number as usize]);
        let fault = fault_of(alloc, resolver, module, Asker::Import(number), question)?;
        first = earlier(first, fault);
    }
    Ok(first)
}

// The first fault of the exports of a module.
fn export_fault(
    alloc: Global,
    resolver: &mut Resolver<'_>,
    module: u32,
) -> Result<Option<ExportFault>, AllocError>
    requires fits { Fits resolver.old }
    requires module { «module» < length resolver.old.rows }
    ensures first { IfOk result (AreLeast (StandsInExports resolver.old «module»)) }
    ensures same { resolver.new ≡ resolver.old }
{
    let exports = resolver.row(module).facts.exports.as_slice();
    let mut first = None;
    for number in 0..exports.len() as u32 {
        let question = of_export(&exports[number as usize]);
        let fault = fault_of(alloc, resolver, module, Asker::Export(number), question)?;
        first = earlier(first, fault);
    }
    Ok(first)
}

// The first fault of a module.
fn module_fault(
    alloc: Global,
    resolver: &mut Resolver<'_>,
    module: u32,
) -> Result<Option<ExportFault>, AllocError>
    requires fits { Fits resolver.old }
    requires module { «module» < length resolver.old.rows }
    ensures first { IfOk result (AreLeast (StandsIn resolver.old «module»)) }
    ensures same { resolver.new ≡ resolver.old }
{
    let imported = import_fault(alloc, resolver, module)?;
    let exported = export_fault(alloc, resolver, module)?;
    Ok(earlier(imported, exported))
}

/// The first import, or export from another module, that asks for a name in vain: by module, and there by place. None
/// where every name that is asked for stands for one thing.
pub fn first_fault(alloc: Global, graph: &Graph) -> Result<Option<ExportFault>, AllocError>
    requires { Fits graph.now }
    ensures { IfOk result (IsFirst graph.now) }
{
    let mut resolver = Resolver::new(alloc, graph);
    for module in 0..graph.rows.len() as u32 {
        let fault = module_fault(alloc, &mut resolver, module)?;
        if fault.is_some() {
            return Ok(fault);
        }
    }
    Ok(None)
}
