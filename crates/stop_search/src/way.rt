// How a name goes on from a module that is asked for it.
ghost use Rattle.std.specs.Prelude.{◌≡◌, ◌<◌, length, IfOk};
ghost use Rattle.stop_search.specs.Ways.{Goes};

use crate::asked::Asked;
use export_names::Resolver;
use pk_types::{Kind, Name, Origin};
use std::alloc::{AllocError, Global};

// How the name goes on.
#[derive(Drop)]
pub enum Way<'a> {
    // It ends at this module.
    Ends(u32),

    // It is passed on by name.
    Passes(Asked<'a>),

    // The module has no export of it, but may have stars.
    Stars,
}

// How a name goes on from a module. It ends there where the module may have side effects, is none of ECMAScript or owns
// the name.
pub fn way_of<'a>(
    alloc: Global,
    resolver: &mut Resolver<'a>,
    module: u32,
    name: &Name,
) -> Result<Way<'a>, AllocError>
    requires { «module» < length resolver.old.rows }
    ensures goes { IfOk result (Goes resolver.old «module» name.now) }
    ensures same { resolver.new ≡ resolver.old }
{
    let row = resolver.row(module);
    if !row.flagged || row.facts.kind != Kind::Es {
        return Ok(Way::Ends(module));
    }
    let targets = row.targets.as_slice();
    match resolver.origin(alloc, module, name.as_slice())? {
        Some(Origin::Own(_)) => Ok(Way::Ends(module)),
        Some(Origin::Space(request)) => Ok(Way::Ends(targets[*request as usize])),
        Some(Origin::Other(request, other)) => Ok(Way::Passes(Asked {
            number: targets[*request as usize],
            name: other,
        })),
        None => Ok(Way::Stars),
    }
}
