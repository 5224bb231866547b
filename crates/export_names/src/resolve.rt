ghost use Rattle.std.specs.Prelude.{◌≡◌, ◌<◌, length, IfOk};
ghost use Rattle.pk_types.specs.Fitting.{Fits};
ghost use Rattle.pk_types.specs.Resolving.{Resolves};

use crate::resolver::Resolver;
use crate::step::{Step, answer, ask, ask_next};
use indexmap::IndexSet;
use pk_types::{Found, Graph, Name};
use std::alloc::{AllocError, Global};

impl<'a> Resolver<'a> {
    /// What the name stands for where it is imported from the module. Each pair of a module of ECMAScript and a name is
    /// gone through once at most, and the stars of a module once at most for each name.
    pub fn resolve(&mut self, alloc: Global, module: u32, name: &Name) -> Result<Found, AllocError>
        requires { «module» < length self.old.rows }
        ensures found { IfOk result (Resolves self.old «module» name.now) }
        ensures same { self.new ≡ self.old }
    {
        let mut visited = IndexSet::new(alloc);
        let mut waiting = Vec::new(alloc);
        let mut step = Step::Ask(module, name.as_slice());
        'steps: loop {
            step = match step {
                Step::Ask(module, name) => ask(alloc, self, &mut visited, module, name)?,
                Step::Stars(stars) => ask_next(self, &mut waiting, stars)?,
                Step::Answer(found) => match waiting.pop() {
                    Some(stars) => answer(stars, found),
                    None => return Ok(found),
                },
            };
        }
    }
}

/// What the name stands for where it is imported from the module: a single question to a `Resolver` of its own. It goes
/// through the exports of the modules that the question comes to, and of no others.
pub fn resolve_export(
    alloc: Global,
    graph: &Graph,
    module: u32,
    name: &Name,
) -> Result<Found, AllocError>
    requires fits { Fits graph.now }
    requires module { «module» < length graph.now.rows }
    ensures { IfOk result (Resolves graph.now «module» name.now) }
{
    Resolver::new(alloc, graph).resolve(alloc, module, name)
}
