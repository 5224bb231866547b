// All that is known of the use of a graph.
ghost use Rattle.std.specs.Prelude.{◌≡◌, ◌<◌, ℕ, length, slice_get, Some, IfOk, OnOk};
ghost use Rattle.std.specs.List.{Contains};
ghost use Rattle.pk_types.specs.Fitting.{Fits};
ghost use Rattle.export_usage.specs.Claims.{Claim, KnowsOf, AreReached, AreTrue, Learns};
ghost use Rattle.export_usage.specs.Rules.{FollowsSpace, IsFollowed};
ghost use Rattle.export_usage.specs.Spreading.{Spreads, IsAll};

use crate::facts::{Fact, Facts};
use crate::follow::{follow_exposed, follow_reached, follow_used};
use export_names::Resolver;
use pk_types::{Graph, Text};
use std::alloc::{AllocError, Global};

// What follows where a namespace is used.
fn follow_space(module: u32, facts: &mut Facts) -> Result<(), AllocError>
    ensures { OnOk result (Learns facts.old (FollowsSpace «module») facts.new) }
{
    facts.put_reached(module)?;
    facts.put_exposed(module)?;
    Ok(())
}

// Makes known what follows from a fact.
fn follow(
    alloc: Global,
    resolver: &mut Resolver<'_>,
    fact: Fact,
    facts: &mut Facts,
) -> Result<(), AllocError>
    requires fits { Fits resolver.old }
    requires truth { AreTrue resolver.old facts.old }
    requires known { KnowsOf facts.old fact }
    ensures spreads { OnOk result (Spreads resolver.old facts.old fact facts.new) }
    ensures same { resolver.new ≡ resolver.old }
{
    match fact {
        Fact::Reached(module) => follow_reached(alloc, resolver, module, facts)?,
        Fact::Exposed(module) => follow_exposed(alloc, resolver, module, facts)?,
        Fact::Space(module) => follow_space(module, facts)?,
        Fact::Used(module, number) => {
            let name = Text::from_slice(alloc, facts.names.text_of(number))?;
            follow_used(alloc, resolver, module, &name, facts)?;
        }
    }
    Ok(())
}

/// All that is known of the use of a graph. From each fact what follows is made known once.
pub fn all_facts(alloc: Global, graph: &Graph) -> Result<Facts, AllocError>
    requires { Fits graph.now }
    ensures { IfOk result (IsAll graph.now) }
{
    let mut resolver = Resolver::new(alloc, graph);
    let mut facts = Facts::none(alloc);
    facts.put_all_reached(graph.entries.as_slice())?;
    let mut place = 0;
    while place < facts.known.len() {
        let fact = facts.known.as_slice()[place];
        follow(alloc, &mut resolver, fact, &mut facts)?;
        place += 1;
    }
    Ok(facts)
}
