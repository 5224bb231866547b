// The graph of the bundle.
ghost use Rattle.std.specs.Prelude.{◌≡◌, [], false, IfOk};
ghost use Rattle.pk_types.specs.NoFacts.{no_facts};
ghost use Rattle.chunk_tests.specs.Worked as worked;

use pk_types::{Facts, Form, Graph, Kind, Request, Row, Sequence, Site, SiteKind, Text};
use std::alloc::{AllocError, Global};

// A module of which the kind alone is known.
fn plain_row(alloc: Global, label: &[u8], kind: Kind) -> Result<Row, AllocError>
    ensures { IfOk result (λ row. row ≡ record {
      label = label.now;
      facts = no_facts kind;
      targets = [];
      flagged = false;
      size = 0;
    }) }
{
    Ok(Row {
        label: Text::from_slice(alloc, label)?,
        facts: Facts::none(alloc, kind),
        targets: Sequence::new(alloc),
        flagged: false,
        size: 0,
    })
}

// A module of CommonJS that requires the JSON module.
fn view_facts(alloc: Global) -> Result<Facts, AllocError>
    ensures { IfOk result (λ facts. facts ≡ worked.view_facts) }
{
    let request = Request {
        text: Text::from_slice(alloc, b"./data.json")?,
        form: Form::Require,
        json: false,
    };
    let site = Site {
        kind: SiteKind::Require(0),
        start: 12,
        end: 34,
    };
    Ok(Facts {
        kind: Kind::Cjs,
        requests: Sequence::one(alloc, request)?,
        order: Sequence::new(alloc),
        imports: Sequence::new(alloc),
        exports: Sequence::new(alloc),
        stars: Sequence::new(alloc),
        bindings: Sequence::new(alloc),
        sites: Sequence::one(alloc, site)?,
        free: Sequence::new(alloc),
        inner: Sequence::new(alloc),
    })
}

fn view_row(alloc: Global) -> Result<Row, AllocError>
    ensures { IfOk result (λ row. row ≡ worked.view_row) }
{
    Ok(Row {
        label: Text::from_slice(alloc, b"src/view.js")?,
        facts: view_facts(alloc)?,
        targets: Sequence::one(alloc, 1)?,
        flagged: false,
        size: 0,
    })
}

/// The three modules.
pub(crate) fn graph(alloc: Global) -> Result<Graph, AllocError>
    ensures { IfOk result (λ graph. graph ≡ worked.the_graph) }
{
    let mut rows = Vec::new(alloc);
    rows.push(plain_row(alloc, b"src/index.js", Kind::Es)?)?;
    rows.push(plain_row(alloc, b"src/data.json", Kind::Json)?)?;
    rows.push(view_row(alloc)?)?;
    Ok(Graph {
        rows: Sequence::from_vec(rows),
        entries: Sequence::one(alloc, 0)?,
    })
}
