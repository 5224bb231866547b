// Graphs of modules that only import, and their bodies.
ghost use Rattle.std.specs.Prelude.{◌≡◌, ◌≢◌, ◌≤◌, [], length, IfOk, IfSome, OnOk};
ghost use Rattle.std.specs.List.{All, range_with_len};
ghost use Rattle.pk_types.specs.Fitting.{AreFitting};
ghost use Rattle.pk_types.specs.declared.facts.Kind.TheVariants.{Json};
ghost use Rattle.emit_body.specs.Pieces.{HoldsPieces};
ghost use Rattle.emit_chunk.specs.Bare.{IsBareRow};
ghost use Rattle.emit_chunk.specs.Ranges.{HaveBodies};
ghost use Rattle.module_graph.specs.Building.{IsWanting};
ghost use Rattle.plan_run.specs.Importing.{importing};
ghost use Rattle.plan_run.specs.Ready.{IsReady};

use emit_body::Body;
use module_graph::{GraphBuilder, GraphFault};
use pk_base::Path;
use pk_types::{Facts, Form, Graph, Kind, Request, Row, Sequence, Text};
use std::alloc::{AllocError, Global};

// More rounds than a graph has modules.
const ROUNDS: u32 = 40_000;

// The facts of a module with these requests, of which those in the order are of declarations.
fn importing(alloc: Global, requests: Sequence<Request>, order: Sequence<u32>) -> Facts
    ensures { result ≡ importing requests order }
{
    Facts {
        kind: Kind::Es,
        requests,
        order,
        imports: Sequence::from_vec(Vec::new(alloc)),
        exports: Sequence::from_vec(Vec::new(alloc)),
        stars: Sequence::from_vec(Vec::new(alloc)),
        bindings: Sequence::from_vec(Vec::new(alloc)),
        sites: Sequence::from_vec(Vec::new(alloc)),
        free: Sequence::from_vec(Vec::new(alloc)),
        inner: Sequence::from_vec(Vec::new(alloc)),
    }
}

// So many requests.
#[tactic(auto, using(crate::proofs::Few::all_push))]
fn requests_of(alloc: Global, count: u32) -> Result<Vec<Request>, AllocError>
    ensures count { IfOk result (λ requests. length requests.items ≡ count) }
    ensures form { IfOk result (λ requests. All (λ request. request.form ≡ Form.Import) requests.items) }
{
    let mut requests = Vec::new(alloc);
    for _ in 0..count {
        requests.push(Request {
            text: Text::from_slice(alloc, b"")?,
            form: Form::Import,
            json: false,
        })?;
    }
    Ok(requests)
}

// The numbers below a count.
#[tactic(auto, using(crate::proofs::Few::range_more))]
fn first_numbers(alloc: Global, count: u32) -> Result<Vec<u32>, AllocError>
    ensures { IfOk result (λ numbers. numbers.items ≡ range_with_len 0 count) }
{
    let mut numbers = Vec::with_capacity(alloc, count as usize)?;
    for number in 0..count {
        numbers.push(number)?;
    }
    Ok(numbers)
}

// The facts of a module with so many requests, of which the first are of declarations.
fn facts_with(alloc: Global, count: u32, declared: u32) -> Result<Facts, AllocError>
    requires { declared ≤ count }
    ensures fitting { IfOk result AreFitting }
    ensures requests { IfOk result (λ facts. length facts.requests ≡ count) }
    ensures kind { IfOk result (λ facts. facts.kind ≢ Json) }
    ensures bindings { IfOk result (λ facts. facts.bindings ≡ []) }
    ensures sites { IfOk result (λ facts. facts.sites ≡ []) }
{
    let requests = Sequence::from_vec(requests_of(alloc, count)?);
    let order = Sequence::from_vec(first_numbers(alloc, declared)?);
    Ok(importing(alloc, requests, order))
}

fn put_paths(alloc: Global, paths: &mut Vec<Path>, words: &str) -> Result<(), AllocError> {
    for word in words.split_whitespace() {
        if let Some(path) = Path::root(alloc).join(word.as_bytes())? {
            paths.push(path)?;
        }
    }
    Ok(())
}

// What the requests of a module lead to, and how many of them are of declarations.
fn targets_of(alloc: Global, block: &str, path: &Path) -> Result<(Vec<Path>, usize), AllocError> {
    let mut paths = Vec::new(alloc);
    for line in block.lines() {
        if let Some((module, targets)) = line.split_once(": ") {
            if module == path.text() {
                let (first, others) = targets.split_once('|').unwrap_or((targets, ""));
                put_paths(alloc, &mut paths, first)?;
                let declared = paths.len();
                put_paths(alloc, &mut paths, others)?;
                return Ok((paths, declared));
            }
        }
    }
    Ok((paths, 0))
}

// Adds the wanted module.
fn add_wanted(
    alloc: Global,
    builder: &mut GraphBuilder,
    targets: Vec<Path>,
    declared: usize,
) -> Result<(), GraphFault>
    requires wanted { IsWanting builder.old }
    requires bare { All IsBareRow builder.old.rows }
    ensures bare { OnOk result (All IsBareRow builder.new.rows) }
    ensures entries { OnOk result (builder.new.entries ≡ builder.old.entries) }
{
    let Ok(count) = u32::try_from(targets.len()) else {
        return Err(GraphFault::TooMany);
    };
    let facts = facts_with(alloc, count, declared.min(targets.len()) as u32)?;
    builder.add(facts, targets, false, 0)?;
    Ok(())
}

/// The graph that a block describes. There is none where its first line is no path.
pub fn build(alloc: Global, block: &str) -> Result<Option<Graph>, GraphFault>
    ensures { IfOk result (λ graph. IfSome graph IsReady) }
{
    let Some(entry) = Path::root(alloc).join(block.lines().next().unwrap_or("").as_bytes())? else {
        return Ok(None);
    };
    let mut builder = GraphBuilder::new(alloc, vec![in alloc; entry]?)?;
    for _ in 0..ROUNDS {
        let Some(wanted) = builder.next_wanted() else {
            return Ok(Some(builder.finish()));
        };
        let (targets, declared) = targets_of(alloc, block, builder.path_of(wanted))?;
        add_wanted(alloc, &mut builder, targets, declared)?;
    }
    Ok(None)
}

// A body that calls a function by the label of its module.
fn body_of(alloc: Global, row: &Row) -> Result<Body, AllocError>
    ensures { IfOk result HoldsPieces }
{
    let mut text = Vec::from_slice(alloc, row.label.as_slice())?;
    text.extend_from_slice(b"();")?;
    Ok(Body {
        text: Text::from_vec(text),
        pieces: Sequence::from_vec(Vec::new(alloc)),
    })
}

/// A body for each module.
#[tactic(auto, using(crate::proofs::Few::all_push))]
pub fn bodies_of(alloc: Global, graph: &Graph) -> Result<Sequence<Body>, AllocError>
    ensures { IfOk result (HaveBodies graph.now) }
{
    let mut bodies = Vec::with_capacity(alloc, graph.rows.len())?;
    for row in graph.rows.as_slice() {
        bodies.push(body_of(alloc, row)?)?;
    }
    Ok(Sequence::from_vec(bodies))
}
