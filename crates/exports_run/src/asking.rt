// Questions about a graph, and their answers.
ghost use Rattle.std.specs.Prelude.{◌<◌, length};
ghost use Rattle.pk_types.specs.Fitting.{Fits};

use crate::building::build;
use crate::fault::Fault;
use export_names::{Resolver, names, resolve_export};
use pk_types::{Found, Graph, Text};
use std::alloc::{AllocError, Global};

fn put_found(alloc: Global, out: &mut Vec<u8>, found: &Found) -> Result<(), AllocError> {
    match found {
        Found::Binding(module, binding) => {
            let text = format!(in alloc; "binding {binding} of {module}")?;
            out.extend_from_slice(text.as_bytes())?;
        }
        Found::Namespace(module) => {
            let text = format!(in alloc; "namespace of {module}")?;
            out.extend_from_slice(text.as_bytes())?;
        }
        Found::Foreign(module, name) => {
            out.extend_from_slice(b"name ")?;
            out.extend_from_slice(name.as_slice())?;
            let text = format!(in alloc; " of {module}")?;
            out.extend_from_slice(text.as_bytes())?;
        }
        Found::Nothing => out.extend_from_slice(b"nothing")?,
        Found::Ambiguous => out.extend_from_slice(b"ambiguous")?,
    }
    Ok(())
}

// The names that a module exports, as `0` asks.
fn put_names(alloc: Global, out: &mut Vec<u8>, graph: &Graph, module: u32) -> Result<(), AllocError>
    requires fits { Fits graph.now }
    requires module { «module» < length graph.now.rows }
{
    out.extend_from_slice(b"names")?;
    let names = names(alloc, graph, module)?;
    for name in names.as_slice() {
        out.push(b' ')?;
        out.extend_from_slice(name.as_slice())?;
    }
    Ok(())
}

// What a name of a module stands for, as `0.x` asks, or `0:x` without a resolver, or which names the module exports.
fn put_answer(
    alloc: Global,
    out: &mut Vec<u8>,
    resolver: &mut Resolver<'_>,
    question: &str,
) -> Result<(), AllocError> {
    let graph = resolver.graph();
    let (is_alone, split) = match question.split_once('.') {
        Some(split) => (false, Some(split)),
        None => (true, question.split_once(':')),
    };
    let (module, name) = split.unwrap_or((question, ""));
    let module = module.parse::<u32>().unwrap_or(u32::MAX);
    if module as usize >= graph.rows.len() {
        return out.extend_from_slice(b"no module");
    }
    if split.is_none() {
        return put_names(alloc, out, graph, module);
    }
    let name = Text::from_slice(alloc, name.as_bytes())?;
    let found = if is_alone {
        resolve_export(alloc, graph, module, &name)?
    } else {
        resolver.resolve(alloc, module, &name)?
    };
    put_found(alloc, out, &found)
}

/// Puts a line for each question of the block.
pub fn put_answers(alloc: Global, out: &mut Vec<u8>, block: &str) -> Result<(), AllocError> {
    let (questions, lines) = block.split_once('\n').unwrap_or((block, ""));
    let graph = match build(alloc, lines) {
        Ok(graph) => graph,
        Err(Fault::Unread) => return out.extend_from_slice(b"no graph\n"),
        Err(Fault::TooMany) => return out.extend_from_slice(b"too many\n"),
        Err(Fault::NoMemory) => return out.extend_from_slice(b"no memory\n"),
    };
    let mut resolver = Resolver::new(alloc, &graph);
    for question in questions.split_whitespace() {
        out.extend_from_slice(question.as_bytes())?;
        out.extend_from_slice(b" is ")?;
        put_answer(alloc, out, &mut resolver, question)?;
        out.push(b'\n')?;
    }
    Ok(())
}
