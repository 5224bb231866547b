//! Functions.
ghost use Rattle.std.specs.Prelude.{◌≡◌, ◌≤◌, length, IfOk};
ghost use Rattle.es_reader.specs.Basics.{Reads};
ghost use Rattle.es_reader.specs.Functions as reader;
ghost use Rattle.es_trace.specs.Basics.{Traces};
ghost use Rattle.es_trace.specs.Functions as spec;
ghost use Rattle.es_trace.specs.Tying.{tracers_to};
ghost use Rattle.es_cursor.specs.Standing.{EndsIn, Lies, Stands};
ghost use Rattle.es_nest.specs.Ties.{Ties};

use crate::bodies::trace_callable;
use es_begins::{fits_name, in_function, is_function_on_line};
use es_cursor::Cursor;
use es_grammar::{Context, Stop};
use es_nest::Knot;
use es_outline::{Outline, Role};
use es_reader::ParseFault;
use es_trace::Rule;
use es_tree::{Goal, Token};

// `*`, if it is there.
#[tactic(auto, unfolding(es_reader::specs::Functions::read_star))]
pub(crate) fn read_star(cursor: &mut Cursor, at: u32) -> Result<(Option<Token>, u32), ParseFault>
    requires stands { Stands cursor.old at }
    ensures reads { Reads (reader.read_star cursor.old at) result }
    ensures within { IfOk result (EndsIn cursor.old) }
    ensures same { cursor.new ≡ cursor.old }
{
    let token = cursor.token(Goal::Operator, at)?;
    if cursor.is_mark(b"*", token) {
        return Ok((Some(token), token.end));
    }
    Ok((None, at))
}

// A name, if it is there.
#[tactic(auto, unfolding(es_reader::specs::Functions::read_optional_name))]
pub(crate) fn read_optional_name(
    cursor: &mut Cursor,
    c: Context,
    at: u32,
) -> Result<(Option<Token>, u32), ParseFault>
    requires stands { Stands cursor.old at }
    ensures reads { Reads (reader.read_optional_name cursor.old c at) result }
    ensures within { IfOk result (EndsIn cursor.old) }
    ensures same { cursor.new ≡ cursor.old }
{
    let token = cursor.token(Goal::Operand, at)?;
    if cursor.is_name(c, token)? {
        return Ok((Some(token), token.end));
    }
    Ok((None, at))
}

// A function, whose `function` was seen.
#[tactic(auto, unfolding(es_trace::specs::Functions::func_behind, es_trace::specs::Functions::func_called))]
fn func_behind<K: Fn(&mut Cursor, &mut Outline, Rule, Context, u32) -> Result<Stop, ParseFault>>(
    cursor: &mut Cursor,
    outline: &mut Outline,
    knot: &Knot<K>,
    c: Context,
    named: bool,
    is_async: bool,
    word: Token,
) -> Result<u32, ParseFault>
    requires lies { Lies cursor.old word }
    requires ties { Ties (K.pre knot.now.call.now) (K.post knot.now.call.now) knot.now.nest }
    ensures traces { Traces (spec.func_behind cursor.old (tracers_to cursor.old knot.now.nest) c
        named is_async outline.old.marks word) outline.new.marks result }
    ensures within { IfOk result (λ end. end ≤ length cursor.old) }
    ensures same { cursor.new ≡ cursor.old }
    ensures kept { outline.new.kept ≡ outline.old.kept }
{
    let (star, behind) = read_star(cursor, word.end)?;
    let (name, end) = read_optional_name(cursor, c, behind)?;
    if !fits_name(named, name) {
        return Err(ParseFault::Syntax);
    }
    outline.one(word)?;
    outline.maybe(star)?;
    outline.named(Role::FunctionName, name)?;
    let inner = in_function(is_async, star.is_some(), c);
    trace_callable(cursor, outline, knot, inner, end)
}

/// A function, whose name may be left out where it need not be `named`.
#[tactic(auto, unfolding(es_trace::specs::Functions::trace_func, es_trace::specs::Functions::async_func_behind))]
pub fn trace_func<K: Fn(&mut Cursor, &mut Outline, Rule, Context, u32) -> Result<Stop, ParseFault>>(
    cursor: &mut Cursor,
    outline: &mut Outline,
    knot: &Knot<K>,
    c: Context,
    named: bool,
    at: u32,
) -> Result<u32, ParseFault>
    requires stands { Stands cursor.old at }
    requires ties { Ties (K.pre knot.now.call.now) (K.post knot.now.call.now) knot.now.nest }
    ensures traces { Traces (spec.trace_func cursor.old (tracers_to cursor.old knot.now.nest) c
        named outline.old.marks at) outline.new.marks result }
    ensures within { IfOk result (λ end. end ≤ length cursor.old) }
    ensures same { cursor.new ≡ cursor.old }
    ensures kept { outline.new.kept ≡ outline.old.kept }
{
    let token = cursor.token(Goal::Operand, at)?;
    if cursor.is_word(b"async", token) {
        let next = cursor.token(Goal::Operand, token.end)?;
        if !is_function_on_line(cursor, next) {
            return Err(ParseFault::Syntax);
        }
        outline.one(token)?;
        return func_behind(cursor, outline, knot, c, named, true, next);
    }
    if cursor.is_word(b"function", token) {
        return func_behind(cursor, outline, knot, c, named, false, token);
    }
    Err(ParseFault::Syntax)
}
