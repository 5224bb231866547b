//! What a LeftHandSideExpression begins with, but for Names and `super`.
ghost use Rattle.std.specs.Prelude.{◌≡◌, ◌≤◌, length, IfOk};
ghost use Rattle.es_trace.specs.Basics.{Traces};
ghost use Rattle.es_trace.specs.Expressions as spec;
ghost use Rattle.es_trace.specs.Tying.{tracers_to};
ghost use Rattle.es_cursor.specs.Standing.{Lies, Stands};
ghost use Rattle.es_nest.specs.Ties.{Ties};

use crate::arguments::{trace_mark, value_behind};
use crate::primaries::primary_from;
use es_cursor::Cursor;
use es_grammar::{Context, Stop};
use es_nest::Knot;
use es_outline::{Outline, Role};
use es_reader::ParseFault;
use es_trace::Rule;
use es_tree::{Goal, Token};

// `import.meta`, whose first word was seen.
#[tactic(auto, unfolding(es_trace::specs::Expressions::meta_base, es_trace::specs::Expressions::import_meta))]
fn meta_base(cursor: &mut Cursor, outline: &mut Outline, import: Token) -> Result<u32, ParseFault>
    requires lies { Lies cursor.old import }
    ensures traces { Traces (spec.meta_base cursor.old outline.old.marks import)
        outline.new.marks result }
    ensures within { IfOk result (λ end. end ≤ length cursor.old) }
    ensures same { cursor.new ≡ cursor.old }
    ensures kept { outline.new.kept ≡ outline.old.kept }
{
    let dot = cursor.mark(Goal::Operand, b".", import.end)?;
    let meta = cursor.word(Goal::Operand, b"meta", dot.end)?;
    outline.role(Role::ImportMeta, import)?;
    outline.one(dot)?;
    outline.one(meta)?;
    Ok(meta.end)
}

// `new`, which was seen.
#[tactic(auto, unfolding(es_trace::specs::Expressions::new_base, es_trace::specs::Expressions::new_target))]
fn new_base<K: Fn(&mut Cursor, &mut Outline, Rule, Context, u32) -> Result<Stop, ParseFault>>(
    cursor: &mut Cursor,
    outline: &mut Outline,
    knot: &Knot<K>,
    c: Context,
    at: u32,
    new: Token,
) -> Result<u32, ParseFault>
    requires stands { Stands cursor.old at }
    requires lies { Lies cursor.old new }
    requires ties { Ties (K.pre knot.now.call.now) (K.post knot.now.call.now) knot.now.nest }
    ensures traces { Traces (spec.new_base cursor.old (tracers_to cursor.old knot.now.nest) c
        outline.old.marks at new) outline.new.marks result }
    ensures within { IfOk result (λ end. end ≤ length cursor.old) }
    ensures same { cursor.new ≡ cursor.old }
    ensures kept { outline.new.kept ≡ outline.old.kept }
{
    let next = cursor.token(Goal::Operand, new.end)?;
    if !cursor.is_mark(b".", next) {
        return knot.new_base(cursor, outline, c, at);
    }
    let target = cursor.word(Goal::Operand, b"target", next.end)?;
    outline.one(new)?;
    outline.one(next)?;
    outline.one(target)?;
    Ok(target.end)
}

/// A base that is no Name, whose first token was seen.
#[tactic(auto, unfolding(es_trace::specs::Expressions::base_from))]
pub(crate) fn base_from<
    K: Fn(&mut Cursor, &mut Outline, Rule, Context, u32) -> Result<Stop, ParseFault>,
>(
    cursor: &mut Cursor,
    outline: &mut Outline,
    knot: &Knot<K>,
    c: Context,
    at: u32,
    token: Token,
) -> Result<u32, ParseFault>
    requires stands { Stands cursor.old at }
    requires lies { Lies cursor.old token }
    requires ties { Ties (K.pre knot.now.call.now) (K.post knot.now.call.now) knot.now.nest }
    ensures traces { Traces (spec.base_from cursor.old (tracers_to cursor.old knot.now.nest) c
        outline.old.marks at token) outline.new.marks result }
    ensures within { IfOk result (λ end. end ≤ length cursor.old) }
    ensures same { cursor.new ≡ cursor.old }
    ensures kept { outline.new.kept ≡ outline.old.kept }
{
    if cursor.is_word(b"new", token) {
        return new_base(cursor, outline, knot, c, at, token);
    }
    if cursor.is_word(b"import", token) {
        return meta_base(cursor, outline, token);
    }
    primary_from(cursor, outline, knot, c, at, token)
}

// A comma, if it is there.
#[tactic(auto, unfolding(es_trace::specs::Expressions::trace_comma))]
fn trace_comma(cursor: &mut Cursor, outline: &mut Outline, at: u32) -> Result<u32, ParseFault>
    requires stands { Stands cursor.old at }
    ensures traces { Traces (spec.trace_comma cursor.old outline.old.marks at) outline.new.marks
        result }
    ensures within { IfOk result (λ end. end ≤ length cursor.old) }
    ensures same { cursor.new ≡ cursor.old }
    ensures kept { outline.new.kept ≡ outline.old.kept }
{
    let token = cursor.token(Goal::Operator, at)?;
    if cursor.is_mark(b",", token) {
        outline.one(token)?;
        return Ok(token.end);
    }
    Ok(at)
}

// Behind the first argument of `import`: the comma that follows it, and what stands there.
#[tactic(auto, unfolding(es_trace::specs::Expressions::import_comma, es_trace::specs::Expressions::import_second))]
fn import_comma<K: Fn(&mut Cursor, &mut Outline, Rule, Context, u32) -> Result<Stop, ParseFault>>(
    cursor: &mut Cursor,
    outline: &mut Outline,
    knot: &Knot<K>,
    c: Context,
    comma: Token,
) -> Result<u32, ParseFault>
    requires lies { Lies cursor.old comma }
    requires ties { Ties (K.pre knot.now.call.now) (K.post knot.now.call.now) knot.now.nest }
    ensures traces { Traces (spec.import_comma cursor.old (tracers_to cursor.old knot.now.nest) c
        outline.old.marks comma) outline.new.marks result }
    ensures within { IfOk result (λ end. end ≤ length cursor.old) }
    ensures same { cursor.new ≡ cursor.old }
    ensures kept { outline.new.kept ≡ outline.old.kept }
{
    let token = cursor.token(Goal::Operand, comma.end)?;
    if cursor.is_mark(b")", token) {
        outline.one(comma)?;
        return trace_mark(cursor, outline, b")", comma.end);
    }
    let second = value_behind(cursor, outline, knot, c, comma)?;
    let end = trace_comma(cursor, outline, second)?;
    trace_mark(cursor, outline, b")", end)
}

/// `import()` or `import.meta`, whose first word was seen.
#[tactic(auto, unfolding(es_trace::specs::Expressions::import_base, es_trace::specs::Expressions::import_call, es_trace::specs::Expressions::import_first))]
pub(crate) fn import_base<
    K: Fn(&mut Cursor, &mut Outline, Rule, Context, u32) -> Result<Stop, ParseFault>,
>(
    cursor: &mut Cursor,
    outline: &mut Outline,
    knot: &Knot<K>,
    c: Context,
    import: Token,
) -> Result<u32, ParseFault>
    requires lies { Lies cursor.old import }
    requires ties { Ties (K.pre knot.now.call.now) (K.post knot.now.call.now) knot.now.nest }
    ensures traces { Traces (spec.import_base cursor.old (tracers_to cursor.old knot.now.nest) c
        outline.old.marks import) outline.new.marks result }
    ensures within { IfOk result (λ end. end ≤ length cursor.old) }
    ensures same { cursor.new ≡ cursor.old }
    ensures kept { outline.new.kept ≡ outline.old.kept }
{
    let left = cursor.token(Goal::Operand, import.end)?;
    if !cursor.is_mark(b"(", left) {
        return meta_base(cursor, outline, import);
    }
    outline.role(Role::ImportCall, import)?;
    let first = value_behind(cursor, outline, knot, c, left)?;
    let next = cursor.token(Goal::Operator, first)?;
    if cursor.is_mark(b",", next) {
        return import_comma(cursor, outline, knot, c, next);
    }
    trace_mark(cursor, outline, b")", first)
}
