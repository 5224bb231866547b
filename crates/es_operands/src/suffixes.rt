//! Suffixes: members, calls, tagged templates, and what stands behind `?.`.
ghost use Rattle.std.specs.Prelude.{◌≡◌, ◌≤◌, length, IfOk};
ghost use Rattle.es_trace.specs.Basics.{Traces};
ghost use Rattle.es_trace.specs.Expressions as spec;
ghost use Rattle.es_trace.specs.Tying.{tracers_to};
ghost use Rattle.es_cursor.specs.Standing.{Lies, Stands};
ghost use Rattle.es_nest.specs.Ties.{Ties};
ghost use Rattle.es_nest.specs.Turns.{state_of};

use crate::arguments::{args_behind, expr_to, trace_args};
use crate::exprs::template_from;
use es_begins::{begins_call, begins_member, begins_suffix, is_template};
use es_cursor::Cursor;
use es_grammar::{Context, Stop};
use es_nest::Knot;
use es_outline::{Mark, Outline, Role};
use es_reader::ParseFault;
use es_trace::{Rule, SuffixKind, Suffixed, Suffixes, Turn};
use es_tree::{Goal, Token, TokenKind};

// A property by its name, which may be private.
#[tactic(auto, unfolding(es_trace::specs::Expressions::trace_dot))]
fn trace_dot(cursor: &mut Cursor, outline: &mut Outline, dot: Token) -> Result<Suffixed, ParseFault>
    requires lies { Lies cursor.old dot }
    ensures traces { Traces (spec.trace_dot cursor.old outline.old.marks dot) outline.new.marks
        result }
    ensures within { IfOk result (λ x. x.at ≤ length cursor.old) }
    ensures same { cursor.new ≡ cursor.old }
    ensures kept { outline.new.kept ≡ outline.old.kept }
{
    let name = cursor.token(Goal::Operand, dot.end)?;
    let (role, kind) = match name.kind {
        TokenKind::IdName => (Role::Dot, SuffixKind::Dot),
        TokenKind::Private => (Role::Suffixes, SuffixKind::Private),
        _ => return Err(ParseFault::Syntax),
    };
    outline.role(role, dot)?;
    outline.one(name)?;
    Ok(Suffixed { at: name.end, kind })
}

// A suffix that the callee of `new` may have.
#[tactic(auto, unfolding(es_trace::specs::Expressions::member_suffix, es_trace::specs::Expressions::trace_index, es_trace::specs::Expressions::template_suffix))]
fn member_suffix<K: Fn(&mut Cursor, &mut Outline, Rule, Context, u32) -> Result<Stop, ParseFault>>(
    cursor: &mut Cursor,
    outline: &mut Outline,
    knot: &Knot<K>,
    c: Context,
    token: Token,
) -> Result<Suffixed, ParseFault>
    requires lies { Lies cursor.old token }
    requires ties { Ties (K.pre knot.now.call.now) (K.post knot.now.call.now) knot.now.nest }
    ensures traces { Traces (spec.member_suffix cursor.old (tracers_to cursor.old knot.now.nest)
        c outline.old.marks token) outline.new.marks result }
    ensures within { IfOk result (λ x. x.at ≤ length cursor.old) }
    ensures same { cursor.new ≡ cursor.old }
    ensures kept { outline.new.kept ≡ outline.old.kept }
{
    if cursor.is_mark(b".", token) {
        return trace_dot(cursor, outline, token);
    }
    if cursor.is_mark(b"[", token) {
        outline.role(Role::Suffixes, token)?;
        let at = expr_to(cursor, outline, knot, c, Role::Plain, b"]", token.end)?;
        let kind = SuffixKind::Index;
        return Ok(Suffixed { at, kind });
    }
    if is_template(token) {
        outline.put(Mark::Tag)?;
        let at = template_from(cursor, outline, knot, c, token)?;
        let kind = SuffixKind::Template;
        return Ok(Suffixed { at, kind });
    }
    Err(ParseFault::Syntax)
}

// What stands behind `?.`.
#[tactic(auto, unfolding(es_trace::specs::Expressions::optional_behind))]
fn optional_behind<
    K: Fn(&mut Cursor, &mut Outline, Rule, Context, u32) -> Result<Stop, ParseFault>,
>(
    cursor: &mut Cursor,
    outline: &mut Outline,
    knot: &Knot<K>,
    c: Context,
    dot: Token,
) -> Result<u32, ParseFault>
    requires lies { Lies cursor.old dot }
    requires ties { Ties (K.pre knot.now.call.now) (K.post knot.now.call.now) knot.now.nest }
    ensures traces { Traces (spec.optional_behind cursor.old (tracers_to cursor.old
        knot.now.nest) c outline.old.marks dot) outline.new.marks result }
    ensures within { IfOk result (λ end. end ≤ length cursor.old) }
    ensures same { cursor.new ≡ cursor.old }
    ensures kept { outline.new.kept ≡ outline.old.kept }
{
    let next = cursor.token(Goal::Operand, dot.end)?;
    outline.role(Role::Suffixes, dot)?;
    match next.kind {
        TokenKind::IdName | TokenKind::Private => {
            outline.one(next)?;
            Ok(next.end)
        }
        TokenKind::Punctuator => {
            if cursor.is_mark(b"[", next) {
                outline.one(next)?;
                return expr_to(cursor, outline, knot, c, Role::Plain, b"]", next.end);
            }
            trace_args(cursor, outline, knot, c, dot.end)
        }
        _ => Err(ParseFault::Syntax),
    }
}

// A suffix.
#[tactic(auto, unfolding(es_trace::specs::Expressions::suffix_from, es_trace::specs::Expressions::call_suffix, es_trace::specs::Expressions::args_suffix, es_trace::specs::Expressions::optional_suffix))]
fn suffix_from<K: Fn(&mut Cursor, &mut Outline, Rule, Context, u32) -> Result<Stop, ParseFault>>(
    cursor: &mut Cursor,
    outline: &mut Outline,
    knot: &Knot<K>,
    c: Context,
    token: Token,
) -> Result<Suffixed, ParseFault>
    requires lies { Lies cursor.old token }
    requires ties { Ties (K.pre knot.now.call.now) (K.post knot.now.call.now) knot.now.nest }
    ensures traces { Traces (spec.suffix_from cursor.old (tracers_to cursor.old knot.now.nest) c
        outline.old.marks token) outline.new.marks result }
    ensures within { IfOk result (λ x. x.at ≤ length cursor.old) }
    ensures same { cursor.new ≡ cursor.old }
    ensures kept { outline.new.kept ≡ outline.old.kept }
{
    if !begins_call(cursor, token) {
        return member_suffix(cursor, outline, knot, c, token);
    }
    if cursor.is_mark(b"(", token) {
        outline.put(Mark::Call)?;
        let at = args_behind(cursor, outline, knot, c, token)?;
        let kind = SuffixKind::Args;
        return Ok(Suffixed { at, kind });
    }
    if cursor.is_mark(b"?.", token) {
        let at = optional_behind(cursor, outline, knot, c, token)?;
        let kind = SuffixKind::Optional;
        return Ok(Suffixed { at, kind });
    }
    Err(ParseFault::Syntax)
}

fn is_optional(kind: SuffixKind) -> bool
    ensures { result ≡ spec.is_optional kind }
{
    match kind {
        SuffixKind::Optional => true,
        _ => false,
    }
}

fn is_tagged(kind: SuffixKind) -> bool
    ensures { result ≡ spec.is_template kind }
{
    match kind {
        SuffixKind::Template => true,
        _ => false,
    }
}

fn names_member(kind: SuffixKind) -> bool
    ensures { result ≡ spec.names_member kind }
{
    match kind {
        SuffixKind::Dot | SuffixKind::Private | SuffixKind::Index => true,
        _ => false,
    }
}

fn follows_super(kind: SuffixKind) -> bool
    ensures { result ≡ spec.follows_super kind }
{
    match kind {
        SuffixKind::Dot | SuffixKind::Index | SuffixKind::Args => true,
        _ => false,
    }
}

/// Before the first suffix.
pub(crate) fn no_suffixes(at: u32) -> Suffixes
    ensures { result ≡ spec.no_suffixes at }
{
    Suffixes {
        at,
        is_empty: true,
        follow_super: false,
        has_optional: false,
        has_plain_templates: true,
        end_with_member: false,
    }
}

// Behind one more suffix.
fn suffixes_behind(before: Suffixes, suffix: Suffixed) -> Suffixes
    ensures { result ≡ spec.suffixes_behind before suffix }
{
    let kind = suffix.kind;
    let had_optional = before.has_optional;
    Suffixes {
        at: suffix.at,
        is_empty: false,
        follow_super: if before.is_empty {
            follows_super(kind)
        } else {
            before.follow_super
        },
        has_optional: had_optional || is_optional(kind),
        has_plain_templates: before.has_plain_templates && !(had_optional && is_tagged(kind)),
        end_with_member: !had_optional && names_member(kind),
    }
}

// A turn of the suffixes of a LeftHandSideExpression.
#[tactic(auto, unfolding(es_trace::specs::Expressions::suffixes_turn, es_trace::specs::Expressions::next_suffix))]
pub(crate) fn suffixes_turn<
    K: Fn(&mut Cursor, &mut Outline, Rule, Context, u32) -> Result<Stop, ParseFault>,
>(
    cursor: &mut Cursor,
    outline: &mut Outline,
    knot: &Knot<K>,
    c: Context,
    state: Suffixes,
) -> Result<Turn<Suffixes>, ParseFault>
    requires stands { Stands cursor.old state.at }
    requires ties { Ties (K.pre knot.now.call.now) (K.post knot.now.call.now) knot.now.nest }
    ensures traces { Traces (spec.suffixes_turn cursor.old (tracers_to cursor.old knot.now.nest)
        c outline.old.marks state) outline.new.marks result }
    ensures within { IfOk result (λ turn. (state_of turn).at ≤ length cursor.old) }
    ensures same { cursor.new ≡ cursor.old }
    ensures kept { outline.new.kept ≡ outline.old.kept }
{
    let token = cursor.token(Goal::Operator, state.at)?;
    if !begins_suffix(cursor, token) {
        return Ok(Turn::Ended(state));
    }
    let suffix = suffix_from(cursor, outline, knot, c, token)?;
    Ok(Turn::More(suffixes_behind(state, suffix)))
}

// A turn of the suffixes of the callee of `new`.
#[tactic(auto, unfolding(es_trace::specs::Expressions::members_turn, es_trace::specs::Expressions::next_member))]
pub(crate) fn members_turn<
    K: Fn(&mut Cursor, &mut Outline, Rule, Context, u32) -> Result<Stop, ParseFault>,
>(
    cursor: &mut Cursor,
    outline: &mut Outline,
    knot: &Knot<K>,
    c: Context,
    state: Suffixes,
) -> Result<Turn<Suffixes>, ParseFault>
    requires stands { Stands cursor.old state.at }
    requires ties { Ties (K.pre knot.now.call.now) (K.post knot.now.call.now) knot.now.nest }
    ensures traces { Traces (spec.members_turn cursor.old (tracers_to cursor.old knot.now.nest) c
        outline.old.marks state) outline.new.marks result }
    ensures within { IfOk result (λ turn. (state_of turn).at ≤ length cursor.old) }
    ensures same { cursor.new ≡ cursor.old }
    ensures kept { outline.new.kept ≡ outline.old.kept }
{
    let token = cursor.token(Goal::Operator, state.at)?;
    if !begins_member(cursor, token) {
        return Ok(Turn::Ended(state));
    }
    let suffix = member_suffix(cursor, outline, knot, c, token)?;
    Ok(Turn::More(suffixes_behind(state, suffix)))
}
