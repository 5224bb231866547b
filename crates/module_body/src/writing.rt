//! What is written for each mark of an outline.
ghost use Rattle.std.specs.Prelude.{◌≡◌, IfOk, OnOk};
ghost use Rattle.module_body.specs.Changes.{changes_of};
ghost use Rattle.module_body.specs.Chunks.{drafted, one_drafted};
ghost use Rattle.module_body.specs.Writing as spec;

use crate::before::Before;
use crate::calls::{Hold, closing_of, is_called, is_loaded, is_property, marks_behind, opening_of};
use crate::changes::{Change, Changes, Written};
use crate::draft::Draft;
use crate::standing::{Standing, is_kept};
use crate::touch::Touch;
use emit_body::Body;
use es_names::{is_plain, name};
use es_outline::{Mark, Role};
use es_scope::Outlined;
use es_tree::{Token, TokenKind};
use pk_types::{Facts, Spelling};
use std::alloc::{AllocError, Global};

// Whether two tokens would begin or end a comment of HTML.
fn would_join(first: &[u8], second: &[u8]) -> bool
    ensures { result ≡ spec.would_join first.now second.now }
{
    first == b"<".as_slice() && second == b"!".as_slice()
        || first == b"--".as_slice() && second == b">".as_slice()
}

// What is put between the last kept token and the next.
fn gap(outlined: &Outlined<'_>, last: Option<Token>, broken: bool, token: Token) -> &'static [u8]
    ensures { result.now ≡ spec.gap outlined.now.text last broken token }
{
    let Some(last) = last else {
        return b"";
    };
    if broken || token.newline {
        b"\n"
    } else if last.end != token.start
        || would_join(outlined.spelled(last), outlined.spelled(token))
    {
        b" "
    } else {
        b""
    }
}

// Whether the token is one of those in whose place the last change is written.
fn is_covered(change: Option<Change>, token: Token) -> bool
    ensures { result ≡ spec.is_covered change token }
{
    match change {
        Some(change) => token.start < change.end,
        None => false,
    }
}

// Writes what is written anew.
fn write_new(draft: &mut Draft, changes: &Changes<'_>, written: Written) -> Result<(), AllocError>
    ensures { OnOk result (draft.new ≡ one_drafted draft.old (spec.chunk_of changes.now written)) }
{
    let text = changes.text_of(written);
    match written {
        Written::Site(letter, _) => draft.site(letter, text),
        Written::Touch(_) => draft.plain(text),
    }
}

// Writes `const N =` before an expression that is exported as the default.
#[tactic(auto, unfolding(crate::specs::Chunks::drafted), using(crate::proofs::Drafting::drafted_append))]
fn write_head(draft: &mut Draft, changes: &Changes<'_>, before: &Before) -> Result<(), AllocError>
    ensures { OnOk result (draft.new ≡ drafted draft.old (spec.head changes.now before.now.value before.now.change)) }
{
    if before.value
        && let Some(change) = before.change
    {
        draft.plain(b"const ")?;
        write_new(draft, changes, change.written)?;
        draft.plain(b" = ")?;
    }
    Ok(())
}

// Writes the name of a shorthand, whose value is written anew.
#[tactic(auto, unfolding(crate::specs::Chunks::drafted), using(crate::proofs::Drafting::drafted_append))]
fn write_label(
    alloc: Global,
    draft: &mut Draft,
    outlined: &Outlined<'_>,
    before: &Before,
    token: Token,
) -> Result<(), AllocError>
    ensures { OnOk result (draft.new ≡ drafted draft.old (spec.label outlined.now.text before.now.nearest token)) }
{
    if let Some(Mark::Shorthand) = before.nearest {
        let spelling = outlined.spelled(token);
        if is_plain(spelling) {
            draft.plain(spelling)?;
        } else {
            draft.plain(name(alloc, spelling)?.as_slice())?;
        }
        draft.plain(b": ")?;
    }
    Ok(())
}

// How what is written at a token is held together; the marks begin with the token.
fn hold_at(
    outlined: &Outlined<'_>,
    before: &Before,
    change: Change,
    text: &[u8],
    marks: &[Mark],
) -> Hold
    ensures { result ≡ spec.hold_at outlined.now text.now before.now change marks.now }
{
    if is_property(text) && is_called(outlined, before.opens, marks_behind(change.end, marks)) {
        Hold::Comma
    } else if is_loaded(text) && matches!(before.nearest, Some(Mark::Token(Role::New, _))) {
        Hold::Parentheses
    } else {
        Hold::Nothing
    }
}

// Writes what is written in the place of a token, with which the marks begin.
#[tactic(auto, unfolding(crate::specs::Chunks::drafted), using(crate::proofs::Drafting::drafted_append))]
fn write_change(
    alloc: Global,
    draft: &mut Draft,
    outlined: &Outlined<'_>,
    changes: &Changes<'_>,
    before: &Before,
    token: Token,
    change: Change,
    marks: &[Mark],
) -> Result<(), AllocError>
    ensures { OnOk result (draft.new ≡ drafted draft.old (spec.anew outlined.now changes.now before.now token change marks.now)) }
{
    let hold = hold_at(
        outlined,
        before,
        change,
        changes.text_of(change.written),
        marks,
    );
    write_label(alloc, draft, outlined, before, token)?;
    draft.plain(opening_of(hold))?;
    write_new(draft, changes, change.written)?;
    draft.plain(closing_of(hold))
}

// Writes a kept token, with which the marks begin, or what is written in its place.
#[tactic(auto, unfolding(crate::specs::Chunks::drafted), using(crate::proofs::Drafting::drafted_append))]
fn write_token(
    alloc: Global,
    draft: &mut Draft,
    outlined: &Outlined<'_>,
    changes: &Changes<'_>,
    before: &Before,
    token: Token,
    marks: &[Mark],
) -> Result<(), AllocError>
    ensures { OnOk result (draft.new ≡ drafted draft.old (spec.token_chunks outlined.now changes.now before.now token marks.now)) }
{
    draft.plain(gap(outlined, before.last, before.broken, token))?;
    write_head(draft, changes, before)?;
    match changes.change_at(token, before.sites, before.touches) {
        Some(change) => {
            write_change(
                alloc, draft, outlined, changes, before, token, change, marks,
            )
        }
        None => draft.plain(outlined.spelled(token)),
    }
}

// Writes the name of a function or a class that is exported as the default and has none.
#[tactic(auto, unfolding(crate::specs::Chunks::drafted), using(crate::proofs::Drafting::drafted_append))]
fn write_unnamed(
    draft: &mut Draft,
    changes: &Changes<'_>,
    before: &Before,
) -> Result<(), AllocError>
    ensures { OnOk result (draft.new ≡ drafted draft.old (spec.unnamed changes.now before.now.standing before.now.change)) }
{
    if before.standing == Standing::Defaulted
        && let Some(change) = before.change
    {
        draft.plain(b" ")?;
        write_new(draft, changes, change.written)?;
    }
    Ok(())
}

// Writes what is written for the mark with which the marks begin.
#[tactic(auto, unfolding(crate::specs::Chunks::drafted), using(crate::proofs::Drafting::drafted_append))]
fn write_mark(
    alloc: Global,
    draft: &mut Draft,
    outlined: &Outlined<'_>,
    changes: &Changes<'_>,
    before: &Before,
    mark: Mark,
    marks: &[Mark],
) -> Result<(), AllocError>
    ensures { OnOk result (draft.new ≡ drafted draft.old (spec.chunks_for outlined.now changes.now before.now mark marks.now)) }
{
    match mark {
        Mark::Token(_, token) if is_kept(before.standing) && !is_covered(before.change, token) => {
            write_token(alloc, draft, outlined, changes, before, token, marks)
        }
        Mark::NoSemicolon if is_kept(before.standing) => draft.plain(b";"),
        Mark::Unnamed => write_unnamed(draft, changes, before),
        _ => Ok(()),
    }
}

// How many bytes the text has, up to where tokens can lie.
fn text_len(outlined: &Outlined<'_>) -> usize {
    let whole = Token {
        kind: TokenKind::End,
        newline: false,
        start: 0,
        end: u32::MAX,
    };
    outlined.spelled(whole).len()
}

/// The body of a module, as it is spelled in a bundle. The sites of the facts are spelled one by one by `spelling.sites`.
pub fn body_of(
    alloc: Global,
    outlined: &Outlined<'_>,
    facts: &Facts,
    spelling: &Spelling,
    touches: &[Touch],
) -> Result<Body, AllocError>
    ensures { IfOk result (λ body. body ≡ spec.body_of outlined.now (changes_of facts.now spelling.now touches.now)) }
{
    let changes = Changes::new(facts, spelling, touches);
    let mut draft = Draft::new(alloc, text_len(outlined), facts.sites.len())?;
    let mut before = Before::nothing();
    let marks = outlined.marks();
    for (place, mark) in marks.iter().enumerate() {
        write_mark(
            alloc,
            &mut draft,
            outlined,
            &changes,
            &before,
            *mark,
            &marks[place..],
        )?;
        before.pass(&changes, *mark);
    }
    Ok(draft.finish())
}
