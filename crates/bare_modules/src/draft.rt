ghost use Rattle.std.specs.Prelude.{◌≡◌, ◌≤◌, [], None, length, IfOk, OnOk};
ghost use Rattle.std.specs.List.{list_any};
ghost use Rattle.std.specs.Option.{ForSome};
ghost use Rattle.bare_modules.specs.Body.{is_line_end, separator_of};
ghost use Rattle.bare_modules.specs.Scanning as spec;
ghost use Rattle.bare_modules.specs.Statements.{unquoted};

use crate::parts::Part;
use crate::read::ModuleText;
use crate::steps::Deed;
use es_tree::Token;
use indexmap::IndexSet;
use pk_types::{Kind, Sequence, Text};
use std::alloc::{AllocError, Global};
use std::marker::Model;

/// What was read of a module's text so far.
#[derive(Drop)]
pub struct Draft {
    // The tokens of the calls, joined.
    body: Vec<u8>,
    // Where the last of them ended.
    end: Option<u32>,
    has_script_name: bool,
    // What the declarations ask for, each once.
    requests: IndexSet<Text>,
}

impl Model for Draft {
    ghost use Rattle.bare_modules.specs.Scanning.{Drafted};

    ghost Value = { Drafted };

    ghost view = { λ draft. record { body = draft.body.items; end = draft.end; has_script_name = draft.has_script_name; requests = draft.requests.keys } };
}

fn has_line_end(gap: &[u8]) -> bool
    ensures { result ≡ list_any is_line_end gap.now }
{
    gap.iter().any(|c| *c == b'\n' || *c == b'\r')
}

// What is put between two tokens, for what stood there.
fn separator(gap: &[u8]) -> Option<u8>
    ensures { result ≡ separator_of gap.now }
{
    if gap.is_empty() {
        None
    } else if has_line_end(gap) {
        Some(b'\n')
    } else {
        Some(b' ')
    }
}

// What stands between the quotes of a string.
fn unquoted(word: &[u8]) -> &[u8]
    ensures { result.now ≡ unquoted word.now }
{
    match word {
        [_, text @ .., _] => text,
        _ => b"",
    }
}

impl Draft {
    /// What is known before the first token, with room for a body of so many bytes.
    pub fn new(alloc: Global, capacity: usize) -> Result<Draft, AllocError>
        ensures { IfOk result (λ draft. draft ≡ spec.empty_draft) }
    {
        Ok(Draft {
            body: Vec::with_capacity(alloc, capacity)?,
            end: None,
            has_script_name: false,
            requests: IndexSet::new(alloc),
        })
    }

    // Puts a token behind the body.
    fn keep(&mut self, text: &[u8], token: Token, part: Part) -> Result<(), AllocError>
        requires ordered { ForSome self.old.end (λ end. end ≤ token.start) }
        requires ends { token.start ≤ token.end }
        requires inside { token.end ≤ length text.now }
        ensures { OnOk result (self.new ≡ spec.put text.now self.old part token) }
    {
        if let Some(end) = self.end
            && let Some(byte) = separator(&text[end as usize..token.start as usize])
        {
            self.body.push(byte)?;
        }
        self.body
            .extend_from_slice(&text[token.start as usize..token.end as usize])?;
        self.end = Some(token.end);
        if let Part::ScriptName = part {
            self.has_script_name = true;
        }
        Ok(())
    }

    /// Does with a token what is to be done with it. After an `Err` the draft is of no use.
    pub fn take(
        &mut self,
        alloc: Global,
        text: &[u8],
        token: Token,
        part: Part,
        deed: Deed,
    ) -> Result<(), AllocError>
        requires ordered { ForSome self.old.end (λ end. end ≤ token.start) }
        requires ends { token.start ≤ token.end }
        requires inside { token.end ≤ length text.now }
        ensures { OnOk result (self.new ≡ spec.done text.now deed self.old part token) }
    {
        match deed {
            Deed::Keep => self.keep(text, token, part)?,
            Deed::Ask => {
                let request = unquoted(&text[token.start as usize..token.end as usize]);
                self.requests.insert(Text::from_slice(alloc, request)?)?;
            }
            Deed::Drop => {}
        }
        Ok(())
    }

    /// What the text says, once it is read.
    pub fn finish(self, alloc: Global) -> Result<Option<ModuleText>, AllocError>
        ensures { IfOk result (λ found. found ≡ spec.finished self) }
    {
        let Draft {
            body,
            has_script_name,
            requests,
            ..
        } = self;
        let kind = if requests.is_empty() {
            Kind::Cjs
        } else {
            Kind::Es
        };
        if has_script_name && kind == Kind::Es {
            return Ok(None);
        }
        let requests = requests.into_iter().collect(alloc)?;
        Ok(Some(ModuleText {
            kind,
            requests: Sequence::from_vec(requests),
            body: Text::from_vec(body),
        }))
    }
}
