//! A body that is being written.
ghost use Rattle.std.specs.Prelude.{◌≡◌, IfOk, OnOk};
ghost use Rattle.module_body.specs.Chunks as spec;

use emit_body::{Body, Piece};
use pk_types::{Sequence, Text};
use std::alloc::{AllocError, Global};
use std::marker::Model;

/// The text and the pieces so far. Contracts see with them how many bytes stand behind the last site.
#[derive(Drop)]
pub(crate) struct Draft {
    text: Vec<u8>,
    pieces: Vec<Piece>,

    // Where the last site ends.
    end: usize,
}

impl Model for Draft {
    ghost use Rattle.std.specs.Prelude.{◌-◌, ◌≤◌, length};
    ghost use Rattle.module_body.specs.Chunks.{Drafted};

    ghost Value = { Drafted };

    ghost view = { λ draft. record {
      text = draft.text.items;
      pieces = draft.pieces.items;
      plain = length draft.text.items - draft.end;
    } };

    ghost invariant = { λ draft. draft.end ≤ length draft.text.items };
}

impl Draft {
    /// Nothing, with room for so many bytes and sites.
    pub fn new(alloc: Global, bytes: usize, sites: usize) -> Result<Draft, AllocError>
        ensures { IfOk result (λ draft. draft ≡ spec.no_draft) }
    {
        Ok(Draft {
            text: Vec::with_capacity(alloc, bytes)?,
            pieces: Vec::with_capacity(alloc, sites)?,
            end: 0,
        })
    }

    /// Writes plain bytes.
    #[tactic(auto, using(crate::proofs::Drafting::plain_grows))]
    pub fn plain(&mut self, bytes: &[u8]) -> Result<(), AllocError>
        ensures { OnOk result (self.new ≡ spec.one_drafted self.old (spec.Chunk.plain bytes.now)) }
    {
        self.text.extend_from_slice(bytes)?;
        Ok(())
    }

    /// Writes a site that has this letter.
    #[tactic(auto, using(crate::proofs::Drafting::none_left))]
    pub fn site(&mut self, letter: u8, bytes: &[u8]) -> Result<(), AllocError>
        ensures { OnOk result (self.new ≡ spec.one_drafted self.old (spec.Chunk.site letter bytes.now)) }
    {
        self.pieces.push(Piece {
            plain: (self.text.len() - self.end) as u64,
            kind: letter,
            site: bytes.len() as u64,
        })?;
        self.text.extend_from_slice(bytes)?;
        self.end = self.text.len();
        Ok(())
    }

    /// The body.
    pub fn finish(self) -> Body
        ensures { result ≡ record { text = self.text; pieces = self.pieces } }
    {
        let Draft { text, pieces, .. } = self;
        Body {
            text: Text::from_vec(text),
            pieces: Sequence::from_vec(pieces),
        }
    }
}
