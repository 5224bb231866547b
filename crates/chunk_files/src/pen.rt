// What is being written: its bytes, or only how many they are.
ghost use Rattle.std.specs.Prelude.{◌≡◌, true, false, OnOk};
ghost use Rattle.std.specs.Fmt.{decimal};
ghost use Rattle.chunk_files.specs.Pens.{blank, penned};

use itoa::Buffer;
use pk_types::Text;
use std::alloc::{AllocError, Global};
use std::marker::Model;

/// A text that grows, and its size. A pen that only measures keeps no byte and takes no memory.
#[derive(Drop)]
pub(crate) struct Pen {
    keeps: bool,
    text: Vec<u8>,
    size: u64,
}

impl Model for Pen {
    ghost use Rattle.chunk_files.specs.Pens.{Penned};

    ghost Value = { Penned };

    ghost view = { λ pen. record {
      keeps = pen.keeps;
      text = pen.text.items;
      size = pen.size;
    } };
}

impl Pen {
    /// A pen that keeps what it writes.
    pub fn writing(alloc: Global) -> Pen
        ensures { result ≡ blank true }
    {
        Pen {
            keeps: true,
            text: Vec::new(alloc),
            size: 0,
        }
    }

    /// A pen that only measures.
    pub fn measuring(alloc: Global) -> Pen
        ensures { result ≡ blank false }
    {
        Pen {
            keeps: false,
            text: Vec::new(alloc),
            size: 0,
        }
    }

    /// Writes bytes.
    #[tactic(auto, unfolding(crate::specs::Pens::penned), using(crate::proofs::Penning::room_left))]
    pub fn put(&mut self, bytes: &[u8]) -> Result<(), AllocError>
        ensures { OnOk result (self.new ≡ penned self.old bytes.now) }
    {
        if self.keeps {
            self.text.extend_from_slice(bytes)?;
        }
        self.size = self.size.saturating_add(bytes.len() as u64);
        Ok(())
    }

    /// Writes the decimal digits of a number.
    pub fn put_number(&mut self, number: u64) -> Result<(), AllocError>
        ensures { OnOk result (self.new ≡ penned self.old (decimal number)) }
    {
        let mut buffer = Buffer::new();
        self.put(buffer.format(number).as_bytes())
    }

    /// What was written, if it was kept.
    pub fn into_text(self) -> Text
        ensures { result ≡ self.text }
    {
        let Pen { text, .. } = self;
        Text::from_vec(text)
    }

    /// How many bytes were written, or the type's last value.
    pub fn size(&self) -> u64
        ensures { result ≡ self.now.size }
    {
        self.size
    }
}
