ghost use Rattle.std.specs.Prelude.{◌≡◌, ◌<◌, ◌≤◌, ◌^◌, ℕ, List, [], Some, length, slice_get, IfOk, OnOk, OnErr};
ghost use Rattle.pk_text.specs.Places.{place_of, with_text};

use crate::text::{Key, Text};
use indexmap::IndexSet;
use std::alloc::{AllocError, Global};
use std::marker::Model;

/// Distinct texts, seen as their list in the order of their numbers, which is that of first sight.
#[derive(Drop)]
pub struct Interner {
    texts: IndexSet<Text>,
    alloc: Global,
}

impl Model for Interner {
    ghost use Rattle.std.specs.Prelude.{ℕ, List, length, ◌≤◌, ◌^◌};
    ghost use Rattle.std.specs.Coded.{coded_list, coded_ℕ};

    ghost Value = { List (List ℕ) };

    ghost coded = { coded_list (coded_list coded_ℕ) };

    ghost view = { λ interner. interner.texts.keys };

    ghost invariant = { λ interner. length interner.texts.keys ≤ 2 ^ 32 };
}

impl Interner {
    /// No text yet.
    pub fn new(alloc: Global) -> Self
        ensures { result ≡ [] }
    {
        Interner {
            texts: IndexSet::new(alloc),
            alloc,
        }
    }

    /// The number of texts.
    pub fn len(&self) -> usize
        ensures len { result ≡ length self.now }
        ensures bound { length self.now ≤ 2 ^ 32 }
    {
        self.texts.len()
    }

    /// The number of a text, if it has one.
    pub fn find(&self, text: &[u8]) -> Option<u32>
        ensures { result ≡ place_of self.now text.now }
    {
        match self.texts.get_index_of(Key(text)) {
            Some(n) => Some(n as u32),
            None => None,
        }
    }

    /// The text of a number.
    pub fn text_of(&self, n: u32) -> &[u8]
        requires { n < length self.now }
        ensures text { slice_get self.now n ≡ Some result.now }
        ensures place { place_of self.now result.now ≡ Some n }
    {
        self.texts.as_slice()[n as usize].as_slice()
    }

    /// The number of a text, which is the next one where it is new. There is no room for more than 2^32 texts.
    pub fn intern(&mut self, text: &[u8]) -> Result<u32, AllocError>
        ensures place { IfOk result (λ n. place_of self.new text.now ≡ Some n) }
        ensures texts { OnOk result (self.new ≡ with_text self.old text.now) }
        ensures kept { (q : List ℕ) (n : ℕ) → place_of self.old q ≡ Some n
            → place_of self.new q ≡ Some n }
        ensures err { OnErr result (self.new ≡ self.old) }
    {
        if let Some(n) = self.texts.get_index_of(Key(text)) {
            return Ok(n as u32);
        }
        if self.texts.len() > u32::MAX as usize {
            return Err(AllocError);
        }
        let text = Text::from_slice(self.alloc, text)?;
        match self.texts.insert_full(text) {
            Ok((n, _)) => Ok(n as u32),
            Err(_) => Err(AllocError),
        }
    }
}
