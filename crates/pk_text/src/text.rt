ghost use Rattle.std.specs.Prelude.{◌≡◌, ◌↔◌, IsTrue, ℕ, List, [], ◌∷◌, IfOk, length};
ghost use Rattle.std.specs.Str.{bytes_eq};
ghost use Rattle.std.specs.Cmp as compared;
ghost use Rattle.std.specs.Cmp.Lexicographic.{bytes_decides, nat_list_eq_equiv};
ghost use Rattle.std.proofs.Common.{ap};

use indexmap::Equivalent;
use std::alloc::{AllocError, Global};
use std::hash::{Hash, Hasher};
use std::marker::Model;

/// Bytes of a name, a path or a request. Contracts see the list of the bytes, which are hashed in one write.
#[derive(Debug, Drop)]
pub struct Text {
    bytes: Vec<u8>,
}

impl Model for Text {
    ghost use Rattle.std.specs.Prelude.{ℕ, List};
    ghost use Rattle.std.specs.Coded.{coded_list, coded_ℕ};

    ghost Value = { List ℕ };

    ghost coded = { coded_list coded_ℕ };

    ghost view = { λ text. text.bytes.items };
}

impl Text {
    /// A copy on the heap.
    pub fn from_slice(alloc: Global, bytes: &[u8]) -> Result<Text, AllocError>
        ensures { IfOk result (λ text. text ≡ bytes.now) }
    {
        let bytes = Vec::from_slice(alloc, bytes)?;
        Ok(Text { bytes })
    }

    /// The bytes of a `Vec`, without a copy.
    pub fn from_vec(bytes: Vec<u8>) -> Text
        ensures { result ≡ bytes.items }
    {
        Text { bytes }
    }

    /// The bytes, borrowed.
    pub fn as_slice(&self) -> &[u8]
        ensures { result.now ≡ self.now }
    {
        self.bytes.as_slice()
    }

    /// The `Vec` that it stands on, without a copy.
    pub fn into_vec(self) -> Vec<u8>
        ensures { result.items ≡ self }
    {
        let Text { bytes } = self;
        bytes
    }

    /// The number of bytes.
    pub fn len(&self) -> usize
        ensures { result ≡ length self.now }
    {
        self.bytes.len()
    }

    /// Whether there is no byte.
    pub fn is_empty(&self) -> bool
        ensures { IsTrue result ↔ (self.now ≡ []) }
    {
        self.bytes.is_empty()
    }
}

impl PartialEq for Text {
    ghost eq = { bytes_eq };

    ghost laws = { compared.partial_equiv_from_equiv nat_list_eq_equiv };

    fn eq(&self, other: &Text) -> bool {
        self.bytes.as_slice() == other.bytes.as_slice()
    }
}

impl Eq for Text {
    ghost laws = { nat_list_eq_equiv };
}

impl Hash for Text {
    ghost hash_input = { λ text. text ∷ [] };

    ghost respects_eq = { λ x y h. ap (λ text. text ∷ []) ((bytes_decides x y).0 h) };

    fn hash<H: Hasher>(&self, state: &mut H) {
        state.write(self.bytes.as_slice());
    }
}

/// Borrowed bytes, by which a map or set with `Text` keys is asked.
#[derive(Clone, Copy)]
pub struct Key<'a>(pub &'a [u8]);

impl<'a> PartialEq for Key<'a> {
    ghost eq = { λ a b. bytes_eq a.0.now b.0.now };

    ghost laws = { compared.on_per (λ key. key.0.now) (compared.partial_equiv_from_equiv nat_list_eq_equiv) };

    fn eq(&self, other: &Key<'a>) -> bool {
        self.0 == other.0
    }
}

impl<'a> Eq for Key<'a> {
    ghost laws = { compared.on_equiv (λ key. key.0.now) nat_list_eq_equiv };
}

impl<'a> Hash for Key<'a> {
    ghost hash_input = { λ key. key.0.now ∷ [] };

    ghost respects_eq = { λ x y h. ap (λ text. text ∷ []) ((bytes_decides x.0.now y.0.now).0 h) };

    fn hash<H: Hasher>(&self, state: &mut H) {
        state.write(self.0);
    }
}

impl<'a> Equivalent<Text> for Key<'a> {
    ghost equivalent = { λ key text. bytes_eq key.0.now text };

    ghost respects_hash = { λ key text h. ap (λ bytes. bytes ∷ []) ((bytes_decides key.0.now text).0 h) };

    ghost respects_eq = { λ key x y. nat_list_eq_equiv.congr key.0.now x y };

    fn equivalent(&self, text: &Text) -> bool {
        self.0 == text.as_slice()
    }
}
