ghost use Rattle.std.specs.Prelude.{◌≡◌, ◌*◌, ◌<◌, ◌&&◌, ◌||◌, ℕ, List, true, false, nat_eq, nat_lt, length, replicate, sum_by, IfOk};
ghost use Rattle.avail_sets.specs.Words.{flag_in, words_for};

use std::alloc::{AllocError, Global};
use std::marker::Model;

// The flags of a word.
const WORD: usize = 64;

// So many words, all zero.
fn zeros(alloc: Global, count: usize) -> Result<Vec<u64>, AllocError>
    ensures { IfOk result (λ words. words.items ≡ replicate count 0) }
{
    vec![in alloc; 0; count]
}

/// A row of flags, 64 to a word.
#[derive(Drop)]
pub struct Row {
    words: Vec<u64>,
}

impl Model for Row {
    ghost use Rattle.std.specs.Prelude.{List, ℕ};

    ghost Value = { List ℕ };

    ghost view = { λ row. row.words.items };
}

impl Row {
    /// A row of so many flags, none of them set.
    pub fn empty(alloc: Global, count: u32) -> Result<Row, AllocError>
        ensures long { IfOk result (λ row. length row ≡ words_for count) }
        ensures flags { IfOk result (λ row. (number : ℕ) → flag_in row number ≡ false) }
    {
        Ok(Row {
            words: zeros(alloc, (count as usize).div_ceil(WORD))?,
        })
    }

    /// A row of so many flags, all of them set.
    pub fn full(alloc: Global, count: u32) -> Result<Row, AllocError>
        ensures long { IfOk result (λ row. length row ≡ words_for count) }
        ensures flags { IfOk result (λ row. (number : ℕ) → flag_in row number ≡ nat_lt number count) }
    {
        let mut row = Row::empty(alloc, count)?;
        for number in 0..count {
            row.set(number);
        }
        Ok(row)
    }

    /// Its words, the lowest bit first.
    pub fn words(&self) -> &[u64]
        ensures { result.now ≡ self.now }
    {
        self.words.as_slice()
    }

    /// Whether a flag is set.
    pub fn has(&self, number: u32) -> bool
        requires { number < 64 * length self.now }
        ensures { result ≡ flag_in self.now number }
    {
        let place = number as usize;
        self.words[place / WORD] >> (place % WORD) & 1 == 1
    }

    /// Sets a flag.
    pub fn set(&mut self, number: u32)
        requires { number < 64 * length self.old }
        ensures long { length self.new ≡ length self.old }
        ensures flags { (other : ℕ) → flag_in self.new other ≡ (nat_eq other number || flag_in self.old other) }
    {
        let place = number as usize;
        self.words[place / WORD] |= 1 << (place % WORD);
    }

    /// Takes over the flags of a row of the same length.
    pub fn copy_from(&mut self, other: &Row)
        requires { length self.old ≡ length other.now }
        ensures { self.new ≡ other.now }
    {
        self.words.copy_from_slice(other.words.as_slice());
    }

    /// Keeps only the flags that another row of the same length has too. Whether a flag went.
    pub fn keep_common(&mut self, other: &Row) -> bool
        requires { length self.old ≡ length other.now }
        ensures long { length self.new ≡ length self.old }
        ensures flags { (number : ℕ) → flag_in self.new number ≡ (flag_in self.old number && flag_in other.now number) }
        ensures same { result ≡ false → self.new ≡ self.old }
        ensures fewer { result ≡ true → sum_by (λ word. word) self.new < sum_by (λ word. word) self.old }
    {
        let mut went = false;
        for (place, word) in other.words.iter().enumerate() {
            let kept = self.words[place] & *word;
            if kept != self.words[place] {
                self.words[place] = kept;
                went = true;
            }
        }
        went
    }
}
