//! The words of a guarded record.
ghost use Rattle.std.specs.Prelude.{◌≡◌, ◌≤◌, ◌<◌, ◌-◌, ◌↔◌, ◌∷◌, ◌++◌, [], IsTrue, IsSome, IfSome, length, replicate};
ghost use Rattle.std.specs.Prelude.{take, drop};
ghost use Rattle.stamp_core.specs.Content.{same_words};

use std::fmt;
use std::marker::Model;

/// The most words of a guarded record.
pub const MOST_WORDS: usize = 16;

/// One to sixteen words of 64 bits.
#[derive(Clone, Copy, Debug, PartialEq, Eq)]
pub struct Words {
    len: usize,
    // Zeros stand behind the first `len`.
    words: [u64; MOST_WORDS],
}

impl Model for Words {
    ghost use Rattle.std.specs.Prelude.{List, ℕ};

    ghost Value = { List ℕ };

    ghost use Rattle.std.specs.Prelude.{◌≡◌, ◌≤◌, ◌++◌, ◌-◌, length, take, drop, replicate};
    ghost use Rattle.stamp_core.specs.inner.Words.{padded, padded-take};
    ghost use Rattle.std.proofs.Common.{length-take-le, arith};

    ghost view = { λ w. take w.len w.words };

    ghost invariant = { λ w. (1 ≤ w.len) × (w.len ≤ 16) × (length w.words ≡ 16)
        × (drop w.len w.words ≡ replicate (16 - w.len) 0) };

    ghost inverse = { λ v. record { len = length v; words = padded v } };

    ghost inverse_ok = { λ w h i. record {
      len = length-take-le w.len w.words (Prim.omega (arith, h.1, h.2)) i;
      words = padded-take w.len w.words h.1 h.2 h.3 i;
    } };
}

impl fmt::Display for Words {
    ghost use Rattle.std.specs.Prelude.{Some};
    ghost use Rattle.stamp_core.specs.Texts.{words_text};

    ghost output = { λ words. Some (words_text words) };

    fn fmt<W: fmt::Write>(&self, f: &mut fmt::Formatter<W>) -> fmt::Result {
        write!(f, "{:?}", self.as_slice())
    }
}

impl Words {
    /// Makes words of a slice; `None` where it has none, or more than sixteen.
    pub fn new(words: &[u64]) -> Option<Words>
        ensures some { IsSome result ↔ ((1 ≤ length words.now) × (length words.now ≤ 16)) }
        ensures same { IfSome result (λ made. made ≡ words.now) }
    {
        if words.is_empty() || words.len() > MOST_WORDS {
            return None;
        }
        let mut held = [0; MOST_WORDS];
        for (i, word) in words.iter().enumerate() {
            held[i] = *word;
        }
        Some(Words {
            len: words.len(),
            words: held,
        })
    }

    /// The first `len` words of a row, 1 to 16, in which zeros stand behind them.
    #[inline(always)]
    pub fn of_row(row: [u64; MOST_WORDS], len: usize) -> Words
        requires some { 1 ≤ len }
        requires few { len ≤ 16 }
        requires zeros { drop len row ≡ replicate (16 - len) 0 }
        ensures { result ≡ take len row }
    {
        Words { len, words: row }
    }

    /// One to sixteen zeros: what a record of this width holds at first.
    pub fn zeros(len: usize) -> Words
        requires some { 1 ≤ len }
        requires few { len ≤ 16 }
        ensures { result ≡ replicate len 0 }
    {
        Words {
            len,
            words: [0; MOST_WORDS],
        }
    }

    /// How many words there are.
    #[expect(clippy::len_without_is_empty, reason = "there is always a word")]
    pub fn len(&self) -> usize
        ensures len { result ≡ length self.now }
        ensures some { 1 ≤ length self.now }
        ensures few { length self.now ≤ 16 }
    {
        self.len
    }

    /// The words as a slice, one to sixteen.
    pub fn as_slice(&self) -> &[u64]
        ensures { result.now ≡ self.now }
    {
        &self.words[..self.len]
    }

    /// Whether they are the same words. Unlike `==` its contract says so in the crates above too.
    pub fn is_same(&self, other: &Words) -> bool
        ensures test { result ≡ same_words self.now other.now }
        ensures same { IsTrue result ↔ (self.now ≡ other.now) }
    {
        self.as_slice() == other.as_slice()
    }
}
