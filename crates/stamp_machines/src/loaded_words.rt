//! Words that a call of the record has loaded so far.
ghost use Rattle.std.specs.Prelude.{◌≡◌, ◌≤◌, ◌<◌, ◌∷◌, ◌++◌, [], length};
ghost use Rattle.stamp_core.specs.Content.{same_words};

use stamp_core::{MOST_WORDS, Words};
use std::marker::Model;

/// None to sixteen words, in the order in which they were loaded.
#[derive(Drop)]
pub(crate) struct LoadedWords {
    len: usize,
    words: [u64; MOST_WORDS],
}

impl Model for LoadedWords {
    ghost use Rattle.std.specs.Prelude.{List, ℕ};

    ghost Value = { List ℕ };

    ghost use Rattle.std.specs.Prelude.{◌≡◌, ◌≤◌, length, take};

    ghost view = { λ l. take l.len l.words };

    ghost invariant = { λ l. (l.len ≤ 16) × (length l.words ≡ 16) };
}

impl LoadedWords {
    /// No word.
    pub(crate) fn none() -> LoadedWords
        ensures { result ≡ [] }
    {
        LoadedWords {
            len: 0,
            words: [0; MOST_WORDS],
        }
    }

    /// How many they are.
    #[inline(always)]
    pub(crate) fn len(&self) -> usize
        ensures len { result ≡ length self.now }
        ensures few { length self.now ≤ 16 }
    {
        self.len
    }

    /// Forgets them all.
    #[inline(always)]
    pub(crate) fn clear(&mut self)
        ensures { self.new ≡ [] }
    {
        self.len = 0;
    }

    /// Adds a word.
    #[inline(always)]
    pub(crate) fn push(&mut self, word: u64)
        requires { length self.old < 16 }
        ensures { self.new ≡ self.old ++ word ∷ [] }
    {
        self.words[self.len] = word;
        self.len += 1;
    }

    fn as_slice(&self) -> &[u64]
        ensures words { result.now ≡ self.now }
        ensures few { length self.now ≤ 16 }
    {
        &self.words[..self.len]
    }

    /// All of them, of which there is at least one.
    pub(crate) fn words(&self) -> Words
        requires { 1 ≤ length self.now }
        ensures { result ≡ self.now }
    {
        Words::new(self.as_slice()).unwrap()
    }
}
