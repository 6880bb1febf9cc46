//! Types whose values are written in words.
ghost use Rattle.std.specs.Prelude.{◌≡◌, ◌∷◌, [], map, length};
ghost use Rattle.stamped_lock.specs.InWords.{i64_word, i64_of, f64_word, f64_of, bool_word, bool_of};
ghost use Rattle.stamped_lock.specs.InWords.{ComeBack, IsI64, IsF64};

use std::num::{f64_from_bits_with_nan, f64_to_bits_with_nan};

/// A type whose values are written in `N` words, and come back from them the same. A struct of your
/// own says how in its `words` and two functions. A fact of the struct, or `is_value`, is true of each
/// value that is read.
pub trait InWords<const N: usize>: Copy {
    ghost use Rattle.std.specs.Prelude.{◌≡◌, ℕ, List, length};

    // The words of a value.
    ghost words: { Self → List ℕ };

    // What is true of each value of the type, as that a number is one of its type.
    ghost is_value: { Self → Type 0 } = { λ _. Unit {0} };

    /// The words of the value.
    fn to_words(&self) -> [u64; N]
        ensures words { result ≡ words self.now }
        ensures is_value { is_value self.now };

    /// The value that these are the words of.
    fn from_words(row: &[u64]) -> Self
        requires long { length row.now ≡ N }
        requires words { (value : Self) × is_value value × (row.now ≡ words value) }
        ensures { (value : Self) → is_value value → row.now ≡ words value → result ≡ value };
}

/// A plain type whose values are written in one word, and come back from it the same: `u64`, `i64`,
/// `f64` or `bool`. Pairs of such types are written in two words, and a field of a struct by its type. A
/// struct of your own of one word has `InWords<1>`, as any other.
pub trait InWord: Copy {
    ghost use Rattle.std.specs.Prelude.{◌≡◌, ℕ};

    // The word of a value.
    ghost word: { Self → ℕ };

    // The value of a word.
    ghost value: { ℕ → Self };

    /// The word of the value.
    fn to_word(&self) -> u64
        ensures word { result ≡ word self.now }
        ensures back { value result ≡ self.now };

    /// The value that this is the word of.
    fn from_word(number: u64) -> Self
        ensures { result ≡ value number };
}

impl InWord for u64 {
    ghost word = { λ n. n };

    ghost value = { λ n. n };

    fn to_word(&self) -> u64 {
        *self
    }

    fn from_word(number: u64) -> u64 {
        number
    }
}

impl InWord for i64 {
    ghost word = { i64_word };

    ghost value = { i64_of };

    fn to_word(&self) -> u64 {
        self.cast_unsigned()
    }

    fn from_word(number: u64) -> i64 {
        number.cast_signed()
    }
}

impl InWord for bool {
    ghost word = { bool_word };

    ghost value = { bool_of };

    fn to_word(&self) -> u64 {
        u64::from(*self)
    }

    fn from_word(number: u64) -> bool {
        number != 0
    }
}

/// The bits of a number; each NaN has the same.
fn bits_of(x: f64) -> u64
    ensures bits { result ≡ f64_word x }
    ensures back { f64_of result ≡ x }
{
    f64_to_bits_with_nan(x)
}

impl InWord for f64 {
    ghost word = { f64_word };

    ghost value = { f64_of };

    fn to_word(&self) -> u64 {
        bits_of(*self)
    }

    fn from_word(number: u64) -> f64 {
        f64_from_bits_with_nan(number)
    }
}

impl InWords<1> for u64 {
    ghost words = { λ n. n ∷ [] };

    fn to_words(&self) -> [u64; 1] {
        [self.to_word()]
    }

    fn from_words(row: &[u64]) -> u64 {
        u64::from_word(row[0])
    }
}

impl InWords<1> for i64 {
    ghost words = { λ z. i64_word z ∷ [] };

    ghost is_value = { IsI64 };

    fn to_words(&self) -> [u64; 1] {
        [self.to_word()]
    }

    fn from_words(row: &[u64]) -> i64 {
        i64::from_word(row[0])
    }
}

impl InWords<1> for f64 {
    ghost words = { λ x. f64_word x ∷ [] };

    ghost is_value = { IsF64 };

    fn to_words(&self) -> [u64; 1] {
        [self.to_word()]
    }

    fn from_words(row: &[u64]) -> f64 {
        f64::from_word(row[0])
    }
}

impl InWords<1> for bool {
    ghost words = { λ b. bool_word b ∷ [] };

    fn to_words(&self) -> [u64; 1] {
        [self.to_word()]
    }

    fn from_words(row: &[u64]) -> bool {
        bool::from_word(row[0])
    }
}

impl<A: InWord, B: InWord> InWords<2> for (A, B) {
    ghost words = { λ pair. A.word pair.0 ∷ B.word pair.1 ∷ [] };

    ghost is_value = { λ pair. (A.value (A.word pair.0) ≡ pair.0) × (B.value (B.word pair.1) ≡ pair.1) };

    fn to_words(&self) -> [u64; 2] {
        [self.0.to_word(), self.1.to_word()]
    }

    fn from_words(row: &[u64]) -> (A, B) {
        (A::from_word(row[0]), B::from_word(row[1]))
    }
}

impl<const N: usize> InWords<N> for [u64; N] {
    ghost words = { λ row. row };

    fn to_words(&self) -> [u64; N] {
        *self
    }

    fn from_words(row: &[u64]) -> [u64; N] {
        let mut values = [0; N];
        values.copy_from_slice(row);
        values
    }
}

/// The words of the values, one of each.
fn words_of<const N: usize, T: InWord>(values: &[T; N]) -> [u64; N]
    ensures words { result ≡ map T.word values.now }
    ensures back { map T.value result ≡ values.now }
{
    let mut row = [0; N];
    for i in 0..N {
        row[i] = values[i].to_word();
    }
    row
}

/// The values that these are the words of.
fn values_of<const N: usize, T: InWord>(row: &[u64]) -> [T; N]
    requires { length row.now ≡ N }
    ensures { result ≡ map T.value row.now }
{
    let mut values = [T::from_word(0); N];
    for i in 0..N {
        values[i] = T::from_word(row[i]);
    }
    values
}

impl<const N: usize> InWords<N> for [i64; N] {
    ghost words = { map i64_word };

    ghost is_value = { ComeBack i64_of i64_word };

    fn to_words(&self) -> [u64; N] {
        words_of(self)
    }

    fn from_words(row: &[u64]) -> [i64; N] {
        values_of(row)
    }
}

impl<const N: usize> InWords<N> for [f64; N] {
    ghost words = { map f64_word };

    ghost is_value = { ComeBack f64_of f64_word };

    fn to_words(&self) -> [u64; N] {
        words_of(self)
    }

    fn from_words(row: &[u64]) -> [f64; N] {
        values_of(row)
    }
}

impl<const N: usize> InWords<N> for [bool; N] {
    ghost words = { map bool_word };

    ghost is_value = { ComeBack bool_of bool_word };

    fn to_words(&self) -> [u64; N] {
        words_of(self)
    }

    fn from_words(row: &[u64]) -> [bool; N] {
        values_of(row)
    }
}
