//! The limits of a lock.
ghost use Rattle.std.specs.Prelude.{◌≡◌, ◌≤◌, ◌↔◌, IsOk, IfOk, IsSome, IfSome, IsTrue};
ghost use Rattle.stamp_core.specs.Limits.{AreInRange, bounds, widest};
ghost use Rattle.stamp_core.specs.Word.{IsAdmitted, word_at};
ghost use Rattle.stamp_core.specs.Decoded.{counts_in};
ghost use Rattle.stamp_core.specs.inner.Decoded.{IsWithinLimits};

use crate::known_layout::KnownLayout;
use crate::layout::Layout;
use crate::word::Word;
use std::error::Error;
use std::fmt;
use std::marker::Model;

/// Why limits are refused.
#[derive(Clone, Copy, Debug, PartialEq, Eq)]
pub enum CoreError {
    /// 1: no reader at all, or more readers or write acquisitions than the layout has room for.
    LimitsOutOfRange,
}

impl fmt::Display for CoreError {
    fn fmt<W: fmt::Write>(&self, f: &mut fmt::Formatter<W>) -> fmt::Result {
        match self {
            CoreError::LimitsOutOfRange => {
                write!(
                    f,
                    "no reader, or more readers or versions than the layout has room for"
                )
            }
        }
    }
}

impl Error for CoreError {}

/// How many readers a lock may have at a time, and how many write acquisitions in all.
#[derive(Clone, Copy, Debug, PartialEq, Eq)]
pub struct Limits {
    layout: Layout,
    readers: u64,
    versions: u64,
}

impl Model for Limits {
    ghost use Rattle.stamp_core.specs.Limits.{Bounds, bounds, AreInRange};

    ghost Value = { Bounds };

    ghost view = { λ l. bounds l.layout l.readers l.versions };

    ghost invariant = { λ l. AreInRange (bounds l.layout l.readers l.versions) };

    ghost inverse = { λ b. record { layout = b.layout; readers = b.readers; versions = b.versions } };
}

impl Limits {
    /// Makes limits of layout 1, with 1 to 127 readers and up to 2^55-2 write acquisitions. Others
    /// are refused as 1 `LimitsOutOfRange`.
    pub fn new(readers: u64, versions: u64) -> Result<Limits, CoreError>
        ensures ok { IfOk result (λ limits. limits ≡ bounds Layout.One readers versions) }
        ensures in_range { IsOk result ↔ AreInRange (bounds Layout.One readers versions) }
    {
        Limits::in_layout(Layout::One, readers, versions)
    }

    /// Makes limits of a layout, of layout 1 as `new` does. In layout 2 they have 1 to 65,535
    /// readers and up to 2^46-2 write acquisitions. Others are refused as 1 `LimitsOutOfRange`.
    pub fn in_layout(layout: Layout, readers: u64, versions: u64) -> Result<Limits, CoreError>
        ensures ok { IfOk result (λ limits. limits ≡ bounds layout readers versions) }
        ensures in_range { IsOk result ↔ AreInRange (bounds layout readers versions) }
    {
        if readers < 1 || readers > layout.most_readers() || versions > layout.most_versions() {
            Err(CoreError::LimitsOutOfRange)
        } else {
            Ok(Limits {
                layout,
                readers,
                versions,
            })
        }
    }

    /// The widest limits of a layout.
    #[tactic(auto, unfolding(crate::specs::Layout::units_of))]
    pub fn widest(layout: Layout) -> Limits
        ensures widest { result ≡ widest layout }
        ensures version { 1 ≤ result.versions }
    {
        Limits {
            layout,
            readers: layout.most_readers(),
            versions: layout.most_versions(),
        }
    }

    /// The limits themselves, of which the compiler sees the layout where `L` fixes it.
    #[inline(always)]
    pub fn seen<L: KnownLayout>(self) -> Limits
        requires { L.seen self.layout ≡ self.layout }
        ensures { result ≡ self }
    {
        Limits {
            layout: L::layout(self),
            readers: self.readers,
            versions: self.versions,
        }
    }

    /// How the lock's words and stamps are laid out.
    pub fn layout(&self) -> Layout
        ensures layout { result ≡ self.now.layout }
        ensures in_range { AreInRange self.now }
    {
        self.layout
    }

    /// The most readers at a time.
    pub fn readers(&self) -> u64
        ensures readers { result ≡ self.now.readers }
        ensures in_range { AreInRange self.now }
    {
        self.readers
    }

    /// The most write acquisitions in all.
    pub fn versions(&self) -> u64
        ensures versions { result ≡ self.now.versions }
        ensures in_range { AreInRange self.now }
    {
        self.versions
    }

    /// Touches a field, by which the prover knows the invariant of the type.
    pub(crate) fn known(&self)
        ensures { AreInRange self.now }
    {
        let _ = &self.readers;
    }

    /// Whether the word is of the limits' layout, with no more readers and write acquisitions.
    pub fn admits(&self, word: Word) -> bool
        ensures { IsTrue result ↔ IsAdmitted self.now word }
    {
        if word.layout().is_same(self.layout()) {
            self.known();
            word.known();
            self.covers(word)
        } else {
            false
        }
    }

    fn covers(&self, word: Word) -> bool
        ensures { IsTrue result ↔ ((counts_in word).readers ≤ self.now.readers)
            × ((counts_in word).write_count ≤ self.now.versions) }
    {
        word.reader_count() <= self.readers && word.write_count() <= self.versions
    }

    /// The word of a number that the limits admit, which is not tested again.
    pub fn word(&self, bits: u64) -> Word
        requires { IsAdmitted self.now (word_at self.now bits) }
        ensures { result ≡ word_at self.now bits }
    {
        self.known();
        Word::of_state(self.layout(), bits)
    }

    /// The word of this number; `None` where the limits admit none of it.
    #[inline(always)]
    pub fn word_from_bits(&self, bits: u64) -> Option<Word>
        ensures bits { IfSome result (λ word. word ≡ word_at self.now bits) }
        ensures some { IsSome result ↔ IsAdmitted self.now (word_at self.now bits) }
    {
        self.known();
        if self.covers_bits(bits) {
            Some(self.word(bits))
        } else {
            None
        }
    }

    #[inline(always)]
    #[tactic(auto, unfolding(crate::specs::Decoded::counts_of), using(crate::proofs::TwoLayouts::either_layout))]
    fn covers_bits(&self, bits: u64) -> bool
        ensures { IsTrue result ↔ IsWithinLimits self.now bits }
    {
        let holders = self.layout.holders_of(bits);
        let begun = self.layout.version_units_in(bits);
        if holders == self.layout.writer_unit() {
            begun > 0 && begun <= self.versions
        } else {
            begun > 0 && begun <= self.versions + 1 && holders <= self.readers
        }
    }
}
