//! The lock's word.
ghost use Rattle.std.specs.Prelude.{◌≡◌, ◌<◌, ◌≤◌, ◌+◌, ◌-◌, ◌==◌, ◌↔◌, IsSome, IfSome, IsTrue, []};
ghost use Rattle.stamp_core.specs.Layout.{units_of};
ghost use Rattle.stamp_core.specs.Limits.{Bounds, widest};
ghost use Rattle.stamp_core.specs.LockEvent.{write_count, writers, readers};
ghost use Rattle.stamp_core.specs.LockEvent.LockEvent.{WriteAcquired, WriteReleased, ReadAcquired, ReadReleased};
ghost use Rattle.stamp_core.specs.Word.{word_in, IsAdmitted, Represents, HoldsForEvents};
ghost use Rattle.stamp_core.specs.Stamp.{write_stamp, optimistic_stamp, read_stamp, is_held_write, is_held_read, is_valid};
ghost use Rattle.stamp_core.specs.Decoded.{IsState, counts_in, after_event};
ghost use Rattle.stamp_core.specs.Transition.{may_write, may_read};

use crate::layout::Layout;
use crate::limits::Limits;
use std::marker::Model;

/// The first number above all states and their writer.
const END: u64 = 1 << 63;

#[tactic(auto, using(crate::proofs::TwoLayouts::either_layout))]
fn is_state(layout: Layout, bits: u64) -> bool
    ensures { IsTrue result ↔ IsState (word_in layout bits) }
{
    bits >= layout.version_unit()
        && bits < END - layout.writer_unit()
        && layout.holders_of(bits) <= layout.writer_unit()
}

/// The state of a lock as one number: its version, and its writer or readers.
#[derive(Clone, Copy, Debug, PartialEq, Eq)]
pub struct Word {
    layout: Layout,
    bits: u64,
}

impl Model for Word {
    ghost use Rattle.stamp_core.specs.Word.{LockWord, word_in};
    ghost use Rattle.stamp_core.specs.Decoded.{IsState};

    ghost Value = { LockWord };

    ghost view = { λ w. word_in w.layout w.bits };

    ghost invariant = { λ w. IsState (word_in w.layout w.bits) };

    ghost inverse = { λ w. record { layout = w.layout; bits = w.bits } };
}

impl Word {
    /// The word of a new lock: no holder, and none before.
    #[tactic(auto, using(crate::proofs::TwoLayouts::either_layout))]
    pub fn opening_in(layout: Layout) -> Word
        ensures layout { result.layout ≡ layout }
        ensures represented { (limits : Bounds) → limits.layout ≡ layout
            → Represents limits result [] }
    {
        Word {
            layout,
            bits: layout.version_unit(),
        }
    }

    /// The word of a new lock in layout 1: 256.
    pub fn opening() -> Word
        ensures layout { result.layout ≡ Layout.One }
        ensures represented { (limits : Bounds) → limits.layout ≡ Layout.One
            → Represents limits result [] }
    {
        Word::opening_in(Layout::One)
    }

    /// The word of this number in a layout; `None` where no state of a lock has it.
    pub fn from_bits_in(layout: Layout, bits: u64) -> Option<Word>
        ensures bits { IfSome result (λ word. word ≡ word_in layout bits) }
        ensures some { IsSome result ↔ IsAdmitted (widest layout) (word_in layout bits) }
    {
        Word::decoded(layout, bits)
    }

    /// The word of this number in layout 1; `None` where no state of a lock has it.
    pub fn from_bits(bits: u64) -> Option<Word>
        ensures bits { IfSome result (λ word. word ≡ word_in Layout.One bits) }
        ensures some { IsSome result ↔ IsAdmitted (widest Layout.One) (word_in Layout.One bits) }
    {
        Word::from_bits_in(Layout::One, bits)
    }

    /// The layout whose word it is.
    pub fn layout(&self) -> Layout
        ensures { result ≡ self.now.layout }
    {
        self.layout
    }

    /// The number of the word.
    pub fn bits(&self) -> u64
        ensures bits { result ≡ self.now.bits }
        ensures admitted { IsAdmitted (widest self.now.layout) self.now }
    {
        self.known();
        self.bits
    }

    /// How often write mode was acquired so far.
    pub fn writes(&self) -> u64
        ensures { HoldsForEvents self.now (λ events. result ≡ write_count events) }
    {
        self.write_count()
    }

    /// How many hold read mode.
    pub fn readers(&self) -> u64
        ensures { HoldsForEvents self.now (λ events. result ≡ readers events) }
    {
        self.reader_count()
    }

    /// Whether write mode is held.
    pub fn is_writing(&self) -> bool
        ensures { HoldsForEvents self.now (λ events. IsTrue result ↔ (writers events ≡ 1)) }
    {
        self.has_writer()
    }
}

/// The number read back. What is public says the same of events.
#[tactic(auto, unfolding(crate::specs::Decoded::counts_of), using(crate::proofs::TwoLayouts::either_layout))]
impl Word {
    pub(crate) fn decoded(layout: Layout, bits: u64) -> Option<Word>
        ensures bits { IfSome result (λ word. word ≡ word_in layout bits) }
        ensures some { IsSome result ↔ IsState (word_in layout bits) }
    {
        if is_state(layout, bits) {
            Some(Word { layout, bits })
        } else {
            None
        }
    }

    pub(crate) fn of_state(layout: Layout, bits: u64) -> Word
        requires { IsState (word_in layout bits) }
        ensures { result ≡ word_in layout bits }
    {
        Word { layout, bits }
    }

    /// Touches a field, by which the prover knows the invariant of the type.
    pub(crate) fn known(&self)
        ensures { IsState self.now }
    {
        let _ = &self.bits;
    }

    pub(crate) fn has_writer(&self) -> bool
        ensures { result ≡ ((counts_in self.now).writers == 1) }
    {
        // The prover knows by the invariant that no word has more holders than a writer counts for, and a
        // compiler makes this comparison a test of one bit.
        self.known();
        self.layout.holders_of(self.bits) >= self.layout.writer_unit()
    }

    pub(crate) fn reader_count(&self) -> u64
        ensures { result ≡ (counts_in self.now).readers }
    {
        if self.has_writer() {
            0
        } else {
            self.layout.holders_of(self.bits)
        }
    }

    pub(crate) fn write_count(&self) -> u64
        ensures { result ≡ (counts_in self.now).write_count }
    {
        self.layout.writes_of(self.bits)
    }

    /// Write mode can be acquired.
    pub(crate) fn may_write(&self, limits: Limits) -> bool
        requires { self.now.layout ≡ limits.layout }
        ensures { result ≡ may_write limits (counts_in self.now) }
    {
        self.layout.holders_of(self.bits) == 0 && self.write_count() < limits.versions()
    }

    /// Read mode can be acquired.
    pub(crate) fn may_read(&self, limits: Limits) -> bool
        requires { self.now.layout ≡ limits.layout }
        ensures { result ≡ may_read limits (counts_in self.now) }
    {
        self.layout.holders_of(self.bits) < limits.readers()
    }

    /// The optimistic stamp of this version.
    pub(crate) fn optimistic_stamp(&self) -> u64
        requires { (counts_in self.now).writers ≡ 0 }
        ensures { result
            ≡ optimistic_stamp (units_of self.now.layout) (counts_in self.now).write_count }
    {
        self.bits - self.layout.holders_of(self.bits)
    }

    /// The stamp of the last write acquisition.
    fn last_write(&self) -> u64
        requires { (counts_in self.now).writers ≡ 0 }
        ensures { result
            ≡ write_stamp (units_of self.now.layout) (counts_in self.now).write_count }
    {
        self.optimistic_stamp() - self.layout.writer_unit()
    }

    /// The stamp is that of the writer that is there.
    pub(crate) fn holds_write(&self, stamp: u64) -> bool
        ensures { result ≡ is_held_write (units_of self.now.layout) (counts_in self.now) stamp }
    {
        stamp == self.bits && self.has_writer()
    }

    /// The stamp is a read stamp of this version, and there are readers.
    pub(crate) fn holds_read(&self, stamp: u64) -> bool
        ensures { result ≡ is_held_read (units_of self.now.layout) (counts_in self.now) stamp }
    {
        0 < self.reader_count()
            && stamp > self.optimistic_stamp()
            && stamp - self.optimistic_stamp() < self.layout.writer_unit()
    }

    /// No writer came since the stamp was issued.
    pub(crate) fn validates(&self, stamp: u64) -> bool
        ensures { result ≡ is_valid (units_of self.now.layout) (counts_in self.now) stamp }
    {
        if self.has_writer() {
            self.holds_write(stamp)
        } else {
            let seen = self.optimistic_stamp();
            (stamp >= seen && stamp - seen < self.layout.writer_unit())
                || (self.write_count() > 0 && stamp == self.last_write())
        }
    }

    /// The word once write mode was acquired.
    pub(crate) fn with_writer(self) -> Word
        requires free { ((counts_in self).writers ≡ 0) }
        requires unread { (counts_in self).readers ≡ 0 }
        requires room { (counts_in self).write_count + 1 ≤ (units_of self.layout).versions }
        ensures layout { result.layout ≡ self.layout }
        ensures number { result.bits
            ≡ write_stamp (units_of self.layout) ((counts_in self).write_count + 1) }
        ensures counts { counts_in result ≡ after_event (counts_in self) WriteAcquired }
    {
        Word {
            layout: self.layout,
            bits: self.bits + self.layout.writer_unit(),
        }
    }

    /// The word once write mode was released.
    pub(crate) fn without_writer(self) -> Word
        requires { (counts_in self).writers ≡ 1 }
        ensures layout { result.layout ≡ self.layout }
        ensures number { result.bits
            ≡ optimistic_stamp (units_of self.layout) (counts_in self).write_count }
        ensures counts { counts_in result ≡ after_event (counts_in self) WriteReleased }
    {
        let released = self.bits + self.layout.writer_unit();
        Word {
            layout: self.layout,
            bits: released,
        }
    }

    /// The word with one more reader.
    pub(crate) fn with_reader(self) -> Word
        requires free { (counts_in self).writers ≡ 0 }
        requires room { (counts_in self).readers + 1 ≤ (units_of self.layout).readers }
        ensures layout { result.layout ≡ self.layout }
        ensures number { let c = counts_in self in
            result.bits ≡ read_stamp (units_of self.layout) c.write_count (c.readers + 1) }
        ensures counts { counts_in result ≡ after_event (counts_in self) ReadAcquired }
    {
        Word {
            layout: self.layout,
            bits: self.bits + 1,
        }
    }

    /// The word with one reader less.
    pub(crate) fn without_reader(self) -> Word
        requires { 0 < (counts_in self).readers }
        ensures layout { result.layout ≡ self.layout }
        ensures number { let c = counts_in self in
            result.bits ≡ read_stamp (units_of self.layout) c.write_count (c.readers - 1) }
        ensures counts { counts_in result ≡ after_event (counts_in self) ReadReleased }
    {
        Word {
            layout: self.layout,
            bits: self.bits - 1,
        }
    }
}
