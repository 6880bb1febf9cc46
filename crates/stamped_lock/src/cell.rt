//! A cell.
ghost use Rattle.std.specs.Prelude.{◌≡◌, ◌≤◌, IfOk};
ghost use Rattle.stamp_core.specs.Limits.{widest};
ghost use Rattle.stamp_threads.specs.RecordPass.{HasEntered};

use crate::cell_handle::CellHandle;
use crate::in_words::InWords;
use crate::record::StampedRecord;
use stamp_core::{KnownLayout, Layout, LayoutOne, Limits};
use stamp_threads::{ContentRule, LockError};
use std::alloc::Global;
use std::marker::{Model, PhantomData};

/// The rule of a cell: its words are those of a value.
pub struct WordsOf<const N: usize, T> {
    of: PhantomData<T>,
}

impl<const N: usize, T: InWords<N>> ContentRule for WordsOf<N, T> {
    ghost use Rattle.stamped_lock.specs.InWords.{AreWordsOf};

    ghost holds = { AreWordsOf T.is_value T.words };
}

/// A value of a type of your own that threads share, and that each reads and changes as a whole. It
/// is a record of the `N` words (1 to 16) in which the type is written. Threads share it by
/// reference, and get, put and update values by their handles.
///
/// `L` says what is known of its layout, as in `StampedLock`.
#[derive(Drop)]
pub struct StampedCell<const N: usize, T: InWords<N>, L: KnownLayout = LayoutOne> {
    record: StampedRecord<N, WordsOf<N, T>, L>,
}

impl<const N: usize, T: InWords<N>, L: KnownLayout> Model for StampedCell<N, T, L> {
    ghost use Rattle.stamp_threads.specs.RecordPass.{RecordView};

    ghost Value = { RecordView };

    ghost view = { λ c. c.record };
}

impl<const N: usize, T: InWords<N>> StampedCell<N, T> {
    /// A cell that holds this value. That it does is tested, not proved. It takes 2^55-3 puts and
    /// updates in all. It refuses only for want of memory; nothing was made then.
    pub fn new(alloc: Global, first: T) -> Result<StampedCell<N, T>, LockError>
        requires width { (1 ≤ N) × (N ≤ 16) }
        ensures { IfOk result (λ c.
            c.shape ≡ record { limits = widest Layout.One; width = N }) }
    {
        let record = StampedRecord::new(alloc, first.to_words())?;
        Ok(StampedCell { record })
    }

    /// As `new`, with these limits, which are of layout 1. Of the limits the versions count, of
    /// which the first value takes one; the readers don't matter.
    pub fn with_limits(
        alloc: Global,
        limits: Limits,
        first: T,
    ) -> Result<StampedCell<N, T>, LockError>
        requires width { (1 ≤ N) × (N ≤ 16) }
        requires layout { limits.layout ≡ Layout.One }
        requires version { 1 ≤ limits.versions }
        ensures { IfOk result (λ c. c.shape ≡ record { limits = limits; width = N }) }
    {
        let record = StampedRecord::with_limits(alloc, limits, first.to_words())?;
        Ok(StampedCell { record })
    }
}

impl<const N: usize, T: InWords<N>, L: KnownLayout> StampedCell<N, T, L> {
    /// As `with_limits`, of a layout that `L` stands for.
    pub fn in_layout(
        alloc: Global,
        limits: Limits,
        first: T,
    ) -> Result<StampedCell<N, T, L>, LockError>
        requires width { (1 ≤ N) × (N ≤ 16) }
        requires layout { L.seen limits.layout ≡ limits.layout }
        requires version { 1 ≤ limits.versions }
        ensures { IfOk result (λ c. c.shape ≡ record { limits = limits; width = N }) }
    {
        let record = StampedRecord::in_layout(alloc, limits, first.to_words())?;
        Ok(StampedCell { record })
    }

    /// A handle by which a thread makes its calls, one thread at a time. It has made no call. No
    /// contract says that the history it knows is all that happened before. It takes one load and
    /// no memory.
    pub fn enter(&self) -> CellHandle<'_, N, T, L>
        ensures running { result.running ≡ self.now }
        ensures entered { HasEntered self.now.shape result.pass }
    {
        let running = self.record.running();
        CellHandle::new(running, running.enter())
    }
}
