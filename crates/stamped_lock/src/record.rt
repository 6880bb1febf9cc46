//! The record.
ghost use Rattle.std.specs.Prelude.{◌≡◌, ◌≤◌, IfOk, true};
ghost use Rattle.stamp_core.specs.Limits.{widest};
ghost use Rattle.stamp_threads.specs.RecordPass.{HasEntered};
ghost use Rattle.stamped_lock.specs.inner.RecordCalls.{HasWidth};

use crate::record_handle::RecordHandle;
use stamp_core::{KnownLayout, Layout, LayoutOne, Limits, Words};
use stamp_threads::{ContentRule, LockError, RuledRecord};
use std::alloc::Global;
use std::marker::Model;

/// `N` words (1 to 16) that threads share, and that keep to a rule whenever they are read. Each
/// content that is put has to keep to it. `AnyContent` asks nothing. Threads share the record by
/// reference, and put and get by their handles.
///
/// `L` says what is known of its layout, as in `StampedLock`.
#[derive(Drop)]
pub struct StampedRecord<const N: usize, P: ContentRule, L: KnownLayout = LayoutOne> {
    running: RuledRecord<P, L>,
}

impl<const N: usize, P: ContentRule, L: KnownLayout> Model for StampedRecord<N, P, L> {
    ghost use Rattle.std.specs.Prelude.{◌≡◌, ◌≤◌, true};
    ghost use Rattle.stamp_threads.specs.RecordPass.{RecordView};

    ghost Value = { RecordView };

    ghost view = { λ r. r.running };

    ghost invariant = { λ r. (r.running.shape.width ≡ N) × (1 ≤ N) × (N ≤ 16)
        × (r.running.enterable ≡ true) };
}

impl<const N: usize, P: ContentRule> StampedRecord<N, P> {
    /// A record that holds these words. That it does is tested, not proved. It takes 2^55-3 puts in
    /// all. It refuses only for want of memory; nothing was made then.
    #[tactic(auto, unfolding(stamp_core::specs::Layout::units_of))]
    pub fn new(alloc: Global, first: [u64; N]) -> Result<StampedRecord<N, P>, LockError>
        requires width { (1 ≤ N) × (N ≤ 16) }
        requires rule { P.holds first }
        ensures { IfOk result (λ r.
            r.shape ≡ record { limits = widest Layout.One; width = N }) }
    {
        StampedRecord::with_limits(alloc, Limits::widest(Layout::One), first)
    }

    /// As `new`, with these limits, which are of layout 1. Of the limits the versions count, of
    /// which the first content takes one; the readers don't matter.
    pub fn with_limits(
        alloc: Global,
        limits: Limits,
        first: [u64; N],
    ) -> Result<StampedRecord<N, P>, LockError>
        requires width { (1 ≤ N) × (N ≤ 16) }
        requires layout { limits.layout ≡ Layout.One }
        requires version { 1 ≤ limits.versions }
        requires rule { P.holds first }
        ensures { IfOk result (λ r. r.shape ≡ record { limits = limits; width = N }) }
    {
        StampedRecord::in_layout(alloc, limits, first)
    }
}

impl<const N: usize, P: ContentRule, L: KnownLayout> StampedRecord<N, P, L> {
    /// As `with_limits`, of a layout that `L` stands for.
    pub fn in_layout(
        alloc: Global,
        limits: Limits,
        first: [u64; N],
    ) -> Result<StampedRecord<N, P, L>, LockError>
        requires width { (1 ≤ N) × (N ≤ 16) }
        requires layout { L.seen limits.layout ≡ limits.layout }
        requires version { 1 ≤ limits.versions }
        requires rule { P.holds first }
        ensures { IfOk result (λ r. r.shape ≡ record { limits = limits; width = N }) }
    {
        let Some(words) = Words::new(&first) else {
            unreachable!()
        };
        let (running, pass) = RuledRecord::enterable_in(alloc, limits, words)?;
        drop(pass);
        Ok(StampedRecord { running })
    }

    /// A handle by which a thread makes its calls, one thread at a time. It has made no call. No
    /// contract says that the history it knows is all that happened before. It takes one load and
    /// no memory.
    pub fn enter(&self) -> RecordHandle<'_, N, P, L>
        ensures running { result.running ≡ self.now }
        ensures entered { HasEntered self.now.shape result.pass }
    {
        RecordHandle::new(&self.running, self.running.enter())
    }

    /// The record that it stands on.
    pub(crate) fn running(&self) -> &RuledRecord<P, L>
        ensures running { result.now ≡ self.now }
        ensures width { HasWidth N self.now.shape }
        ensures enterable { self.now.enterable ≡ true }
    {
        &self.running
    }
}
