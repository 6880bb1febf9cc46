//! The record of many words.
ghost use Rattle.std.specs.Prelude.{◌≡◌, ◌≤◌, IfOk, length, true};
ghost use Rattle.stamp_core.specs.Limits.{widest};
ghost use Rattle.stamp_threads.specs.RecordPass.{HasEntered};

use crate::wide_handle::WideHandle;
use stamp_core::{KnownLayout, Layout, LayoutOne, Limits};
use stamp_threads::{ContentRule, LockError, WideRecord};
use std::alloc::Global;
use std::marker::Model;

/// `N` words (1 to 4,096) that threads share, and that keep to a rule whenever they are read. They
/// are shared as those of a `StampedRecord`; the calls take slices of `N` words. The more words,
/// the longer a call takes, and the oftener a get or an update loses to a put and is tried again. A
/// history with more than 16 words has no text.
///
/// `L` says what is known of its layout, as in `StampedLock`.
#[derive(Drop)]
pub struct StampedWideRecord<const N: usize, P: ContentRule, L: KnownLayout = LayoutOne> {
    running: WideRecord<P, L>,
}

impl<const N: usize, P: ContentRule, L: KnownLayout> Model for StampedWideRecord<N, P, L> {
    ghost use Rattle.std.specs.Prelude.{◌≡◌, ◌≤◌, true};
    ghost use Rattle.stamp_threads.specs.RecordPass.{RecordView};

    ghost Value = { RecordView };

    ghost view = { λ r. r.running };

    ghost invariant = { λ r. (r.running.shape.width ≡ N) × (1 ≤ N) × (N ≤ 4096)
        × (r.running.enterable ≡ true) };
}

impl<const N: usize, P: ContentRule> StampedWideRecord<N, P> {
    /// A record that holds these words. That it does is tested, not proved. It takes 2^55-3 puts in
    /// all. It refuses only for want of memory; nothing was made then.
    #[tactic(auto, unfolding(stamp_core::specs::Layout::units_of))]
    pub fn new(alloc: Global, first: &[u64]) -> Result<StampedWideRecord<N, P>, LockError>
        requires width { (1 ≤ N) × (N ≤ 4096) }
        requires long { length first.now ≡ N }
        requires rule { P.holds first.now }
        ensures { IfOk result (λ r.
            r.shape ≡ record { limits = widest Layout.One; width = N }) }
    {
        StampedWideRecord::with_limits(alloc, Limits::widest(Layout::One), first)
    }

    /// As `new`, with these limits, which are of layout 1. Of the limits the versions count, of
    /// which the first content takes one; the readers don't matter.
    pub fn with_limits(
        alloc: Global,
        limits: Limits,
        first: &[u64],
    ) -> Result<StampedWideRecord<N, P>, LockError>
        requires width { (1 ≤ N) × (N ≤ 4096) }
        requires long { length first.now ≡ N }
        requires layout { limits.layout ≡ Layout.One }
        requires version { 1 ≤ limits.versions }
        requires rule { P.holds first.now }
        ensures { IfOk result (λ r. r.shape ≡ record { limits = limits; width = N }) }
    {
        StampedWideRecord::in_layout(alloc, limits, first)
    }
}

impl<const N: usize, P: ContentRule, L: KnownLayout> StampedWideRecord<N, P, L> {
    /// As `with_limits`, of a layout that `L` stands for.
    pub fn in_layout(
        alloc: Global,
        limits: Limits,
        first: &[u64],
    ) -> Result<StampedWideRecord<N, P, L>, LockError>
        requires width { (1 ≤ N) × (N ≤ 4096) }
        requires long { length first.now ≡ N }
        requires layout { L.seen limits.layout ≡ limits.layout }
        requires version { 1 ≤ limits.versions }
        requires rule { P.holds first.now }
        ensures { IfOk result (λ r. r.shape ≡ record { limits = limits; width = N }) }
    {
        let (running, pass) = WideRecord::enterable_in(alloc, limits, first)?;
        drop(pass);
        Ok(StampedWideRecord { running })
    }

    /// A handle by which a thread makes its calls, one thread at a time. It has made no call. No
    /// contract says that the history it knows is all that happened before. It takes one load and
    /// no memory.
    pub fn enter(&self) -> WideHandle<'_, N, P, L>
        ensures running { result.running ≡ self.now }
        ensures entered { HasEntered self.now.shape result.pass }
    {
        WideHandle::new(&self.running, self.running.enter())
    }
}
