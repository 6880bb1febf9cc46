//! The lock.
ghost use Rattle.std.specs.Prelude.{◌≡◌, IfOk};
ghost use Rattle.stamp_core.specs.Limits.{widest};
ghost use Rattle.stamp_threads.specs.LockPass.{HasEntered};

use crate::handle::LockHandle;
use stamp_core::{KnownLayout, Layout, LayoutOne, Limits};
use stamp_threads::{LockError, RunningLock};
use std::alloc::Global;
use std::marker::{Model, PhantomData};

/// A lock with the modes write, read and optimistic read, which threads share (`StampedLock` in
/// Java). It is one word, which they share by reference. Threads call it by their handles.
///
/// `L` says what is known of its layout: that it is layout 1, where nothing else is written. So a call
/// has no test of it.
#[derive(Drop)]
pub struct StampedLock<L: KnownLayout = LayoutOne> {
    running: RunningLock,
    known: PhantomData<L>,
}

impl<L: KnownLayout> Model for StampedLock<L> {
    ghost use Rattle.std.specs.Prelude.{◌≡◌, true};
    ghost use Rattle.stamp_threads.specs.LockPass.{LockView};

    ghost Value = { LockView };

    ghost view = { λ l. l.running };

    ghost invariant = { λ l. (l.running.enterable ≡ true)
        × (L.seen l.running.limits.layout ≡ l.running.limits.layout) };
}

impl StampedLock {
    /// A lock that nobody holds: up to 127 readers at a time, and 2^55-2 write acquisitions in all.
    /// It refuses only for want of memory; nothing was made then. That nobody holds it is tested,
    /// not proved.
    pub fn new(alloc: Global) -> Result<StampedLock, LockError>
        ensures { IfOk result (λ lock. lock.limits ≡ widest Layout.One) }
    {
        StampedLock::with_limits(alloc, Limits::widest(Layout::One))
    }

    /// As `new`, with these limits, which are of layout 1. They may have fewer readers or write
    /// acquisitions.
    pub fn with_limits(alloc: Global, limits: Limits) -> Result<StampedLock, LockError>
        requires { limits.layout ≡ Layout.One }
        ensures { IfOk result (λ lock. lock.limits ≡ limits) }
    {
        StampedLock::in_layout(alloc, limits)
    }
}

impl<L: KnownLayout> StampedLock<L> {
    /// As `with_limits`, of a layout that `L` stands for. A `StampedLock<LayoutTwo>` has room for 65,535
    /// readers, and for 2^46-2 write acquisitions; a `StampedLock<EitherLayout>` may be of either layout.
    pub fn in_layout(alloc: Global, limits: Limits) -> Result<StampedLock<L>, LockError>
        requires { L.seen limits.layout ≡ limits.layout }
        ensures { IfOk result (λ lock. lock.limits ≡ limits) }
    {
        let (running, first) = RunningLock::new_enterable(alloc, limits)?;
        drop(first);
        Ok(StampedLock {
            running,
            known: PhantomData,
        })
    }

    /// Its limits: the layout, the most readers at a time, and the most write acquisitions in all.
    pub fn limits(&self) -> Limits
        ensures limits { result ≡ self.now.limits }
        ensures layout { L.seen result.layout ≡ result.layout }
    {
        self.running.limits()
    }

    /// A handle by which a thread makes its calls, one thread at a time. It has made no call. No
    /// contract says that the history it knows is all that happened before. It takes one load and
    /// no memory.
    pub fn enter(&self) -> LockHandle<'_, L>
        ensures running { result.running ≡ self.now }
        ensures entered { HasEntered self.now.limits result.pass }
    {
        LockHandle::new(&self.running, self.running.enter())
    }
}
