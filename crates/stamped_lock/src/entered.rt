//! What a handle stands on.
ghost use Rattle.std.specs.Prelude.{◌≡◌, IfOk, IsOk, IsTrue};
ghost use Rattle.stamp_core.specs.Call.{is_lock_call};
ghost use Rattle.stamp_core.specs.declared.call.Call.TheVariants.{Optimistic};
ghost use Rattle.stamp_threads.specs.Made.{try_form};
ghost use Rattle.stamp_threads.specs.MayReply.{MayReply};
ghost use Rattle.stamp_threads.specs.PassView.{after_split, split_off};
ghost use Rattle.stamped_lock.specs.Accesses.{AccessesOnce, AccessesOnceOrTwice};
ghost use Rattle.stamped_lock.specs.Made.{Made, MadeOrLost};
ghost use Rattle.stamped_lock.specs.Replies.{stamped};
ghost use Rattle.stamped_lock.specs.inner.Replies.{AsksOnly};

use crate::stamp::Stamp;
use stamp_core::{Call, KnownLayout, Limits, Reply};
use stamp_threads::{Lost, Pass, RunningLock};
use std::marker::Model;
use std::sync::Wait;

/// A lock that a thread has entered, and what the thread knows of it. It is what a handle stands
/// on, whatever the layout. The closure of a section gets it, for contracts; it can make no call by
/// it.
#[derive(Drop)]
pub struct Entered<'a> {
    running: &'a RunningLock,
    pass: Pass,
    ghost table: { pass.table ≡ running.now.table },
}

impl<'a> Model for Entered<'a> {
    ghost use Rattle.std.specs.Prelude.{◌≡◌};
    ghost use Rattle.stamped_lock.specs.LockHandleView.{LockHandleView};

    ghost Value = { LockHandleView };

    ghost view = { λ e. record { running = e.running.now; pass = e.pass.view } };
}

impl<'a> Entered<'a> {
    /// A lock, and a pass of it.
    pub(crate) fn new(running: &'a RunningLock, pass: Pass) -> Entered<'a>
        requires { pass.table ≡ running.now.table }
        ensures running { result.running ≡ running.now }
        ensures pass { result.pass ≡ pass.view }
    {
        Entered { running, pass }
    }

    /// The lock's limits.
    pub fn limits(&self) -> Limits
        ensures { result ≡ self.now.running.limits }
    {
        self.running.limits()
    }

    /// Makes a call that waits for nobody, by one load and at most one exchange.
    #[inline(always)]
    pub(crate) fn once<L: KnownLayout>(&mut self, call: Call) -> Result<Reply, Lost>
        requires layout { L.seen self.old.running.limits.layout ≡ self.old.running.limits.layout }
        requires lock_call { IsTrue (is_lock_call call) }
        requires at_once { try_form call ≡ call }
        ensures same { self.new.running ≡ self.old.running }
        ensures made { MadeOrLost call (λ r. r) result self.old self.new }
        ensures reply { IfOk result (λ r. MayReply call r) }
        ensures accesses { AccessesOnceOrTwice self.old self.new }
        ensures asked { AsksOnly call → IsOk result → AccessesOnce self.old self.new }
    {
        self.running.once_in::<L>(&mut self.pass, call)
    }

    /// An optimistic stamp. None while there is a writer. One load.
    #[inline(always)]
    pub(crate) fn optimistic<L: KnownLayout>(&mut self) -> Option<Stamp>
        requires layout { L.seen self.old.running.limits.layout ≡ self.old.running.limits.layout }
        ensures same { self.new.running ≡ self.old.running }
        ensures made { Made Optimistic (stamped result) self.old self.new }
        ensures accesses { AccessesOnce self.old self.new }
    {
        let number = self.running.optimistic_in::<L>(&mut self.pass)?;
        Some(Stamp::of_some(number))
    }

    /// Makes the call: it waits where the call does, and tries again where its exchange lost.
    #[inline(always)]
    pub(crate) fn call<L: KnownLayout, R: Wait>(&mut self, rt: &R, call: Call) -> Reply
        requires layout { L.seen self.old.running.limits.layout ≡ self.old.running.limits.layout }
        requires lock_call { IsTrue (is_lock_call call) }
        ensures same { self.new.running ≡ self.old.running }
        ensures made { Made call result self.old self.new }
        ensures reply { MayReply call result }
    {
        self.running.call_in::<L, R>(rt, &mut self.pass, call)
    }

    /// The same lock, with a pass that knows as much as this one and has made no call.
    pub(crate) fn split(&mut self) -> Entered<'a>
        ensures running { (self.new.running ≡ self.old.running)
            × (result.running ≡ self.old.running) }
        ensures given { self.new.pass ≡ after_split self.old.pass }
        ensures new { result.pass ≡ split_off self.old.pass }
    {
        let pass = self.running.split_off(&mut self.pass);
        Entered {
            running: self.running,
            pass,
        }
    }
}
