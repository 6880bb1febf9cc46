//! An online judge of runs of a lock and the record that it guards.
ghost use Rattle.std.specs.Prelude.{◌≡◌, ◌≢◌, ◌<◌, ◌≤◌, ◌+◌, IfOk, IsFalse, IsTrue, OnErr, OnOk, List, [], ℕ, None};
ghost use Rattle.std.specs.Prelude.{Some, MatchOption, length, true};
ghost use Rattle.stamp_runs.specs.declared.event.Event.{Event};
ghost use Rattle.stamp_sets.specs.SmallCall.{call_of, reply_of};
ghost use Rattle.stamp_sets.specs.Watch.{IsWatching, IsWatched, IsCopy, IsProgress, IsTaken, BeginsTold, ReturnsTold, WithdrawsTold, IsUntold, MoreArePossible, open_of};
ghost use Rattle.stamp_sets.specs.Order.{IsOrderOfBoth};
ghost use Rattle.stamp_sets.specs.Tracing.{HasNoOrder, IsTracing, StaysTraced};
ghost use Rattle.stamp_sets.specs.inner.Pair.{GoesOnBy, IsAnswer, with_last};

use crate::ending::{Ending, is_same_reply};
use crate::half::Half;
use crate::merging::merged;
use crate::object::Object;
use crate::open_call::{OpenCall, open_in};
use crate::order::{EffectAt, order_of};
use crate::progress::Progress;
use crate::small_call::{SmallCall, SmallReply};
use crate::trace::Trace;
use crate::trail::Entry;
use stamp_core::Limits;
use std::alloc::{AllocError, Global};

/// The positions of a lock, those of its record, and their lanes that are possible after the events of a run, as far
/// as they matter: one of each is kept from which the run goes on, if it is explained and goes on as was told of the
/// open calls. There are 64 lanes, 0 to 63. A watch that is traced also keeps how its positions were come to, and can
/// tell the order of effects; for that it needs memory at each event.
#[derive(Drop)]
pub struct Watch {
    pub(crate) limits: Limits,
    pub(crate) lock: Half,
    pub(crate) record: Half,
    lock_trace: Trace,
    record_trace: Trace,
    last: u64,
}

fn watch_of(alloc: Global, limits: Limits, is_traced: bool) -> Result<Watch, AllocError>
    ensures watching { IfOk result (λ watch. IsWatching [] watch) }
    ensures untold { IfOk result (λ watch. IsUntold watch limits) }
    ensures traced { IfOk result (λ watch. is_traced ≡ true → IsTracing [] watch) }
{
    let lock = Half::new(alloc, Object::Lock(limits))?;
    let record = Half::new(alloc, Object::Record)?;
    Ok(Watch {
        limits,
        lock,
        record,
        lock_trace: Trace::new(alloc, is_traced),
        record_trace: Trace::new(alloc, is_traced),
        last: 0,
    })
}

impl Watch {
    /// The watch of a new lock with these limits, and of a record that holds its first content, before any event.
    pub fn new(alloc: Global, limits: Limits) -> Result<Watch, AllocError>
        ensures watching { IfOk result (λ watch. IsWatching [] watch) }
        ensures untold { IfOk result (λ watch. IsUntold watch limits) }
        ensures watched { IfOk result (λ watch. IsWatched watch) }
    {
        let watch = watch_of(alloc, limits, false)?;
        Ok(watch)
    }

    /// The same, and it is traced: it can tell the order of effects.
    pub fn traced(alloc: Global, limits: Limits) -> Result<Watch, AllocError>
        ensures tracing { IfOk result (λ watch. IsTracing [] watch) }
        ensures untold { IfOk result (λ watch. IsUntold watch limits) }
        ensures watched { IfOk result (λ watch. IsWatched watch) }
    {
        let watch = watch_of(alloc, limits, true)?;
        Ok(watch)
    }

    /// The same watch, in memory of its own: a place from which a run can be judged once more. The copy is not traced.
    pub fn copied(&self) -> Result<Watch, AllocError>
        ensures { IfOk result (λ copy. IsCopy self.now copy) }
    {
        let lock = self.lock.copied()?;
        let record = self.record.copied()?;
        Ok(Watch {
            limits: self.limits,
            lock,
            record,
            lock_trace: Trace::new(self.lock.alloc, false),
            record_trace: Trace::new(self.lock.alloc, false),
            last: self.last,
        })
    }

    /// The open call of the lane.
    fn open_call(&self, lane: u64) -> Option<OpenCall>
        ensures { result ≡ open_of self.now lane }
    {
        match open_in(self.lock.table.as_slice(), lane) {
            Some(begun) => Some(begun),
            None => open_in(self.record.table.as_slice(), lane),
        }
    }

    /// The answer to an event that was taken: whether both halves have positions.
    fn answer(&self) -> Progress
        ensures { IsAnswer self.now result }
    {
        if self.lock.is_dead() || self.record.is_dead() {
            Progress::Dead
        } else {
            Progress::Going
        }
    }

    /// The number of the next event among all, if the watch is traced.
    fn events(&self) -> u64
        ensures { result ≡ length self.now.lock_trace.numbers + length self.now.record_trace.numbers }
    {
        self.lock_trace.events() + self.record_trace.events()
    }

    /// A call begins in the half that it is of. Without memory the watch is as before.
    fn take_begun(&mut self, lane: u64, begun: OpenCall) -> Result<(), AllocError>
        requires lane { lane < 64 }
        requires free { open_of self.old lane ≡ None }
        requires watched { IsWatched self.old }
        ensures goes { OnOk result (GoesOnBy (Event.Begins lane (call_of begun.asks)) (Some begun) self.old.last
            self.old self.new) }
        ensures err { OnErr result (self.new ≡ self.old) }
    {
        let number = self.events();
        let entry = Entry::Begins(lane);
        if begun.asks.is_lock_call() {
            self.lock_trace.go_on(&[entry], number)?;
            self.lock.begins(lane, begun);
        } else {
            self.record_trace.go_on(&[entry], number)?;
            self.record.begins(lane, begun);
        }
        Ok(())
    }

    /// The call of a lane is withdrawn in the half that it is of. Without memory the watch is as before.
    fn take_withdrawn(&mut self, lane: u64, begun: OpenCall) -> Result<(), AllocError>
        requires is_open { open_of self.old lane ≡ Some begun }
        requires ends { begun.ends ≡ Ending.Withdraws }
        requires watched { IsWatched self.old }
        ensures goes { OnOk result (GoesOnBy (Event.Withdraws lane) None self.old.last self.old self.new) }
        ensures err { OnErr result (self.new ≡ self.old) }
    {
        let number = self.events();
        let entry = Entry::Withdraws;
        if begun.asks.is_lock_call() {
            self.lock_trace.go_on(&[entry], number)?;
            self.lock.withdraws(lane);
        } else {
            self.record_trace.go_on(&[entry], number)?;
            self.record.withdraws(lane);
        }
        Ok(())
    }

    /// The call of a lane returns in the half that it is of, unless more than `most` positions of it are possible:
    /// whether it does.
    fn take_returned(&mut self, lane: u64, begun: OpenCall, most: u64) -> Result<bool, AllocError>
        requires is_open { open_of self.old lane ≡ Some begun }
        requires watched { IsWatched self.old }
        ensures goes { IfOk result (λ done. IsTrue done → (reply : SmallReply) (place : ℕ)
            → begun.ends ≡ Ending.Returns reply place → self.old.last ≤ place
            → GoesOnBy (Event.Returns lane (reply_of reply)) None place self.old (with_last place self.new)) }
        ensures more { IfOk result (λ done. IsFalse done → (past : List Event) → IsWatching past self.old
            → MoreArePossible past most self.old) }
        ensures same { IfOk result (λ done. IsFalse done → self.new ≡ self.old) }
        ensures err { OnErr result (self.new ≡ self.old) }
    {
        let number = self.events();
        if begun.asks.is_lock_call() {
            let done = self.lock.returns(lane, most, number, &mut self.lock_trace)?;
            Ok(done)
        } else {
            let done = self
                .record
                .returns(lane, most, number, &mut self.record_trace)?;
            Ok(done)
        }
    }

    /// One more event: a call begins in a lane, and ends so. It is refused in a lane from 64 on, or one with an open
    /// call. It is never `TooMany`. A watch that is not traced needs no memory. Without memory the watch is as before.
    pub fn begins(
        &mut self,
        lane: u64,
        call: SmallCall,
        ends: Ending,
    ) -> Result<Progress, AllocError>
        requires { IsWatched self.old }
        ensures progress { IfOk result (λ progress. (past : List Event) (most : ℕ) → IsWatching past self.old
            → IsProgress past (Event.Begins lane (call_of call)) most self.old self.new progress) }
        ensures told { IfOk result (λ progress. IsTaken progress
            → BeginsTold self.old self.new lane (call_of call) ends) }
        ensures traced { IfOk result (λ progress. IsTaken progress
            → StaysTraced (Event.Begins lane (call_of call)) self.old self.new) }
        ensures never { IfOk result (λ progress. progress ≢ Progress.TooMany) }
        ensures watched { IsWatched self.new }
        ensures err { OnErr result (self.new ≡ self.old) }
    {
        if lane >= 64 || self.open_call(lane).is_some() {
            return Ok(Progress::Refused);
        }
        let begun = OpenCall { asks: call, ends };
        self.take_begun(lane, begun)?;
        Ok(self.answer())
    }

    /// One more event: the call of a lane is withdrawn, as was told of it. It is refused otherwise, and never
    /// `TooMany`. A watch that is not traced needs no memory. Without memory the watch is as before.
    pub fn withdraws(&mut self, lane: u64) -> Result<Progress, AllocError>
        requires { IsWatched self.old }
        ensures progress { IfOk result (λ progress. (past : List Event) (most : ℕ) → IsWatching past self.old
            → IsProgress past (Event.Withdraws lane) most self.old self.new progress) }
        ensures told { IfOk result (λ progress. IsTaken progress → WithdrawsTold self.old self.new lane) }
        ensures traced { IfOk result (λ progress. IsTaken progress
            → StaysTraced (Event.Withdraws lane) self.old self.new) }
        ensures never { IfOk result (λ progress. progress ≢ Progress.TooMany) }
        ensures watched { IsWatched self.new }
        ensures err { OnErr result (self.new ≡ self.old) }
    {
        let Some(begun) = self.open_call(lane) else {
            return Ok(Progress::Refused);
        };
        let Ending::Withdraws = begun.ends else {
            return Ok(Progress::Refused);
        };
        self.take_withdrawn(lane, begun)?;
        Ok(self.answer())
    }

    /// One more event: the call of a lane returns with this reply, as was told of it. It is refused otherwise, and at
    /// a place below that of the last return. It is `TooMany` where more than `most` positions of the lock, or of the
    /// record, are possible just before it. Without memory the watch is as before.
    pub fn returns(
        &mut self,
        lane: u64,
        reply: SmallReply,
        most: u64,
    ) -> Result<Progress, AllocError>
        requires { IsWatched self.old }
        ensures progress { IfOk result (λ progress. (past : List Event) → IsWatching past self.old
            → IsProgress past (Event.Returns lane (reply_of reply)) most self.old self.new progress) }
        ensures told { IfOk result (λ progress. IsTaken progress
            → ReturnsTold self.old self.new lane (reply_of reply)) }
        ensures traced { IfOk result (λ progress. IsTaken progress
            → StaysTraced (Event.Returns lane (reply_of reply)) self.old self.new) }
        ensures watched { IsWatched self.new }
        ensures err { OnErr result (self.new ≡ self.old) }
    {
        let Some(begun) = self.open_call(lane) else {
            return Ok(Progress::Refused);
        };
        let Ending::Returns(told, place) = begun.ends else {
            return Ok(Progress::Refused);
        };
        if place < self.last || !is_same_reply(told, reply) {
            return Ok(Progress::Refused);
        }
        if !self.take_returned(lane, begun, most)? {
            return Ok(Progress::TooMany);
        }
        self.last = place;
        Ok(self.answer())
    }

    /// The order in which calls of lock and record took effect on some way along the events, the first one first; a
    /// call that didn't return is among them if it took effect on that way. Of a watch that is not traced none is told,
    /// and of one that is dead, since there is no such way.
    pub fn order(&self, alloc: Global) -> Result<Option<Vec<EffectAt>>, AllocError>
        ensures none { IfOk result (λ found. HasNoOrder self.now → found ≡ None) }
        ensures order { IfOk result (λ found. MatchOption found (HasNoOrder self.now) (λ order. (past : List Event)
            → IsTracing past self.now → IsOrderOfBoth self.now.limits past order.items)) }
    {
        if !self.lock_trace.is_on {
            return Ok(None);
        }
        let events = self.events();
        let Some(lock) = order_of(alloc, &self.lock, &self.lock_trace, events)? else {
            return Ok(None);
        };
        let Some(record) = order_of(alloc, &self.record, &self.record_trace, events)? else {
            return Ok(None);
        };
        let order = merged(alloc, lock.as_slice(), record.as_slice())?;
        Ok(Some(order))
    }
}
