//! A section in write mode where a test holds.
ghost use Rattle.std.specs.Prelude.{◌≡◌, IfSome, IsNone, true, false};
ghost use Rattle.std.specs.Fn.{FnReturnsAt, FnOnceReturnsAtMut};
ghost use Rattle.stamp_core.specs.declared.call.Call.TheVariants.{ToWrite};
ghost use Rattle.stamp_core.specs.declared.reply.Reply.TheVariants.{Stamp};
ghost use Rattle.stamped_value.specs.Outcomes.{WritesLast, WritesWhatRead};
ghost use Rattle.stamped_value.specs.Seated.{IsSeated};
ghost use Rattle.stamped_value.specs.Sections.{BeginsReading, ReadSection};
ghost use Rattle.stamped_value.specs.ValueCalls.{Calls};
ghost use Rattle.stamped_value.specs.WriteIf.{GivesUpReading, WriteWhere, WriteIfSection};
ghost use Rattle.stamped_value.specs.inner.ValueLock.{token};
ghost use Rattle.stamped_value.specs.declared.view.Held.TheVariants.{Free, Reading, Writing};

use crate::guarded::Guarded;
use crate::handle::ValueHandle;
use crate::spent::Spent;
use crate::steps::ValueSeat;
use stamp_core::{Call, LockReply};
use std::sync::Wait;

impl<'a, T> ValueHandle<'a, T> {
    /// Runs the second closure on the value in write mode, where the first answers true of it: `None`
    /// where that answers false. It asks in read mode first, so a test that is false takes no write
    /// mode. Where it is true, a sole reader becomes the writer (`tryConvertToWriteLock`), and the value
    /// is the one that was tested; with other readers beside, it releases read mode, acquires write mode,
    /// and asks once more there. So the test may run twice.
    ///
    /// It waits as `read_with` and `write_with` do. `Spent` where no version was left: the second
    /// closure has not run, and nothing was changed.
    pub fn write_if<A: Drop, R: Wait, P: Fn(&T) -> bool, F: FnOnce(&mut T) -> A>(
        &mut self,
        rt: &R,
        test: P,
        then: F,
    ) -> Result<Option<A>, Spent>
        requires test { P.IsAlwaysCallable test }
        requires then { (x : _) → FnReturnsAt P.Fn test x.now true → F.pre then x }
        ensures { WriteIfSection (λ yes x. FnReturnsAt P.Fn test x yes)
            (λ a x y. FnOnceReturnsAtMut F.FnOnce then x a y) result self.old self.new }
    {
        let value = self.value;
        value.write_if_section(rt, &mut self.seat, &test, then)
    }
}

impl<T> Guarded<T> {
    fn write_if_section<A: Drop, R: Wait, P: Fn(&T) -> bool, F: FnOnce(&mut T) -> A>(
        &self,
        rt: &R,
        seat: &mut ValueSeat<T>,
        test: &P,
        then: F,
    ) -> Result<Option<A>, Spent>
        requires test { P.IsAlwaysCallable test.now }
        requires then { (x : _) → FnReturnsAt P.Fn test.now x.now true → F.pre then x }
        requires seated { IsSeated self.now Free seat.old.table_id seat.old.me }
        ensures seated { IsSeated self.now Free seat.new.table_id seat.new.me }
        ensures section { WriteIfSection (λ yes x. FnReturnsAt P.Fn test.now x yes)
            (λ a x y. FnOnceReturnsAtMut F.FnOnce then x a y) result
            (token self.now seat.old.me) (token self.now seat.new.me) }
    {
        let Some(reading) = self.read_where(rt, seat, test) else {
            return Ok(None);
        };
        match self.upgrade_or_release(rt, seat, reading) {
            Some(writing) => Ok(Some(self.write_held(rt, seat, writing, then))),
            None => self.write_where(rt, seat, test, then),
        }
    }

    /// Acquires read mode and tests the value. Where the test answers true it keeps read mode, and
    /// tells its stamp; else it releases it.
    fn read_where<R: Wait, P: Fn(&T) -> bool>(
        &self,
        rt: &R,
        seat: &mut ValueSeat<T>,
        test: &P,
    ) -> Option<u64>
        requires test { P.IsAlwaysCallable test.now }
        requires seated { IsSeated self.now Free seat.old.table_id seat.old.me }
        ensures yes { IfSome result (λ s. IsSeated self.now (Reading s) seat.new.table_id seat.new.me
            × BeginsReading (λ x. FnReturnsAt P.Fn test.now x true) s
            (token self.now seat.old.me) (token self.now seat.new.me)) }
        ensures no { IsNone result → IsSeated self.now Free seat.new.table_id seat.new.me
            × ReadSection (λ x. FnReturnsAt P.Fn test.now x false)
            (token self.now seat.old.me) (token self.now seat.new.me) }
    {
        let LockReply::Stamp(stamp) = self.call(rt, seat, Call::ReadLock) else {
            unreachable!()
        };
        let holds = test(seat.value_ref(&self.table.shared));
        if holds {
            return Some(stamp);
        }
        self.release_read(seat, stamp);
        None
    }

    /// Converts read mode to write mode, and tells the stamp of that. Where the lock refuses, it
    /// releases read mode.
    fn upgrade_or_release<R: Wait>(
        &self,
        rt: &R,
        seat: &mut ValueSeat<T>,
        reading: u64,
    ) -> Option<u64>
        requires seated { IsSeated self.now (Reading reading) seat.old.table_id seat.old.me }
        ensures upgraded { IfSome result (λ s. IsSeated self.now (Writing s) seat.new.table_id seat.new.me
            × Calls (ToWrite reading) (Stamp s) (token self.now seat.old.me) (token self.now seat.new.me)
            × WritesLast seat.new.me × WritesWhatRead seat.old.me seat.new.me) }
        ensures released { IsNone result → IsSeated self.now Free seat.new.table_id seat.new.me
            × GivesUpReading reading (token self.now seat.old.me) (token self.now seat.new.me) }
    {
        let LockReply::Stamp(writing) = self.call(rt, seat, Call::ToWrite(reading)) else {
            unreachable!()
        };
        if writing != 0 {
            return Some(writing);
        }
        self.release_read(seat, reading);
        None
    }

    /// Runs the second closure in write mode, where the first answers true there.
    fn write_where<A: Drop, R: Wait, P: Fn(&T) -> bool, F: FnOnce(&mut T) -> A>(
        &self,
        rt: &R,
        seat: &mut ValueSeat<T>,
        test: &P,
        then: F,
    ) -> Result<Option<A>, Spent>
        requires test { P.IsAlwaysCallable test.now }
        requires then { (x : _) → FnReturnsAt P.Fn test.now x.now true → F.pre then x }
        requires seated { IsSeated self.now Free seat.old.table_id seat.old.me }
        ensures seated { IsSeated self.now Free seat.new.table_id seat.new.me }
        ensures section { WriteWhere (λ yes x. FnReturnsAt P.Fn test.now x yes)
            (λ a x y. FnOnceReturnsAtMut F.FnOnce then x a y) result
            (token self.now seat.old.me) (token self.now seat.new.me) }
    {
        let LockReply::Stamp(stamp) = self.call(rt, seat, Call::WriteLock) else {
            unreachable!()
        };
        if stamp == 0 {
            return Err(Spent);
        }
        let holds = test(seat.value_ref(&self.table.shared));
        if holds {
            return Ok(Some(self.write_held(rt, seat, stamp, then)));
        }
        let _ = self.call(rt, seat, Call::UnlockWrite(stamp));
        Ok(None)
    }
}
