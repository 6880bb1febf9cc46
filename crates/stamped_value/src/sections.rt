//! Sections: a closure that reads or writes the value, between two calls of the lock.
ghost use Rattle.std.specs.Prelude.{◌≡◌, IfSome, IsNone};
ghost use Rattle.std.specs.Fn.{FnOnceReturnsAt, FnOnceReturnsAtMut};
ghost use Rattle.lent_table.specs.Table.{writes};
ghost use Rattle.stamp_core.specs.declared.call.Call.TheVariants.{WriteLock};
ghost use Rattle.stamp_core.specs.declared.reply.Reply.TheVariants.{Stamp};
ghost use Rattle.stamped_value.specs.Stands.{Stands};
ghost use Rattle.stamped_value.specs.Outcomes.{WritesLast};
ghost use Rattle.stamped_value.specs.Sections.{EndsWriting, ReadSection, ReadsByStamp, WriteSection};
ghost use Rattle.stamped_value.specs.ValueCalls.{Calls};
ghost use Rattle.stamped_value.specs.inner.ValueLock.{token};
ghost use Rattle.stamped_value.specs.Seated.{IsSeated};
ghost use Rattle.stamped_value.specs.declared.view.Held.TheVariants.{Free, Writing};

use crate::guarded::Guarded;
use crate::handle::ValueHandle;
use crate::steps::ValueSeat;
use stamp_core::{Call, LockReply};
use std::sync::Wait;

impl<T> Guarded<T> {
    fn read_section<A: Drop, R: Wait, F: FnOnce(&T) -> A>(
        &self,
        rt: &R,
        seat: &mut ValueSeat<T>,
        f: F,
    ) -> (A, u64)
        requires call { F.IsAlwaysCallable f }
        requires seated { IsSeated self.now Free seat.old.table_id seat.old.me }
        ensures seated { IsSeated self.now Free seat.new.table_id seat.new.me }
        ensures section { ReadsByStamp (λ x. FnOnceReturnsAt F.FnOnce f x result.0) result.1
            (token self.now seat.old.me) (token self.now seat.new.me) }
    {
        let LockReply::Stamp(stamp) = self.call(rt, seat, Call::ReadLock) else {
            unreachable!()
        };
        let answer = f(seat.value_ref(&self.table.shared));
        self.release_read(seat, stamp);
        (answer, stamp)
    }

    fn write_section<A: Drop, R: Wait, F: FnOnce(&mut T) -> A>(
        &self,
        rt: &R,
        seat: &mut ValueSeat<T>,
        f: F,
    ) -> Option<A>
        requires call { F.IsAlwaysCallable f }
        requires seated { IsSeated self.now Free seat.old.table_id seat.old.me }
        ensures seated { IsSeated self.now Free seat.new.table_id seat.new.me }
        ensures section { IfSome result (λ a. WriteSection (λ x y. FnOnceReturnsAtMut F.FnOnce f x a y)
            (token self.now seat.old.me) (token self.now seat.new.me)) }
        ensures spent { IsNone result →
            Calls WriteLock (Stamp 0) (token self.now seat.old.me) (token self.now seat.new.me) }
    {
        let LockReply::Stamp(stamp) = self.call(rt, seat, Call::WriteLock) else {
            unreachable!()
        };
        if stamp == 0 {
            return None;
        }
        Some(self.write_held(rt, seat, stamp, f))
    }

    /// Runs the closure in the write mode that the seat holds, and releases it.
    pub(crate) fn write_held<A: Drop, R: Wait, F: FnOnce(&mut T) -> A>(
        &self,
        rt: &R,
        seat: &mut ValueSeat<T>,
        stamp: u64,
        f: F,
    ) -> A
        requires call { (x : _) → seat.old.me.1 ≡ writes x.now → F.pre f x }
        requires seated { IsSeated self.now (Writing stamp) seat.old.table_id seat.old.me }
        requires last { WritesLast seat.old.me }
        ensures seated { IsSeated self.now Free seat.new.table_id seat.new.me }
        ensures ends { EndsWriting (λ x y. FnOnceReturnsAtMut F.FnOnce f x result y) stamp
            (token self.now seat.old.me) (token self.now seat.new.me) }
    {
        let answer = f(seat.value_mut(&self.table.shared));
        let _ = self.call(rt, seat, Call::UnlockWrite(stamp));
        answer
    }
}

impl<'a, T> ValueHandle<'a, T> {
    /// Runs the closure on the value in read mode, beside other readers: acquires it (it waits as
    /// `read` does), runs the closure and releases.
    pub fn read_with<A: Drop, R: Wait, F: FnOnce(&T) -> A>(&mut self, rt: &R, f: F) -> A
        requires { F.IsAlwaysCallable f }
        ensures { ReadSection (λ x. FnOnceReturnsAt F.FnOnce f x result) self.old self.new }
    {
        let value = self.value;
        let (answer, _) = value.read_section(rt, &mut self.seat, f);
        answer
    }

    /// Runs the closure as `read_with` does, and tells the stamp by which it read: with this,
    /// `is_last` tells later whether the value that the closure saw is still the last one.
    pub fn read_stamped<A: Drop, R: Wait, F: FnOnce(&T) -> A>(&mut self, rt: &R, f: F) -> (A, u64)
        requires { F.IsAlwaysCallable f }
        ensures { ReadsByStamp (λ x. FnOnceReturnsAt F.FnOnce f x result.0) result.1 self.old self.new }
    {
        let value = self.value;
        value.read_section(rt, &mut self.seat, f)
    }

    /// Runs the closure on the value in write mode, alone: acquires it (it waits as `write` does),
    /// runs the closure and releases. `None` where no version was left: the closure has not run.
    pub fn write_with<A: Drop, R: Wait, F: FnOnce(&mut T) -> A>(
        &mut self,
        rt: &R,
        f: F,
    ) -> Option<A>
        requires { F.IsAlwaysCallable f }
        ensures section { IfSome result (λ a.
            WriteSection (λ x y. FnOnceReturnsAtMut F.FnOnce f x a y) self.old self.new) }
        ensures spent { IsNone result → Calls WriteLock (Stamp 0) self.old self.new }
    {
        let value = self.value;
        value.write_section(rt, &mut self.seat, f)
    }
}
