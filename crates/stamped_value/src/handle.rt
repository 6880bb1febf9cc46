//! The handles of a guarded value.
ghost use Rattle.std.specs.Prelude.{◌≡◌, IfOk, IfErr};
ghost use types.Logic.{sem};
ghost use Rattle.stamp_core.specs.declared.call.Call.TheVariants.{TryWrite, TryRead, WriteLock, ReadLock};
ghost use Rattle.stamp_core.specs.declared.reply.Reply.TheVariants.{Stamp};
ghost use Rattle.stamped_value.specs.Held.{stamp_held};
ghost use Rattle.stamped_value.specs.Leaving.{IsLeft, a_seat_left};
ghost use Rattle.stamped_value.specs.Outcomes.{WritesLast};
ghost use Rattle.stamped_value.specs.Seated.{IsSeated};
ghost use Rattle.stamped_value.specs.ValueCalls.{Calls};
ghost use Rattle.stamped_value.specs.declared.view.Held.TheVariants.{Free};

use crate::guarded::Guarded;
use crate::guards::{ReadGuard, WriteGuard};
use crate::steps::ValueSeat;
use crate::view::ValueView;
use lent_table::Left;
use stamp_core::{Call, LockReply};
use std::marker::Model;
use std::sync::Wait;

/// One thread's way to a guarded value, which holds nothing of it. A handle can be moved to another
/// thread, and can't be copied.
///
/// It is seen as its lock, what it knows, and what it has of the value: nothing.
pub struct ValueHandle<'a, T> {
    pub(crate) value: &'a Guarded<T>,
    pub(crate) seat: ValueSeat<T>,
}

impl<'a, T> Model for ValueHandle<'a, T> {
    ghost use Rattle.stamped_value.specs.ValueLock.{ValueToken};
    ghost use Rattle.stamped_value.specs.declared.view.Held.TheVariants.{Free};
    ghost use Rattle.stamped_value.specs.Seated.{IsSeated};

    ghost Value = { ValueToken T };

    ghost view = { λ h. record { lock = h.value.now; me = h.seat.me } };

    ghost invariant = { λ h. IsSeated h.value.now Free h.seat.table_id h.seat.me };
}

impl<T> Drop for ValueHandle<'_, T> {
    /// Leaves the lock.
    fn drop(self)
        ensures* left { sem 𝓛 (a_seat_left T.row (IsLeft self.entry)) }
    {
        self.leave().tell();
    }
}

impl<T> ValueHandle<'_, T> {
    // Gives up the seat, as the handle knows it.
    pub(crate) fn leave(self) -> Left<ValueView<T>>
        ensures { IsLeft self.entry result }
    {
        let ValueHandle { value: _, seat } = self;
        seat.leave()
    }
}

impl<'a, T> ValueHandle<'a, T> {
    /// Its lock and its seat, for the methods of other files.
    pub(crate) fn into_parts(self) -> (&'a Guarded<T>, ValueSeat<T>)
        ensures lock { result.0.now ≡ self.entry.lock }
        ensures me { result.1.me ≡ self.entry.me }
        ensures seated { IsSeated result.0.now Free result.1.table_id result.1.me }
    {
        let ValueHandle { value, seat } = self;
        (value, seat)
    }

    /// Acquires read mode if there is no writer and room for a reader (`tryReadLock`). Otherwise it
    /// gives the handle back, by which the call was made and answered 0. It waits for nobody, and
    /// tries again where another thread came between.
    pub fn try_read<R: Wait>(self, rt: &'a R) -> Result<ReadGuard<'a, T, R>, ValueHandle<'a, T>>
        ensures ok { IfOk result (λ g. Calls TryRead (Stamp (stamp_held g.me.0.held)) self.entry g) }
        ensures err { IfErr result (λ h. Calls TryRead (Stamp 0) self.entry h) }
    {
        let ValueHandle { value, mut seat } = self;
        let LockReply::Stamp(stamp) = value.call(rt, &mut seat, Call::TryRead) else {
            unreachable!()
        };
        if stamp == 0 {
            return Err(ValueHandle { value, seat });
        }
        Ok(ReadGuard {
            rt,
            value,
            seat,
            stamp,
        })
    }

    /// Acquires read mode, and waits while there is a writer or no room (`readLock`).
    #[inline(always)]
    pub fn read<R: Wait>(self, rt: &'a R) -> ReadGuard<'a, T, R>
        ensures { Calls ReadLock (Stamp (stamp_held result.me.0.held)) self.entry result }
    {
        let ValueHandle { value, mut seat } = self;
        let LockReply::Stamp(stamp) = value.call(rt, &mut seat, Call::ReadLock) else {
            unreachable!()
        };
        ReadGuard {
            rt,
            value,
            seat,
            stamp,
        }
    }

    /// Acquires write mode if nobody holds the lock and a version is left (`tryWriteLock`).
    /// Otherwise it gives the handle back, by which the call was made and answered 0. It waits for
    /// nobody, and tries again where another thread came between.
    pub fn try_write<R: Wait>(self, rt: &'a R) -> Result<WriteGuard<'a, T, R>, ValueHandle<'a, T>>
        ensures ok { IfOk result (λ g. Calls TryWrite (Stamp (stamp_held g.me.0.held)) self.entry g) }
        ensures last { IfOk result (λ g. WritesLast g.me) }
        ensures err { IfErr result (λ h. Calls TryWrite (Stamp 0) self.entry h) }
    {
        let ValueHandle { value, mut seat } = self;
        let LockReply::Stamp(stamp) = value.call(rt, &mut seat, Call::TryWrite) else {
            unreachable!()
        };
        if stamp == 0 {
            return Err(ValueHandle { value, seat });
        }
        Ok(WriteGuard {
            rt,
            value,
            seat,
            stamp,
        })
    }

    /// Acquires write mode, and waits while anybody holds the lock (`writeLock`). Where no version
    /// is left it gives the handle back, by which the call was made and answered 0.
    pub fn write<R: Wait>(self, rt: &'a R) -> Result<WriteGuard<'a, T, R>, ValueHandle<'a, T>>
        ensures ok { IfOk result (λ g. Calls WriteLock (Stamp (stamp_held g.me.0.held)) self.entry g) }
        ensures last { IfOk result (λ g. WritesLast g.me) }
        ensures err { IfErr result (λ h. Calls WriteLock (Stamp 0) self.entry h) }
    {
        let ValueHandle { value, mut seat } = self;
        let LockReply::Stamp(stamp) = value.call(rt, &mut seat, Call::WriteLock) else {
            unreachable!()
        };
        if stamp == 0 {
            return Err(ValueHandle { value, seat });
        }
        Ok(WriteGuard {
            rt,
            value,
            seat,
            stamp,
        })
    }
}
