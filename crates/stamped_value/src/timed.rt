//! Modes of a guarded value that are tried for until a time is over.
ghost use Rattle.std.specs.Prelude.{◌≡◌, ◌<◌, ◌⊎◌, IfOk, IfErr};
ghost use Rattle.stamp_core.specs.Limits.{AreInRange};
ghost use Rattle.stamp_core.specs.declared.call.Call.TheVariants.{TryWrite, TryRead};
ghost use Rattle.stamp_core.specs.declared.reply.Reply.TheVariants.{Stamp};
ghost use Rattle.stamped_value.specs.Held.{stamp_held};
ghost use Rattle.stamped_value.specs.Outcomes.{WritesLast};
ghost use Rattle.stamped_value.specs.Seated.{IsSeated};
ghost use Rattle.stamped_value.specs.Stands.{Stands};
ghost use Rattle.stamped_value.specs.Timed.{TriedAtLast};
ghost use Rattle.stamped_value.specs.ValueCalls.{Calls};
ghost use Rattle.stamped_value.specs.inner.ValueLock.{token};
ghost use Rattle.stamped_value.specs.declared.view.Held.TheVariants.{Free};

use crate::guarded::Guarded;
use crate::guards::{ReadGuard, WriteGuard};
use crate::handle::ValueHandle;
use crate::steps::ValueSeat;
use stamp_core::{Call, LockReply};
use std::sync::Wait;
use std::time::{Clock, Duration, Instant};
use std::{io, thread};

/// Why a call for a time acquired nothing, with the handle that made it: it holds nothing, and is
/// good for further calls.
#[derive(Drop)]
pub struct NotInTime<'a, T> {
    /// The handle.
    pub handle: ValueHandle<'a, T>,
    /// What the clock failed with; `None` where the time was over.
    pub error: Option<io::Error>,
}

impl<'a, T> ValueHandle<'a, T> {
    /// Acquires read mode, trying for this long while there is a writer or no room for a reader
    /// (`tryReadLock(time, unit)`). It tries as `try_read` does, once at least, and ends by the
    /// first reading of the clock that is past its time: it reads it before each further try.
    /// Between two tries it lets other threads run, and never sleeps; so it ends by one try, and by
    /// a turn of theirs, later than the time. How long it takes is tested, not proved.
    /// It fails where the time is over, and where the clock fails: the handle comes back, by which
    /// each try was answered 0, and nothing was acquired.
    pub fn try_read_for<R: Wait + Clock>(
        self,
        rt: &'a R,
        time: Duration,
    ) -> Result<ReadGuard<'a, T, R>, NotInTime<'a, T>>
        ensures ok { IfOk result (λ g. TriedAtLast TryRead (Stamp (stamp_held g.me.0.held)) self.entry g) }
        ensures err { IfErr result (λ e. TriedAtLast TryRead (Stamp 0) self.entry e.handle) }
    {
        let (value, mut seat) = self.into_parts();
        match value.try_for(rt, &mut seat, Call::TryRead, time) {
            Ok(stamp) => Ok(ReadGuard {
                rt,
                value,
                seat,
                stamp,
            }),
            Err(error) => Err(NotInTime {
                handle: ValueHandle { value, seat },
                error,
            }),
        }
    }

    /// Acquires write mode, trying for this long while somebody holds the lock or no version is left
    /// (`tryWriteLock(time, unit)`). It tries as `try_write` does. It ends, and fails, as
    /// `try_read_for` does.
    pub fn try_write_for<R: Wait + Clock>(
        self,
        rt: &'a R,
        time: Duration,
    ) -> Result<WriteGuard<'a, T, R>, NotInTime<'a, T>>
        ensures ok { IfOk result (λ g. TriedAtLast TryWrite (Stamp (stamp_held g.me.0.held)) self.entry g) }
        ensures last { IfOk result (λ g. WritesLast g.me) }
        ensures err { IfErr result (λ e. TriedAtLast TryWrite (Stamp 0) self.entry e.handle) }
    {
        let (value, mut seat) = self.into_parts();
        match value.try_for(rt, &mut seat, Call::TryWrite, time) {
            Ok(stamp) => Ok(WriteGuard {
                rt,
                value,
                seat,
                stamp,
            }),
            Err(error) => Err(NotInTime {
                handle: ValueHandle { value, seat },
                error,
            }),
        }
    }
}

impl<T> Guarded<T> {
    /// Makes the call until it answers a stamp. It answers no stamp where the time is over, or the
    /// clock fails.
    fn try_for<R: Wait + Clock>(
        &self,
        rt: &R,
        seat: &mut ValueSeat<T>,
        call: Call,
        time: Duration,
    ) -> Result<u64, Option<io::Error>>
        requires call { (call ≡ TryWrite) ⊎ (call ≡ TryRead) }
        requires seated { IsSeated self.now Free seat.old.table_id seat.old.me }
        ensures range { AreInRange self.now.limits }
        ensures table { seat.new.table_id ≡ self.now.table }
        ensures stands { Stands self.now.limits seat.new.me }
        ensures ok { IfOk result (λ stamp. (0 < stamp)
            × TriedAtLast call (Stamp stamp) (token self.now seat.old.me) (token self.now seat.new.me)) }
        ensures err { IfErr result (λ _.
            TriedAtLast call (Stamp 0) (token self.now seat.old.me) (token self.now seat.new.me)) }
    {
        // A copy, since the borrow checker covers no struct that is passed by value and used again.
        let again = call;
        let stamp = self.try_call(rt, seat, call);
        if stamp != 0 {
            return Ok(stamp);
        }
        let start = Instant::now(rt).map_err(Some)?;
        for _ in rt.forever() {
            if start.elapsed(rt).map_err(Some)? >= time {
                return Err(None);
            }
            thread::yield_now();
            let next = again;
            let stamp = self.try_call(rt, seat, next);
            if stamp != 0 {
                return Ok(stamp);
            }
        }
        unreachable!()
    }

    /// Makes the call, which answers a stamp, or 0.
    fn try_call<R: Wait>(&self, rt: &R, seat: &mut ValueSeat<T>, call: Call) -> u64
        requires call { (call ≡ TryWrite) ⊎ (call ≡ TryRead) }
        requires seated { IsSeated self.now Free seat.old.table_id seat.old.me }
        ensures range { AreInRange self.now.limits }
        ensures table { seat.new.table_id ≡ self.now.table }
        ensures stands { Stands self.now.limits seat.new.me }
        ensures made { Calls call (Stamp result) (token self.now seat.old.me) (token self.now seat.new.me) }
    {
        let LockReply::Stamp(stamp) = self.call(rt, seat, call) else {
            unreachable!()
        };
        stamp
    }
}
