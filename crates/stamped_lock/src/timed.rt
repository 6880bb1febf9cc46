//! Calls that are tried until a time is over.
ghost use Rattle.std.specs.Prelude.{◌≡◌, ◌⊎◌, IfOk, IfErr};
ghost use Rattle.stamp_core.specs.declared.call.Call.TheVariants.{TryWrite, TryRead};
ghost use Rattle.stamped_lock.specs.Replies.{stamped};
ghost use Rattle.stamp_core.specs.declared.reply.Reply.TheVariants as reply;
ghost use Rattle.stamped_lock.specs.Made.{Made};
ghost use Rattle.stamped_lock.specs.Timed.{TriedAtLast};

use crate::answers::stamp_unless_zero;
use crate::handle::LockHandle;
use crate::stamp::Stamp;
use stamp_core::{Call, KnownLayout};
use std::sync::Wait;
use std::time::{Clock, Duration, Instant};
use std::{io, thread};

impl<'a, L: KnownLayout> LockHandle<'a, L> {
    /// Acquires write mode, trying for this long while somebody holds the lock
    /// (`tryWriteLock(time, unit)`). It tries as `try_write` does, once at least. None where each
    /// try found the lock held, or no version left. Between two tries it lets other threads run; so
    /// it ends by one try, and by a turn of theirs, later than the time. How long it takes is
    /// tested, not proved.
    /// It fails where the clock does, and nothing was acquired then.
    pub fn try_write_for<R: Wait + Clock>(
        &mut self,
        rt: &R,
        time: Duration,
    ) -> io::Result<Option<Stamp>>
        ensures tried { IfOk result (λ stamp. TriedAtLast TryWrite (stamped stamp) self.old self.new) }
        ensures err { IfErr result (λ _. TriedAtLast TryWrite (reply.Stamp 0) self.old self.new) }
    {
        self.try_for(rt, Call::TryWrite, time)
    }

    /// Acquires read mode, trying for this long while it isn't free (`tryReadLock(time, unit)`). It
    /// tries as `try_read` does. None where each try found a writer, or no room for a reader. It
    /// ends, and fails, as `try_write_for` does.
    pub fn try_read_for<R: Wait + Clock>(
        &mut self,
        rt: &R,
        time: Duration,
    ) -> io::Result<Option<Stamp>>
        ensures tried { IfOk result (λ stamp. TriedAtLast TryRead (stamped stamp) self.old self.new) }
        ensures err { IfErr result (λ _. TriedAtLast TryRead (reply.Stamp 0) self.old self.new) }
    {
        self.try_for(rt, Call::TryRead, time)
    }

    /// Makes the call until it answers a stamp, or the time is over.
    fn try_for<R: Wait + Clock>(
        &mut self,
        rt: &R,
        call: Call,
        time: Duration,
    ) -> io::Result<Option<Stamp>>
        requires { (call ≡ TryWrite) ⊎ (call ≡ TryRead) }
        ensures tried { IfOk result (λ stamp. TriedAtLast call (stamped stamp) self.old self.new) }
        ensures err { IfErr result (λ _. TriedAtLast call (reply.Stamp 0) self.old self.new) }
    {
        // A copy, since the borrow checker covers no struct that is passed by value and used again.
        let again = call;
        let stamp = self.try_call(rt, call);
        if stamp.is_some() {
            return Ok(stamp);
        }
        let start = Instant::now(rt)?;
        for _ in rt.forever() {
            if start.elapsed(rt)? >= time {
                return Ok(None);
            }
            thread::yield_now();
            let next = again;
            let stamp = self.try_call(rt, next);
            if stamp.is_some() {
                return Ok(stamp);
            }
        }
        unreachable!()
    }

    /// Makes the call, which answers a stamp.
    fn try_call<R: Wait>(&mut self, rt: &R, call: Call) -> Option<Stamp>
        requires { (call ≡ TryWrite) ⊎ (call ≡ TryRead) }
        ensures { Made call (stamped result) self.old self.new }
    {
        stamp_unless_zero(self.call(rt, call))
    }
}
