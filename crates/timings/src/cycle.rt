//! The calls of the lock that are timed, one after another.
ghost use Rattle.std.specs.Prelude.{◌≡◌, ◌<◌, IsTrue, slice_get};
ghost use Rattle.stamp_core.specs.Call.{is_lock_call};
ghost use Rattle.timings.specs.Cycle.{cycle};

use stamp_core::Call;

/// How many calls there are before they come again.
pub const CYCLE: u64 = 20;

/// The call of this index in the cycle. Those that take a stamp are given this one.
pub fn call_at(at: u64, stamp: u64) -> Call
    requires { at < CYCLE }
    ensures call { slice_get (cycle stamp) at ≡ Some result }
    ensures lock_call { IsTrue (is_lock_call result) }
{
    match at {
        0 => Call::Optimistic,
        1 => Call::Validate(stamp),
        2 => Call::TryRead,
        3 => Call::ReadLock,
        4 => Call::IsReadLocked,
        5 => Call::UnlockRead(stamp),
        6 => Call::ReadCount,
        7 => Call::ToWrite(stamp),
        8 => Call::IsWriteLocked,
        9 => Call::ToRead(stamp),
        10 => Call::ToOptimistic(stamp),
        11 => Call::WriteLock,
        12 => Call::Validate(stamp),
        13 => Call::UnlockWrite(stamp),
        14 => Call::TryWrite,
        15 => Call::Unlock(stamp),
        16 => Call::TryRead,
        17 => Call::TryUnlockRead,
        18 => Call::TryUnlockWrite,
        _ => Call::UnlockWrite(stamp),
    }
}
