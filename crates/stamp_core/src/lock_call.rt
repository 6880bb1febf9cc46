//! The calls of the lock, in few bytes.
ghost use Rattle.std.specs.Prelude.{◌≡◌, IfSome, IsTrue, is_some};
ghost use Rattle.stamp_core.specs.Call.{is_lock_call};
ghost use Rattle.stamp_core.specs.LockCall.{call_as};

use crate::call::Call;

/// A call of the lock: as `Call`, without those of the record. It takes 16 bytes, and a `Call`, with
/// room for a record's words, 280. Each variant is the one of its name there; beside it stands the
/// method of Java's `StampedLock`.
#[derive(Clone, Copy, Debug, PartialEq, Eq)]
pub enum LockCall {
    /// `tryWriteLock`.
    TryWrite,
    /// `tryReadLock`.
    TryRead,
    /// `writeLock`.
    WriteLock,
    /// `readLock`.
    ReadLock,
    /// `tryOptimisticRead`.
    Optimistic,
    /// `validate`.
    Validate(u64),
    /// `unlockWrite`.
    UnlockWrite(u64),
    /// `unlockRead`.
    UnlockRead(u64),
    /// `unlock`.
    Unlock(u64),
    /// `tryConvertToWriteLock`.
    ToWrite(u64),
    /// `tryConvertToReadLock`.
    ToRead(u64),
    /// `tryConvertToOptimisticRead`.
    ToOptimistic(u64),
    /// `tryUnlockWrite`.
    TryUnlockWrite,
    /// `tryUnlockRead`.
    TryUnlockRead,
    /// `isWriteLocked`.
    IsWriteLocked,
    /// `isReadLocked`.
    IsReadLocked,
    /// `getReadLockCount`.
    ReadCount,
}

impl LockCall {
    /// The call of the lock that it is; `None` for a call of the record.
    pub fn of(call: &Call) -> Option<LockCall>
        ensures lock_call { is_some result ≡ is_lock_call call.now }
        ensures same { IfSome result (λ own. call_as own ≡ call.now) }
    {
        match *call {
            Call::TryWrite => Some(LockCall::TryWrite),
            Call::TryRead => Some(LockCall::TryRead),
            Call::WriteLock => Some(LockCall::WriteLock),
            Call::ReadLock => Some(LockCall::ReadLock),
            Call::Optimistic => Some(LockCall::Optimistic),
            Call::Validate(stamp) => Some(LockCall::Validate(stamp)),
            Call::UnlockWrite(stamp) => Some(LockCall::UnlockWrite(stamp)),
            Call::UnlockRead(stamp) => Some(LockCall::UnlockRead(stamp)),
            Call::Unlock(stamp) => Some(LockCall::Unlock(stamp)),
            Call::ToWrite(stamp) => Some(LockCall::ToWrite(stamp)),
            Call::ToRead(stamp) => Some(LockCall::ToRead(stamp)),
            Call::ToOptimistic(stamp) => Some(LockCall::ToOptimistic(stamp)),
            Call::TryUnlockWrite => Some(LockCall::TryUnlockWrite),
            Call::TryUnlockRead => Some(LockCall::TryUnlockRead),
            Call::IsWriteLocked => Some(LockCall::IsWriteLocked),
            Call::IsReadLocked => Some(LockCall::IsReadLocked),
            Call::ReadCount => Some(LockCall::ReadCount),
            Call::Get | Call::Put(_) | Call::PutIf(_, _) => None,
        }
    }

    /// The same call, among those of lock and record.
    #[inline(always)]
    pub fn as_call(self) -> Call
        ensures call { result ≡ call_as self }
        ensures lock_call { IsTrue (is_lock_call result) }
    {
        match self {
            LockCall::TryWrite => Call::TryWrite,
            LockCall::TryRead => Call::TryRead,
            LockCall::WriteLock => Call::WriteLock,
            LockCall::ReadLock => Call::ReadLock,
            LockCall::Optimistic => Call::Optimistic,
            LockCall::Validate(stamp) => Call::Validate(stamp),
            LockCall::UnlockWrite(stamp) => Call::UnlockWrite(stamp),
            LockCall::UnlockRead(stamp) => Call::UnlockRead(stamp),
            LockCall::Unlock(stamp) => Call::Unlock(stamp),
            LockCall::ToWrite(stamp) => Call::ToWrite(stamp),
            LockCall::ToRead(stamp) => Call::ToRead(stamp),
            LockCall::ToOptimistic(stamp) => Call::ToOptimistic(stamp),
            LockCall::TryUnlockWrite => Call::TryUnlockWrite,
            LockCall::TryUnlockRead => Call::TryUnlockRead,
            LockCall::IsWriteLocked => Call::IsWriteLocked,
            LockCall::IsReadLocked => Call::IsReadLocked,
            LockCall::ReadCount => Call::ReadCount,
        }
    }
}
