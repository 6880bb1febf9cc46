//! What may be called.
ghost use Rattle.std.specs.Prelude.{◌≡◌};
ghost use Rattle.stamp_core.specs.Call.{is_lock_call, call_suits};

use crate::words::Words;
use std::fmt;

/// A call: of the lock, with the name of its method of Java's `StampedLock`, or of the guarded record.
/// A number is a stamp; any number may be given. By `{}` it shows its name and what it takes.
#[derive(Clone, Copy, Debug, PartialEq, Eq)]
pub enum Call {
    /// Acquires write mode if nobody holds the lock and a version is left (`tryWriteLock`).
    TryWrite,
    /// Acquires read mode if there is no writer and room for a reader (`tryReadLock`).
    TryRead,
    /// Acquires write mode, and waits while anybody holds the lock (`writeLock`). Where no version is
    /// left it answers 0.
    WriteLock,
    /// Acquires read mode, and waits while there is a writer or no room (`readLock`).
    ReadLock,
    /// Asks for a stamp to be validated later; 0 while there is a writer (`tryOptimisticRead`).
    Optimistic,
    /// Asks whether write mode was not acquired since the stamp was issued (`validate`).
    Validate(u64),
    /// Releases write mode, if the stamp matches it (`unlockWrite`).
    UnlockWrite(u64),
    /// Releases one hold of read mode, if the stamp matches it (`unlockRead`).
    UnlockRead(u64),
    /// Releases the mode that the stamp matches (`unlock`).
    Unlock(u64),
    /// Converts to write mode (`tryConvertToWriteLock`): from write mode, from read mode with no other
    /// reader, or from a valid optimistic stamp if nobody holds the lock. Otherwise it answers 0.
    ToWrite(u64),
    /// Converts to read mode (`tryConvertToReadLock`): from write mode, from read mode, or from a valid
    /// optimistic stamp if there is room. Otherwise it answers 0.
    ToRead(u64),
    /// Releases what the stamp holds, and answers an optimistic stamp (`tryConvertToOptimisticRead`); a
    /// valid optimistic stamp is answered itself. Otherwise it answers 0.
    ToOptimistic(u64),
    /// Releases write mode without a stamp, if it is held (`tryUnlockWrite`).
    TryUnlockWrite,
    /// Releases one hold of read mode without a stamp, if there is one (`tryUnlockRead`).
    TryUnlockRead,
    /// Asks whether write mode is held (`isWriteLocked`).
    IsWriteLocked,
    /// Asks whether read mode is held (`isReadLocked`).
    IsReadLocked,
    /// Asks how many hold read mode (`getReadLockCount`).
    ReadCount,
    /// Reads the words of the record.
    Get,
    /// Writes the words of the record.
    Put(Words),
    /// Writes the second words if the record holds the first; `No` and no change otherwise.
    PutIf(Words, Words),
}

impl fmt::Display for Call {
    ghost use Rattle.std.specs.Prelude.{Some};
    ghost use Rattle.stamp_core.specs.Texts.{call_text};

    ghost output = { λ call. Some (call_text call) };

    fn fmt<W: fmt::Write>(&self, f: &mut fmt::Formatter<W>) -> fmt::Result {
        match self {
            Call::TryWrite => write!(f, "try_write"),
            Call::TryRead => write!(f, "try_read"),
            Call::WriteLock => write!(f, "write_lock"),
            Call::ReadLock => write!(f, "read_lock"),
            Call::Optimistic => write!(f, "optimistic"),
            Call::Validate(stamp) => write!(f, "validate {stamp}"),
            Call::UnlockWrite(stamp) => write!(f, "unlock_write {stamp}"),
            Call::UnlockRead(stamp) => write!(f, "unlock_read {stamp}"),
            Call::Unlock(stamp) => write!(f, "unlock {stamp}"),
            Call::ToWrite(stamp) => write!(f, "to_write {stamp}"),
            Call::ToRead(stamp) => write!(f, "to_read {stamp}"),
            Call::ToOptimistic(stamp) => write!(f, "to_optimistic {stamp}"),
            Call::TryUnlockWrite => write!(f, "try_unlock_write"),
            Call::TryUnlockRead => write!(f, "try_unlock_read"),
            Call::IsWriteLocked => write!(f, "is_write_locked"),
            Call::IsReadLocked => write!(f, "is_read_locked"),
            Call::ReadCount => write!(f, "read_count"),
            Call::Get => write!(f, "get"),
            Call::Put(words) => write!(f, "put {}", words),
            Call::PutIf(expected, words) => { write!(f, "put_if {} {}", expected, words) }
        }
    }
}

impl Call {
    /// Whether it is one of the seventeen calls of the lock, and not of the record.
    pub fn is_lock_call(&self) -> bool
        ensures { result ≡ is_lock_call self.now }
    {
        !matches!(self, Call::Get | Call::Put(_) | Call::PutIf(_, _))
    }

    /// Whether it can be called beside a record of this many words; 0 is no record.
    pub fn suits(&self, width: u64) -> bool
        ensures { result ≡ call_suits width self.now }
    {
        match *self {
            Call::Get => width > 0,
            Call::Put(words) => width > 0 && words.len() as u64 == width,
            Call::PutIf(expected, words) => {
                width > 0 && expected.len() as u64 == width && words.len() as u64 == width
            }
            _ => true,
        }
    }
}
