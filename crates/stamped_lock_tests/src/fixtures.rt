//! A lock, and calls by its handles as a table.
ghost use Rattle.std.specs.Prelude.{◌≡◌};

use stamped_lock::{KnownLayout, Layout, Limits, LockHandle, Stamp, StampedLock, UnlockError};
use std::alloc::Global;
use std::sync::Wait;
use std::test::Fail;

/// A lock of the widest limits; the test fails where there is no memory for it.
pub fn made(alloc: Global) -> Result<StampedLock, Fail> {
    match StampedLock::new(alloc) {
        Ok(lock) => Ok(lock),
        Err(_) => Err(Fail::from("no memory for the lock")),
    }
}

/// The most readers at a time, and the most write acquisitions.
pub type Most = (u64, u64);

/// A lock of layout 1 with these limits, as a caller has it who names no layout.
pub fn made_with(alloc: Global, (readers, versions): Most) -> Result<StampedLock, Fail> {
    let Ok(limits) = Limits::new(readers, versions) else {
        return Err(Fail::from("limits"));
    };
    match StampedLock::with_limits(alloc, limits) {
        Ok(lock) => Ok(lock),
        Err(_) => Err(Fail::from("no memory for the lock")),
    }
}

/// A lock of a layout with these limits, whose type stands for the layout.
pub fn made_in<L: KnownLayout>(
    alloc: Global,
    layout: Layout,
    most: Most,
) -> Result<StampedLock<L>, Fail>
    requires { L.seen layout ≡ layout }
{
    let (readers, versions) = most;
    let Ok(limits) = Limits::in_layout(layout, readers, versions) else {
        return Err(Fail::from("limits"));
    };
    match StampedLock::in_layout(alloc, limits) {
        Ok(lock) => Ok(lock),
        Err(_) => Err(Fail::from("no memory for the lock")),
    }
}

/// A call by a handle.
#[derive(Clone, Copy)]
pub enum Ask {
    Write,
    TryWrite,
    Read,
    TryRead,
    Optimistic,
    Validate,
    UnlockWrite,
    UnlockRead,
    Unlock,
    TryUnlockWrite,
    TryUnlockRead,
    ToWrite,
    ToRead,
    ToOptimistic,
    IsWriteLocked,
    IsReadLocked,
    ReadCount,
    TryWriteOnce,
    TryReadOnce,
    UnlockReadOnce,
    UnlockOnce,
    TryUnlockWriteOnce,
    TryUnlockReadOnce,
    ToWriteOnce,
    ToReadOnce,
    ToOptimisticOnce,
}

/// A call, the number of the stamp that it takes, if any, and what it answers as a number: that of the stamp, or 0
/// for none; the count; and 1 for true, or for a release that was made, or else 0.
pub type Row = (Ask, u64, u64);

/// The number of a stamp, or 0 for none.
pub fn number(stamp: Option<Stamp>) -> u64 {
    match stamp {
        Some(stamp) => stamp.number(),
        None => 0,
    }
}

/// Whether a release was made; none where its exchange was lost.
fn released(answer: Result<(), UnlockError>) -> Option<u64> {
    match answer {
        Ok(()) => Some(1),
        Err(UnlockError::Mismatch) => Some(0),
        Err(UnlockError::Lost(_)) => None,
    }
}

/// What a call with this stamp answers; none where it wants a stamp and there is none, or its exchange was lost.
pub fn answer<L: KnownLayout, R: Wait>(
    rt: &R,
    lock: &mut LockHandle<'_, L>,
    ask: Ask,
    stamp: Option<Stamp>,
) -> Option<u64> {
    let answered = match ask {
        Ask::Write => number(lock.write(rt)),
        Ask::TryWrite => number(lock.try_write(rt)),
        Ask::Read => lock.read(rt).number(),
        Ask::TryRead => number(lock.try_read(rt)),
        Ask::Optimistic => number(lock.try_optimistic_read()),
        Ask::Validate => u64::from(lock.validate(stamp?)),
        Ask::UnlockWrite => u64::from(lock.unlock_write(stamp?).is_ok()),
        Ask::UnlockRead => u64::from(lock.unlock_read(rt, stamp?).is_ok()),
        Ask::Unlock => u64::from(lock.unlock(rt, stamp?).is_ok()),
        Ask::TryUnlockWrite => u64::from(lock.try_unlock_write(rt)),
        Ask::TryUnlockRead => u64::from(lock.try_unlock_read(rt)),
        Ask::ToWrite => number(lock.try_convert_to_write(rt, stamp?)),
        Ask::ToRead => number(lock.try_convert_to_read(rt, stamp?)),
        Ask::ToOptimistic => number(lock.try_convert_to_optimistic(rt, stamp?)),
        Ask::IsWriteLocked => u64::from(lock.is_write_locked()),
        Ask::IsReadLocked => u64::from(lock.is_read_locked()),
        Ask::ReadCount => lock.read_count(),
        Ask::TryWriteOnce => number(lock.try_write_once().ok()?),
        Ask::TryReadOnce => number(lock.try_read_once().ok()?),
        Ask::UnlockReadOnce => released(lock.unlock_read_once(stamp?))?,
        Ask::UnlockOnce => released(lock.unlock_once(stamp?))?,
        Ask::TryUnlockWriteOnce => u64::from(lock.try_unlock_write_once().ok()?),
        Ask::TryUnlockReadOnce => u64::from(lock.try_unlock_read_once().ok()?),
        Ask::ToWriteOnce => number(lock.try_convert_to_write_once(stamp?).ok()?),
        Ask::ToReadOnce => number(lock.try_convert_to_read_once(stamp?).ok()?),
        Ask::ToOptimisticOnce => number(lock.try_convert_to_optimistic_once(stamp?).ok()?),
    };
    Some(answered)
}

/// Makes the calls of a table one after another, up to the first that answers otherwise: how many answered so.
/// They are made by one handle, or each by a handle that enters for it.
pub fn right_rows<L: KnownLayout, R: Wait>(
    rt: &R,
    lock: &StampedLock<L>,
    rows: &[Row],
    enters_anew: bool,
) -> usize {
    let mut handle = lock.enter();
    for (at, (ask, taken, want)) in rows.iter().enumerate() {
        if enters_anew {
            handle = lock.enter();
        }
        if answer(rt, &mut handle, *ask, Stamp::new(*taken)) != Some(*want) {
            return at;
        }
    }
    rows.len()
}
