//! Locks that own a value with memory of its own. Beside that memory, only making them takes some: `test` counts the
//! allocations of a run that only makes values and locks, and of one that goes on with handles and guards. A lock that
//! isn't made gives the value back.
use crate::outcome::Outcome;
use stamp_core::Limits;
use stamped_value::{NotInTime, StampedValue, ValueHandle};
use std::alloc::{AllocError, Global};
use std::sync::Wait;
use std::time::{Clock, Duration};

/// What a run does with a lock once it is made.
#[derive(Clone, Copy)]
pub(crate) enum Use {
    /// The value is dropped with it.
    Own,
    /// Handles and guards come to the value. Then it comes out.
    Guard,
}

/// A value, and two that it is exchanged for.
pub(crate) struct Pairs {
    pub(crate) first: Vec<u64>,
    pub(crate) next: Vec<u64>,
    pub(crate) spare: Vec<u64>,
}

pub(crate) fn three_pairs(alloc: Global) -> Result<Pairs, AllocError> {
    Ok(Pairs {
        first: vec![in alloc; 7; 2]?,
        next: vec![in alloc; 8; 2]?,
        spare: vec![in alloc; 9; 2]?,
    })
}

/// Whether it is the pair of this number.
pub(crate) fn is_pair(pair: &[u64], number: u64) -> bool {
    pair == [number, number].as_slice()
}

/// The outcome where a lock isn't made and gives this back.
pub(crate) fn unmade(back: &[u64]) -> Outcome {
    if is_pair(back, 7) {
        Outcome::Refused
    } else {
        Outcome::Wrong
    }
}

/// Whether each mode is refused to the handle, which comes back each time.
fn is_kept_out<R: Wait + Clock>(rt: &R, handle: ValueHandle<'_, Vec<u64>>) -> bool {
    let Err(handle) = handle.try_read(rt) else {
        return false;
    };
    let Err(handle) = handle.try_write(rt) else {
        return false;
    };
    let Err(NotInTime { handle, error }) = handle.try_read_for(rt, Duration::ZERO) else {
        return false;
    };
    if error.is_some() {
        return false;
    }
    match handle.try_write_for(rt, Duration::ZERO) {
        Ok(_) => false,
        Err(late) => late.error.is_none(),
    }
}

/// Whether the sole reader becomes the sole writer, who exchanges the value, and then a reader again, who can't become
/// a writer once more.
fn is_exchanged<R: Wait + Clock>(rt: &R, lock: &StampedValue<Vec<u64>>, next: Vec<u64>) -> bool {
    let reader = lock.enter().read(rt);
    let is_first = is_pair(&reader, 7) && is_kept_out(rt, lock.enter());
    let Ok(mut writer) = reader.upgrade() else {
        return false;
    };
    *writer = next;
    let is_alone = is_kept_out(rt, lock.enter());
    let Err(reader) = writer.downgrade().upgrade() else {
        return false;
    };
    let handle = reader.release();
    is_first && is_alone && is_spent(rt, handle)
}

/// Whether the version is spent, and the handle that comes back still reads what was left.
fn is_spent<R: Wait + Clock>(rt: &R, handle: ValueHandle<'_, Vec<u64>>) -> bool {
    let Err(handle) = handle.write(rt) else {
        return false;
    };
    match handle.try_read(rt) {
        Ok(reader) => is_pair(&reader, 8),
        Err(_) => false,
    }
}

/// Whether a section reads the value that was left, and none writes where no version is left: what its closure was to
/// write is dropped with it.
fn is_left<R: Wait>(rt: &R, lock: &StampedValue<Vec<u64>>, spare: Vec<u64>) -> bool {
    let mut handle = lock.enter();
    let now = handle.optimistic();
    let (is_next, stamp) = handle.read_stamped(rt, |pair: &Vec<u64>| is_pair(pair, 8));
    let written = handle.write_with(rt, |pair: &mut Vec<u64>| *pair = spare);
    let len = handle.read_with(rt, |pair: &Vec<u64>| pair.len());
    let is_last = handle.is_last(now) && handle.is_last(stamp);
    written.is_none() && is_last && is_next && len == 2
}

/// A lock with room for one reader, and one version.
pub(crate) fn value_outcome<R: Wait + Clock>(
    rt: &R,
    alloc: Global,
    limits: Limits,
    used: Use,
) -> Outcome {
    let Ok(Pairs { first, next, spare }) = three_pairs(alloc) else {
        return Outcome::Refused;
    };
    let lock = match StampedValue::new(alloc, limits, first) {
        Ok(lock) => lock,
        Err(back) => return unmade(&back),
    };
    match used {
        Use::Own => Outcome::Right,
        Use::Guard => {
            let is_used = is_exchanged(rt, &lock, next) && is_left(rt, &lock, spare);
            let Ok(last) = lock.into_inner() else {
                return Outcome::Wrong;
            };
            Outcome::right_if(is_used && is_pair(&last, 8))
        }
    }
}
