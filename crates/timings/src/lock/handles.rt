//! The pairs by a handle, as a caller of `stamped_lock` writes them. Each function gives how many pairs
//! succeeded.
use crate::lock::pairs::BETWEEN;
use stamped_lock::{KnownLayout, LockHandle};
use std::sync::Wait;

/// Asks for an optimistic stamp, and validates it.
#[inline(always)]
fn validated<L: KnownLayout>(handle: &mut LockHandle<'_, L>, pairs: u64) -> u64 {
    let mut good = 0u64;
    for _ in 0..pairs {
        if let Some(stamp) = handle.try_optimistic_read() {
            if handle.validate(stamp) {
                good = good.wrapping_add(1);
            }
        }
    }
    good
}

/// Optimistic pairs by a handle of the function's own, as a thread has one.
#[inline(never)]
pub fn optimistic_pairs<L: KnownLayout>(mut handle: LockHandle<'_, L>, pairs: u64) -> u64 {
    validated(&mut handle, pairs)
}

/// The same by a handle that is another's, so that where its lock stands is loaded for each call.
#[inline(never)]
pub fn lent_pairs(handle: &mut LockHandle<'_>, pairs: u64) -> u64 {
    validated(handle, pairs)
}

/// Acquires read mode if it can, and releases it. A release whose exchange loses is made again.
fn read_once(handle: &mut LockHandle<'_>) {
    let Ok(Some(stamp)) = handle.try_read_once() else {
        return;
    };
    for _ in 0..u64::MAX {
        if handle.unlock_read_once(stamp).is_ok() {
            return;
        }
    }
}

/// Validates this many pairs, with a read pair after each 1,024 of them.
pub fn mostly_optimistic(mut handle: LockHandle<'_>, pairs: u64) -> u64 {
    let mut good = 0u64;
    for _ in 0..pairs / BETWEEN {
        good = good.wrapping_add(optimistic_pairs(handle.split(), BETWEEN));
        read_once(&mut handle);
    }
    good
}

/// Acquires read mode, and releases it.
#[inline(never)]
pub fn read_pairs<R: Wait>(rt: &R, handle: &mut LockHandle<'_>, pairs: u64) -> u64 {
    let mut good = 0u64;
    for _ in 0..pairs {
        if let Some(stamp) = handle.try_read(rt) {
            if handle.unlock_read(rt, stamp).is_ok() {
                good = good.wrapping_add(1);
            }
        }
    }
    good
}

/// Acquires write mode, and releases it.
#[inline(never)]
pub fn write_pairs<R: Wait>(rt: &R, handle: &mut LockHandle<'_>, pairs: u64) -> u64 {
    let mut good = 0u64;
    for _ in 0..pairs {
        if let Some(stamp) = handle.try_write(rt) {
            if handle.unlock_write(stamp).is_ok() {
                good = good.wrapping_add(1);
            }
        }
    }
    good
}
