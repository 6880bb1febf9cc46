//! Pairs on a guarded value, as a caller of `stamped_value` writes them. Each function gives how many
//! pairs succeeded: of reads those that didn't find 0, so that the value is used.
use crate::value::BETWEEN;
use stamped_value::{StampedValue, ValueHandle};
use std::sync::Wait;

/// Reads by guards that give the handle back.
#[inline(never)]
pub fn reads<'a, R: Wait>(rt: &'a R, mut handle: ValueHandle<'a, u64>, pairs: u64) -> u64 {
    let mut good = 0u64;
    for _ in 0..pairs {
        let guard = handle.read(rt);
        if *guard != 0 {
            good = good.wrapping_add(1);
        }
        handle = guard.release();
    }
    good
}

/// Reads by guards that are dropped, each of a new handle.
#[inline(never)]
pub fn reads_anew<R: Wait>(rt: &R, value: &StampedValue<u64>, pairs: u64) -> u64 {
    let mut good = 0u64;
    for _ in 0..pairs {
        let guard = value.enter().read(rt);
        if *guard != 0 {
            good = good.wrapping_add(1);
        }
    }
    good
}

/// Reads by sections.
#[inline(never)]
pub fn reads_with<R: Wait>(rt: &R, mut handle: ValueHandle<'_, u64>, pairs: u64) -> u64 {
    let mut good = 0u64;
    for _ in 0..pairs {
        if handle.read_with(rt, |number: &u64| *number) != 0 {
            good = good.wrapping_add(1);
        }
    }
    good
}

/// Writes by guards that give the handle back.
#[inline(never)]
pub fn writes<'a, R: Wait>(rt: &'a R, mut handle: ValueHandle<'a, u64>, pairs: u64) -> u64 {
    let mut good = 0u64;
    for _ in 0..pairs {
        match handle.write(rt) {
            Ok(mut guard) => {
                *guard = guard.wrapping_add(1);
                good = good.wrapping_add(1);
                handle = guard.release();
            }
            Err(refused) => handle = refused,
        }
    }
    good
}

/// Writes by guards that are dropped, each of a new handle.
#[inline(never)]
pub fn writes_anew<R: Wait>(rt: &R, value: &StampedValue<u64>, pairs: u64) -> u64 {
    let mut good = 0u64;
    for _ in 0..pairs {
        if let Ok(mut guard) = value.enter().write(rt) {
            *guard = guard.wrapping_add(1);
            good = good.wrapping_add(1);
        }
    }
    good
}

/// Writes by sections.
#[inline(never)]
pub fn writes_with<R: Wait>(rt: &R, mut handle: ValueHandle<'_, u64>, pairs: u64) -> u64 {
    let mut good = 0u64;
    for _ in 0..pairs {
        let written = handle.write_with(rt, |number: &mut u64| {
            *number = number.wrapping_add(1);
        });
        if written.is_some() {
            good = good.wrapping_add(1);
        }
    }
    good
}

/// Asks whether the value of one stamp is still the last one.
#[inline(never)]
pub fn checks(mut handle: ValueHandle<'_, u64>, pairs: u64) -> u64 {
    let stamp = handle.optimistic();
    let mut good = 0u64;
    for _ in 0..pairs {
        if handle.is_last(stamp) {
            good = good.wrapping_add(1);
        }
    }
    good
}

/// Reads this many times, and writes once after each 1,024 reads.
pub fn mostly_reads<R: Wait>(rt: &R, value: &StampedValue<u64>, pairs: u64) -> u64 {
    let mut good = 0u64;
    for _ in 0..pairs / BETWEEN {
        good = good.wrapping_add(reads(rt, value.enter(), BETWEEN));
        writes(rt, value.enter(), 1);
    }
    good
}
