//! Times how threads wait for a lock that one of them holds for a millisecond at a time.
//!
//! `write_waits [EACH]` and `read_waits [EACH]` start eight threads. One of them acquires write mode,
//! sleeps for a millisecond, releases, stays away for half a millisecond, and so on. Each of the
//! other seven acquires the mode that many times, and pauses for a millisecond after each release. The line
//! has the mode, how many threads, how many acquisitions the seven were to make, the nanoseconds
//! until the last, and how many they made.
mod waiters;

use crate::Numbers;
use crate::line::tell;
use crate::threads::sum_of;
use stamped_lock::StampedLock;
use std::io;
use std::sync::Wait;
use std::sync::atomic::AtomicU64;
use std::thread::Threads;
use std::time::{Clock, Instant};
pub use waiters::Mode;
use waiters::{acquire_often, hold_until_over};

/// How often each thread acquires where no number says so.
const FEW: u64 = 10;

/// How many threads wait, beside the one that holds.
const WAITERS: u64 = 7;

/// Runs the eight threads, the first of which holds; how many acquisitions the others made.
fn waited<R: AllocGlobal + Clock + Threads + Wait + Sync>(
    rt: &R,
    lock: &StampedLock,
    mode: Mode,
    each: u64,
) -> u64 {
    let waiting = AtomicU64::new(WAITERS);
    let part = |i: usize| {
        if i == 0 {
            hold_until_over(rt, lock, &waiting);
            0
        } else {
            acquire_often(rt, lock, mode, each, &waiting)
        }
    };
    sum_of(rt, 8, &part)
}

/// Writes one line; none for want of memory.
pub fn time<R: AllocGlobal + Clock + Eprint + Threads + Wait + Sync>(
    rt: &R,
    mode: Mode,
    numbers: Numbers,
) -> io::Result<()> {
    let each = numbers.first.unwrap_or(FEW);
    let Ok(lock) = StampedLock::new(rt.alloc()) else {
        return Ok(());
    };
    let start = Instant::now(rt)?;
    let made = waited(rt, &lock, mode, each);
    tell(rt, mode.name(), 8, each.wrapping_mul(WAITERS), start, made)?;
    Ok(())
}
