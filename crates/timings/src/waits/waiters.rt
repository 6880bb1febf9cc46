//! The thread that holds the lock, and those that wait for it.
use stamped_lock::{LockHandle, StampedLock};
use std::sync::Wait;
use std::sync::atomic::{AtomicU64, Ordering};
use std::thread;
use std::time::{Clock, Duration};

/// How many microseconds the one holds write mode, and the others pause.
const HELD: u64 = 1_000;

/// How many it stays away in between.
const AWAY: u64 = 500;

/// The mode that is waited for.
#[derive(Clone, Copy)]
pub enum Mode {
    Write,
    Read,
}

impl Mode {
    /// As the line has it.
    pub fn name(self) -> &'static str {
        match self {
            Mode::Write => "write",
            Mode::Read => "read",
        }
    }
}

/// Holds write mode for a millisecond at a time, until nobody waits any more.
pub fn hold_until_over<R: Wait + Clock>(rt: &R, lock: &StampedLock, waiting: &AtomicU64) {
    let mut handle = lock.enter();
    for _ in 0..u64::MAX {
        if waiting.load(Ordering::SeqCst) == 0 {
            break;
        }
        let Some(stamp) = handle.write(rt) else {
            break;
        };
        thread::sleep(rt, Duration::from_micros(HELD));
        let _ = handle.unlock_write(stamp);
        thread::sleep(rt, Duration::from_micros(AWAY));
    }
}

/// Acquires the mode and releases it; whether it did both.
fn acquire_once<R: Wait>(rt: &R, handle: &mut LockHandle<'_>, mode: Mode) -> bool {
    match mode {
        Mode::Read => {
            let stamp = handle.read(rt);
            handle.unlock_read(rt, stamp).is_ok()
        }
        Mode::Write => {
            let Some(stamp) = handle.write(rt) else {
                return false;
            };
            handle.unlock_write(stamp).is_ok()
        }
    }
}

/// Acquires the mode this many times, with a pause after each; how often it did.
pub fn acquire_often<R: Wait + Clock>(
    rt: &R,
    lock: &StampedLock,
    mode: Mode,
    each: u64,
    waiting: &AtomicU64,
) -> u64 {
    let mut handle = lock.enter();
    let mut made = 0u64;
    for _ in 0..each {
        if acquire_once(rt, &mut handle, mode) {
            made = made.wrapping_add(1);
        }
        thread::sleep(rt, Duration::from_micros(HELD));
    }
    waiting.fetch_sub(1, Ordering::SeqCst);
    made
}
