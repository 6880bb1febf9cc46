//! Pairs of calls, one after the other, by a pass of the function's own. Each function gives how
//! many pairs succeeded.
ghost use Rattle.std.specs.Prelude.{◌≡◌, true};

use stamp_core::{Call, Layout, LayoutOne, Reply};
use stamp_threads::RunningLock;

/// How many pairs a thread validates before it acquires read mode once.
pub const BETWEEN: u64 = 1_024;

/// Asks for an optimistic stamp, and validates it.
pub fn optimistic_pairs(lock: &RunningLock, pairs: u64) -> u64
    requires { lock.now.enterable ≡ true }
{
    let mut pass = lock.enter();
    let mut good = 0u64;
    for _ in 0..pairs {
        if let Ok(Reply::Stamp(stamp)) = lock.once(&mut pass, Call::Optimistic) {
            if let Ok(Reply::Yes) = lock.once(&mut pass, Call::Validate(stamp)) {
                good = good.wrapping_add(1);
            }
        }
    }
    good
}

/// The same, by calls that are told the layout.
pub fn known_pairs(lock: &RunningLock, pairs: u64) -> u64
    requires enterable { lock.now.enterable ≡ true }
    requires layout { lock.now.limits.layout ≡ Layout.One }
{
    let mut pass = lock.enter();
    let mut good = 0u64;
    for _ in 0..pairs {
        if let Ok(Reply::Stamp(stamp)) = lock.once_in::<LayoutOne>(&mut pass, Call::Optimistic) {
            let answer = lock.once_in::<LayoutOne>(&mut pass, Call::Validate(stamp));
            if let Ok(Reply::Yes) = answer {
                good = good.wrapping_add(1);
            }
        }
    }
    good
}

/// Acquires read mode, and releases it.
pub fn read_pairs(lock: &RunningLock, pairs: u64) -> u64
    requires { lock.now.enterable ≡ true }
{
    let mut pass = lock.enter();
    let mut good = 0u64;
    for _ in 0..pairs {
        if let Ok(Reply::Stamp(stamp)) = lock.once(&mut pass, Call::TryRead) {
            if let Ok(Reply::Done) = lock.once(&mut pass, Call::UnlockRead(stamp)) {
                good = good.wrapping_add(1);
            }
        }
    }
    good
}

/// Acquires write mode, and releases it.
pub fn write_pairs(lock: &RunningLock, pairs: u64) -> u64
    requires { lock.now.enterable ≡ true }
{
    let mut pass = lock.enter();
    let mut good = 0u64;
    for _ in 0..pairs {
        if let Ok(Reply::Stamp(stamp)) = lock.once(&mut pass, Call::TryWrite) {
            if let Ok(Reply::Done) = lock.once(&mut pass, Call::UnlockWrite(stamp)) {
                good = good.wrapping_add(1);
            }
        }
    }
    good
}

/// Acquires read mode if it can, and releases it. A release whose exchange loses is made again.
fn read_once(lock: &RunningLock)
    requires { lock.now.enterable ≡ true }
{
    let mut pass = lock.enter();
    let Ok(Reply::Stamp(stamp)) = lock.once(&mut pass, Call::TryRead) else {
        return;
    };
    for _ in 0..u64::MAX {
        if lock.once(&mut pass, Call::UnlockRead(stamp)).is_ok() {
            return;
        }
    }
}

/// Validates this many pairs, with a read lock after each 1,024 of them.
pub fn mostly_optimistic(lock: &RunningLock, pairs: u64) -> u64
    requires { lock.now.enterable ≡ true }
{
    let mut good = 0u64;
    for _ in 0..pairs / BETWEEN {
        good = good.wrapping_add(optimistic_pairs(lock, BETWEEN));
        read_once(lock);
    }
    good
}
