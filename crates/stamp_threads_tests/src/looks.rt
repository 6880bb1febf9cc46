//! Looks at what another thread has to do: counted, so that no machine is too slow for a test.
use std::sync::atomic::{AtomicU64, Ordering};
use std::{hint, thread};

/// How often a test looks at most.
const MOST_LOOKS: u64 = 100_000_000;

/// Pauses after a look, and after some of them lets other threads run.
fn pause(look: u64) {
    if look.is_multiple_of(10_000) {
        thread::yield_now();
    } else {
        hint::spin_loop();
    }
}

/// Whether another thread makes this number so large while it is looked at.
pub fn is_reached(number: &AtomicU64, wanted: u64) -> bool {
    for look in 0..MOST_LOOKS {
        if number.load(Ordering::SeqCst) >= wanted {
            return true;
        }
        pause(look);
    }
    false
}

/// Gives a thread that has just been met room to come to wait. What is tested afterwards holds also where it hasn't.
pub fn let_come() {
    for look in 0..20_000u64 {
        pause(look);
    }
}
