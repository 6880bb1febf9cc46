//! Threads that get the words of one record, with and without one that puts them.
ghost use Rattle.std.specs.Prelude.{◌≡◌, true};

use crate::record::calls::gets_into;
use stamp_core::Words;
use stamp_threads::RunningRecord;
use std::sync::atomic::{AtomicU64, Ordering};
use std::time::{Clock, Instant};

/// How many nanoseconds lie between two puts.
const BETWEEN: u128 = 10_000;

/// Gets the two words this many times; one fewer reads then.
pub fn read_beside(shared: &RunningRecord, calls: u64, reading: &AtomicU64) -> u64
    requires { (shared.now.enterable ≡ true) × (shared.now.shape.width ≡ 2) }
{
    let good = gets_into(shared, &mut [0; 2], calls);
    reading.fetch_sub(1, Ordering::SeqCst);
    good
}

/// Puts two words each 10 microseconds, until nobody reads. It looks at the clock all the time.
pub fn put_until_over<R: Clock>(rt: &R, shared: &RunningRecord, reading: &AtomicU64)
    requires { (shared.now.enterable ≡ true) × (shared.now.shape.width ≡ 2) }
{
    let mut pass = shared.enter();
    let Ok(start) = Instant::now(rt) else {
        return;
    };
    let mut due = BETWEEN;
    for i in 0..u64::MAX {
        if reading.load(Ordering::SeqCst) == 0 {
            break;
        }
        let Ok(taken) = start.elapsed(rt) else {
            break;
        };
        if taken.as_nanos() >= due {
            due = taken.as_nanos().wrapping_add(BETWEEN);
            if let Some(words) = Words::new(&[i, i]) {
                let _ = shared.put_once(&mut pass, words);
            }
        }
    }
}
