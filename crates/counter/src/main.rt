// Two threads count together, each in write mode, and the count is read optimistically.
#![tactic(auto)]

use stamped_lock::{LockHandle, StampedLock, WriteError};
use std::sync::Wait;
use std::sync::atomic::{AtomicU64, Ordering};
use std::thread::join;

/// Adds one, a thousand times.
fn count<R: Wait>(rt: &R, mut lock: LockHandle<'_>, sum: &AtomicU64) -> Result<(), WriteError> {
    for _ in 0..1000 {
        lock.write_with(rt, |_| {
            let old = sum.load(Ordering::SeqCst);
            sum.store(old.wrapping_add(1), Ordering::SeqCst);
        })?;
    }
    Ok(())
}

fn main(rt: HostRuntime) -> anyhow::Result<()> {
    let (lock, sum) = (StampedLock::new(rt.alloc())?, AtomicU64::new(0));
    let (first, second) = (lock.enter(), lock.enter());
    let (one, two) = join(&rt, || count(&rt, first, &sum), || count(&rt, second, &sum));
    one.and(two)?;
    let total = lock
        .enter()
        .read_optimistically(&rt, |_| sum.load(Ordering::SeqCst))?;
    println!(rt; "{total}")?;
    Ok(())
}
