//! A runtime of the tests' own, whose clock goes on when it is read.
use stamped_lock::{KnownLayout, StampedLock};
use std::io;
use std::sync::Wait;
use std::sync::atomic::{AtomicU64, Ordering};
use std::time::{Clock, Duration};

/// The number of the error of a clock that fails.
pub const FAILED: i32 = 71;

/// A runtime whose clock shows one step more each time that it is read, and a lock. By the reading of one number,
/// counted from 1, all holds of the lock are released; that of another fails.
#[derive(Drop)]
pub struct Ticking<'a, R: Wait, L: KnownLayout> {
    rt: &'a R,
    lock: &'a StampedLock<L>,
    nanos: u64,
    frees: u64,
    fails: u64,
    readings: AtomicU64,
    sleeps: AtomicU64,
}

impl<'a, R: Wait, L: KnownLayout> Ticking<'a, R, L> {
    /// A clock that has not been read, of steps of a millisecond.
    pub fn new(
        rt: &'a R,
        lock: &'a StampedLock<L>,
        (frees, fails): (u64, u64),
    ) -> Ticking<'a, R, L> {
        Ticking {
            rt,
            lock,
            nanos: 1_000_000,
            frees,
            fails,
            readings: AtomicU64::new(0),
            sleeps: AtomicU64::new(0),
        }
    }

    /// The clock, of steps of so many nanoseconds.
    pub fn by(mut self, nanos: u64) -> Ticking<'a, R, L> {
        self.nanos = nanos;
        self
    }

    /// How often the clock was read, and how often a thread was put to sleep by it.
    pub fn asked(&self) -> (u64, u64) {
        let readings = self.readings.load(Ordering::SeqCst);
        (readings, self.sleeps.load(Ordering::SeqCst))
    }

    /// Releases write mode, and read mode of one reader.
    fn free(&self) {
        let mut handle = self.lock.enter();
        handle.try_unlock_write(self.rt);
        handle.try_unlock_read(self.rt);
    }
}

impl<R: Wait, L: KnownLayout> Wait for Ticking<'_, R, L> {}

impl<R: Wait, L: KnownLayout> Clock for Ticking<'_, R, L> {
    fn monotonic(&self) -> io::Result<Duration> {
        let reading = self.readings.fetch_add(1, Ordering::SeqCst).wrapping_add(1);
        if reading == self.fails {
            return Err(io::Error::from_raw_os_error(FAILED));
        }
        if reading == self.frees {
            self.free();
        }
        Ok(Duration::from_nanos(self.nanos.saturating_mul(reading)))
    }

    fn since_1970(&self) -> io::Result<Duration> {
        self.monotonic()
    }

    fn sleep(&self, _: Duration) {
        self.sleeps.fetch_add(1, Ordering::SeqCst);
    }
}
