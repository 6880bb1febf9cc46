//! A runtime of the tests' own, whose clock goes on when it is read.
use stamped_value::{ReadGuard, WriteGuard};
use std::cell::RefCell;
use std::io;
use std::sync::Wait;
use std::sync::atomic::{AtomicU64, Ordering};
use std::time::{Clock, Duration};

/// The number of the error of a clock that fails.
pub const FAILED: i32 = 71;

/// Who holds a number's lock.
#[derive(Drop)]
pub enum Holder<'a, R: Wait> {
    Nobody,
    Reader(ReadGuard<'a, u64, R>),
    Writer(WriteGuard<'a, u64, R>),
}

/// A runtime whose clock shows one step more each time that it is read. By the reading of one number, counted from 1,
/// the holder leaves; that of another fails.
#[derive(Drop)]
pub struct Ticking<'a, R: Wait> {
    holder: RefCell<Holder<'a, R>>,
    nanos: u64,
    leaves: u64,
    fails: u64,
    readings: AtomicU64,
    sleeps: AtomicU64,
}

impl<'a, R: Wait> Ticking<'a, R> {
    /// A clock that has not been read, of steps of so many nanoseconds.
    pub fn new(holder: Holder<'a, R>, nanos: u64, (leaves, fails): (u64, u64)) -> Ticking<'a, R> {
        Ticking {
            holder: RefCell::new(holder),
            nanos,
            leaves,
            fails,
            readings: AtomicU64::new(0),
            sleeps: AtomicU64::new(0),
        }
    }

    /// How often the clock was read, and how often a thread was put to sleep by it.
    pub fn asked(&self) -> (u64, u64) {
        let readings = self.readings.load(Ordering::SeqCst);
        (readings, self.sleeps.load(Ordering::SeqCst))
    }

    /// The holder leaves.
    pub fn leave(&self) {
        let _ = self.holder.try_replace(Holder::Nobody);
    }
}

impl<R: Wait> Wait for Ticking<'_, R> {}

impl<R: Wait> Clock for Ticking<'_, R> {
    fn monotonic(&self) -> io::Result<Duration> {
        let reading = self.readings.fetch_add(1, Ordering::SeqCst).wrapping_add(1);
        if reading == self.fails {
            return Err(io::Error::from_raw_os_error(FAILED));
        }
        if reading == self.leaves {
            self.leave();
        }
        Ok(Duration::from_nanos(self.nanos.saturating_mul(reading)))
    }

    fn since_1970(&self) -> io::Result<Duration> {
        self.monotonic()
    }

    fn sleep(&self, _: Duration) {
        self.sleeps.fetch_add(1, Ordering::SeqCst);
    }
}
