//! A point that threads share.
ghost use Rattle.std.specs.Prelude.{◌≡◌, ◌+◌, ◌*◌, unsigned_abs};

use anyhow::Result;
use stamped_lock::{LockError, LockHandle, Mismatch, Stamp, StampedLock, WriteError};
use std::alloc::Global;
use std::sync::Wait;
use std::sync::atomic::{AtomicI32, Ordering};

/// A point, whose coordinates belong together: they are changed in write mode alone.
#[derive(Drop)]
pub struct Point {
    lock: StampedLock,
    x: AtomicI32,
    y: AtomicI32,
}

/// One thread's way to the point.
#[derive(Drop)]
pub struct PointHandle<'a> {
    point: &'a Point,
    lock: LockHandle<'a>,
}

/// The square of the distance from the origin.
fn squared_length(x: i32, y: i32) -> u64
    ensures { result ≡ unsigned_abs x * unsigned_abs x + unsigned_abs y * unsigned_abs y }
{
    let width = u64::from(x.unsigned_abs());
    let height = u64::from(y.unsigned_abs());
    width * width + height * height
}

impl Point {
    /// A point at the origin.
    pub fn new(alloc: Global) -> Result<Point, LockError> {
        Ok(Point {
            lock: StampedLock::new(alloc)?,
            x: AtomicI32::new(0),
            y: AtomicI32::new(0),
        })
    }

    /// A handle, for one thread at a time.
    pub fn enter(&self) -> PointHandle<'_> {
        PointHandle {
            point: self,
            lock: self.lock.enter(),
        }
    }

    /// To be called in write mode.
    fn shift(&self, dx: i32, dy: i32) {
        self.x.fetch_add(dx, Ordering::SeqCst);
        self.y.fetch_add(dy, Ordering::SeqCst);
    }

    fn is_at_origin(&self) -> bool {
        self.x.load(Ordering::SeqCst) == 0 && self.y.load(Ordering::SeqCst) == 0
    }

    fn squared_distance(&self) -> u64 {
        squared_length(self.x.load(Ordering::SeqCst), self.y.load(Ordering::SeqCst))
    }
}

impl<'a> PointHandle<'a> {
    /// Moves the point.
    pub fn move_by<R: Wait>(&mut self, rt: &R, dx: i32, dy: i32) -> Result<(), WriteError> {
        let point = self.point;
        self.lock.write_with(rt, |_| point.shift(dx, dy))
    }

    /// The square of its distance from the origin.
    pub fn squared_distance<R: Wait>(&mut self, rt: &R) -> Result<u64, Mismatch> {
        let point = self.point;
        self.lock
            .read_optimistically(rt, |_| point.squared_distance())
    }

    /// Moves the point if it is at the origin; whether it was.
    pub fn move_if_at_origin<R: Wait>(&mut self, rt: &R, dx: i32, dy: i32) -> Result<bool> {
        let stamp = self.lock.read(rt);
        if !self.point.is_at_origin() {
            self.lock.unlock_read(rt, stamp)?;
            return Ok(false);
        }
        let stamp = self.upgraded(rt, stamp)?;
        let is_moved = self.point.is_at_origin();
        if is_moved {
            self.point.shift(dx, dy);
        }
        self.lock.unlock_write(stamp)?;
        Ok(is_moved)
    }

    /// Goes on in write mode: at once where this is the only reader. Else it waits without read
    /// mode, and other writers may come before it.
    fn upgraded<R: Wait>(&mut self, rt: &R, stamp: Stamp) -> Result<Stamp> {
        if let Some(stamp) = self.lock.try_convert_to_write(rt, stamp) {
            return Ok(stamp);
        }
        self.lock.unlock_read(rt, stamp)?;
        Ok(self.lock.write(rt).ok_or(WriteError::Spent)?)
    }
}
