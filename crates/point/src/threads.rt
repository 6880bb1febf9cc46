//! What the threads do.
use crate::point::{Point, PointHandle};
use anyhow::{Result, ensure};
use std::sync::Wait;
use std::thread::{Threads, join};

/// How often each thread moves the point, or asks for its distance.
const TIMES: u64 = 10_000;

/// Moves the point from the origin if it is still there, and then TIMES times; whether it was there.
fn move_around<R: Wait>(rt: &R, mut point: PointHandle<'_>) -> Result<bool> {
    let is_first = point.move_if_at_origin(rt, 3, 4)?;
    for _ in 0..TIMES {
        point.move_by(rt, 3, 4)?;
    }
    Ok(is_first)
}

/// Asks for the distance TIMES times. It fails where one isn't a multiple of 5.
fn watch<R: Wait>(rt: &R, mut point: PointHandle<'_>) -> Result<()> {
    for _ in 0..TIMES {
        let square = point.squared_distance(rt)?;
        let distance = square.isqrt();
        ensure!(
            distance % 5 == 0 && distance * distance == square,
            "a torn distance, of square {square}"
        );
    }
    Ok(())
}

/// Two threads that move the point; how many of them moved it from the origin.
pub fn move_by_two<R: Threads + Wait + Sync>(rt: &R, point: &Point) -> Result<u64> {
    let (first, second) = join(
        rt,
        || move_around(rt, point.enter()),
        || move_around(rt, point.enter()),
    );
    Ok(u64::from(first?) + u64::from(second?))
}

/// Two threads that ask for its distance.
pub fn watch_by_two<R: Threads + Wait + Sync>(rt: &R, point: &Point) -> Result<()> {
    let (first, second) = join(rt, || watch(rt, point.enter()), || watch(rt, point.enter()));
    first.and(second)
}
