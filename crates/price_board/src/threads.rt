//! What the threads do.
use crate::board::{Board, BoardHandle, spread};
use anyhow::{Result, ensure};
use stamped_lock::Spent;
use std::sync::Wait;
use std::thread::{Threads, join};

/// How many quotes are written, and how many each reader reads.
const QUOTES: u64 = 10_000;

/// Writes a quote for each bid from 1 up, its ask from one to seven above it.
pub fn quote<R: Wait>(rt: &R, mut board: BoardHandle<'_>) -> Result<(), Spent> {
    for bid in 1..=QUOTES {
        board.put(rt, [bid, bid + 1 + bid % 7])?;
    }
    Ok(())
}

/// Reads this many quotes. It fails where a spread is none that was written.
fn watch<R: Wait>(rt: &R, mut board: BoardHandle<'_>) -> Result<()> {
    for _ in 0..QUOTES {
        let spread = spread(rt, &mut board);
        ensure!(spread <= 7, "a spread of {spread}");
    }
    Ok(())
}

/// Three threads that read at the same time.
pub fn watch_by_three<R: Threads + Wait + Sync>(rt: &R, board: &Board) -> Result<()> {
    let (first, (second, third)) = join(
        rt,
        || watch(rt, board.enter()),
        || join(rt, || watch(rt, board.enter()), || watch(rt, board.enter())),
    );
    first.and(second).and(third)
}
