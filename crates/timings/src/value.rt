//! Times pairs of calls on a value behind a lock, by one thread and by several that mostly read: a
//! `StampedValue`, std's `RwLock`, and a `Counted` of the kit's `counted_slot`.
//!
//! `value [PAIRS [ROUNDS [OFTEN]]]` writes a line for each kind of pair and round: its name, how many
//! threads, how many pairs each made, the nanoseconds from the first to the last, and how many pairs
//! succeeded. In each round what one thread makes is timed this often.
mod guarded;
mod peers;

use crate::Numbers;
use crate::line::tell;
use crate::threads::sum_of;
use counted_slot::Counted;
use peers::Number;
use stamp_core::{Layout, Limits};
use stamped_value::StampedValue;
use std::io;
use std::sync::{RwLock, Wait};
use std::thread::Threads;
use std::time::{Clock, Instant};

/// How many pairs are made where no number says so.
const FEW: u64 = 1_000;

/// How many times as many pairs each of several threads makes, since starting and spreading them takes time too.
const MORE: u64 = 16;

/// How many pairs a thread reads before it writes once.
const BETWEEN: u64 = 1_024;

/// The pairs of one thread on a guarded value, one after the other.
fn alone<R: Eprint + Clock + Wait>(
    rt: &R,
    value: &StampedValue<u64>,
    pairs: u64,
) -> io::Result<()> {
    let start = Instant::now(rt)?;
    let good = guarded::reads(rt, value.enter(), pairs);
    let start = tell(rt, "read", 1, pairs, start, good)?;
    let good = guarded::reads_anew(rt, value, pairs);
    let start = tell(rt, "read_anew", 1, pairs, start, good)?;
    let good = guarded::reads_with(rt, value.enter(), pairs);
    let start = tell(rt, "read_with", 1, pairs, start, good)?;
    let good = guarded::writes(rt, value.enter(), pairs);
    let start = tell(rt, "write", 1, pairs, start, good)?;
    let good = guarded::writes_anew(rt, value, pairs);
    let start = tell(rt, "write_anew", 1, pairs, start, good)?;
    let good = guarded::writes_with(rt, value.enter(), pairs);
    let start = tell(rt, "write_with", 1, pairs, start, good)?;
    let good = guarded::checks(value.enter(), pairs);
    tell(rt, "is_last", 1, pairs, start, good)?;
    Ok(())
}

/// The same pairs on what the kit has.
fn beside<R: Eprint + Clock + Wait>(
    rt: &R,
    lock: &RwLock<u64>,
    slot: &Counted<Number>,
    pairs: u64,
) -> io::Result<()> {
    let start = Instant::now(rt)?;
    let good = peers::locked_reads(rt, lock, pairs);
    let start = tell(rt, "lock_read", 1, pairs, start, good)?;
    let good = peers::locked_writes(rt, lock, pairs);
    let start = tell(rt, "lock_write", 1, pairs, start, good)?;
    let good = peers::counted_reads(slot, pairs);
    let start = tell(rt, "slot_read", 1, pairs, start, good)?;
    let good = peers::counted_writes(slot, pairs);
    tell(rt, "slot_write", 1, pairs, start, good)?;
    Ok(())
}

/// Threads that mostly read, from one to four of them.
fn together<R: AllocGlobal + Eprint + Clock + Threads + Wait + Sync>(
    rt: &R,
    value: &StampedValue<u64>,
    lock: &RwLock<u64>,
    pairs: u64,
) -> io::Result<()> {
    let guarded = |_: usize| guarded::mostly_reads(rt, value, pairs);
    let locked = |_: usize| peers::mostly_locked_reads(rt, lock, pairs);
    for threads in 1..5usize {
        let start = Instant::now(rt)?;
        let good = sum_of(rt, threads, &guarded);
        let start = tell(rt, "mostly", threads as u64, pairs, start, good)?;
        let good = sum_of(rt, threads, &locked);
        tell(rt, "lock_mostly", threads as u64, pairs, start, good)?;
    }
    Ok(())
}

/// Writes a line for each kind of pair and round; none for want of memory.
pub fn time<R: AllocGlobal + Clock + Eprint + Threads + Wait + Sync>(
    rt: &R,
    numbers: Numbers,
) -> io::Result<()> {
    let Ok(value) = StampedValue::new(rt.alloc(), Limits::widest(Layout::One), 1u64) else {
        return Ok(());
    };
    let lock = RwLock::new(1u64);
    let slot = Counted::new(Number(1), &());
    peers::counted_writes(&slot, 1);
    let pairs = numbers.first.unwrap_or(FEW);
    for _ in 0..numbers.second.unwrap_or(1) {
        for _ in 0..numbers.third.unwrap_or(1) {
            alone(rt, &value, pairs)?;
            beside(rt, &lock, &slot, pairs)?;
        }
        together(rt, &value, &lock, pairs.wrapping_mul(MORE))?;
    }
    Ok(())
}
