//! Times pairs of calls on a running lock, by one thread and by several that mostly validate; and the
//! same pairs by a handle of `stamped_lock`.
//!
//! `lock [PAIRS [ROUNDS [OFTEN]]]` writes a line for each kind of pair and round: its name, how many
//! threads, how many pairs each made, the nanoseconds from the first to the last, and how many pairs
//! succeeded. In each round what one thread makes is timed this often.
ghost use Rattle.std.specs.Prelude.{◌≡◌, true};

mod handles;
mod pairs;

use crate::Numbers;
use crate::line::tell;
use crate::threads::sum_of;
use pairs::{known_pairs, mostly_optimistic, optimistic_pairs, read_pairs, write_pairs};
use stamp_core::{EitherLayout, Layout, Limits};
use stamp_threads::RunningLock;
use stamped_lock::StampedLock;
use std::io;
use std::sync::Wait;
use std::thread::Threads;
use std::time::{Clock, Instant};

/// How many pairs are made where no number says so.
const FEW: u64 = 1_000;

/// How many times as many pairs each of several threads makes, since starting and spreading them takes time too.
const MORE: u64 = 1_024;

/// The three pairs of one thread, one after the other.
fn alone<R: Eprint + Clock>(rt: &R, lock: &RunningLock, pairs: u64) -> io::Result<()>
    requires enterable { lock.now.enterable ≡ true }
    requires layout { lock.now.limits.layout ≡ Layout.One }
{
    let start = Instant::now(rt)?;
    let good = optimistic_pairs(lock, pairs);
    let start = tell(rt, "optimistic", 1, pairs, start, good)?;
    let good = known_pairs(lock, pairs);
    let start = tell(rt, "known", 1, pairs, start, good)?;
    let good = read_pairs(lock, pairs);
    let start = tell(rt, "read", 1, pairs, start, good)?;
    let good = write_pairs(lock, pairs);
    tell(rt, "write", 1, pairs, start, good)?;
    Ok(())
}

/// The same pairs by handles; first those of a lock whose layout is looked at in each call.
fn by_handle<R: Eprint + Clock + Wait>(
    rt: &R,
    either: &StampedLock<EitherLayout>,
    lock: &StampedLock,
    pairs: u64,
) -> io::Result<()> {
    let mut handle = lock.enter();
    let start = Instant::now(rt)?;
    let good = handles::optimistic_pairs(either.enter(), pairs);
    let start = tell(rt, "handle_either", 1, pairs, start, good)?;
    let good = handles::optimistic_pairs(lock.enter(), pairs);
    let start = tell(rt, "handle_optimistic", 1, pairs, start, good)?;
    let good = handles::lent_pairs(&mut handle, pairs);
    let start = tell(rt, "handle_lent", 1, pairs, start, good)?;
    let good = handles::read_pairs(rt, &mut handle, pairs);
    let start = tell(rt, "handle_read", 1, pairs, start, good)?;
    let good = handles::write_pairs(rt, &mut handle, pairs);
    tell(rt, "handle_write", 1, pairs, start, good)?;
    Ok(())
}

/// Threads that mostly validate, from one to four of them, by `once` and by handles.
fn together<R: AllocGlobal + Eprint + Clock + Threads + Wait + Sync>(
    rt: &R,
    running: &RunningLock,
    lock: &StampedLock,
    pairs: u64,
) -> io::Result<()>
    requires { running.now.enterable ≡ true }
{
    let by_once = |_: usize| mostly_optimistic(running, pairs);
    let by_handle = |_: usize| handles::mostly_optimistic(lock.enter(), pairs);
    for threads in 1..5usize {
        let start = Instant::now(rt)?;
        let good = sum_of(rt, threads, &by_once);
        let start = tell(rt, "mostly", threads as u64, pairs, start, good)?;
        let good = sum_of(rt, threads, &by_handle);
        tell(rt, "handle_mostly", threads as u64, pairs, start, good)?;
    }
    Ok(())
}

/// Writes a line for each kind of pair and round; none for want of memory.
pub fn time<R: AllocGlobal + Clock + Eprint + Threads + Wait + Sync>(
    rt: &R,
    numbers: Numbers,
) -> io::Result<()> {
    let Ok(limits) = Limits::new(127, 1 << 50) else {
        return Ok(());
    };
    let Ok((lock, _)) = RunningLock::new_enterable(rt.alloc(), limits) else {
        return Ok(());
    };
    let Ok(either) = StampedLock::in_layout(rt.alloc(), limits) else {
        return Ok(());
    };
    let Ok(handled) = StampedLock::with_limits(rt.alloc(), limits) else {
        return Ok(());
    };
    let pairs = numbers.first.unwrap_or(FEW);
    for _ in 0..numbers.second.unwrap_or(1) {
        for _ in 0..numbers.third.unwrap_or(1) {
            alone(rt, &lock, pairs)?;
            by_handle(rt, &either, &handled, pairs)?;
        }
        together(rt, &lock, &handled, pairs.wrapping_mul(MORE))?;
    }
    Ok(())
}
