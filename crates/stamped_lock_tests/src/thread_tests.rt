//! Threads that really share a lock, each by a handle.
use crate::fixtures::{Ask, Row, made, made_in, number, right_rows};
use stamped_lock::{KnownLayout, Layout, LayoutTwo, Mismatch, StampedLock};
use std::process::Abort;
use std::sync::atomic::{AtomicU64, Ordering};
use std::sync::{Barrier, Wait};
use std::test::Fail;
use std::thread;
use std::thread::{Threads, join};

/// Adds one this many times, each time by a load and a store that no other writer may come between.
fn add_often<R: Wait>(rt: &R, lock: &StampedLock, sum: &AtomicU64) {
    let mut handle = lock.enter();
    for _ in 0..10_000 {
        let _ = handle.write_with(rt, |_| {
            let old = sum.load(Ordering::SeqCst);
            sum.store(old.wrapping_add(1), Ordering::SeqCst);
        });
    }
}

/// Makes each call that may lose an exchange to the other thread, five thousand times. Answers whether one that was
/// told as lost found another word each time.
fn lose_exchanges<R: Wait>(rt: &R, lock: &StampedLock) -> bool {
    let mut handle = lock.enter();
    for _ in 0..5_000u64 {
        if let Some(stamp) = handle.try_read(rt) {
            let _ = handle.unlock_read(rt, stamp);
        }
        if let Err(lost) = handle.try_read_once()
            && lost.loaded == lost.found
        {
            return false;
        }
        handle.try_unlock_read(rt);
        if let Some(stamp) = handle.try_write(rt) {
            let _ = handle.unlock(rt, stamp);
        }
    }
    true
}

#[test]
fn threads_write_one_after_the_other(rt: HostRuntime) -> Result<(), Fail> {
    let lock = made(rt.alloc())?;
    let sum = AtomicU64::new(0);
    join(
        &rt,
        || add_often(&rt, &lock, &sum),
        || add_often(&rt, &lock, &sum),
    );
    let next = number(lock.enter().split().try_optimistic_read());
    assert!(rt; (sum.load(Ordering::SeqCst), next) == (20_000, 256 * 20_001));
    Ok(())
}

/// Where a call doesn't try again after a lost exchange, the test doesn't end.
#[test]
fn calls_that_lose_exchanges_come_back(rt: HostRuntime) -> Result<(), Fail> {
    let lock = made(rt.alloc())?;
    let (one, two) = join(
        &rt,
        || lose_exchanges(&rt, &lock),
        || lose_exchanges(&rt, &lock),
    );
    assert!(rt; one && two);
    Ok(())
}

/// Reads, and lets the other thread come in its first run. Answers which run it was, from 0.
fn read_beside<L: KnownLayout, R: Wait>(
    rt: &R,
    lock: &StampedLock<L>,
    runs: &AtomicU64,
    meeting: &Barrier,
) -> Result<u64, Mismatch> {
    lock.enter().read_optimistically(rt, |_| {
        let run = runs.fetch_add(1, Ordering::SeqCst);
        if run == 0 {
            meeting.wait(rt);
            meeting.wait(rt);
        }
        run
    })
}

/// Makes these calls while the reader is in its closure. Answers how many were answered as they should.
fn come_between<L: KnownLayout, R: Wait>(
    rt: &R,
    lock: &StampedLock<L>,
    rows: &[Row],
    meeting: &Barrier,
) -> usize {
    meeting.wait(rt);
    let right = right_rows(rt, lock, rows, false);
    meeting.wait(rt);
    right
}

/// Reads on a new lock beside these calls: the last run of the closure has this number, and no run follows it.
fn assert_read_beside<L: KnownLayout + Sync, R: Abort + Threads + Wait + Sync>(
    rt: &R,
    lock: &StampedLock<L>,
    rows: &[Row; 2],
    last: u64,
) {
    let (runs, meeting) = (AtomicU64::new(0), Barrier::new(2));
    let (run, right) = join(
        rt,
        || read_beside(rt, lock, &runs, &meeting),
        || come_between(rt, lock, rows, &meeting),
    );
    assert!(rt; run == Ok(last));
    assert!(rt; (runs.load(Ordering::SeqCst), right) == (last.wrapping_add(1), 2));
}

const READER: [Row; 2] = [(Ask::Read, 0, 257), (Ask::UnlockRead, 257, 1)];

const WRITER: [Row; 2] = [(Ask::Write, 0, 384), (Ask::UnlockWrite, 384, 1)];

const READER_IN_TWO: [Row; 2] = [(Ask::Read, 0, 131_073), (Ask::UnlockRead, 131_073, 1)];

const WRITER_IN_TWO: [Row; 2] = [(Ask::Write, 0, 196_608), (Ask::UnlockWrite, 196_608, 1)];

#[test]
fn an_optimistic_read_that_a_writer_came_into_runs_again(rt: HostRuntime) -> Result<(), Fail> {
    for (rows, in_two, last) in [(&READER, &READER_IN_TWO, 0), (&WRITER, &WRITER_IN_TWO, 1)] {
        let two = made_in::<LayoutTwo>(rt.alloc(), Layout::Two, (127, 1))?;
        assert_read_beside(&rt, &made(rt.alloc())?, rows, last);
        assert_read_beside(&rt, &two, in_two, last);
    }
    Ok(())
}

/// Reads once the other thread is there, too. Answers which run of the closure it was, from 0.
fn read_late<R: Wait>(
    rt: &R,
    lock: &StampedLock,
    runs: &AtomicU64,
    both: &Barrier,
) -> Result<u64, Mismatch> {
    both.wait(rt);
    lock.enter()
        .read_optimistically(rt, |_| runs.fetch_add(1, Ordering::SeqCst))
}

/// Lets the reader run some times, and releases then; answers how often its closure had run by then.
fn release_late<R: Wait>(rt: &R, lock: &StampedLock, runs: &AtomicU64, both: &Barrier) -> u64 {
    both.wait(rt);
    for _ in 0..20u64 {
        thread::yield_now();
    }
    let before = runs.load(Ordering::SeqCst);
    lock.enter().try_unlock_write(rt);
    before
}

#[test]
fn a_read_that_gets_no_stamp_waits_and_runs_once(rt: HostRuntime) -> Result<(), Fail> {
    let lock = made(rt.alloc())?;
    lock.enter().try_write(&rt);
    let (runs, both) = (AtomicU64::new(0), Barrier::new(2));
    let (run, before) = join(
        &rt,
        || read_late(&rt, &lock, &runs, &both),
        || release_late(&rt, &lock, &runs, &both),
    );
    assert!(rt; run == Ok(0));
    assert!(rt; (before, runs.load(Ordering::SeqCst)) == (0, 1));
    Ok(())
}
