//! Sections of one thread.
use crate::fixtures::{Ask, answer, made, made_in, made_with, number};
use stamped_lock::{Entered, KnownLayout, Layout, LayoutTwo, Mismatch, StampedLock, WriteError};
use std::process::Abort;
use std::sync::Wait;
use std::sync::atomic::{AtomicU64, Ordering};
use std::test::Fail;

/// Writes by one handle, and makes this call by another in the section. The runs of the closure are counted.
fn write_around<L: KnownLayout, R: Wait>(
    rt: &R,
    lock: &StampedLock<L>,
    ask: Ask,
    runs: &AtomicU64,
) -> Result<Option<u64>, WriteError> {
    lock.enter().write_with(rt, |_| {
        runs.fetch_add(1, Ordering::SeqCst);
        answer(rt, &mut lock.enter(), ask, None)
    })
}

/// The three sections of a lock of two versions, of which the third is refused, with the word that each leaves.
fn assert_written<L: KnownLayout>(
    rt: &(impl Abort + Wait),
    lock: &StampedLock<L>,
    words: [u64; 2],
) {
    let runs = AtomicU64::new(0);
    for (ask, want, ran, next) in [
        (Ask::IsWriteLocked, Ok(Some(1)), 1, words[0]),
        (Ask::TryUnlockWrite, Err(WriteError::Mismatch), 2, words[1]),
        (Ask::IsWriteLocked, Err(WriteError::Spent), 2, words[1]),
    ] {
        assert!(rt; write_around(rt, lock, ask, &runs) == want);
        let left = number(lock.enter().try_optimistic_read());
        assert!(rt; (runs.load(Ordering::SeqCst), left) == (ran, next));
    }
}

#[test]
fn a_write_section_answers_its_closure_if_it_was_made_and_nobody_released_it(
    rt: HostRuntime,
) -> Result<(), Fail> {
    let two = made_in::<LayoutTwo>(rt.alloc(), Layout::Two, (127, 2))?;
    assert_written(&rt, &made_with(rt.alloc(), (127, 2))?, [512, 768]);
    assert_written(&rt, &two, [262_144, 393_216]);
    Ok(())
}

/// Reads by one handle, and makes this call by another in the section. The runs of the closure are counted.
fn read_around<L: KnownLayout, R: Wait>(
    rt: &R,
    lock: &StampedLock<L>,
    ask: Ask,
    runs: &AtomicU64,
) -> Result<Option<u64>, Mismatch> {
    lock.enter().read_with(rt, |_| {
        runs.fetch_add(1, Ordering::SeqCst);
        answer(rt, &mut lock.enter(), ask, None)
    })
}

/// A section in which the lock is held, and one in which another handle releases it.
fn assert_read<L: KnownLayout>(rt: &(impl Abort + Wait), lock: &StampedLock<L>) {
    let runs = AtomicU64::new(0);
    for (ask, want, ran) in [
        (Ask::ReadCount, Ok(Some(1)), 1),
        (Ask::TryUnlockRead, Err(Mismatch), 2),
    ] {
        assert!(rt; read_around(rt, lock, ask, &runs) == want);
        assert!(rt; lock.enter().read_count() == 0);
        assert!(rt; runs.load(Ordering::SeqCst) == ran);
    }
}

#[test]
fn a_read_section_answers_its_closure_if_nobody_released_it(rt: HostRuntime) -> Result<(), Fail> {
    assert_read(&rt, &made(rt.alloc())?);
    assert_read(&rt, &made_in::<LayoutTwo>(rt.alloc(), Layout::Two, (1, 0))?);
    Ok(())
}

/// Writes three times as much if there are fewer than ten: what there was before.
fn triple_if_few<L: KnownLayout, R: Wait>(
    rt: &R,
    lock: &StampedLock<L>,
    sum: &AtomicU64,
    asked: &AtomicU64,
) -> Result<Option<u64>, WriteError> {
    lock.enter().write_if(
        rt,
        |_| {
            asked.fetch_add(1, Ordering::SeqCst);
            sum.load(Ordering::SeqCst) < 10
        },
        |_| {
            let old = sum.load(Ordering::SeqCst);
            sum.store(old.wrapping_mul(3), Ordering::SeqCst);
            old
        },
    )
}

/// Sections of a lock of two versions, so the third is refused; a test that is false needs none.
fn assert_written_if<L: KnownLayout>(rt: &(impl Abort + Wait), lock: &StampedLock<L>) {
    let (sum, asked) = (AtomicU64::new(1), AtomicU64::new(0));
    for (begun, want, asks) in [
        (1, Ok(Some(1)), 2),
        (11, Ok(None), 1),
        (4, Ok(Some(4)), 2),
        (12, Ok(None), 1),
        (2, Err(WriteError::Spent), 1),
    ] {
        sum.store(begun, Ordering::SeqCst);
        asked.store(0, Ordering::SeqCst);
        assert!(rt; triple_if_few(rt, lock, &sum, &asked) == want);
        assert!(rt; asked.load(Ordering::SeqCst) == asks);
    }
    assert!(rt; !lock.enter().is_write_locked());
}

#[test]
fn a_section_runs_where_its_test_holds(rt: HostRuntime) -> Result<(), Fail> {
    let two = made_in::<LayoutTwo>(rt.alloc(), Layout::Two, (127, 2))?;
    assert_written_if(&rt, &made_with(rt.alloc(), (127, 2))?);
    assert_written_if(&rt, &two);
    Ok(())
}

/// Sets both numbers in write mode.
fn set_both<L: KnownLayout, R: Wait + Abort>(rt: &R, lock: &StampedLock<L>, pair: &[AtomicU64; 2]) {
    let set = lock.enter().write_with(rt, |_| {
        pair[0].store(3, Ordering::SeqCst);
        pair[1].store(4, Ordering::SeqCst);
    });
    assert!(rt; set == Ok(()));
}

/// Reads both numbers into the buffer; in the run of this number a writer comes between them. Answers how
/// often it ran.
fn read_around_a_writer<L: KnownLayout, R: Wait + Abort>(
    rt: &R,
    lock: &StampedLock<L>,
    pair: &[AtomicU64; 2],
    buffer: &mut [u64; 2],
    written: u64,
) -> Result<u64, Mismatch> {
    let mut runs = 0u64;
    let mut read = |_: &Entered<'_>| {
        runs = runs.wrapping_add(1);
        buffer[0] = pair[0].load(Ordering::SeqCst);
        if runs == written {
            set_both(rt, lock, pair);
        }
        buffer[1] = pair[1].load(Ordering::SeqCst);
        runs
    };
    lock.enter().read_optimistically_mut(rt, &mut read)
}

/// What a torn read of a new lock leaves in the buffer, where a writer comes in the run of this number.
fn assert_filled<L: KnownLayout, R: Wait + Abort>(
    rt: &R,
    lock: &StampedLock<L>,
    (written, ran, want): (u64, u64, [u64; 2]),
) {
    let pair = [AtomicU64::new(1), AtomicU64::new(2)];
    let mut buffer = [0; 2];
    assert!(rt; read_around_a_writer(rt, lock, &pair, &mut buffer, written) == Ok(ran));
    assert!(rt; buffer == want);
    assert!(rt; lock.enter().read_count() == 0);
}

#[test]
fn a_buffer_is_filled_again_after_a_torn_read_alone(rt: HostRuntime) -> Result<(), Fail> {
    for case in [(9, 1, [1, 2]), (1, 2, [3, 4])] {
        let two = made_in::<LayoutTwo>(rt.alloc(), Layout::Two, (1, 1))?;
        assert_filled(&rt, &made(rt.alloc())?, case);
        assert_filled(&rt, &two, case);
    }
    Ok(())
}
