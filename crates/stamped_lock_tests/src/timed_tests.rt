//! Calls that are tried until a time is over, by a clock of the tests' own.
use crate::fixtures::{Ask, answer, made, made_in};
use crate::ticking::{FAILED, Ticking};
use stamped_lock::{KnownLayout, Layout, LayoutTwo, LockHandle, Stamp, StampedLock};
use std::io;
use std::process::Abort;
use std::sync::Wait;
use std::test::Fail;
use std::time::{Clock, Duration};

/// How a call for a time ends.
#[derive(Clone, Copy, PartialEq, Debug)]
enum Ended {
    CameIn,
    GaveUp,
    Failed(Option<i32>),
}

use Ended::{CameIn, Failed, GaveUp};

fn how_it_ended(answer: io::Result<Option<Stamp>>) -> Ended {
    match answer {
        Ok(Some(_)) => CameIn,
        Ok(None) => GaveUp,
        Err(error) => Failed(error.raw_os_error()),
    }
}

/// For how many milliseconds a call tries, by which reading of the clock the holder leaves, and which one fails
/// (0 for none); how the call ends, and how often it has read the clock then.
type Row = (u64, u64, u64, Ended, u64);

/// The clock is read before the second try, and then before each further one: a millisecond later each time.
const ROWS: [Row; 10] = [
    // The holder stays.
    (0, 0, 0, GaveUp, 2),
    (1, 0, 0, GaveUp, 2),
    (5, 0, 0, GaveUp, 6),
    // It leaves.
    (5, 1, 0, CameIn, 2),
    (5, 4, 0, CameIn, 4),
    (u64::MAX, 4, 0, CameIn, 4),
    // The clock fails.
    (0, 0, 1, Failed(Some(FAILED)), 1),
    (5, 0, 1, Failed(Some(FAILED)), 1),
    (5, 0, 4, Failed(Some(FAILED)), 4),
    (u64::MAX, 2, 3, CameIn, 2),
];

/// Tries to acquire the mode for this time.
fn try_for<L: KnownLayout, R: Wait + Clock>(
    rt: &R,
    lock: &mut LockHandle<'_, L>,
    writes: bool,
    time: Duration,
) -> Ended {
    if writes {
        how_it_ended(lock.try_write_for(rt, time))
    } else {
        how_it_ended(lock.try_read_for(rt, time))
    }
}

/// The calls for a time while this mode is held. Where they didn't come in, it still is.
fn assert_rows<L: KnownLayout>(
    rt: &(impl Abort + Wait),
    lock: &StampedLock<L>,
    (held, writes): (Ask, bool),
) {
    for (millis, frees, fails, want, readings) in ROWS {
        let mut handle = lock.enter();
        let stamp = answer(rt, &mut handle, held, None).unwrap_or(0);
        let ticking = Ticking::new(rt, lock, (frees, fails));
        let time = Duration::from_millis(millis);
        assert!(rt; try_for(&ticking, &mut handle, writes, time) == want);
        assert!(rt; ticking.asked() == (readings, 0));
        let left = Stamp::new(stamp).is_some_and(|stamp| handle.unlock(rt, stamp).is_ok());
        assert!(rt; left == (want != CameIn));
        handle.try_unlock_write(rt);
        handle.try_unlock_read(rt);
    }
}

/// A call whose mode is free doesn't read the clock.
fn assert_free<L: KnownLayout>(rt: &(impl Abort + Wait), lock: &StampedLock<L>) {
    for writes in [false, true] {
        let mut handle = lock.enter();
        let ticking = Ticking::new(rt, lock, (0, 1));
        assert!(rt; try_for(&ticking, &mut handle, writes, Duration::ZERO) == CameIn);
        assert!(rt; ticking.asked() == (0, 0));
        assert!(rt; handle.try_unlock_write(rt) == writes);
        handle.try_unlock_read(rt);
    }
}

#[test]
fn a_call_tries_until_its_time_is_over_or_its_clock_fails(rt: HostRuntime) -> Result<(), Fail> {
    let (one, two) = (
        made(rt.alloc())?,
        made_in::<LayoutTwo>(rt.alloc(), Layout::Two, (1, 1000))?,
    );
    for case in [(Ask::Write, true), (Ask::Write, false), (Ask::Read, true)] {
        assert_rows(&rt, &one, case);
        assert_rows(&rt, &two, case);
    }
    assert_free(&rt, &one);
    assert_free(&rt, &two);
    Ok(())
}

/// By how many nanoseconds the clock goes on at each reading, for how many a call tries while the holder stays, and
/// how often it has read the clock when it gives up.
const FINE_ROWS: [(u64, u64, u64); 10] = [
    (1_000_000, 1_500_000, 3),
    (1_000_000, 1_000_001, 3),
    (1_000_000, 1_000_000, 2),
    (400_000, 500_000, 3),
    (400_000, 1_500_000, 5),
    (400, 500, 3),
    (400, 1_500, 5),
    (1, 3, 4),
    (700_000_000, 1_500_000_000, 4),
    (999_999_999, 1_000_000_000, 3),
];

#[test]
fn a_call_gives_up_no_nanosecond_too_soon(rt: HostRuntime) -> Result<(), Fail> {
    let lock = made(rt.alloc())?;
    lock.enter().try_write(&rt);
    for writes in [false, true] {
        for (nanos, time, readings) in FINE_ROWS {
            let (mut handle, ticking) = (lock.enter(), Ticking::new(&rt, &lock, (0, 0)).by(nanos));
            let time = Duration::from_nanos(time);
            assert!(rt;
                try_for(&ticking, &mut handle, writes, time) == GaveUp,
                "{time:?}"
            );
            assert!(rt; ticking.asked() == (readings, 0), "{nanos}, {time:?}");
        }
    }
    Ok(())
}

/// By the clock of the system.
#[test]
fn no_time_is_enough_for_one_try(rt: HostRuntime) -> Result<(), Fail> {
    let lock = made(rt.alloc())?;
    let (mut one, mut other) = (lock.enter(), lock.enter());
    assert!(rt; try_for(&rt, &mut one, false, Duration::ZERO) == CameIn);
    assert!(rt; try_for(&rt, &mut other, true, Duration::ZERO) == GaveUp);
    assert!(rt; try_for(&rt, &mut other, false, Duration::ZERO) == CameIn);
    Ok(())
}
