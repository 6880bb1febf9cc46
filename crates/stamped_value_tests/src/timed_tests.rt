//! Modes that are tried for until a time is over, by a clock of the tests' own.
use crate::fixtures::{made, made_in};
use crate::ticking::{FAILED, Holder, Ticking};
use stamp_core::Layout;
use stamped_value::{NotInTime, StampedValue, ValueHandle};
use std::process::Abort;
use std::sync::Wait;
use std::test::Fail;
use std::time::{Clock, Duration};

/// How a call for a time ends.
#[derive(Clone, Copy, PartialEq, Debug)]
enum Ended {
    CameIn,
    GaveUp,
    Failed(Option<i32>),
}

use Ended::{CameIn, Failed, GaveUp};

/// How a call that acquired nothing ended, and its handle.
fn refused<'a>(not: NotInTime<'a, u64>) -> (Ended, ValueHandle<'a, u64>) {
    let ended = match not.error {
        None => GaveUp,
        Some(error) => Failed(error.raw_os_error()),
    };
    (ended, not.handle)
}

/// Tries to acquire the mode for this time, and releases it.
fn try_for<'a, R: Wait + Clock>(
    rt: &'a R,
    handle: ValueHandle<'a, u64>,
    writes: bool,
    time: Duration,
) -> (Ended, ValueHandle<'a, u64>) {
    if writes {
        match handle.try_write_for(rt, time) {
            Ok(guard) => (CameIn, guard.release()),
            Err(not) => refused(not),
        }
    } else {
        match handle.try_read_for(rt, time) {
            Ok(guard) => (CameIn, guard.release()),
            Err(not) => refused(not),
        }
    }
}

/// One that holds write mode, or read mode.
fn holder<'a, R: Wait>(
    rt: &'a R,
    value: &'a StampedValue<u64>,
    writes: bool,
) -> Result<Holder<'a, R>, Fail> {
    if writes {
        match value.enter().try_write(rt) {
            Ok(guard) => Ok(Holder::Writer(guard)),
            Err(_) => Err(Fail::from("no writer comes")),
        }
    } else {
        match value.enter().try_read(rt) {
            Ok(guard) => Ok(Holder::Reader(guard)),
            Err(_) => Err(Fail::from("no reader comes")),
        }
    }
}

/// For how many milliseconds a call tries, by which reading of the clock the holder leaves, and which one fails
/// (0 for none); how the call ends, and how often it has read the clock then.
type Row = (u64, u64, u64, Ended, u64);

/// The clock is read before the second try, and then before each further one: a millisecond later each time.
const ROWS: [Row; 10] = [
    // The holder stays.
    (0, 0, 0, GaveUp, 2),
    (1, 0, 0, GaveUp, 2),
    (5, 0, 0, GaveUp, 6),
    // It leaves.
    (5, 1, 0, CameIn, 2),
    (5, 4, 0, CameIn, 4),
    (u64::MAX, 4, 0, CameIn, 4),
    // The clock fails.
    (0, 0, 1, Failed(Some(FAILED)), 1),
    (5, 0, 1, Failed(Some(FAILED)), 1),
    (5, 0, 4, Failed(Some(FAILED)), 4),
    (u64::MAX, 2, 3, CameIn, 2),
];

/// The call for a time while this mode is held, where there is room for one reader. One that doesn't come in has acquired
/// nothing, and leaves the holder its mode: its handle comes in when the holder has left.
fn assert_row<R: Abort + Wait>(
    rt: &R,
    value: StampedValue<u64>,
    (held, writes): (bool, bool),
    (millis, leaves, fails, want, readings): Row,
) -> Result<(), Fail> {
    let ticking = Ticking::new(holder(rt, &value, held)?, 1_000_000, (leaves, fails));
    let time = Duration::from_millis(millis);
    let (ended, handle) = try_for(&ticking, value.enter(), writes, time);
    assert!(rt; ended == want);
    assert!(rt; ticking.asked() == (readings, 0));
    assert!(rt; value.enter().try_write(rt).is_ok() == (want == CameIn));
    ticking.leave();
    assert!(rt; handle.try_write(rt).is_ok());
    Ok(())
}

#[test]
fn a_call_tries_until_its_time_is_over_or_its_clock_fails(rt: HostRuntime) -> Result<(), Fail> {
    for layout in [Layout::One, Layout::Two] {
        for case in [(true, true), (true, false), (false, true), (false, false)] {
            for row in ROWS {
                assert_row(&rt, made_in(rt.alloc(), layout, (1, 9), 7u64)?, case, row)?;
            }
        }
    }
    Ok(())
}

#[test]
fn a_call_that_needs_not_wait_does_not_read_the_clock(rt: HostRuntime) -> Result<(), Fail> {
    let value = made(rt.alloc(), 7u64)?;
    for writes in [false, true] {
        let ticking = Ticking::new(Holder::<HostRuntime>::Nobody, 1_000_000, (0, 1));
        let (ended, _) = try_for(&ticking, value.enter(), writes, Duration::ZERO);
        assert!(rt; ended == CameIn && ticking.asked() == (0, 0));
    }
    Ok(())
}

#[test]
fn a_writer_that_finds_no_version_left_gives_up(rt: HostRuntime) -> Result<(), Fail> {
    let value = made_in(rt.alloc(), Layout::One, (1, 0), 7u64)?;
    let ticking = Ticking::new(Holder::<HostRuntime>::Nobody, 1_000_000, (0, 0));
    let (ended, handle) = try_for(&ticking, value.enter(), true, Duration::from_millis(3));
    assert!(rt; ended == GaveUp && ticking.asked() == (4, 0));
    let (ended, _) = try_for(&ticking, handle, false, Duration::from_millis(3));
    assert!(rt; ended == CameIn && ticking.asked() == (4, 0));
    Ok(())
}

/// By how many nanoseconds the clock goes on at each reading, for how many a call tries while the holder stays, and
/// how often it has read the clock when it gives up.
const FINE_ROWS: [(u64, u64, u64); 8] = [
    (1_000_000, 1_500_000, 3),
    (1_000_000, 1_000_001, 3),
    (1_000_000, 1_000_000, 2),
    (400, 1_500, 5),
    (1, 3, 4),
    (700_000_000, 1_500_000_000, 4),
    (999_999_999, 1_000_000_000, 3),
    // For a day, by a clock that goes on an hour.
    (3_600_000_000_000, 86_400_000_000_000, 25),
];

#[test]
fn a_call_gives_up_no_nanosecond_too_soon(rt: HostRuntime) -> Result<(), Fail> {
    let value = made(rt.alloc(), 7u64)?;
    for writes in [false, true] {
        for (nanos, time, readings) in FINE_ROWS {
            let ticking = Ticking::new(holder(&rt, &value, true)?, nanos, (0, 0));
            let time = Duration::from_nanos(time);
            let (ended, _) = try_for(&ticking, value.enter(), writes, time);
            assert!(rt; ended == GaveUp, "{time:?}");
            assert!(rt; ticking.asked() == (readings, 0), "{nanos}, {time:?}");
        }
    }
    Ok(())
}
