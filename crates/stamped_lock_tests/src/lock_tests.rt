//! Calls of one thread, by worked rows.
use crate::fixtures::{Ask, Most, Row, made_in, made_with, right_rows};
use stamped_lock::{EitherLayout, KnownLayout, Layout, LayoutTwo, StampedLock};
use std::alloc::Global;
use std::process::Abort;
use std::sync::Wait;
use std::test::Fail;

/// Makes the calls of a table on a new lock: all by one handle, or each by a handle that enters for it.
fn assert_rows<L: KnownLayout>(
    rt: &(impl Abort + Wait),
    lock: &StampedLock<L>,
    rows: &[Row],
    enters_anew: bool,
) {
    let right = right_rows(rt, lock, rows, enters_anew);
    assert!(rt; right == rows.len(), "row {right}");
}

/// Makes the calls of a table on new locks of layout 1: all by one handle, and then each by a handle that enters
/// for it.
fn assert_answered(
    rt: &(impl Abort + Wait),
    alloc: Global,
    most: Most,
    rows: &[Row],
) -> Result<(), Fail> {
    for enters_anew in [false, true] {
        assert_rows(rt, &made_with(alloc, most)?, rows, enters_anew);
    }
    Ok(())
}

const WIDE: Most = (127, 1_000_000);

const WRITTEN: [Row; 15] = [
    (Ask::Optimistic, 0, 256),
    (Ask::Write, 0, 384),
    (Ask::IsWriteLocked, 0, 1),
    (Ask::Optimistic, 0, 0),
    (Ask::Validate, 256, 0),
    (Ask::Validate, 384, 1),
    (Ask::UnlockWrite, 384, 1),
    (Ask::IsWriteLocked, 0, 0),
    (Ask::Validate, 384, 1),
    (Ask::Optimistic, 0, 512),
    (Ask::Read, 0, 513),
    (Ask::Unlock, 513, 1),
    (Ask::TryWrite, 0, 640),
    (Ask::Validate, 384, 0),
    (Ask::Unlock, 640, 1),
];

#[test]
fn a_released_write_stamp_validates_until_the_next_writer(rt: HostRuntime) -> Result<(), Fail> {
    assert_answered(&rt, rt.alloc(), WIDE, &WRITTEN)
}

const READ: [Row; 10] = [
    (Ask::IsReadLocked, 0, 0),
    (Ask::Read, 0, 257),
    (Ask::TryRead, 0, 258),
    (Ask::IsReadLocked, 0, 1),
    (Ask::ReadCount, 0, 2),
    (Ask::TryWrite, 0, 0),
    (Ask::Optimistic, 0, 256),
    (Ask::UnlockRead, 258, 1),
    (Ask::UnlockRead, 257, 1),
    (Ask::ReadCount, 0, 0),
];

#[test]
fn readers_are_counted_and_keep_a_writer_out(rt: HostRuntime) -> Result<(), Fail> {
    assert_answered(&rt, rt.alloc(), WIDE, &READ)
}

const MISMATCHED: [Row; 8] = [
    (Ask::Write, 0, 384),
    (Ask::TryRead, 0, 0),
    (Ask::UnlockWrite, 640, 0),
    (Ask::UnlockRead, 384, 0),
    (Ask::Unlock, 256, 0),
    (Ask::IsWriteLocked, 0, 1),
    (Ask::UnlockWrite, 384, 1),
    (Ask::UnlockWrite, 384, 0),
];

#[test]
fn a_release_by_another_stamp_is_a_mismatch(rt: HostRuntime) -> Result<(), Fail> {
    assert_answered(&rt, rt.alloc(), WIDE, &MISMATCHED)
}

const WITHOUT_A_STAMP: [Row; 9] = [
    (Ask::TryUnlockWrite, 0, 0),
    (Ask::TryUnlockRead, 0, 0),
    (Ask::Write, 0, 384),
    (Ask::TryUnlockRead, 0, 0),
    (Ask::TryUnlockWrite, 0, 1),
    (Ask::Read, 0, 513),
    (Ask::TryUnlockWrite, 0, 0),
    (Ask::TryUnlockRead, 0, 1),
    (Ask::Optimistic, 0, 512),
];

#[test]
fn a_release_without_a_stamp_says_whether_there_was_a_hold(rt: HostRuntime) -> Result<(), Fail> {
    assert_answered(&rt, rt.alloc(), WIDE, &WITHOUT_A_STAMP)
}

const AT_ITS_LIMITS: [Row; 7] = [
    (Ask::TryRead, 0, 257),
    (Ask::TryRead, 0, 0),
    (Ask::TryUnlockRead, 0, 1),
    (Ask::Write, 0, 384),
    (Ask::TryUnlockWrite, 0, 1),
    (Ask::Write, 0, 0),
    (Ask::TryWrite, 0, 0),
];

#[test]
fn beyond_its_limits_a_lock_answers_none(rt: HostRuntime) -> Result<(), Fail> {
    assert_answered(&rt, rt.alloc(), (1, 1), &AT_ITS_LIMITS)
}

const IN_LAYOUT_TWO: [Row; 22] = [
    (Ask::Optimistic, 0, 131_072),
    (Ask::ToRead, 131_072, 131_073),
    (Ask::Read, 0, 131_074),
    (Ask::TryReadOnce, 0, 0),
    (Ask::Unlock, 131_073, 1),
    (Ask::UnlockRead, 131_074, 1),
    (Ask::TryReadOnce, 0, 131_073),
    (Ask::UnlockReadOnce, 131_073, 1),
    (Ask::Write, 0, 196_608),
    (Ask::IsWriteLocked, 0, 1),
    (Ask::Validate, 131_072, 0),
    (Ask::UnlockWrite, 196_608, 1),
    (Ask::Read, 0, 262_145),
    (Ask::IsReadLocked, 0, 1),
    (Ask::ReadCount, 0, 1),
    (Ask::ToWrite, 262_145, 327_680),
    (Ask::ToOptimistic, 327_680, 393_216),
    (Ask::TryWrite, 0, 0),
    (Ask::TryRead, 0, 393_217),
    (Ask::TryUnlockRead, 0, 1),
    (Ask::TryUnlockWrite, 0, 0),
    (Ask::Validate, 393_216, 1),
];

/// By a type that knows the layout, and by one that looks.
#[test]
fn the_second_layout_has_stamps_of_its_own(rt: HostRuntime) -> Result<(), Fail> {
    let (layout, most) = (Layout::Two, (2, 2));
    for enters_anew in [false, true] {
        let known = made_in::<LayoutTwo>(rt.alloc(), layout, most)?;
        assert_rows(&rt, &known, &IN_LAYOUT_TWO, enters_anew);
        let either = made_in::<EitherLayout>(rt.alloc(), layout, most)?;
        assert_rows(&rt, &either, &IN_LAYOUT_TWO, enters_anew);
    }
    Ok(())
}

#[test]
fn a_lock_of_either_layout_may_be_of_the_first(rt: HostRuntime) -> Result<(), Fail> {
    for enters_anew in [false, true] {
        let lock = made_in::<EitherLayout>(rt.alloc(), Layout::One, (1, 1))?;
        assert_rows(&rt, &lock, &AT_ITS_LIMITS, enters_anew);
    }
    Ok(())
}

const CONVERTED: [Row; 42] = [
    // Nobody holds the lock.
    (Ask::ToWrite, 257, 0),
    (Ask::ToRead, 257, 0),
    (Ask::ToOptimistic, 257, 0),
    (Ask::ToOptimistic, 256, 256),
    (Ask::ToRead, 256, 257),
    // There is one reader.
    (Ask::ReadCount, 0, 1),
    (Ask::ToWrite, 256, 0),
    (Ask::ToOptimistic, 256, 256),
    (Ask::ToRead, 257, 257),
    (Ask::ToRead, 256, 258),
    // There are two.
    (Ask::ReadCount, 0, 2),
    (Ask::ToWrite, 258, 0),
    (Ask::ToRead, 258, 258),
    (Ask::ToOptimistic, 258, 256),
    (Ask::ReadCount, 0, 1),
    (Ask::ToOptimistic, 257, 256),
    (Ask::IsReadLocked, 0, 0),
    (Ask::ToWrite, 256, 384),
    // There is a writer.
    (Ask::IsWriteLocked, 0, 1),
    (Ask::ToWrite, 256, 0),
    (Ask::ToRead, 256, 0),
    (Ask::ToOptimistic, 256, 0),
    (Ask::ToWrite, 384, 384),
    (Ask::ToOptimistic, 384, 512),
    // It has left.
    (Ask::IsWriteLocked, 0, 0),
    (Ask::ToWrite, 256, 0),
    (Ask::ToRead, 256, 0),
    (Ask::ToOptimistic, 256, 0),
    (Ask::ToWrite, 384, 0),
    (Ask::ToRead, 384, 0),
    (Ask::ToOptimistic, 384, 0),
    (Ask::ToOptimistic, 512, 512),
    (Ask::ToRead, 512, 513),
    (Ask::ToWrite, 513, 640),
    // The reader went on as the next writer.
    (Ask::ReadCount, 0, 0),
    (Ask::IsWriteLocked, 0, 1),
    (Ask::ToRead, 640, 769),
    (Ask::IsWriteLocked, 0, 0),
    (Ask::ReadCount, 0, 1),
    (Ask::ToOptimistic, 769, 768),
    (Ask::ReadCount, 0, 0),
    (Ask::ToWrite, 768, 896),
];

#[test]
fn each_mode_is_converted_to_each_and_what_was_held_is_released(
    rt: HostRuntime,
) -> Result<(), Fail> {
    assert_answered(&rt, rt.alloc(), WIDE, &CONVERTED)
}

const TRIED_ONCE: [Row; 24] = [
    (Ask::TryUnlockWriteOnce, 0, 0),
    (Ask::TryUnlockReadOnce, 0, 0),
    (Ask::TryWriteOnce, 0, 384),
    (Ask::TryWriteOnce, 0, 0),
    (Ask::TryReadOnce, 0, 0),
    (Ask::UnlockReadOnce, 384, 0),
    (Ask::UnlockOnce, 640, 0),
    (Ask::UnlockOnce, 384, 1),
    (Ask::TryReadOnce, 0, 513),
    (Ask::TryReadOnce, 0, 514),
    (Ask::UnlockReadOnce, 513, 1),
    (Ask::UnlockOnce, 513, 1),
    (Ask::UnlockReadOnce, 513, 0),
    (Ask::UnlockOnce, 513, 0),
    (Ask::ToReadOnce, 512, 513),
    (Ask::ToWriteOnce, 513, 640),
    (Ask::ToOptimisticOnce, 640, 768),
    (Ask::ToWriteOnce, 512, 0),
    (Ask::ToReadOnce, 512, 0),
    (Ask::ToOptimisticOnce, 512, 0),
    (Ask::TryWriteOnce, 0, 896),
    (Ask::TryUnlockWriteOnce, 0, 1),
    (Ask::TryReadOnce, 0, 1025),
    (Ask::TryUnlockReadOnce, 0, 1),
];

#[test]
fn alone_a_call_that_is_tried_once_is_made(rt: HostRuntime) -> Result<(), Fail> {
    assert_answered(&rt, rt.alloc(), WIDE, &TRIED_ONCE)
}
