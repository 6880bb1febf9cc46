//! Guards that are dropped, and what is written through them.
ghost use Rattle.std.specs.Prelude.{IsTrue};
ghost use Rattle.stamped_value.specs.Values.{IsLastOf};

use crate::fixtures::{made, read_at_once, refused_reader, refused_writer, write_at_once, writing};
use stamped_value::{StampedValue, ValueHandle, WriteGuard};
use std::sync::Wait;
use std::test::Fail;

/// What was written is the last value.
fn leaves_seven<'a, R: Wait>(mut guard: WriteGuard<'a, u64, R>) -> ValueHandle<'a, u64>
    ensures { IsLastOf result.me.0.values 7 }
{
    *guard = 7;
    guard.release()
}

/// A guard is read between two writes.
fn adds_two<R: Wait>(mut guard: WriteGuard<'_, u64, R>) -> bool
    ensures { IsTrue result }
{
    *guard = 1;
    let one = *guard;
    *guard += 1;
    one == 1 && *guard == 2
}

#[test]
fn a_dropped_reader_lets_a_writer_in(rt: HostRuntime) -> Result<(), Fail> {
    let value = made(rt.alloc(), 7u64)?;
    let handle = {
        let _reader = value.enter().read(&rt);
        refused_writer(&rt, value.enter())?
    };
    let writer = write_at_once(&rt, handle)?;
    assert!(rt; *writer == 7);
    Ok(())
}

#[test]
fn a_dropped_writer_leaves_what_was_written_and_lets_all_in(rt: HostRuntime) -> Result<(), Fail> {
    let value = made(rt.alloc(), 7u64)?;
    let (reads, writes) = {
        let mut writer = writing(&rt, value.enter())?;
        *writer = 8;
        let (reads, writes) = (value.enter(), value.enter());
        (refused_reader(&rt, reads)?, refused_writer(&rt, writes)?)
    };
    let reader = read_at_once(&rt, reads)?;
    assert!(rt; *reader == 8);
    drop(reader);
    assert!(rt; *write_at_once(&rt, writes)? == 8);
    Ok(())
}

/// Counts one more, unless there are as many as these.
fn count_below<R: Wait>(rt: &R, value: &StampedValue<u64>, most: u64) -> Option<u64> {
    let mut writer = value.enter().write(rt).ok()?;
    if *writer == most {
        return Some(most);
    }
    *writer = writer.checked_add(1)?;
    Some(*writer)
}

#[test]
fn an_early_return_and_a_question_mark_release_a_guard(rt: HostRuntime) -> Result<(), Fail> {
    for (from, most, counted) in [(7, 7, Some(7)), (7, 9, Some(8)), (u64::MAX, 9, None)] {
        let value = made(rt.alloc(), from)?;
        assert!(rt; count_below(&rt, &value, most) == counted);
        let writer = write_at_once(&rt, value.enter())?;
        assert!(rt; *writer == counted.unwrap_or(from));
    }
    Ok(())
}

#[test]
fn what_is_written_through_a_guard_is_there_at_once(rt: HostRuntime) -> Result<(), Fail> {
    let value = made(rt.alloc(), 0u64)?;
    assert!(rt; adds_two(writing(&rt, value.enter())?));
    assert!(rt; *value.enter().read(&rt) == 2);
    let handle = leaves_seven(writing(&rt, value.enter())?);
    assert!(rt; *handle.read(&rt) == 7);
    Ok(())
}

#[test]
fn a_dropped_reader_uses_no_version(rt: HostRuntime) -> Result<(), Fail> {
    let value = made(rt.alloc(), 7u64)?;
    let mut handle = value.enter();
    let stamp = handle.optimistic();
    drop(read_at_once(&rt, value.enter())?);
    assert!(rt; handle.is_last(stamp));
    Ok(())
}
