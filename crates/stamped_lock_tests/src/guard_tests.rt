//! Guards, and what a handle knows after its guard.
ghost use Rattle.stamped_lock.specs.Sections.{ReadSection};

use crate::fixtures::{made, made_with, number};
use stamped_lock::{KnownLayout, LockHandle, Mismatch, Stamp, StampedLock, WriteError};
use std::process::Abort;
use std::sync::Wait;
use std::test::Fail;

/// Reads by a guard: the handle has made the two calls of a section in read mode, and no other.
fn read_by_a_guard<'a, L: KnownLayout, R: Wait>(
    rt: &R,
    handle: LockHandle<'a, L>,
) -> (LockHandle<'a, L>, Result<(), Mismatch>)
    ensures { ReadSection (λ _ m. Unit {0}) result.1 handle.entry result.0 }
{
    handle.read_guard(rt).release()
}

#[test]
fn a_released_guard_gives_its_handle_back(rt: HostRuntime) -> Result<(), Fail> {
    let lock = made(rt.alloc())?;
    let (mut handle, released) = read_by_a_guard(&rt, lock.enter());
    assert!(rt; released == Ok(()));
    assert!(rt; number(handle.try_write(&rt)) == 384);
    Ok(())
}

#[test]
fn a_dropped_guard_lets_a_writer_in(rt: HostRuntime) -> Result<(), Fail> {
    let lock = made(rt.alloc())?;
    let mut other = lock.enter();
    let guard = lock.enter().read_guard(&rt);
    assert!(rt; guard.stamp().number() == 257);
    assert!(rt; (other.read_count(), number(other.try_write(&rt))) == (1, 0));
    drop(guard);
    assert!(rt; (other.read_count(), number(other.try_write(&rt))) == (0, 384));
    Ok(())
}

#[test]
fn a_dropped_writers_guard_lets_a_reader_in(rt: HostRuntime) -> Result<(), Fail> {
    let lock = made(rt.alloc())?;
    let mut other = lock.enter();
    let Ok(guard) = lock.enter().write_guard(&rt) else {
        return Err(Fail::from("no version"));
    };
    assert!(rt; guard.stamp().number() == 384);
    assert!(rt; number(other.try_read(&rt)) == 0);
    drop(guard);
    assert!(rt; number(other.try_read(&rt)) == 513);
    Ok(())
}

/// Reads by a guard, and leaves early if there is another reader.
fn alone<L: KnownLayout, R: Wait>(rt: &R, lock: &StampedLock<L>) -> Option<Stamp> {
    let guard = lock.enter().read_guard(rt);
    if lock.enter().read_count() > 1 {
        return None;
    }
    Some(guard.stamp())
}

#[test]
fn an_early_return_releases(rt: HostRuntime) -> Result<(), Fail> {
    let lock = made(rt.alloc())?;
    let mut other = lock.enter();
    assert!(rt; number(alone(&rt, &lock)) == 257);
    let held = other.read(&rt);
    assert!(rt; alone(&rt, &lock).is_none());
    assert!(rt; other.read_count() == 1);
    assert!(rt; other.unlock_read(&rt, held) == Ok(()));
    Ok(())
}

/// Writes by a guard that waits, or else by one that tries: its stamp, and how it was released; 0 where there is
/// none.
fn written<L: KnownLayout, R: Wait>(
    rt: &R,
    lock: &StampedLock<L>,
    waits: bool,
) -> (u64, Result<(), Mismatch>) {
    let acquired = if waits {
        lock.enter().write_guard(rt)
    } else {
        lock.enter().try_write_guard(rt)
    };
    match acquired {
        Ok(guard) => {
            let stamp = guard.stamp().number();
            let (_handle, released) = guard.release();
            (stamp, released)
        }
        Err(_handle) => (0, Ok(())),
    }
}

#[test]
fn a_writers_guard_is_there_while_a_version_is_left(rt: HostRuntime) -> Result<(), Fail> {
    let lock = made_with(rt.alloc(), (127, 2))?;
    for (waits, stamp) in [(true, 384), (false, 640), (true, 0), (false, 0)] {
        assert!(rt; written(&rt, &lock, waits) == (stamp, Ok(())));
    }
    assert!(rt; !lock.enter().is_write_locked());
    Ok(())
}

/// Reads by a guard that tries: its stamp, and how it was released; 0 where there is none.
fn tried<L: KnownLayout, R: Wait>(rt: &R, lock: &StampedLock<L>) -> (u64, Result<(), Mismatch>) {
    match lock.enter().try_read_guard(rt) {
        Ok(guard) => {
            let stamp = guard.stamp().number();
            let (_handle, released) = guard.release();
            (stamp, released)
        }
        Err(_handle) => (0, Ok(())),
    }
}

#[test]
fn a_try_has_no_guard_beside_a_writer(rt: HostRuntime) -> Result<(), Fail> {
    let lock = made(rt.alloc())?;
    assert!(rt; tried(&rt, &lock) == (257, Ok(())));
    let Ok(guard) = lock.enter().write_guard(&rt) else {
        return Err(Fail::from("no version"));
    };
    assert!(rt; tried(&rt, &lock) == (0, Ok(())));
    assert!(rt; written(&rt, &lock, false) == (0, Ok(())));
    drop(guard);
    assert!(rt; tried(&rt, &lock) == (513, Ok(())));
    Ok(())
}

/// Upgrades a reader's guard: the stamp of what it is then, and whether that is a writer's.
fn upgraded<L: KnownLayout, R: Wait>(rt: &R, lock: &StampedLock<L>) -> (u64, bool) {
    match lock.enter().read_guard(rt).upgrade() {
        Ok(writer) => (writer.stamp().number(), true),
        Err(reader) => (reader.stamp().number(), false),
    }
}

#[test]
fn a_guard_is_upgraded_beside_no_other_reader(rt: HostRuntime) -> Result<(), Fail> {
    let lock = made(rt.alloc())?;
    let guard = lock.enter().read_guard(&rt);
    assert!(rt; upgraded(&rt, &lock) == (258, false));
    let (mut other, released) = guard.release();
    assert!(rt; released == Ok(()));
    assert!(rt; upgraded(&rt, &lock) == (384, true));
    assert!(rt; number(other.try_optimistic_read()) == 512);
    Ok(())
}

#[test]
fn a_guard_is_downgraded_with_no_writer_between(rt: HostRuntime) -> Result<(), Fail> {
    let lock = made(rt.alloc())?;
    let mut other = lock.enter();
    let Ok(writer) = lock.enter().write_guard(&rt) else {
        return Err(Fail::from("no version"));
    };
    let Ok(reader) = writer.downgrade() else {
        return Err(Fail::from("released"));
    };
    assert!(rt; reader.stamp().number() == 513);
    assert!(rt; (other.read_count(), number(other.try_write(&rt))) == (1, 0));
    drop(reader);
    assert!(rt; number(other.try_optimistic_read()) == 512);
    Ok(())
}

#[test]
fn a_guard_tells_that_another_released_it(rt: HostRuntime) -> Result<(), Fail> {
    let lock = made(rt.alloc())?;
    let mut other = lock.enter();
    let reader = lock.enter().read_guard(&rt);
    assert!(rt; other.try_unlock_read(&rt));
    let (handle, released) = reader.release();
    assert!(rt; released == Err(Mismatch));
    let Ok(writer) = handle.write_guard(&rt) else {
        return Err(Fail::from("no version"));
    };
    assert!(rt; other.try_unlock_write(&rt));
    let Err(writer) = writer.downgrade() else {
        return Err(Fail::from("downgraded"));
    };
    assert!(rt; writer.stamp().number() == 384);
    let (_handle, released) = writer.release();
    assert!(rt; released == Err(Mismatch));
    Ok(())
}

#[test]
fn a_drop_leaves_the_mode_of_another(rt: HostRuntime) -> Result<(), Fail> {
    let lock = made(rt.alloc())?;
    let mut other = lock.enter();
    let reader = lock.enter().read_guard(&rt);
    assert!(rt; other.try_unlock_read(&rt));
    assert!(rt; number(other.try_write(&rt)) == 384);
    drop(reader);
    assert!(rt; other.is_write_locked());
    Ok(())
}

#[test]
fn a_section_takes_a_closure_of_no_argument(rt: HostRuntime) -> Result<(), Fail> {
    let lock = made_with(rt.alloc(), (127, 1))?;
    let mut handle = lock.enter();
    let read = handle.in_read_mode(&rt, || lock.enter().read_count());
    assert!(rt; read == Ok(1));
    let released = handle.in_read_mode(&rt, || lock.enter().try_unlock_read(&rt));
    assert!(rt; released == Err(Mismatch));
    let wrote = handle.in_write_mode(&rt, || lock.enter().is_write_locked());
    assert!(rt; wrote == Ok(true));
    assert!(rt; handle.in_write_mode(&rt, || 7u64) == Err(WriteError::Spent));
    assert!(rt; !handle.is_read_locked());
    Ok(())
}
