//! Threads that really share a value, each by a handle.
use crate::fixtures::{made, writing};
use stamped_value::{ReadGuard, ValueHandle, WriteGuard};
use std::sync::{Barrier, Wait};
use std::test::Fail;
use std::thread;
use std::thread::join;

/// Adds one so often: how often it did.
fn add_some<'a, R: Wait>(rt: &'a R, mut handle: ValueHandle<'a, u64>, times: u64) -> u64 {
    for done in 0..times {
        match handle.write(rt) {
            Ok(mut writer) => {
                *writer = writer.wrapping_add(1);
                handle = writer.release();
            }
            Err(_) => return done,
        }
    }
    times
}

/// Whether none of so many reads finds less than the one before.
fn never_falls<'a, R: Wait>(rt: &'a R, mut handle: ValueHandle<'a, u64>, times: u64) -> bool {
    let mut last = 0u64;
    for _ in 0..times {
        let reader = handle.read(rt);
        let number = *reader;
        handle = reader.release();
        if number < last {
            return false;
        }
        last = number;
    }
    true
}

#[test]
fn threads_lose_no_write_and_no_reader_sees_the_number_fall(rt: HostRuntime) -> Result<(), Fail> {
    let value = made(rt.alloc(), 0u64)?;
    let (added, risen) = join(
        &rt,
        || {
            join(
                &rt,
                || add_some(&rt, value.enter(), 2_000),
                || add_some(&rt, value.enter(), 2_000),
            )
        },
        || {
            join(
                &rt,
                || never_falls(&rt, value.enter(), 2_000),
                || never_falls(&rt, value.enter(), 2_000),
            )
        },
    );
    assert!(rt; added == (2_000, 2_000) && risen == (true, true));
    assert!(rt; value.into_inner() == Ok(4_000));
    Ok(())
}

/// Lets other threads run, a few times, so that a call of theirs is likely to wait by then.
fn let_others_run() {
    for _ in 0..20u64 {
        thread::yield_now();
    }
}

/// Reads once the writer is there: what it finds.
fn read_late<R: Wait>(rt: &R, handle: ValueHandle<'_, u64>, both: &Barrier) -> u64 {
    both.wait(rt);
    *handle.read(rt)
}

/// Writes a number once the reader comes.
fn write_and_leave<R: Wait>(rt: &R, mut writer: WriteGuard<'_, u64, R>, new: u64, both: &Barrier) {
    both.wait(rt);
    let_others_run();
    *writer = new;
}

#[test]
fn a_reader_waits_for_the_writer_and_finds_what_it_leaves(rt: HostRuntime) -> Result<(), Fail> {
    let (value, both) = (made(rt.alloc(), 7u64)?, Barrier::new(2));
    let writer = writing(&rt, value.enter())?;
    let (found, ()) = join(
        &rt,
        || read_late(&rt, value.enter(), &both),
        || write_and_leave(&rt, writer, 8, &both),
    );
    assert!(rt; found == 8);
    Ok(())
}

/// Writes a number once the reader is there: what it found, if it came.
fn write_late<R: Wait>(
    rt: &R,
    handle: ValueHandle<'_, u64>,
    new: u64,
    both: &Barrier,
) -> Option<u64> {
    both.wait(rt);
    let mut writer = handle.write(rt).ok()?;
    let old = *writer;
    *writer = new;
    Some(old)
}

/// Reads once the writer comes: what it finds.
fn read_and_leave<R: Wait>(rt: &R, reader: ReadGuard<'_, u64, R>, both: &Barrier) -> u64 {
    both.wait(rt);
    let_others_run();
    *reader
}

#[test]
fn a_writer_waits_for_the_reader_who_reads_on(rt: HostRuntime) -> Result<(), Fail> {
    let (value, both) = (made(rt.alloc(), 7u64)?, Barrier::new(2));
    let reader = value.enter().read(&rt);
    let (replaced, read) = join(
        &rt,
        || write_late(&rt, value.enter(), 8, &both),
        || read_and_leave(&rt, reader, &both),
    );
    assert!(rt; (replaced, read, value.into_inner()) == (Some(7), 7, Ok(8)));
    Ok(())
}
