//! Threads that really share a lock.
ghost use Rattle.std.specs.Prelude.{◌≡◌, IsTrue, true};
ghost use Rattle.stamp_core.specs.Call.{is_lock_call};

use crate::enter_tests::enterable_lock;
use crate::lock_tests::{answers, made};
use stamp_core::{Call, Layout, Reply};
use stamp_threads::{Lost, Pass, RunningLock};
use std::sync::atomic::{AtomicBool, Ordering};
use std::sync::{Barrier, Wait};
use std::test::Fail;
use std::thread::{Threads, join};

/// Waits for the write lock, and gives it back.
fn write_once<R: Wait>(rt: &R, lock: &RunningLock, mut pass: Pass) -> Pass
    requires { pass.table ≡ lock.now.table }
    ensures { result.table ≡ lock.now.table }
{
    if let Reply::Stamp(stamp) = lock.call(rt, &mut pass, Call::WriteLock) {
        // 0 where no version was left.
        if stamp != 0 {
            lock.call(rt, &mut pass, Call::UnlockWrite(stamp));
        }
    }
    pass
}

#[test]
fn two_threads_write_and_meet(rt: HostRuntime) -> Result<(), Fail> {
    let (lock, pass) = made(rt.alloc(), Layout::One, 127)?;
    let (first, second) = lock.split(pass);
    let (first, second) = join(
        &rt,
        || write_once(&rt, &lock, first),
        || write_once(&rt, &lock, second),
    );
    let (first, second) = lock.meet(first, second);
    drop(second);
    assert!(rt; lock.close(first) == 256 * 3);
    Ok(())
}

/// Whether this pass, moved to another thread, acquires write mode; and the pass.
fn try_write(lock: &RunningLock, mut pass: Pass) -> (bool, Pass)
    requires { pass.table ≡ lock.now.table }
    ensures { result.1.table ≡ lock.now.table }
{
    let is_written = answers(lock, &mut pass, Call::TryWrite, Reply::Stamp(384));
    (is_written, pass)
}

#[test]
fn a_pass_that_has_met_the_writers_is_told_that_the_lock_is_held(
    rt: HostRuntime,
) -> Result<(), Fail> {
    let (lock, pass) = made(rt.alloc(), Layout::One, 127)?;
    let (first, second) = lock.split(pass);
    let ((is_written, first), second) = join(&rt, || try_write(&lock, first), || second);
    assert!(rt; is_written);
    let (first, mut second) = lock.meet(first, second);
    assert!(rt; answers(&lock, &mut second, Call::IsWriteLocked, Reply::Yes));
    assert!(rt; answers(&lock, &mut second, Call::WriteLock, Reply::Stamp(0)));
    assert!(rt; lock.close(first) == 384);
    Ok(())
}

/// Makes the call again while its exchange loses, and gives the stamp, 0 for none.
fn stamp_by(lock: &RunningLock, pass: &mut Pass, call: &Call) -> u64
    requires lock_call { IsTrue (is_lock_call call.now) }
    requires table { pass.old.table ≡ lock.now.table }
    ensures { pass.new.table ≡ lock.now.table }
{
    for _ in 0..1_000u64 {
        match lock.once(pass, *call) {
            Ok(Reply::Stamp(stamp)) => return stamp,
            Ok(_) => return 0,
            Err(Lost { .. }) => {}
        }
    }
    0
}

/// Reads optimistically, goes on to write if it may, and gives up what it holds; whether it wrote.
fn upgrade_once<R: Wait>(rt: &R, lock: &RunningLock, pass: &mut Pass) -> bool
    requires { pass.old.table ≡ lock.now.table }
    ensures { pass.new.table ≡ lock.now.table }
{
    let seen = stamp_by(lock, pass, &Call::Optimistic);
    let written = stamp_by(lock, pass, &Call::ToWrite(seen));
    if written == 0 {
        return false;
    }
    lock.call(rt, pass, Call::ToRead(written));
    lock.call(rt, pass, Call::TryUnlockRead);
    true
}

/// Writes, reads, and reads optimistically, each call followed by its release: how often it wrote.
fn mixed_calls<R: Wait>(rt: &R, lock: &RunningLock, mut pass: Pass, rounds: u64) -> (u64, Pass)
    requires { pass.table ≡ lock.now.table }
    ensures { result.1.table ≡ lock.now.table }
{
    let mut writes = 0u64;
    for _ in 0..rounds {
        let written = stamp_by(lock, &mut pass, &Call::WriteLock);
        if written != 0 {
            writes = writes.wrapping_add(1);
            lock.call(rt, &mut pass, Call::UnlockWrite(written));
        }
        if let Reply::Stamp(read) = lock.call(rt, &mut pass, Call::ReadLock) {
            lock.call(rt, &mut pass, Call::UnlockRead(read));
        }
        writes = writes.wrapping_add(u64::from(upgrade_once(rt, lock, &mut pass)));
    }
    (writes, pass)
}

/// Two threads of mixed calls, whose passes meet afterwards.
fn two_mixed<R: Threads + Wait + Sync>(
    rt: &R,
    lock: &RunningLock,
    pass: Pass,
    rounds: u64,
) -> (u64, Pass)
    requires { pass.table ≡ lock.now.table }
    ensures { result.1.table ≡ lock.now.table }
{
    let (first, second) = lock.split(pass);
    let ((a, first), (b, second)) = join(
        rt,
        || mixed_calls(rt, lock, first, rounds),
        || mixed_calls(rt, lock, second, rounds),
    );
    let (first, second) = lock.meet(first, second);
    drop(second);
    (a.wrapping_add(b), first)
}

#[test]
fn four_threads_of_mixed_calls_leave_their_count(rt: HostRuntime) -> Result<(), Fail> {
    let (lock, pass) = made(rt.alloc(), Layout::One, 127)?;
    let (first, second) = lock.split(pass);
    let ((a, first), (b, second)) = join(
        &rt,
        || two_mixed(&rt, &lock, first, 20_000),
        || two_mixed(&rt, &lock, second, 20_000),
    );
    let (mut first, second) = lock.meet(first, second);
    drop(second);
    assert!(rt; answers(&lock, &mut first, Call::ReadCount, Reply::Count(0)));
    assert!(rt; lock.close(first) == a.wrapping_add(b).wrapping_add(1).wrapping_mul(256));
    Ok(())
}

/// How many read holds a hundred calls acquire.
fn acquire_reads(lock: &RunningLock, mut pass: Pass) -> (u64, Pass)
    requires { pass.table ≡ lock.now.table }
    ensures { result.1.table ≡ lock.now.table }
{
    let mut acquired = 0u64;
    for _ in 0..100u64 {
        if let Ok(Reply::Stamp(stamp)) = lock.once(&mut pass, Call::TryRead) {
            if stamp != 0 {
                acquired = acquired.wrapping_add(1);
            }
        }
    }
    (acquired, pass)
}

#[test]
fn the_readers_are_those_that_were_answered(rt: HostRuntime) -> Result<(), Fail> {
    let (lock, pass) = made(rt.alloc(), Layout::One, 127)?;
    let (first, second) = lock.split(pass);
    let ((a, first), (b, second)) = join(
        &rt,
        || acquire_reads(&lock, first),
        || acquire_reads(&lock, second),
    );
    let (mut first, second) = lock.meet(first, second);
    drop(second);
    let readers = a.wrapping_add(b);
    assert!(rt; readers <= 127);
    assert!(rt; answers(&lock, &mut first, Call::ReadCount, Reply::Count(readers)));
    Ok(())
}

/// Reads and releases until an exchange is lost, here or by the other thread.
fn read_until_lost(lock: &RunningLock, mut pass: Pass, is_over: &AtomicBool) -> (Option<Lost>, Pass)
    requires { pass.table ≡ lock.now.table }
    ensures { result.1.table ≡ lock.now.table }
{
    for _ in 0..1_000_000_000u64 {
        if is_over.load(Ordering::SeqCst) {
            break;
        }
        match lock.once(&mut pass, Call::TryRead) {
            Ok(_) => {}
            Err(lost) => {
                is_over.store(true, Ordering::SeqCst);
                return (Some(lost), pass);
            }
        }
        let _ = lock.once(&mut pass, Call::TryUnlockRead);
    }
    (None, pass)
}

#[test]
fn an_exchange_is_lost_where_threads_meet(rt: HostRuntime) -> Result<(), Fail> {
    let (lock, pass) = made(rt.alloc(), Layout::Two, 65_535)?;
    let (first, second) = lock.split(pass);
    let is_over = AtomicBool::new(false);
    let ((a, _), (b, _)) = join(
        &rt,
        || read_until_lost(&lock, first, &is_over),
        || read_until_lost(&lock, second, &is_over),
    );
    let Some(lost) = a.or(b) else {
        return Err(Fail::from("no exchange was lost"));
    };
    assert!(rt; lost.loaded != lost.found);
    Ok(())
}

/// Acquires write mode, lets the other thread come, and releases.
fn write_before<R: Wait>(
    rt: &R,
    lock: &RunningLock,
    mut pass: Pass,
    both: &Barrier,
) -> (Reply, Reply, Pass)
    requires { pass.table ≡ lock.now.table }
    ensures { result.2.table ≡ lock.now.table }
{
    let written = lock.call(rt, &mut pass, Call::WriteLock);
    both.wait(rt);
    let released = lock.call(rt, &mut pass, Call::UnlockWrite(384));
    (written, released, pass)
}

/// Waits for read mode once the writer is there.
fn read_behind<R: Wait>(rt: &R, lock: &RunningLock, mut pass: Pass, both: &Barrier) -> Reply
    requires { pass.table ≡ lock.now.table }
{
    both.wait(rt);
    lock.call(rt, &mut pass, Call::ReadLock)
}

/// The writer's own last call left 512.
#[test]
fn a_writer_s_pass_closes_a_lock_that_a_reader_holds(rt: HostRuntime) -> Result<(), Fail> {
    let (lock, pass) = made(rt.alloc(), Layout::One, 127)?;
    let (first, second) = lock.split(pass);
    let both = Barrier::new(2);
    let ((written, released, first), read) = join(
        &rt,
        || write_before(&rt, &lock, first, &both),
        || read_behind(&rt, &lock, second, &both),
    );
    assert!(rt; written == Reply::Stamp(384));
    assert!(rt; read == Reply::Stamp(513));
    assert!(rt; released == Reply::Done);
    assert!(rt; lock.close(first) == 513);
    Ok(())
}

/// Enters, acquires write mode, lets the other thread come, and releases.
fn write_beside<R: Wait>(rt: &R, lock: &RunningLock, both: &Barrier) -> (Reply, Reply)
    requires { lock.now.enterable ≡ true }
{
    let mut pass = lock.enter();
    let written = lock.call(rt, &mut pass, Call::WriteLock);
    both.wait(rt);
    let released = lock.call(rt, &mut pass, Call::UnlockWrite(384));
    (written, released)
}

/// Enters once the writer is there, and waits for read mode.
fn read_beside<R: Wait>(rt: &R, lock: &RunningLock, both: &Barrier) -> Reply
    requires { lock.now.enterable ≡ true }
{
    both.wait(rt);
    lock.call(rt, &mut lock.enter(), Call::ReadLock)
}

#[test]
fn threads_enter_and_a_reader_waits_for_the_writer(rt: HostRuntime) -> Result<(), Fail> {
    let (lock, pass) = enterable_lock(rt.alloc(), Layout::One, 127)?;
    let both = Barrier::new(2);
    let ((written, released), read) = join(
        &rt,
        || write_beside(&rt, &lock, &both),
        || read_beside(&rt, &lock, &both),
    );
    assert!(rt; written == Reply::Stamp(384));
    assert!(rt; released == Reply::Done);
    assert!(rt; read == Reply::Stamp(513));
    assert!(rt; lock.close(pass) == 513);
    Ok(())
}
