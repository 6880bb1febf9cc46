//! Calls on a shared book that wait, and what wakes them.
ghost use Rattle.std.specs.Prelude.{◌<◌, IsTrue};
ghost use Rattle.stamp_core.specs.Call.{is_lock_call};

use crate::looks::{is_reached, let_come};
use crate::shared_tests::tells;
use stamp_core::{Call, Limits, Reply};
use stamp_threads::{Book, Shared};
use std::alloc::Global;
use std::sync::atomic::{AtomicU64, Ordering};
use std::sync::{Arc, Barrier, Wait};
use std::test::Fail;
use std::thread;
use std::thread::Threads;

/// The shared book of a lock with at most two readers.
fn shared_book(alloc: Global) -> Result<Arc<Shared, Global>, Fail> {
    let book = Book::new(alloc, Limits::new(2, 1_000)?, 1_000);
    Ok(Arc::new(alloc, Shared::new(book))?)
}

/// Where a thread that makes a call meets the test, and what it tells.
#[derive(Drop)]
struct Told {
    both: Barrier,
    /// The stamp that it was answered, 0 for none, and one more; 0 until it has made all its calls.
    stamp: AtomicU64,
}

/// A thread that makes a call which waits. Nobody joins it: where it is never woken, the test ends
/// nevertheless.
#[derive(Drop)]
struct Waiter {
    told: Arc<Told, Global>,
}

impl Waiter {
    /// Starts the thread, and lets it come to wait.
    fn start<R: Threads + Wait + Copy + Send + 'static>(
        rt: &R,
        alloc: Global,
        shared: &Arc<Shared, Global>,
        thread: u64,
        call: Call,
    ) -> Result<Waiter, Fail>
        requires thread { thread < 64 }
        requires lock_call { IsTrue (is_lock_call call) }
    {
        let (both, stamp) = (Barrier::new(2), AtomicU64::new(0));
        let told = Arc::new(alloc, Told { both, stamp })?;
        let (own, theirs, telling) = (*rt, Arc::try_clone(shared)?, Arc::try_clone(&told)?);
        thread::spawn(
            rt,
            move ||
                requires { (thread < 64) × IsTrue (is_lock_call call) }
            { acquire_once(&own, &theirs, thread, call, &telling) },
        )?;
        told.both.wait(rt);
        let_come();
        Ok(Waiter { told })
    }

    /// The stamp that it is answered, if an answer comes while it is looked for.
    fn stamp(&self) -> Option<u64> {
        if is_reached(&self.told.stamp, 1) {
            self.told.stamp.load(Ordering::SeqCst).checked_sub(1)
        } else {
            None
        }
    }
}

/// Makes the call, releases, and tells the stamp then.
fn acquire_once<R: Wait>(rt: &R, shared: &Shared, thread: u64, call: Call, told: &Told)
    requires thread { thread < 64 }
    requires lock_call { IsTrue (is_lock_call call) }
{
    told.both.wait(rt);
    if let Ok(Reply::Stamp(stamp)) = shared.call(rt, thread, call) {
        let _ = shared.call(rt, thread, Call::Unlock(stamp));
        told.stamp.store(stamp.saturating_add(1), Ordering::SeqCst);
    }
}

/// What one is answered who acquires by the first call and leaves by another, and the stamp of one who waits for
/// it by a third. None for a call to leave by that is no lock call.
fn leave_by<R: Threads + Wait + Copy + Send + 'static>(
    rt: &R,
    alloc: Global,
    acquires: Call,
    leaves: Call,
    waits: Call,
) -> Result<(Option<Reply>, Option<u64>), Fail>
    requires acquires { IsTrue (is_lock_call acquires) }
    requires waits { IsTrue (is_lock_call waits) }
{
    let shared = shared_book(alloc)?;
    let _ = shared.call(rt, 0, acquires);
    let waiter = Waiter::start(rt, alloc, &shared, 1, waits)?;
    if !leaves.is_lock_call() {
        return Ok((None, None));
    }
    let reply = shared.call(rt, 0, leaves).ok();
    Ok((reply, waiter.stamp()))
}

#[test]
fn a_writer_who_leaves_wakes_a_reader(rt: HostRuntime) -> Result<(), Fail> {
    for (leaves, reply, stamp) in [
        (Call::UnlockWrite(384), Reply::Done, 513),
        (Call::Unlock(384), Reply::Done, 513),
        (Call::TryUnlockWrite, Reply::Yes, 513),
        (Call::ToOptimistic(384), Reply::Stamp(512), 513),
        (Call::ToRead(384), Reply::Stamp(513), 514),
    ] {
        let left = leave_by(&rt, rt.alloc(), Call::WriteLock, leaves, Call::ReadLock)?;
        assert!(rt; left == (Some(reply), Some(stamp)));
    }
    Ok(())
}

#[test]
fn the_last_reader_who_leaves_wakes_a_writer(rt: HostRuntime) -> Result<(), Fail> {
    for (leaves, reply) in [
        (Call::UnlockRead(257), Reply::Done),
        (Call::Unlock(257), Reply::Done),
        (Call::TryUnlockRead, Reply::Yes),
        (Call::ToOptimistic(257), Reply::Stamp(256)),
    ] {
        let left = leave_by(&rt, rt.alloc(), Call::ReadLock, leaves, Call::WriteLock)?;
        assert!(rt; left == (Some(reply), Some(384)));
    }
    Ok(())
}

/// The reader who upgrades takes the last version, so that the writer who waits can have none.
#[test]
fn a_waiting_writer_is_told_that_no_version_is_left(rt: HostRuntime) -> Result<(), Fail> {
    let book = Book::new(rt.alloc(), Limits::new(2, 1)?, 1_000);
    let shared = Arc::new(rt.alloc(), Shared::new(book))?;
    assert!(rt; tells(&rt, &shared, 0, Call::ReadLock, Ok(Reply::Stamp(257))));
    let writer = Waiter::start(&rt, rt.alloc(), &shared, 1, Call::WriteLock)?;
    assert!(rt; tells(&rt, &shared, 0, Call::ToWrite(257), Ok(Reply::Stamp(384))));
    assert!(rt; writer.stamp() == Some(0));
    Ok(())
}

#[test]
fn readers_who_leave_wake_a_writer_and_one_who_waits_for_room(rt: HostRuntime) -> Result<(), Fail> {
    let shared = shared_book(rt.alloc())?;
    assert!(rt; tells(&rt, &shared, 0, Call::ReadLock, Ok(Reply::Stamp(257))));
    assert!(rt; tells(&rt, &shared, 0, Call::ReadLock, Ok(Reply::Stamp(258))));
    let writer = Waiter::start(&rt, rt.alloc(), &shared, 1, Call::WriteLock)?;
    assert!(rt; tells(&rt, &shared, 0, Call::TryUnlockRead, Ok(Reply::Yes)));
    assert!(rt; tells(&rt, &shared, 0, Call::TryUnlockRead, Ok(Reply::Yes)));
    assert!(rt; writer.stamp() == Some(384));
    assert!(rt; tells(&rt, &shared, 0, Call::ReadLock, Ok(Reply::Stamp(513))));
    assert!(rt; tells(&rt, &shared, 0, Call::ReadLock, Ok(Reply::Stamp(514))));
    let reader = Waiter::start(&rt, rt.alloc(), &shared, 1, Call::ReadLock)?;
    assert!(rt; tells(&rt, &shared, 0, Call::UnlockRead(513), Ok(Reply::Done)));
    assert!(rt; reader.stamp() == Some(514));
    Ok(())
}

/// Two writers wait before the reader and one after, so that it isn't enough to wake some.
#[test]
fn a_downgrade_wakes_the_reader_among_writers(rt: HostRuntime) -> Result<(), Fail> {
    for _ in 0..8u64 {
        let shared = shared_book(rt.alloc())?;
        assert!(rt; tells(&rt, &shared, 0, Call::WriteLock, Ok(Reply::Stamp(384))));
        let first = Waiter::start(&rt, rt.alloc(), &shared, 1, Call::WriteLock)?;
        let second = Waiter::start(&rt, rt.alloc(), &shared, 2, Call::WriteLock)?;
        let reader = Waiter::start(&rt, rt.alloc(), &shared, 3, Call::ReadLock)?;
        let third = Waiter::start(&rt, rt.alloc(), &shared, 4, Call::WriteLock)?;
        assert!(rt; tells(&rt, &shared, 0, Call::ToRead(384), Ok(Reply::Stamp(513))));
        assert!(rt; reader.stamp() == Some(514));
        assert!(rt; tells(&rt, &shared, 0, Call::UnlockRead(513), Ok(Reply::Done)));
        let mut written = [first.stamp(), second.stamp(), third.stamp()];
        written.sort_unstable();
        assert!(rt; written == [Some(640), Some(896), Some(1_152)]);
    }
    Ok(())
}

/// So it isn't enough to wake half of those who wait. All come in at last, and leave.
#[test]
fn a_downgrade_wakes_the_reader_behind_eight_writers(rt: HostRuntime) -> Result<(), Fail> {
    for _ in 0..4u64 {
        let shared = shared_book(rt.alloc())?;
        assert!(rt; tells(&rt, &shared, 0, Call::WriteLock, Ok(Reply::Stamp(384))));
        let mut writers = Vec::new(rt.alloc());
        for thread in 1..=8u64 {
            let writer = Waiter::start(&rt, rt.alloc(), &shared, thread, Call::WriteLock)?;
            writers.push(writer)?;
        }
        let reader = Waiter::start(&rt, rt.alloc(), &shared, 9, Call::ReadLock)?;
        assert!(rt; tells(&rt, &shared, 0, Call::ToRead(384), Ok(Reply::Stamp(513))));
        assert!(rt; reader.stamp() == Some(514));
        assert!(rt; tells(&rt, &shared, 0, Call::UnlockRead(513), Ok(Reply::Done)));
        let mut written = [0; 8];
        for (stamp, writer) in written.iter_mut().zip(writers.iter()) {
            *stamp = writer.stamp().ok_or("a writer waits for ever")?;
        }
        written.sort_unstable();
        assert!(rt; written == [640, 896, 1_152, 1_408, 1_664, 1_920, 2_176, 2_432]);
    }
    Ok(())
}
