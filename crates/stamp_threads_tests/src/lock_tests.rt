//! Calls of one thread, by worked rows.
ghost use Rattle.std.specs.Prelude.{◌≡◌, IfOk, IsTrue};
ghost use Rattle.stamp_core.specs.Call.{is_lock_call};

use stamp_core::{Call, EitherLayout, Layout, Limits, Reply};
use stamp_threads::{Pass, RunningLock};
use std::alloc::Global;
use std::test::Fail;

/// A lock and its first pass; the test fails where there is no memory for it.
pub fn made(alloc: Global, layout: Layout, readers: u64) -> Result<(RunningLock, Pass), Fail>
    ensures { IfOk result (λ r. r.1.table ≡ r.0.table) }
{
    let Ok(limits) = Limits::in_layout(layout, readers, 1_000_000) else {
        return Err(Fail::from("limits"));
    };
    match RunningLock::new(alloc, limits) {
        Ok((lock, pass)) => Ok((lock, pass)),
        Err(_) => Err(Fail::from("no memory for the lock")),
    }
}

/// Whether a call by this pass is answered so at once.
pub fn answers(lock: &RunningLock, pass: &mut Pass, call: Call, reply: Reply) -> bool
    requires lock_call { IsTrue (is_lock_call call) }
    requires table { pass.old.table ≡ lock.now.table }
    ensures { pass.new.table ≡ lock.now.table }
{
    lock.once(pass, call) == Ok(reply)
}

/// Whether a written stamp validates from its release until the next writer, in a lock of this layout
/// whose stamps are these: the opening one, the writer's, a reader's, and the next writer's.
fn validates_between_writers(
    alloc: Global,
    layout: Layout,
    readers: u64,
    stamps: [u64; 4],
) -> Result<bool, Fail> {
    let [opening, written, read, next] = stamps;
    let (lock, mut pass) = made(alloc, layout, readers)?;
    let are_answered = answers(&lock, &mut pass, Call::TryWrite, Reply::Stamp(written))
        && answers(&lock, &mut pass, Call::Validate(opening), Reply::No)
        && answers(&lock, &mut pass, Call::UnlockWrite(written), Reply::Done)
        && answers(&lock, &mut pass, Call::Validate(written), Reply::Yes)
        && answers(&lock, &mut pass, Call::ReadLock, Reply::Stamp(read))
        && answers(&lock, &mut pass, Call::Unlock(read), Reply::Done)
        && answers(&lock, &mut pass, Call::WriteLock, Reply::Stamp(next))
        && answers(&lock, &mut pass, Call::Validate(written), Reply::No);
    Ok(are_answered && lock.close(pass) == next)
}

#[test]
fn a_released_write_stamp_validates_until_the_next_writer(rt: HostRuntime) -> Result<(), Fail> {
    for (layout, readers, stamps) in [
        (Layout::One, 127, [256, 384, 513, 640]),
        (Layout::Two, 65_535, [131_072, 196_608, 262_145, 327_680]),
    ] {
        assert!(rt; validates_between_writers(rt.alloc(), layout, readers, stamps)?);
    }
    Ok(())
}

#[test]
fn a_second_reader_gets_zero_where_there_is_room_for_one(rt: HostRuntime) -> Result<(), Fail> {
    let (lock, mut pass) = made(rt.alloc(), Layout::One, 1)?;
    assert!(rt; answers(&lock, &mut pass, Call::ReadLock, Reply::Stamp(257)));
    assert!(rt; answers(&lock, &mut pass, Call::ReadLock, Reply::Stamp(0)));
    Ok(())
}

/// There is room for one reader, so that the second gets 0.
#[test]
fn each_other_call_and_those_that_get_zero(rt: HostRuntime) -> Result<(), Fail> {
    let (lock, mut pass) = made(rt.alloc(), Layout::One, 1)?;
    assert!(rt; answers(&lock, &mut pass, Call::Optimistic, Reply::Stamp(256)));
    assert!(rt; answers(&lock, &mut pass, Call::ToRead(256), Reply::Stamp(257)));
    assert!(rt; answers(&lock, &mut pass, Call::IsReadLocked, Reply::Yes));
    assert!(rt; answers(&lock, &mut pass, Call::ToWrite(257), Reply::Stamp(384)));
    assert!(rt; answers(&lock, &mut pass, Call::IsWriteLocked, Reply::Yes));
    assert!(rt; answers(&lock, &mut pass, Call::WriteLock, Reply::Stamp(0)));
    assert!(rt; answers(&lock, &mut pass, Call::Validate(0), Reply::No));
    assert!(rt; answers(&lock, &mut pass, Call::ToOptimistic(384), Reply::Stamp(512)));
    assert!(rt; answers(&lock, &mut pass, Call::TryRead, Reply::Stamp(513)));
    assert!(rt; answers(&lock, &mut pass, Call::ReadLock, Reply::Stamp(0)));
    assert!(rt; answers(&lock, &mut pass, Call::ReadCount, Reply::Count(1)));
    assert!(rt; answers(&lock, &mut pass, Call::UnlockRead(513), Reply::Done));
    assert!(rt; answers(&lock, &mut pass, Call::TryUnlockRead, Reply::No));
    assert!(rt; answers(&lock, &mut pass, Call::TryUnlockWrite, Reply::No));
    assert!(rt; answers(&lock, &mut pass, Call::UnlockWrite(384), Reply::Mismatch));
    assert!(rt; lock.close(pass) == 512);
    Ok(())
}

/// Whether an optimistic stamp is the first of these in a new lock of the layout, none beside a writer, who has the second,
/// and the third once the writer has left.
fn is_optimistic_between_writers(
    alloc: Global,
    layout: Layout,
    stamps: [u64; 3],
) -> Result<bool, Fail> {
    let [first, written, next] = stamps;
    let (lock, mut pass) = made(alloc, layout, 1)?;
    let pass = &mut pass;
    Ok(
        lock.optimistic_in::<EitherLayout>(pass) == Some(first)
            && answers(&lock, pass, Call::TryWrite, Reply::Stamp(written))
            && lock.optimistic_in::<EitherLayout>(pass) == None
            && answers(&lock, pass, Call::TryUnlockWrite, Reply::Yes)
            && lock.optimistic_in::<EitherLayout>(pass) == Some(next),
    )
}

#[test]
fn an_optimistic_stamp_is_had_where_there_is_no_writer(rt: HostRuntime) -> Result<(), Fail> {
    for (layout, stamps) in [
        (Layout::One, [256, 384, 512]),
        (Layout::Two, [131_072, 196_608, 262_144]),
    ] {
        assert!(rt; is_optimistic_between_writers(rt.alloc(), layout, stamps)?);
    }
    Ok(())
}
