//! Threads that share a book, and keep what they are answered.
ghost use Rattle.std.specs.Prelude.{◌≡◌, ◌<◌, ◌≤◌, IsTrue};
ghost use Rattle.stamp_core.specs.Call.{is_lock_call};

use crate::book_tests::{acts, opened};
use stamp_check::check;
use stamp_core::{Call, Layout, Limits, Record, Reply};
use stamp_threads::{Book, BookError, Shared};
use std::alloc::Global;
use std::sync::{Barrier, Wait};
use std::test::Fail;
use std::thread;
use std::thread::{Threads, join};

/// Whether a call by this thread is answered so.
pub fn tells<R: Wait>(
    rt: &R,
    shared: &Shared,
    thread: u64,
    call: Call,
    answer: Result<Reply, BookError>,
) -> bool
    requires lock_call { IsTrue (is_lock_call call) }
    requires thread { thread < 64 }
{
    shared.call(rt, thread, call) == answer
}

/// What a thread called, and what it was answered.
#[derive(Drop)]
struct Caller {
    thread: u64,
    kept: Vec<(Call, Reply)>,
    ghost few: { thread < 64 },
}

impl Caller {
    fn new(alloc: Global, thread: u64) -> Caller
        requires { thread < 64 }
    {
        Caller {
            thread,
            kept: Vec::new(alloc),
        }
    }

    /// Makes a call, and keeps it; nothing where the book is full or memory was refused.
    fn call<R: Wait>(&mut self, rt: &R, shared: &Shared, call: &Call) -> Option<Reply>
        requires { IsTrue (is_lock_call call.now) }
    {
        let reply = shared.call(rt, self.thread, *call).ok()?;
        self.keep(call, &reply).then_some(reply)
    }

    fn keep(&mut self, call: &Call, reply: &Reply) -> bool {
        self.kept.push((*call, *reply)).is_ok()
    }

    /// Makes a call, and gives the stamp that it answered, 0 for none.
    fn stamp<R: Wait>(&mut self, rt: &R, shared: &Shared, call: &Call) -> Option<u64>
        requires { IsTrue (is_lock_call call.now) }
    {
        match self.call(rt, shared, call)? {
            Reply::Stamp(stamp) => Some(stamp),
            _ => Some(0),
        }
    }
}

/// Whether the entries of the caller's thread are what it kept, in order.
fn is_kept(record: &Record, caller: &Caller) -> bool {
    let mut kept = caller.kept.iter();
    for entry in record.entries() {
        if entry.thread == caller.thread && kept.next() != Some(&(entry.call, entry.reply)) {
            return false;
        }
    }
    kept.next().is_none()
}

#[test]
fn a_shared_book_is_the_one_handed_in_and_as_full(rt: HostRuntime) -> Result<(), Fail> {
    let limits = Limits::in_layout(Layout::Two, 3, 5)?;
    let mut book = Book::new(rt.alloc(), limits, 2);
    assert!(rt; acts(&mut book, 3, Call::TryWrite, Ok(Reply::Stamp(196_608))));
    let before = book.record()?;
    let shared = Shared::new(book);
    let record = shared.record(&rt)?;
    assert!(rt; record.entries() == before.entries());
    assert!(rt; record.limits() == limits);
    assert!(rt;
        tells(
            &rt,
            &shared,
            4,
            Call::ToRead(196_608),
            Ok(Reply::Stamp(262_145))
        )
    );
    assert!(rt;
        tells(
            &rt,
            &shared,
            4,
            Call::UnlockRead(262_145),
            Err(BookError::Full)
        )
    );
    let record = shared.record(&rt)?;
    assert!(rt; record.entries().first() == before.entries().first());
    assert!(rt; check(&record) == Ok(2));
    Ok(())
}

/// Acquires read mode once the other thread is there, and asks until both hold it.
fn read_beside<R: Wait>(
    rt: &R,
    shared: &Shared,
    mut caller: Caller,
    both: &Barrier,
) -> Option<Caller> {
    both.wait(rt);
    caller.call(rt, shared, &Call::ReadLock)?;
    for _ in 0..200_000u64 {
        if caller.call(rt, shared, &Call::ReadCount)? == Reply::Count(2) {
            return Some(caller);
        }
        thread::yield_now();
    }
    None
}

#[test]
fn two_readers_see_each_other(rt: HostRuntime) -> Result<(), Fail> {
    let shared = Shared::new(opened(rt.alloc(), 640_000)?);
    let both = Barrier::new(2);
    let (zero, one) = (Caller::new(rt.alloc(), 0), Caller::new(rt.alloc(), 1));
    let (zero, one) = join(
        &rt,
        || read_beside(&rt, &shared, zero, &both),
        || read_beside(&rt, &shared, one, &both),
    );
    let mut two = Caller::new(rt.alloc(), 2);
    assert!(rt; two.call(&rt, &shared, &Call::Unlock(257)) == Some(Reply::Done));
    assert!(rt; two.call(&rt, &shared, &Call::Unlock(257)) == Some(Reply::Done));
    let record = shared.record(&rt)?;
    assert!(rt; check(&record) == Ok(record.entries().len() as u64));
    assert!(rt; is_kept(&record, &zero.ok_or("not seen")?));
    assert!(rt; is_kept(&record, &one.ok_or("not seen")?));
    assert!(rt; is_kept(&record, &two));
    Ok(())
}

/// A hundred times acquires read mode and releases it.
fn read_often<R: Wait>(rt: &R, shared: &Shared, mut caller: Caller) -> Option<Caller> {
    for _ in 0..100u64 {
        caller.call(rt, shared, &Call::TryRead)?;
        caller.call(rt, shared, &Call::TryUnlockRead)?;
    }
    Some(caller)
}

#[test]
fn what_two_readers_were_answered_stands_in_the_book_in_their_order(
    rt: HostRuntime,
) -> Result<(), Fail> {
    let shared = Shared::new(opened(rt.alloc(), 1_000)?);
    let (zero, one) = (Caller::new(rt.alloc(), 0), Caller::new(rt.alloc(), 1));
    let (zero, one) = join(
        &rt,
        || read_often(&rt, &shared, zero),
        || read_often(&rt, &shared, one),
    );
    let record = shared.record(&rt)?;
    assert!(rt; check(&record) == Ok(400));
    assert!(rt; is_kept(&record, &zero.ok_or("refused")?));
    assert!(rt; is_kept(&record, &one.ok_or("refused")?));
    assert!(rt; tells(&rt, &shared, 2, Call::ReadCount, Ok(Reply::Count(0))));
    Ok(())
}

/// Ten calls: writes, reads twice, and tries to write; nothing is held afterwards.
fn mixed<R: Wait>(rt: &R, shared: &Shared, caller: &mut Caller) -> Option<()> {
    let written = caller.stamp(rt, shared, &Call::WriteLock)?;
    caller.call(rt, shared, &Call::Validate(written))?;
    caller.call(rt, shared, &Call::Unlock(written))?;
    let read = caller.stamp(rt, shared, &Call::ReadLock)?;
    caller.call(rt, shared, &Call::TryRead)?;
    caller.call(rt, shared, &Call::TryUnlockRead)?;
    caller.call(rt, shared, &Call::UnlockRead(read))?;
    caller.call(rt, shared, &Call::Optimistic)?;
    let written = caller.stamp(rt, shared, &Call::TryWrite)?;
    caller.call(rt, shared, &Call::Unlock(written))?;
    Some(())
}

fn mixed_rounds<R: Wait>(rt: &R, shared: &Shared, mut caller: Caller) -> Option<Caller> {
    for _ in 0..5_000u64 {
        mixed(rt, shared, &mut caller)?;
    }
    Some(caller)
}

/// Two threads of 50,000 calls each, with numbers from this one on.
fn two_mixed<R: Threads + Wait + Sync>(
    rt: &R,
    alloc: Global,
    shared: &Shared,
    thread: u64,
) -> (Option<Caller>, Option<Caller>)
    requires { thread ≤ 62 }
{
    let (first, second) = (Caller::new(alloc, thread), Caller::new(alloc, thread + 1));
    join(
        rt,
        || mixed_rounds(rt, shared, first),
        || mixed_rounds(rt, shared, second),
    )
}

#[test]
fn four_threads_of_50_000_calls(rt: HostRuntime) -> Result<(), Fail> {
    let shared = Shared::new(opened(rt.alloc(), 640_000)?);
    let ((zero, one), (two, three)) = join(
        &rt,
        || two_mixed(&rt, rt.alloc(), &shared, 0),
        || two_mixed(&rt, rt.alloc(), &shared, 62),
    );
    let record = shared.record(&rt)?;
    assert!(rt; check(&record) == Ok(200_000));
    assert!(rt; tells(&rt, &shared, 2, Call::ReadCount, Ok(Reply::Count(0))));
    for caller in [zero, one, two, three] {
        assert!(rt; is_kept(&record, &caller.ok_or("refused")?));
    }
    Ok(())
}
