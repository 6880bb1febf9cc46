use stamp_core::{Call, Entry, Layout, Limits, Record, Reply, Words};
use stamp_history::{read_history, write_history};
use std::alloc::Global;
use std::process::Abort;
use std::test::Fail;

fn entry(thread: u64, call: Call, reply: Reply) -> Entry {
    Entry {
        thread,
        call,
        reply,
        first: thread,
        point: u64::MAX,
        last: 7,
    }
}

/// An entry of each call, with each form of reply.
fn each_entry(old: Words, new: Words) -> [Entry; 20] {
    [
        entry(0, Call::TryWrite, Reply::Stamp(u64::MAX)),
        entry(1, Call::TryRead, Reply::Stamp(0)),
        entry(2, Call::WriteLock, Reply::Stamp(384)),
        entry(3, Call::ReadLock, Reply::Yes),
        entry(4, Call::Optimistic, Reply::No),
        entry(5, Call::Validate(0), Reply::Done),
        entry(6, Call::UnlockWrite(384), Reply::Mismatch),
        entry(7, Call::UnlockRead(257), Reply::Count(0)),
        entry(8, Call::Unlock(256), Reply::Count(u64::MAX)),
        entry(9, Call::ToWrite(u64::MAX), Reply::Content(old)),
        entry(10, Call::ToRead(1), Reply::Yes),
        entry(11, Call::ToOptimistic(2), Reply::Yes),
        entry(12, Call::TryUnlockWrite, Reply::Yes),
        entry(13, Call::TryUnlockRead, Reply::Yes),
        entry(14, Call::IsWriteLocked, Reply::Yes),
        entry(15, Call::IsReadLocked, Reply::Yes),
        entry(16, Call::ReadCount, Reply::Yes),
        entry(63, Call::Get, Reply::Content(new)),
        entry(63, Call::Put(old), Reply::Yes),
        entry(63, Call::PutIf(new, old), Reply::Yes),
    ]
}

fn assert_read_again(rt: &impl Abort, alloc: Global, made: &Record) -> Result<(), Fail> {
    let read = read_history(alloc, &write_history(alloc, made)?)?;
    assert!(rt; read.limits() == made.limits());
    assert!(rt; read.width() == made.width());
    assert!(rt; read.entries() == made.entries());
    assert!(rt; read.report() == made.report());
    Ok(())
}

#[test]
fn what_is_written_reads_again(rt: HostRuntime) -> Result<(), Fail> {
    let old = Words::new(&[0, 1]).ok_or("no words")?;
    let new = Words::new(&[u64::MAX, 2]).ok_or("no words")?;
    let given = each_entry(old, new);
    let pairs = [(2, u64::MAX); 20];
    let reports: [&[(u64, u64)]; 2] = [&[], &pairs];
    for layout in [Layout::One, Layout::Two] {
        for report in reports {
            let entries = Vec::from_slice(rt.alloc(), &given)?;
            let report = Vec::from_slice(rt.alloc(), report)?;
            let limits = Limits::in_layout(layout, 127, 1000)?;
            let made = Record::of_reported(limits, 2, entries, report).ok_or("no record")?;
            assert_read_again(&rt, rt.alloc(), &made)?;
        }
    }
    Ok(())
}
