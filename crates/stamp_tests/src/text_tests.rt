//! What calls and replies show: in docs/FORMATS.md, the names under Replays and Scripts, and the texts under Pictures.
use stamp_core::{Call, Reply, Words};
use std::alloc::{AllocError, Global};
use std::fmt;
use std::test::Fail;

fn calls_shown(two: Words, most: Words) -> [(Call, &'static str); 20] {
    [
        (Call::TryWrite, "try_write"),
        (Call::TryRead, "try_read"),
        (Call::WriteLock, "write_lock"),
        (Call::ReadLock, "read_lock"),
        (Call::Optimistic, "optimistic"),
        (Call::Validate(256), "validate 256"),
        (Call::UnlockWrite(384), "unlock_write 384"),
        (Call::UnlockRead(257), "unlock_read 257"),
        (Call::Unlock(0), "unlock 0"),
        (Call::ToWrite(10), "to_write 10"),
        (Call::ToRead(u64::MAX), "to_read 18446744073709551615"),
        (Call::ToOptimistic(513), "to_optimistic 513"),
        (Call::TryUnlockWrite, "try_unlock_write"),
        (Call::TryUnlockRead, "try_unlock_read"),
        (Call::IsWriteLocked, "is_write_locked"),
        (Call::IsReadLocked, "is_read_locked"),
        (Call::ReadCount, "read_count"),
        (Call::Get, "get"),
        (Call::Put(most), "put [18446744073709551615, 0, 7]"),
        (Call::PutIf(two, Words::zeros(2)), "put_if [1, 2] [0, 0]"),
    ]
}

fn replies_shown(two: Words) -> [(Reply, &'static str); 7] {
    [
        (Reply::Stamp(384), "384"),
        (Reply::Yes, "yes"),
        (Reply::No, "no"),
        (Reply::Done, "done"),
        (Reply::Mismatch, "mismatch"),
        (Reply::Count(1), "count 1"),
        (Reply::Content(two), "[1, 2]"),
    ]
}

/// Whether it shows this text, also under a `#`.
fn shows<D: fmt::Display>(alloc: Global, value: &D, text: &str) -> Result<bool, AllocError> {
    let plain = format!(in alloc; "{value}")?;
    let under_hash = format!(in alloc; "{value:#}")?;
    Ok(plain.as_str() == text && under_hash.as_str() == text)
}

/// No contract says that one is shown at all, nor what is shown under a `#`.
#[test]
fn each_call_and_each_reply_shows_its_text(rt: HostRuntime) -> Result<(), Fail> {
    let two = Words::new(&[1, 2]).ok_or("two words")?;
    let most = Words::new(&[u64::MAX, 0, 7]).ok_or("three words")?;
    for (call, text) in calls_shown(two, most) {
        assert!(rt; shows(rt.alloc(), &call, text)?, "{text}");
    }
    for (reply, text) in replies_shown(two) {
        assert!(rt; shows(rt.alloc(), &reply, text)?, "{text}");
    }
    assert!(rt; shows(rt.alloc(), &two, "[1, 2]")?);
    assert!(rt; shows(rt.alloc(), &Words::zeros(1), "[0]")?);
    Ok(())
}
