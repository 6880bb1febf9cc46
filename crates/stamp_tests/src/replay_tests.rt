use stamp_core::{Call, Layout, Replayed, Reply, Word, Words};
use stamp_history::{Field, read_replay, write_replay};
use std::test::Fail;

/// The layout, readers and versions that a text gives.
const LIMITS: [(&str, (Layout, u64, u64)); 7] = [
    (
        r#"{"calls":[],"readers":127,"versions":1000}"#,
        (Layout::One, 127, 1000),
    ),
    (
        r#"{"versions":36028797018963966,"calls":[],"readers":1}"#,
        (Layout::One, 1, 36_028_797_018_963_966),
    ),
    (
        " {\"readers\" : 2,\n\"versions\":\t0, \"calls\": [ ] }\r\n",
        (Layout::One, 2, 0),
    ),
    (
        r#"{"calls":[],"layout":1,"readers":127,"versions":5}"#,
        (Layout::One, 127, 5),
    ),
    (
        r#"{"calls":[],"layout":2,"readers":65535,"versions":70368744177662}"#,
        (Layout::Two, 65_535, 70_368_744_177_662),
    ),
    (
        r#"{"layout":2,"calls":[],"readers":1,"versions":0}"#,
        (Layout::Two, 1, 0),
    ),
    // Of a key that stands twice the last counts.
    (
        r#"{"calls":5,"readers":0,"readers":5,"versions":1,"calls":[]}"#,
        (Layout::One, 5, 1),
    ),
];

#[test]
fn limits_are_read_in_their_layout(rt: HostRuntime) -> Result<(), Fail> {
    for (text, wanted) in LIMITS {
        let (limits, calls) = read_replay(rt.alloc(), text.as_bytes())?;
        let read = (limits.layout(), limits.readers(), limits.versions());
        assert!(rt; read == wanted, "{text}");
        assert!(rt; calls.is_empty(), "{text}");
    }
    Ok(())
}

const EACH_CALL: &str = r#"{"calls":[["try_write"],["try_read"],["write_lock"],["read_lock"],
["optimistic"],["validate",0],["unlock_write",384],["unlock_read",257],["unlock",256],
["to_write",18446744073709551615],["to_read",1],["to_optimistic",2],["try_unlock_write"],
["try_unlock_read"],["is_write_locked"],["is_read_locked"],["read_count"]],
"readers":127,"versions":1000}"#;

#[test]
fn each_call_of_the_lock_is_read_by_its_name(rt: HostRuntime) -> Result<(), Fail> {
    let (_, calls) = read_replay(rt.alloc(), EACH_CALL.as_bytes())?;
    let wanted = [
        Call::TryWrite,
        Call::TryRead,
        Call::WriteLock,
        Call::ReadLock,
        Call::Optimistic,
        Call::Validate(0),
        Call::UnlockWrite(384),
        Call::UnlockRead(257),
        Call::Unlock(256),
        Call::ToWrite(u64::MAX),
        Call::ToRead(1),
        Call::ToOptimistic(2),
        Call::TryUnlockWrite,
        Call::TryUnlockRead,
        Call::IsWriteLocked,
        Call::IsReadLocked,
        Call::ReadCount,
    ];
    assert!(rt; calls.as_slice() == wanted.as_slice());
    Ok(())
}

#[test]
fn each_reply_is_written_in_its_form(rt: HostRuntime) -> Result<(), Fail> {
    let words = Words::new(&[0, u64::MAX, 7]).ok_or("no words")?;
    let mut replies = Vec::new(rt.alloc());
    for reply in [
        Reply::Stamp(384),
        Reply::Yes,
        Reply::No,
        Reply::Done,
        Reply::Mismatch,
        Reply::Count(127),
        Reply::Content(words),
    ] {
        replies.push(reply)?;
    }
    let word = Word::opening_in(Layout::Two);
    let text = write_replay(rt.alloc(), &Replayed { replies, word })?;
    let wanted =
        br#"{"replies":[384,"yes","no","done","mismatch",{"count":127},[0,18446744073709551615,7]],"word":131072}"#;
    assert!(rt; text.as_slice() == wanted.as_slice());
    Ok(())
}

#[test]
fn a_field_has_its_text(rt: HostRuntime) -> Result<(), Fail> {
    let table = [
        (Field::Top, "top"),
        (Field::Format, "format"),
        (Field::Layout, "layout"),
        (Field::Readers, "readers"),
        (Field::Versions, "versions"),
        (Field::Width, "width"),
        (Field::Calls, "calls"),
        (Field::Call(0), "call 0"),
        (Field::Threads, "threads"),
        (Field::ThreadCall(63, 9999), "call 63 9999"),
        (Field::Steps, "steps"),
        (Field::Step(64), "step 64"),
        (Field::Entries, "entries"),
        (Field::Entry(u64::MAX), "entry 18446744073709551615"),
        (Field::Report, "report"),
    ];
    for (field, text) in table {
        assert!(rt; format!(in rt.alloc(); "{field}")?.as_str() == text);
    }
    Ok(())
}
