use stamp_core::{Call, Entry, Layout, Limits, Record, Reply, Words};
use stamp_history::write_history;
use std::alloc::Global;
use std::test::Fail;

/// An entry at the positions 10, 11 and 12.
fn entry(thread: u64, call: Call, reply: Reply) -> Entry {
    Entry {
        thread,
        call,
        reply,
        first: 10,
        point: 11,
        last: 12,
    }
}

/// A recorded history for two readers and three write acquisitions.
fn record(
    alloc: Global,
    layout: Layout,
    width: u64,
    entries: &[Entry],
    report: &[(u64, u64)],
) -> Result<Record, Fail> {
    let limits = Limits::in_layout(layout, 2, 3)?;
    let entries = Vec::from_slice(alloc, entries)?;
    let report = Vec::from_slice(alloc, report)?;
    let made = Record::of_reported(limits, width, entries, report).ok_or("no record")?;
    Ok(made)
}

/// What an entry at those positions is written as.
fn entry_text(alloc: Global, call: &str, reply: &str, thread: u64) -> Result<String, Fail> {
    let positions = "\"first\":10,\"last\":12,\"point\":11";
    let text = format!(in alloc;
        "{{\"call\":{call},{positions},\"reply\":{reply},\"thread\":{thread}}}"
    )?;
    Ok(text)
}

/// What a record of layout 1 without a report is written as.
fn text_of(alloc: Global, width: u64, entries: &str) -> Result<String, Fail> {
    let limits = "\"readers\":2,\"versions\":3";
    let text = format!(in alloc;
        "{{\"entries\":[{entries}],\"format\":1,{limits},\"width\":{width}}}"
    )?;
    Ok(text)
}

#[test]
fn each_reply_is_written_in_its_form(rt: HostRuntime) -> Result<(), Fail> {
    let replies = [
        (Reply::Stamp(384), "384"),
        (Reply::Yes, r#""yes""#),
        (Reply::No, r#""no""#),
        (Reply::Done, r#""done""#),
        (Reply::Mismatch, r#""mismatch""#),
        (Reply::Count(127), r#"{"count":127}"#),
    ];
    for (reply, form) in replies {
        let entries = [entry(0, Call::Optimistic, reply)];
        let made = record(rt.alloc(), Layout::One, 0, &entries, &[])?;
        let text = write_history(rt.alloc(), &made)?;
        let one = entry_text(rt.alloc(), r#"["optimistic"]"#, form, 0)?;
        assert!(rt;
            text.as_slice() == text_of(rt.alloc(), 0, &one)?.as_bytes(),
            "{form}"
        );
    }
    Ok(())
}

#[test]
fn a_call_of_the_record_is_written_with_its_words(rt: HostRuntime) -> Result<(), Fail> {
    let old = Words::new(&[0, 1]).ok_or("no words")?;
    let new = Words::new(&[u64::MAX, 7]).ok_or("no words")?;
    let table = [
        (
            entry(9, Call::Put(old), Reply::Done),
            r#"["put",[0,1]]"#,
            r#""done""#,
        ),
        (
            entry(9, Call::PutIf(old, new), Reply::No),
            r#"["put_if",[0,1],[18446744073709551615,7]]"#,
            r#""no""#,
        ),
        (
            entry(9, Call::Get, Reply::Content(new)),
            r#"["get"]"#,
            "[18446744073709551615,7]",
        ),
    ];
    for (one, call, reply) in table {
        let made = record(rt.alloc(), Layout::One, 2, &[one], &[])?;
        let text = write_history(rt.alloc(), &made)?;
        let wanted = text_of(rt.alloc(), 2, &entry_text(rt.alloc(), call, reply, 9)?)?;
        assert!(rt; text.as_slice() == wanted.as_bytes(), "{call}");
    }
    Ok(())
}

/// The layout, the report of two entries, and what follows the entries in the text.
const SHAPES: [(Layout, &[(u64, u64)], &str); 4] = [
    (
        Layout::One,
        &[],
        r#""format":1,"readers":2,"versions":3,"width":0}"#,
    ),
    (
        Layout::One,
        &[(2, 0), (30, 401)],
        r#""format":1,"readers":2,"report":[[2,0],[30,401]],"versions":3,"width":0}"#,
    ),
    (
        Layout::Two,
        &[],
        r#""format":2,"layout":2,"readers":2,"versions":3,"width":0}"#,
    ),
    (
        Layout::Two,
        &[(1, 1), (0, 0)],
        r#""format":2,"layout":2,"readers":2,"report":[[1,1],[0,0]],"versions":3,"width":0}"#,
    ),
];

#[test]
fn a_record_is_written_in_its_layout_and_with_its_report(rt: HostRuntime) -> Result<(), Fail> {
    let entries = [
        entry(0, Call::ReadCount, Reply::Count(0)),
        entry(1, Call::Optimistic, Reply::Stamp(256)),
    ];
    for (layout, report, shape) in SHAPES {
        let made = record(rt.alloc(), layout, 0, &entries, report)?;
        let text = write_history(rt.alloc(), &made)?;
        let first = entry_text(rt.alloc(), r#"["read_count"]"#, r#"{"count":0}"#, 0)?;
        let second = entry_text(rt.alloc(), r#"["optimistic"]"#, "256", 1)?;
        let wanted = format!(in rt.alloc(); "{{\"entries\":[{first},{second}],{shape}")?;
        assert!(rt; text.as_slice() == wanted.as_bytes());
    }
    Ok(())
}
