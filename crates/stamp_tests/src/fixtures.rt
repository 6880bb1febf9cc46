//! What the tests make limits, words, entries and schedules of.
use stamp_core::{Call, Entry, Limits, Reply, Words};
use stamp_machines::{Script, ScriptCall};
use std::alloc::Global;
use std::test::Fail;

pub(crate) fn limits(readers: u64, versions: u64) -> Result<Limits, Fail> {
    Limits::new(readers, versions).map_err(|_| Fail::from("limits"))
}

pub(crate) fn words(words: &[u64]) -> Result<Words, Fail> {
    Ok(Words::new(words).ok_or("words")?)
}

fn calls(alloc: Global, calls: &[ScriptCall]) -> Result<Vec<ScriptCall>, Fail> {
    let mut made = Vec::new(alloc);
    for call in calls {
        made.push(*call)?;
    }
    Ok(made)
}

/// A script of two threads, under these limits.
pub(crate) fn script_under(
    alloc: Global,
    limits: Limits,
    width: u64,
    threads: [&[ScriptCall]; 2],
    steps: &[u64],
) -> Result<Script, Fail> {
    let mut made = Vec::new(alloc);
    for thread in threads {
        made.push(calls(alloc, thread)?)?;
    }
    let mut listed = Vec::new(alloc);
    for thread in steps {
        listed.push(*thread)?;
    }
    Script::new(limits, width, made, listed).map_err(|_| Fail::from("script"))
}

/// A script of two threads, with 127 readers and 1000 versions.
pub(crate) fn script(
    alloc: Global,
    width: u64,
    threads: [&[ScriptCall]; 2],
    steps: &[u64],
) -> Result<Script, Fail> {
    script_under(alloc, limits(127, 1000)?, width, threads, steps)
}

/// An entry with its first position, its point and its last position.
pub(crate) fn entry(thread: u64, call: Call, reply: Reply, at: (u64, u64, u64)) -> Entry {
    let (first, point, last) = at;
    Entry {
        thread,
        call,
        reply,
        first,
        point,
        last,
    }
}
