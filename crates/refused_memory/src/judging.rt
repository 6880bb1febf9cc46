//! Judging a record and migrating it take no memory: `test` counts the allocations of a run that
//! only makes the records, and of those that go on with them.

use crate::outcome::Outcome;
use stamp_core::{Call, Entry, Layout, Limits, Record, Reply};
use stamp_history::{check, migrate};
use std::alloc::{AllocError, Global};

/// What a run does with the records once they are made.
#[derive(Clone, Copy)]
pub(crate) enum Task {
    Make,
    Check,
    Migrate,
}

/// The layout of a record, the stamp of its readers, the reply to its last call, and the entry that
/// is bad in it.
type Case = (Layout, u64, u64, Option<u64>);

const CASES: [Case; 3] = [
    (Layout::One, 257, 256, None),
    (Layout::One, 257, 128, Some(2000)),
    (Layout::Two, 131_073, 131_072, None),
];

/// An entry whose call is made in one step.
pub(crate) fn entry(position: u64, thread: u64, call: Call, reply: Reply) -> Entry {
    Entry {
        thread,
        call,
        reply,
        first: position,
        point: position,
        last: position,
    }
}

/// A thousand readers who come and go, and one who asks for a stamp.
fn entries(alloc: Global, stamp: u64, last: u64) -> Result<Vec<Entry>, AllocError> {
    let mut entries = Vec::new(alloc);
    for i in 0..1000 {
        entries.push(entry(i * 2, 0, Call::TryRead, Reply::Stamp(stamp)))?;
        entries.push(entry(i * 2 + 1, 0, Call::UnlockRead(stamp), Reply::Done))?;
    }
    entries.push(entry(2000, 0, Call::Optimistic, Reply::Stamp(last)))?;
    Ok(entries)
}

fn record(alloc: Global, case: Case) -> Result<Record, Outcome> {
    let (layout, stamp, last, _) = case;
    let entries = entries(alloc, stamp, last)?;
    let report = vec![in alloc; (2, 0); 2001]?;
    let Ok(limits) = Limits::in_layout(layout, 1, 1) else {
        return Err(Outcome::Wrong);
    };
    Record::of_reported(limits, 0, entries, report).ok_or(Outcome::Wrong)
}

/// Whether the record is whole, or has this first fault where it is looked for.
fn is_right(task: Task, record: Record, bad: Option<u64>) -> bool {
    match task {
        Task::Make => record.entries().len() == 2001,
        Task::Check => match check(&record) {
            Ok(_) => bad.is_none(),
            Err(found) => bad == Some(found.entry),
        },
        Task::Migrate => match migrate(record) {
            Ok(_) => bad.is_none(),
            Err(found) => bad == Some(found.entry),
        },
    }
}

/// Makes the records, one after the other, and does the task on each.
pub(crate) fn task_outcome(alloc: Global, task: Task) -> Outcome {
    let mut all = Outcome::Right;
    for case in CASES {
        all = all.and(match record(alloc, case) {
            Ok(record) => Outcome::right_if(is_right(task, record, case.3)),
            Err(outcome) => outcome,
        });
    }
    all
}
