//! Records that are refused: what they were to be made of is dropped.
use crate::judging::entry;
use crate::outcome::Outcome;
use stamp_core::{Call, Entry, Limits, Record, Reply};
use std::alloc::{AllocError, Global};

/// The width of a record, the thread of its last entry, whether that is a call of the record, how
/// many pairs its report has, if it has one, and whether there is such a record.
type Case = (u64, u64, bool, Option<usize>, bool);

/// A width of 17, a thread of 64, a call of the record where there is none, and a report of another
/// length.
const CASES: [Case; 10] = [
    (17, 0, false, Some(2), false),
    (17, 0, false, None, false),
    (0, 64, false, Some(2), false),
    (0, 64, false, None, false),
    (0, 0, true, Some(2), false),
    (0, 0, true, None, false),
    (0, 63, false, Some(1), false),
    (0, 63, false, Some(3), false),
    (0, 63, false, Some(2), true),
    (0, 63, false, None, true),
];

/// One more than a record may have.
const TOO_MANY: usize = 640_001;

/// An entry that suits each record, and another one.
fn entries(alloc: Global, thread: u64, is_get: bool) -> Result<Vec<Entry>, AllocError> {
    let call = if is_get { Call::Get } else { Call::TryRead };
    let mut entries = Vec::new(alloc);
    entries.push(entry(0, 0, Call::TryRead, Reply::Stamp(257)))?;
    entries.push(entry(1, thread, call, Reply::Stamp(0)))?;
    Ok(entries)
}

/// Whether there is a record as the case says, or none.
fn is_as_due(alloc: Global, limits: Limits, case: Case) -> Result<bool, Outcome> {
    let (width, thread, is_get, pairs, is_due) = case;
    let entries = entries(alloc, thread, is_get)?;
    let Some(pairs) = pairs else {
        return Ok(Record::of(limits, width, entries).is_some() == is_due);
    };
    let report = vec![in alloc; (2, 0); pairs]?;
    Ok(Record::of_reported(limits, width, entries, report).is_some() == is_due)
}

pub(crate) fn records_outcome(alloc: Global, limits: Limits) -> Outcome {
    let mut all = Outcome::Right;
    for case in CASES {
        all = all.and(Outcome::of(is_as_due(alloc, limits, case)));
    }
    all
}

/// Whether more entries than there may be are no record.
pub(crate) fn is_long_refused(alloc: Global, limits: Limits) -> Result<bool, Outcome> {
    let read = entry(0, 0, Call::TryRead, Reply::Stamp(257));
    let entries = vec![in alloc; read; TOO_MANY]?;
    Ok(Record::of(limits, 0, entries).is_none())
}
