//! The line of each fault.
use crate::outcome::Outcome;
use stamp_cli::{ServeFault, fault_line};
use stamp_history::{Field, ReadError};
use stamp_machines::ScriptError;
use std::alloc::Global;

const FAULTS: [(ServeFault, &str); 15] = [
    (ServeFault::ReadFault, "stamped: read fault"),
    (ServeFault::TooLong, "stamped: input over 16777216 bytes"),
    (ServeFault::Refused(ReadError::NotJson), "stamped: not json"),
    (
        ServeFault::Refused(ReadError::NotHistory(Field::Entry(3))),
        "stamped: not a history: entry 3",
    ),
    (
        ServeFault::Refused(ReadError::Limit(Field::Readers)),
        "stamped: over a limit: readers",
    ),
    (
        ServeFault::Refused(ReadError::NotScript(Field::ThreadCall(1, 12))),
        "stamped: not a script: call 1 12",
    ),
    (
        ServeFault::Refused(ReadError::BadScript(ScriptError::TooManyThreads)),
        "stamped: script refused: too many threads",
    ),
    (
        ServeFault::Refused(ReadError::BadScript(ScriptError::TooManyCalls)),
        "stamped: script refused: too many calls",
    ),
    (
        ServeFault::Refused(ReadError::BadScript(ScriptError::TooManySteps)),
        "stamped: script refused: too many steps",
    ),
    (
        ServeFault::Refused(ReadError::BadScript(ScriptError::NoSuchThread(7))),
        "stamped: script refused: no thread at step 7",
    ),
    (
        ServeFault::Refused(ReadError::BadScript(ScriptError::RecordWidth)),
        "stamped: script refused: record width",
    ),
    (ServeFault::Waits(640), "stamped: call 640 waits"),
    (ServeFault::Memory, "stamped: memory"),
    (ServeFault::WriteFault, "stamped: write fault"),
    (ServeFault::BadReply(0), "stamped: bad reply at entry 0"),
];

fn fault_line_outcome(alloc: Global, fault: &ServeFault, expected: &str) -> Outcome {
    match fault_line(alloc, fault) {
        Ok(line) => Outcome::right_if(line.as_str() == expected),
        Err(ServeFault::Memory) => Outcome::Refused,
        Err(_) => Outcome::Wrong,
    }
}

/// Each line, one after another.
pub(crate) fn fault_lines_outcome(alloc: Global) -> Outcome {
    let mut all = Outcome::Right;
    for (fault, line) in &FAULTS {
        all = all.and(fault_line_outcome(alloc, fault, line));
    }
    all
}
