//! Texts that are refused at one field after the other: what was read before it is dropped.
use crate::outcome::Outcome;
use stamp_history::{
    AnswerError, Field, ReadError, read_history, read_replay, read_script, replay_text,
};
use stamp_machines::ScriptError;
use std::alloc::Global;

/// The call that reads a text. A replay may be answered at once.
#[derive(Clone, Copy)]
pub(crate) enum Reader {
    Replay,
    Script,
    History,
    Answer,
}

/// A text, and how it is refused.
type Refused = (&'static [u8], AnswerError);

pub(crate) const BAD_REPLAY: [Refused; 1] = [(
    br#"{"calls":[["get"]],"readers":1,"versions":1}"#,
    AnswerError::Refused(ReadError::NotScript(Field::Call(0))),
)];

pub(crate) const BAD_SCRIPT: [Refused; 1] = [(
    br#"{"readers":1,"steps":[],"threads":[],"versions":1,"width":17}"#,
    AnswerError::Refused(ReadError::BadScript(ScriptError::RecordWidth)),
)];

pub(crate) const REPLAYS: [Refused; 8] = [
    (
        br#"{"calls":[["try_read"]],"readers":1,"versions":1"#,
        AnswerError::Refused(ReadError::NotJson),
    ),
    (
        br#"{"calls":[["try_read"]],"readers":1}"#,
        AnswerError::Refused(ReadError::NotScript(Field::Top)),
    ),
    (
        br#"{"calls":[["try_read"]],"layout":3,"readers":1,"versions":1}"#,
        AnswerError::Refused(ReadError::NotScript(Field::Layout)),
    ),
    (
        br#"{"calls":[["try_read"]],"readers":"1","versions":1}"#,
        AnswerError::Refused(ReadError::NotScript(Field::Readers)),
    ),
    (
        br#"{"calls":[["try_read"]],"readers":128,"versions":1}"#,
        AnswerError::Refused(ReadError::Limit(Field::Readers)),
    ),
    (
        br#"{"calls":[["try_read"]],"readers":1,"versions":"1"}"#,
        AnswerError::Refused(ReadError::NotScript(Field::Versions)),
    ),
    (
        br#"{"calls":{"try_read":1},"readers":1,"versions":1}"#,
        AnswerError::Refused(ReadError::NotScript(Field::Calls)),
    ),
    (
        br#"{"calls":[["try_read"],["get"]],"readers":1,"versions":1}"#,
        AnswerError::Refused(ReadError::NotScript(Field::Call(1))),
    ),
];

pub(crate) const SCRIPTS: [Refused; 12] = [
    (
        br#"{"readers":1,"steps":[0],"threads":[[["try_read"]]],"versions":1,"width":0"#,
        AnswerError::Refused(ReadError::NotJson),
    ),
    (
        br#"{"readers":1,"steps":[0],"threads":[[["try_read"]]],"versions":1}"#,
        AnswerError::Refused(ReadError::NotScript(Field::Top)),
    ),
    (
        br#"{"readers":"1","steps":[0],"threads":[[["try_read"]]],"versions":1,"width":0}"#,
        AnswerError::Refused(ReadError::NotScript(Field::Readers)),
    ),
    (
        br#"{"readers":0,"steps":[0],"threads":[[["try_read"]]],"versions":1,"width":0}"#,
        AnswerError::Refused(ReadError::Limit(Field::Readers)),
    ),
    (
        br#"{"readers":1,"steps":[0],"threads":[[["try_read"]]],"versions":1,"width":"0"}"#,
        AnswerError::Refused(ReadError::NotScript(Field::Width)),
    ),
    (
        br#"{"readers":1,"steps":[0],"threads":[[["try_read"]],"try_read"],"versions":1,"width":0}"#,
        AnswerError::Refused(ReadError::NotScript(Field::Threads)),
    ),
    (
        br#"{"readers":1,"steps":[0],"threads":[[["try_read"]],[["get"],["try_get"]]],"versions":1,"width":0}"#,
        AnswerError::Refused(ReadError::NotScript(Field::ThreadCall(1, 1))),
    ),
    (
        br#"{"readers":1,"steps":"0","threads":[[["try_read"]]],"versions":1,"width":0}"#,
        AnswerError::Refused(ReadError::NotScript(Field::Steps)),
    ),
    (
        br#"{"readers":1,"steps":[0,"0"],"threads":[[["try_read"]]],"versions":1,"width":0}"#,
        AnswerError::Refused(ReadError::NotScript(Field::Step(1))),
    ),
    (
        br#"{"readers":1,"steps":[0,1],"threads":[[["try_read"]]],"versions":1,"width":0}"#,
        AnswerError::Refused(ReadError::BadScript(ScriptError::NoSuchThread(1))),
    ),
    (
        br#"{"readers":1,"steps":[0],"threads":[[["try_read"]]],"versions":1,"width":17}"#,
        AnswerError::Refused(ReadError::BadScript(ScriptError::RecordWidth)),
    ),
    (
        br#"{"readers":1,"steps":[0],"threads":[[["get"]]],"versions":1,"width":0}"#,
        AnswerError::Refused(ReadError::BadScript(ScriptError::RecordWidth)),
    ),
];

pub(crate) const HISTORIES: [Refused; 10] = [
    (
        br#"{"entries":[{"call":["try_read"],"first":0,"last":1,"point":1,"reply":257,"thread":0}],"format":1,"readers":1,"versions":1,"width":0"#,
        AnswerError::Refused(ReadError::NotJson),
    ),
    (
        br#"{"entries":[{"call":["try_read"],"first":0,"last":1,"point":1,"reply":257,"thread":0}],"format":1,"readers":1,"versions":1}"#,
        AnswerError::Refused(ReadError::NotHistory(Field::Top)),
    ),
    (
        br#"{"entries":[{"call":["try_read"],"first":0,"last":1,"point":1,"reply":257,"thread":0}],"format":2,"readers":1,"versions":1,"width":0}"#,
        AnswerError::Refused(ReadError::NotHistory(Field::Format)),
    ),
    (
        br#"{"entries":[{"call":["try_read"],"first":0,"last":1,"point":1,"reply":257,"thread":0}],"format":1,"readers":1,"versions":"1","width":0}"#,
        AnswerError::Refused(ReadError::NotHistory(Field::Versions)),
    ),
    (
        br#"{"entries":[{"call":["try_read"],"first":0,"last":1,"point":1,"reply":257,"thread":0}],"format":1,"readers":1,"versions":1,"width":17}"#,
        AnswerError::Refused(ReadError::Limit(Field::Width)),
    ),
    (
        br#"{"entries":{"call":["try_read"]},"format":1,"readers":1,"versions":1,"width":0}"#,
        AnswerError::Refused(ReadError::NotHistory(Field::Entries)),
    ),
    (
        br#"{"entries":[{"call":["try_read"],"first":0,"last":1,"point":1,"reply":257,"thread":0},{"call":["get"]}],"format":1,"readers":1,"versions":1,"width":0}"#,
        AnswerError::Refused(ReadError::NotHistory(Field::Entry(1))),
    ),
    (
        br#"{"entries":[{"call":["try_read"],"first":0,"last":1,"point":1,"reply":257,"thread":64}],"format":1,"readers":1,"versions":1,"width":0}"#,
        AnswerError::Refused(ReadError::Limit(Field::Entry(0))),
    ),
    (
        br#"{"entries":[{"call":["try_read"],"first":0,"last":1,"point":1,"reply":257,"thread":0}],"format":1,"readers":1,"report":[[2,0],[2,0]],"versions":1,"width":0}"#,
        AnswerError::Refused(ReadError::NotHistory(Field::Report)),
    ),
    (
        br#"{"entries":[{"call":["try_read"],"first":0,"last":1,"point":1,"reply":257,"thread":0}],"format":1,"readers":1,"report":[[2]],"versions":1,"width":0}"#,
        AnswerError::Refused(ReadError::NotHistory(Field::Report)),
    ),
];

pub(crate) const ANSWERS: [Refused; 2] = [
    (
        br#"{"calls":[["try_read"],["read_count"],["write_lock"]],"readers":1,"versions":1}"#,
        AnswerError::Waits(2),
    ),
    (
        br#"{"calls":[["try_read"],["get"]],"readers":1,"versions":1}"#,
        AnswerError::Refused(ReadError::NotScript(Field::Call(1))),
    ),
];

/// How a reading was refused.
fn fault_of<T: Drop>(read: Result<T, ReadError>) -> Option<AnswerError> {
    match read {
        Ok(_) => None,
        Err(fault) => Some(AnswerError::Refused(fault)),
    }
}

/// How the text is refused, if it is.
fn fault(alloc: Global, reader: Reader, text: &[u8]) -> Option<AnswerError> {
    match reader {
        Reader::Replay => fault_of(read_replay(alloc, text)),
        Reader::Script => fault_of(read_script(alloc, text)),
        Reader::History => fault_of(read_history(alloc, text)),
        Reader::Answer => replay_text(alloc, text).err(),
    }
}

/// Each text, one after another: all are refused as they say, or for want of memory.
pub(crate) fn texts_outcome(alloc: Global, reader: Reader, texts: &[Refused]) -> Outcome {
    let mut all = Outcome::Right;
    for (text, due) in texts {
        all = all.and(match fault(alloc, reader, text) {
            Some(AnswerError::Refused(ReadError::Memory)) => Outcome::Refused,
            found => Outcome::right_if(found == Some(*due)),
        });
    }
    all
}
