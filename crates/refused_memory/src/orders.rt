//! Orders that are served, and some that are refused: what was read and what was to be written is
//! dropped.
use crate::outcome::Outcome;
use crate::pipes::{End, Input, LARGE, Page};
use crate::worked::{LOST, LOST_RUN};
use stamp_cli::{Order, ReadSource, ServeFault, Verdict, WriteSink, serve};
use stamp_core::Layout;
use stamp_history::{Field, ReadError};
use std::alloc::Global;

/// An order, what is given to it, the line that it writes, and how it is refused where it writes none.
#[derive(Clone, Copy)]
pub(crate) struct Case {
    order: Order,
    input: &'static [u8],
    end: End,
    page: usize,
    is_shut: bool,
    line: &'static [u8],
    fault: Option<ServeFault>,
}

const REPLAY: &[u8] = br#"{"calls":[["try_read"],["to_write",257]],"readers":1,"versions":1}"#;

const WAITING: &[u8] = br#"{"calls":[["try_read"],["write_lock"]],"readers":1,"versions":1}"#;

const SCRIPT: &[u8] =
    br#"{"readers":1,"steps":[0,0],"threads":[[["try_read"]]],"versions":1,"width":0}"#;

const HISTORY: &[u8] =
    br#"{"entries":[{"call":["try_write"],"first":0,"last":0,"point":0,"reply":128,"thread":0}],"format":1,"readers":1,"versions":1,"width":0}"#;

/// One that is answered.
const REPLAYED: Case = Case {
    order: Order::Replay,
    input: REPLAY,
    end: End::Over,
    page: LARGE,
    is_shut: false,
    line: b"{\"replies\":[257,384],\"word\":384}\n",
    fault: None,
};

pub(crate) const ANSWERED: [Case; 3] = [
    REPLAYED,
    Case {
        order: Order::Stamp(257),
        line: b"read 0 1\n",
        ..REPLAYED
    },
    Case {
        order: Order::StampIn(Layout::Two, 196_608),
        line: b"write 1\n",
        ..REPLAYED
    },
];

/// The orders that read a script or a history.
pub(crate) const SERVED: [Case; 4] = [
    Case {
        order: Order::Run,
        input: LOST,
        line: b"{\"entries\":[{\"call\":[\"try_write\"],\"first\":1,\"last\":2,\"point\":2,\"reply\":384,\"thread\":1},{\"call\":[\"unlock_write\",384],\"first\":3,\"last\":4,\"point\":4,\"reply\":\"done\",\"thread\":1},{\"call\":[\"try_write\"],\"first\":0,\"last\":6,\"point\":6,\"reply\":640,\"thread\":0}],\"format\":1,\"readers\":127,\"versions\":1000,\"width\":0}\n",
        ..REPLAYED
    },
    Case {
        order: Order::RunReported,
        input: LOST,
        line: b"{\"entries\":[{\"call\":[\"try_write\"],\"first\":1,\"last\":2,\"point\":2,\"reply\":384,\"thread\":1},{\"call\":[\"unlock_write\",384],\"first\":3,\"last\":4,\"point\":4,\"reply\":\"done\",\"thread\":1},{\"call\":[\"try_write\"],\"first\":0,\"last\":6,\"point\":6,\"reply\":640,\"thread\":0}],\"format\":1,\"readers\":127,\"report\":[[2,0],[2,0],[3,2]],\"versions\":1000,\"width\":0}\n",
        ..REPLAYED
    },
    Case {
        order: Order::Check,
        input: LOST_RUN,
        line: b"ok 3\n",
        ..REPLAYED
    },
    Case {
        order: Order::Migrate,
        input: LOST_RUN,
        line: b"{\"entries\":[{\"call\":[\"try_write\"],\"first\":1,\"last\":2,\"point\":2,\"reply\":196608,\"thread\":1},{\"call\":[\"unlock_write\",196608],\"first\":3,\"last\":4,\"point\":4,\"reply\":\"done\",\"thread\":1},{\"call\":[\"try_write\"],\"first\":0,\"last\":6,\"point\":6,\"reply\":327680,\"thread\":0}],\"format\":2,\"layout\":2,\"readers\":127,\"versions\":1000,\"width\":0}\n",
        ..REPLAYED
    },
];

/// One that is refused.
const WAITS: Case = Case {
    input: WAITING,
    line: b"",
    fault: Some(ServeFault::Waits(1)),
    ..REPLAYED
};

/// The line of the last two is longer than their page.
pub(crate) const REFUSED: [Case; 7] = [
    WAITS,
    Case {
        input: SCRIPT,
        fault: Some(ServeFault::Refused(ReadError::NotScript(Field::Top))),
        ..WAITS
    },
    Case {
        order: Order::Check,
        fault: Some(ServeFault::Refused(ReadError::NotHistory(Field::Top))),
        ..WAITS
    },
    Case {
        order: Order::Run,
        input: b"[",
        fault: Some(ServeFault::Refused(ReadError::NotJson)),
        ..WAITS
    },
    Case {
        order: Order::Migrate,
        input: HISTORY,
        fault: Some(ServeFault::BadReply(0)),
        ..WAITS
    },
    Case {
        order: Order::Run,
        input: SCRIPT,
        page: 64,
        fault: Some(ServeFault::WriteFault),
        ..WAITS
    },
    Case {
        order: Order::RunReported,
        input: SCRIPT,
        page: 64,
        fault: Some(ServeFault::WriteFault),
        ..WAITS
    },
];

pub(crate) const READ_FAULT: [Case; 1] = [Case {
    end: End::Fault,
    fault: Some(ServeFault::ReadFault),
    ..WAITS
}];

pub(crate) const WRITE_FAULT: [Case; 1] = [Case {
    order: Order::Run,
    input: SCRIPT,
    is_shut: true,
    fault: Some(ServeFault::WriteFault),
    ..WAITS
}];

pub(crate) const TOO_LONG: [Case; 1] = [Case {
    order: Order::Check,
    input: b"",
    end: End::Spaces,
    fault: Some(ServeFault::TooLong),
    ..WAITS
}];

/// Serving fails without a write for want of memory, or ends as the case says.
fn served_outcome(alloc: Global, case: &Case) -> Outcome {
    let mut source = ReadSource::new(Input {
        bytes: case.input,
        end: case.end,
    });
    let mut sink = WriteSink::new(Page::new(case.page, case.is_shut));
    let served = serve(alloc, case.order, &mut source, &mut sink);
    let page = sink.into_inner();
    match served {
        Ok(Verdict::Accepted) => {
            Outcome::right_if(case.fault.is_none() && page.written() == case.line)
        }
        Ok(_) => Outcome::Wrong,
        Err(ServeFault::Memory) if page.written().is_empty() => Outcome::Refused,
        Err(fault) => Outcome::right_if(case.fault == Some(fault)),
    }
}

/// Each order, one after another.
pub(crate) fn orders_outcome(alloc: Global, cases: &[Case]) -> Outcome {
    let mut all = Outcome::Right;
    for case in cases {
        all = all.and(served_outcome(alloc, case));
    }
    all
}
