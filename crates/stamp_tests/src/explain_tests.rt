use crate::fixtures::{entry, limits, words};
use stamp_core::{Call, Entry, Limits, Record, Reply};
use stamp_explain::{
    END_OF_POSITIONS, Observation, Observed, Returned, has_returned_at, is_observed,
    recorded_in_order,
};
use stamp_watch::{
    ExplainError, PossibleError, explain, judge_history, possible_among, possible_at,
};
use std::test::Fail;

/// A call in short: its thread, the call, its first position, and its last with its reply, unless it is
/// under way.
type Short = (u64, Call, u64, Option<(u64, Reply)>);

/// A write acquired from positions 0 to 3.
const WRITE: Short = (0, Call::TryWrite, 0, Some((3, Reply::Stamp(384))));

fn observation((thread, call, first, end): Short) -> Observation {
    let returned = match end {
        None => None,
        Some((last, reply)) => Some(Returned { last, reply }),
    };
    Observation {
        thread,
        call,
        first,
        returned,
    }
}

/// The first calls of these; none where they can't be observed so.
fn made(
    rt: &impl AllocGlobal,
    width: u64,
    calls: &[Short; 3],
    count: usize,
) -> Result<Option<Observed>, Fail> {
    let limits = limits(127, 1000)?;
    let mut entries = Vec::new(rt.alloc());
    for i in 0..count.min(3) {
        entries.push(observation(calls[i]))?;
    }
    Ok(Observed::of(limits, width, entries))
}

/// A history of one call, two or three, and why it isn't explained, if it isn't.
#[derive(Clone, Copy)]
struct Case {
    name: &'static str,
    calls: [Short; 3],
    count: usize,
    fault: Option<ExplainError>,
}

/// Whether the history is judged and explained as the case says, where so many positions are kept.
fn is_right(rt: &impl AllocGlobal, width: u64, most: u64, case: &Case) -> Result<bool, Fail> {
    let Some(observed) = made(rt, width, &case.calls, case.count)? else {
        return Ok(false);
    };
    if !is_observed(&observed) {
        return Ok(false);
    }
    let judged = judge_history(rt.alloc(), &observed, most).err();
    Ok(judged == case.fault && explain(rt.alloc(), &observed, most).err() == case.fault)
}

/// The name of the first case that is not as it says.
fn wrong(rt: &impl AllocGlobal, width: u64, cases: &[Case]) -> Result<Option<&'static str>, Fail> {
    for case in cases {
        if !is_right(rt, width, 100, case)? {
            return Ok(Some(case.name));
        }
    }
    Ok(None)
}

/// A hold that is converted, and a write that failed.
const CONVERTED: Short = (1, Call::ToRead(384), 6, Some((8, Reply::Stamp(513))));

const FAILED: Short = (1, Call::TryWrite, 2, Some((3, Reply::Stamp(0))));

/// Histories of the lock, with 127 readers.
const OF_THE_LOCK: [Case; 9] = [
    Case {
        name: "no calls",
        calls: [WRITE; 3],
        count: 0,
        fault: None,
    },
    Case {
        name: "a release after its acquisition",
        calls: [
            WRITE,
            (0, Call::UnlockWrite(384), 4, Some((5, Reply::Done))),
            WRITE,
        ],
        count: 2,
        fault: None,
    },
    Case {
        name: "a release that is told a mismatch",
        calls: [
            WRITE,
            (0, Call::UnlockWrite(384), 4, Some((5, Reply::Mismatch))),
            WRITE,
        ],
        count: 2,
        fault: Some(ExplainError::Stuck(1)),
    },
    Case {
        name: "an optimistic stamp during an acquisition",
        calls: [
            WRITE,
            (1, Call::Optimistic, 1, Some((2, Reply::Stamp(256)))),
            WRITE,
        ],
        count: 2,
        fault: None,
    },
    Case {
        name: "an optimistic stamp after an acquisition",
        calls: [
            WRITE,
            (1, Call::Optimistic, 4, Some((5, Reply::Stamp(256)))),
            WRITE,
        ],
        count: 2,
        fault: Some(ExplainError::Stuck(1)),
    },
    Case {
        name: "a call under way that may have taken effect",
        calls: [(0, Call::WriteLock, 1, None), FAILED, WRITE],
        count: 2,
        fault: None,
    },
    Case {
        name: "a call under way that began too late",
        calls: [(0, Call::WriteLock, 4, None), FAILED, WRITE],
        count: 2,
        fault: Some(ExplainError::Stuck(1)),
    },
    Case {
        name: "a hold that is converted twice",
        calls: [
            WRITE,
            CONVERTED,
            (2, Call::ToRead(384), 7, Some((9, Reply::Stamp(513)))),
        ],
        count: 3,
        fault: Some(ExplainError::Stuck(2)),
    },
    Case {
        name: "a hold that is converted once",
        calls: [
            WRITE,
            CONVERTED,
            (2, Call::ToRead(384), 7, Some((9, Reply::Stamp(0)))),
        ],
        count: 3,
        fault: None,
    },
];

#[test]
fn a_history_is_explained_or_stuck_at_one_return(rt: HostRuntime) -> Result<(), Fail> {
    assert!(rt; wrong(&rt, 0, &OF_THE_LOCK)? == None);
    Ok(())
}

#[test]
fn a_get_after_a_get_reads_nothing_older(rt: HostRuntime) -> Result<(), Fail> {
    let (zero, seven, eight) = (words(&[0])?, words(&[7])?, words(&[8])?);
    let put = (0, Call::Put(seven), 0, Some((5, Reply::Done)));
    let new = (1, Call::Get, 1, Some((2, Reply::Content(seven))));
    let swapped = Some((4, Reply::Yes));
    let cases = [
        Case {
            name: "the same again",
            calls: [
                put,
                new,
                (2, Call::Get, 3, Some((4, Reply::Content(seven)))),
            ],
            count: 3,
            fault: None,
        },
        Case {
            name: "the older content",
            calls: [put, new, (2, Call::Get, 3, Some((4, Reply::Content(zero))))],
            count: 3,
            fault: Some(ExplainError::Stuck(2)),
        },
        Case {
            name: "a put that finds the new content",
            calls: [put, new, (2, Call::PutIf(seven, eight), 3, swapped)],
            count: 3,
            fault: None,
        },
    ];
    assert!(rt; wrong(&rt, 1, &cases)? == None);
    Ok(())
}

#[test]
fn a_reply_that_comes_later_is_not_known_before(rt: HostRuntime) -> Result<(), Fail> {
    let failed = (1, Call::TryRead, 1, Some((5, Reply::Stamp(0))));
    for (last, stuck) in [(10, 0), (5, 1), (4, 1)] {
        let refused = (0, Call::TryWrite, 0, Some((last, Reply::Stamp(0))));
        let case = Case {
            name: "two that failed",
            calls: [refused, failed, WRITE],
            count: 2,
            fault: Some(ExplainError::Stuck(stuck)),
        };
        assert!(rt; is_right(&rt, 0, 100, &case)?, "{last}");
    }
    Ok(())
}

#[test]
fn a_history_of_too_many_positions_is_undecided(rt: HostRuntime) -> Result<(), Fail> {
    let undecided = Some(ExplainError::Undecided(0));
    for (most, fault) in [(0, undecided), (1, None)] {
        let case = Case {
            name: "a write",
            calls: [WRITE; 3],
            count: 1,
            fault,
        };
        assert!(rt; is_right(&rt, 0, most, &case)?, "{most}");
    }
    Ok(())
}

#[test]
fn a_history_without_an_order_is_told_so_before_its_wrong_return_is_known(
    rt: HostRuntime,
) -> Result<(), Fail> {
    let answers = [
        (0, ExplainError::Undecided(0)),
        (1, ExplainError::StuckWithin(0, 2)),
        (2, ExplainError::Stuck(0)),
    ];
    for (most, fault) in answers {
        let case = Case {
            name: "a reader with a stamp of none, beside a writer and a reader who may each be the first",
            calls: [
                (0, Call::TryRead, 0, Some((10, Reply::Stamp(600)))),
                (1, Call::TryWrite, 0, Some((11, Reply::Stamp(384)))),
                (2, Call::TryRead, 0, Some((12, Reply::Stamp(0)))),
            ],
            count: 3,
            fault: Some(fault),
        };
        assert!(rt; is_right(&rt, 0, most, &case)?, "{most}");
    }
    Ok(())
}

#[test]
fn calls_of_a_thread_do_not_overlap(rt: HostRuntime) -> Result<(), Fail> {
    let zero = words(&[0])?;
    let calls = [
        (0, Call::ReadCount, 5, Some((4, Reply::Count(0)))),
        (0, Call::ReadCount, 3, Some((6, Reply::Count(0)))),
        (64, Call::ReadCount, 4, Some((5, Reply::Count(0)))),
        (1, Call::Get, 4, Some((5, Reply::Content(zero)))),
    ];
    for call in calls {
        let is_seen = match made(&rt, 0, &[WRITE, call, WRITE], 2)? {
            Some(observed) => is_observed(&observed),
            None => true,
        };
        assert!(rt; !is_seen);
    }
    Ok(())
}

#[test]
fn positions_are_below_2_to_the_58(rt: HostRuntime) -> Result<(), Fail> {
    let table = [
        (END_OF_POSITIONS - 1, END_OF_POSITIONS - 1, true),
        (END_OF_POSITIONS - 1, END_OF_POSITIONS, false),
        (END_OF_POSITIONS, END_OF_POSITIONS, false),
    ];
    for (first, last, fits) in table {
        let call = (0, Call::ReadCount, first, Some((last, Reply::Count(0))));
        assert!(rt; made(&rt, 0, &[call; 3], 1)?.is_some() == fits);
    }
    Ok(())
}

/// The one reply that was found, if any, or why none is known.
type Only = Result<Option<Reply>, PossibleError>;

/// What was found; memory, where it is more than one.
fn only(replies: Result<Vec<Reply>, PossibleError>) -> Only {
    let replies = replies?;
    if replies.len() > 1 {
        return Err(PossibleError::Memory);
    }
    Ok(replies.first().copied())
}

/// The entries of the record that explains the two calls are these.
fn is_explained_by(
    rt: &impl AllocGlobal,
    calls: &[Short; 3],
    entries: &[Entry; 2],
) -> Result<bool, Fail> {
    let Some(observed) = made(rt, 0, calls, 2)? else {
        return Ok(false);
    };
    if !is_observed(&observed) {
        return Ok(false);
    }
    match explain(rt.alloc(), &observed, 100) {
        Ok(record) => Ok(record.entries() == entries.as_slice()),
        Err(_) => Ok(false),
    }
}

#[test]
fn calls_of_one_position_have_points_one_after_the_other(rt: HostRuntime) -> Result<(), Fail> {
    let during = (1, Call::Optimistic, 1, Some((2, Reply::Stamp(256))));
    let entries = [
        entry(1, Call::Optimistic, Reply::Stamp(256), (64, 64, 191)),
        entry(0, Call::TryWrite, Reply::Stamp(384), (0, 65, 255)),
    ];
    assert!(rt; is_explained_by(&rt, &[WRITE, during, WRITE], &entries)?);
    Ok(())
}

#[test]
fn a_call_under_way_that_took_effect_ends_with_the_history(rt: HostRuntime) -> Result<(), Fail> {
    let failed = (1, Call::TryWrite, 2, Some((3, Reply::Stamp(0))));
    let entries = [
        entry(0, Call::WriteLock, Reply::Stamp(384), (64, 64, 255)),
        entry(1, Call::TryWrite, Reply::Stamp(0), (128, 128, 255)),
    ];
    let calls = [(0, Call::WriteLock, 1, None), failed, WRITE];
    assert!(rt; is_explained_by(&rt, &calls, &entries)?);
    Ok(())
}

/// A write lock that is under way, and then a write that failed, recorded in this order.
fn recorded_before_failed(rt: &impl AllocGlobal) -> Result<Record, Fail> {
    let Ok(limits) = Limits::new(127, 1000) else {
        return Err(Fail::from("limits"));
    };
    let mut entries = Vec::new(rt.alloc());
    entries.push(Observation {
        thread: 0,
        call: Call::WriteLock,
        first: 1,
        returned: None,
    })?;
    entries.push(Observation {
        thread: 1,
        call: Call::TryWrite,
        first: 2,
        returned: Some(Returned {
            last: 3,
            reply: Reply::Stamp(0),
        }),
    })?;
    let Some(observed) = Observed::of(limits, 0, entries) else {
        return Err(Fail::from("observed"));
    };
    if !is_observed(&observed) {
        return Err(Fail::from("is_observed"));
    }
    Ok(recorded_in_order(rt.alloc(), &observed, &[0, 1])?)
}

#[test]
fn a_call_under_way_is_given_the_reply_that_its_place_in_the_order_gives(
    rt: HostRuntime,
) -> Result<(), Fail> {
    let entries = [
        entry(0, Call::WriteLock, Reply::Stamp(384), (64, 64, 255)),
        entry(1, Call::TryWrite, Reply::Stamp(0), (128, 128, 255)),
    ];
    let record = recorded_before_failed(&rt)?;
    assert!(rt; record.entries() == entries.as_slice());
    Ok(())
}

/// Whether this is found of a read after the acquisition of a write, among three replies and among all.
fn is_found(rt: &impl AllocGlobal, most: u64, found: Only) -> Result<bool, Fail> {
    let read = (1, Call::TryRead, 4, Some((5, Reply::Stamp(257))));
    let Some(observed) = made(rt, 0, &[WRITE, read, WRITE], 2)? else {
        return Ok(false);
    };
    if !is_observed(&observed) || !has_returned_at(&observed, 1) {
        return Ok(false);
    }
    let tried = [Reply::Stamp(257), Reply::Stamp(0), Reply::Stamp(513)];
    let among = only(possible_among(rt.alloc(), &observed, 1, &tried, most));
    let all = only(possible_at(rt.alloc(), &observed, 1, most));
    Ok(among == found && all == found)
}

#[test]
fn a_read_after_a_write_acquisition_could_have_had_0_alone(rt: HostRuntime) -> Result<(), Fail> {
    assert!(rt; is_found(&rt, 100, Ok(Some(Reply::Stamp(0))))?);
    assert!(rt; is_found(&rt, 0, Err(PossibleError::Undecided))?);
    Ok(())
}
