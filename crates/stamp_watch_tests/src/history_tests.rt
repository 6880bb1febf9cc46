use crate::fixtures::{content, limits, returned, words};
use stamp_core::{Call, Reply};
use stamp_explain::{Observation, Observed, is_observed};
use stamp_watch::{ExplainError, judge_history};
use std::test::Fail;

/// A call that began at this position, and is under way.
fn under_way(thread: u64, call: Call, first: u64) -> Observation {
    Observation {
        thread,
        call,
        first,
        returned: None,
    }
}

/// What is found of the history of these calls; so many positions are kept.
fn found(
    rt: &impl AllocGlobal,
    width: u64,
    most: u64,
    calls: &[Observation],
) -> Result<Result<(), ExplainError>, Fail> {
    let mut entries = Vec::new(rt.alloc());
    for call in calls {
        entries.push(*call)?;
    }
    let observed = Observed::of(limits(127, 1000)?, width, entries).ok_or("not small")?;
    if !is_observed(&observed) {
        return Err(Fail::from("not observed"));
    }
    Ok(judge_history(rt.alloc(), &observed, most))
}

/// Whether some order explains the history of these calls; so many positions are kept.
fn explains(
    rt: &impl AllocGlobal,
    width: u64,
    most: u64,
    calls: &[Observation],
) -> Result<bool, Fail> {
    Ok(found(rt, width, most, calls)? == Ok(()))
}

/// Whether it is refused so.
fn refuses(
    rt: &impl AllocGlobal,
    width: u64,
    most: u64,
    calls: &[Observation],
    error: ExplainError,
) -> Result<bool, Fail> {
    Ok(found(rt, width, most, calls)? == Err(error))
}

/// A write acquired from positions 0 to 3.
fn write() -> Observation {
    returned(0, Call::TryWrite, 0, 3, Reply::Stamp(384))
}

/// The optimistic stamp of before, from the one position to the other.
fn stamp(first: u64, last: u64) -> Observation {
    returned(1, Call::Optimistic, first, last, Reply::Stamp(256))
}

#[test]
fn a_history_is_stuck_at_the_entry_that_returns_what_none_explains(
    rt: HostRuntime,
) -> Result<(), Fail> {
    assert!(rt; explains(&rt, 0, 100, &[])?);
    assert!(rt; explains(&rt, 0, 100, &[write(), stamp(1, 2)])?);
    assert!(rt; refuses(&rt, 0, 100, &[stamp(4, 5), write()], ExplainError::Stuck(0))?);
    assert!(rt; refuses(&rt, 0, 100, &[write(), stamp(4, 5)], ExplainError::Stuck(1))?);
    assert!(rt;
        explains(
            &rt,
            0,
            100,
            &[under_way(0, Call::WriteLock, 1), stamp(4, 5)]
        )?
    );
    Ok(())
}

/// The history in which these two words are put, and another call of a get tells that content.
fn told(row: &[u64]) -> Result<[Observation; 2], Fail> {
    let get = returned(1, Call::Get, 2, 3, content(row)?);
    let put = returned(0, Call::Put(words(&[7, 8])?), 0, 1, Reply::Done);
    Ok([get, put])
}

#[test]
fn a_content_of_another_width_is_never_explained(rt: HostRuntime) -> Result<(), Fail> {
    let stuck = ExplainError::Stuck(0);
    assert!(rt; explains(&rt, 2, 100, &told(&[7, 8])?)?);
    assert!(rt; refuses(&rt, 2, 100, &told(&[8, 7])?, stuck)?);
    assert!(rt; refuses(&rt, 2, 100, &told(&[7])?, stuck)?);
    assert!(rt; refuses(&rt, 2, 100, &told(&[7, 8, 0])?, stuck)?);
    Ok(())
}

#[test]
fn without_a_record_no_content_is_explained(rt: HostRuntime) -> Result<(), Fail> {
    let answered = returned(1, Call::Optimistic, 1, 2, content(&[0])?);
    let calls = [write(), answered];
    assert!(rt; refuses(&rt, 0, 100, &calls, ExplainError::Stuck(1))?);
    assert!(rt; refuses(&rt, 1, 100, &calls, ExplainError::Stuck(1))?);
    Ok(())
}

/// One reader is counted.
fn one_is_counted() -> Observation {
    returned(2, Call::ReadCount, 2, 3, Reply::Count(1))
}

/// Either reader may be the one that counts, and one of them is as it was told later: the history is stuck at the last
/// return. That takes two positions.
fn either() -> [Observation; 3] {
    [
        returned(0, Call::TryRead, 0, 4, Reply::Stamp(258)),
        returned(1, Call::ReadLock, 1, 5, Reply::Stamp(258)),
        one_is_counted(),
    ]
}

fn both_under_way() -> [Observation; 3] {
    [
        under_way(0, Call::TryRead, 0),
        under_way(1, Call::ReadLock, 1),
        one_is_counted(),
    ]
}

#[test]
fn where_too_few_positions_are_kept_it_is_undecided(rt: HostRuntime) -> Result<(), Fail> {
    assert!(rt; refuses(&rt, 0, 2, &either(), ExplainError::Stuck(1))?);
    assert!(rt; refuses(&rt, 0, 1, &either(), ExplainError::StuckWithin(2, 1))?);
    assert!(rt; explains(&rt, 0, 2, &both_under_way())?);
    assert!(rt; refuses(&rt, 0, 1, &both_under_way(), ExplainError::Undecided(2))?);
    Ok(())
}
