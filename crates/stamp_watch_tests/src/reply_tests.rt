use crate::fixtures::{content, limits, returned, words};
use stamp_core::{Call, Reply};
use stamp_explain::{Observation, Observed, has_returned_at, is_observed};
use stamp_watch::{PossibleError, possible_among};
use std::test::Fail;

/// Which of these replies the second of two calls could have had.
fn among(
    rt: &impl AllocGlobal,
    width: u64,
    calls: &[Observation],
    tried: &[Reply],
    most: u64,
) -> Result<Result<Vec<Reply>, PossibleError>, Fail> {
    let mut entries = Vec::new(rt.alloc());
    for call in calls {
        entries.push(*call)?;
    }
    let observed = Observed::of(limits(127, 1000)?, width, entries).ok_or("history")?;
    if !is_observed(&observed) || !has_returned_at(&observed, 1) {
        return Err(Fail::from("observed"));
    }
    Ok(possible_among(rt.alloc(), &observed, 1, tried, most))
}

/// Whether it could have had these alone, in this order.
fn had(
    rt: &impl AllocGlobal,
    width: u64,
    calls: &[Observation],
    tried: &[Reply],
    expected: &[Reply],
) -> Result<bool, Fail> {
    let Ok(found) = among(rt, width, calls, tried, 100)? else {
        return Err(Fail::from("refused"));
    };
    Ok(found.as_slice() == expected)
}

/// A read behind a write acquisition.
fn read_behind() -> [Observation; 2] {
    [
        returned(0, Call::TryWrite, 0, 3, Reply::Stamp(384)),
        returned(1, Call::TryRead, 4, 5, Reply::Stamp(257)),
    ]
}

const OF_A_READ: [Reply; 4] = [
    Reply::Stamp(257),
    Reply::Stamp(0),
    Reply::Stamp(513),
    Reply::Yes,
];

#[test]
fn a_read_after_a_write_acquisition_could_have_had_0_alone(rt: HostRuntime) -> Result<(), Fail> {
    assert!(rt; had(&rt, 0, &read_behind(), &OF_A_READ, &[Reply::Stamp(0)])?);
    let undecided = among(&rt, 0, &read_behind(), &OF_A_READ, 0)?;
    assert!(rt; undecided.err() == Some(PossibleError::Undecided));
    Ok(())
}

/// These two words are put from positions 0 to 3, and the put is answered so.
fn put(reply: Reply) -> Result<Observation, Fail> {
    let call = Call::Put(words(&[7, 8])?);
    Ok(returned(0, call, 0, 3, reply))
}

/// Whether a get that begins at this position, and was told this content, could have had those alone of five replies.
fn got(rt: &impl AllocGlobal, first: u64, told: &[u64], expected: &[Reply]) -> Result<bool, Fail> {
    let get = returned(1, Call::Get, first, 5, content(told)?);
    let calls = [put(Reply::Done)?, get];
    let tried = [
        content(&[7, 9])?,
        content(&[7, 8])?,
        content(&[7])?,
        Reply::Done,
        content(&[0, 0])?,
    ];
    had(rt, 2, &calls, &tried, expected)
}

#[test]
fn a_get_beside_a_put_could_have_had_either_content(rt: HostRuntime) -> Result<(), Fail> {
    let new = content(&[7, 8])?;
    assert!(rt; got(&rt, 2, &[7, 9], &[new, content(&[0, 0])?])?);
    assert!(rt; got(&rt, 4, &[7], &[new])?);
    Ok(())
}

/// The same of a get behind a put that is answered words.
fn got_behind_words(rt: &impl AllocGlobal, expected: &[Reply]) -> Result<bool, Fail> {
    let get = returned(1, Call::Get, 4, 5, content(&[7, 8])?);
    let calls = [put(content(&[7])?)?, get];
    had(rt, 2, &calls, &[content(&[7, 8])?], expected)
}

/// Whether a question to a free lock that has no record, and is answered words, could have had these alone.
fn answered(rt: &impl AllocGlobal, expected: &[Reply]) -> Result<bool, Fail> {
    let calls = [
        returned(0, Call::IsReadLocked, 0, 3, Reply::No),
        returned(1, Call::IsWriteLocked, 4, 5, content(&[7])?),
    ];
    let tried = [content(&[7])?, Reply::No, Reply::Yes];
    had(rt, 0, &calls, &tried, expected)
}

// A put is never answered words.
#[test]
fn no_reply_is_possible_behind_a_content_that_the_record_cannot_hold(
    rt: HostRuntime,
) -> Result<(), Fail> {
    assert!(rt; got_behind_words(&rt, &[])?);
    assert!(rt; answered(&rt, &[Reply::No])?);
    Ok(())
}
