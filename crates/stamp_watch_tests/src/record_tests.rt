use crate::fixtures::{done, gets, got, limits, puts, puts_if};
use stamp_core::{Call, Reply};
use stamp_watch::{Event, Verdict, judge_run};
use std::test::Fail;

/// Whether this is the verdict on a run of a lock and its record.
fn gives(rt: &impl AllocGlobal, events: &[Event], expected: Verdict) -> Result<bool, Fail> {
    Ok(judge_run(rt.alloc(), limits(127, 1000)?, events, 100)? == expected)
}

fn explains(rt: &impl AllocGlobal, events: &[Event]) -> Result<bool, Fail> {
    gives(rt, events, Verdict::Explained)
}

fn is_stuck(rt: &impl AllocGlobal, events: &[Event], number: u64) -> Result<bool, Fail> {
    gives(rt, events, Verdict::Stuck(number))
}

#[test]
fn what_was_put_is_got(rt: HostRuntime) -> Result<(), Fail> {
    let under_the_lock = [
        Event::Begins(0, Call::TryWrite),
        Event::Returns(0, Reply::Stamp(384)),
        puts(0, 7),
        done(0),
        Event::Begins(0, Call::UnlockWrite(384)),
        done(0),
        Event::Begins(1, Call::Optimistic),
        Event::Returns(1, Reply::Stamp(512)),
        gets(1),
        got(1, 7),
        Event::Begins(1, Call::Validate(512)),
        Event::Returns(1, Reply::Yes),
    ];
    assert!(rt; explains(&rt, &under_the_lock)?);
    assert!(rt; explains(&rt, &[gets(0), got(0, 0)])?);
    assert!(rt; is_stuck(&rt, &[gets(0), got(0, 7)], 1)?);
    Ok(())
}

#[test]
fn a_content_is_got_that_was_there_meanwhile(rt: HostRuntime) -> Result<(), Fail> {
    let before = [gets(1), puts(0, 7), done(0), got(1, 0)];
    assert!(rt; explains(&rt, &before)?);
    let behind = [gets(1), puts(0, 7), done(0), got(1, 7)];
    assert!(rt; explains(&rt, &behind)?);
    let never = [gets(1), puts(0, 7), done(0), got(1, 8)];
    assert!(rt; is_stuck(&rt, &never, 3)?);
    let too_late = [puts(0, 7), done(0), gets(1), got(1, 0), gets(1), got(1, 7)];
    assert!(rt; is_stuck(&rt, &too_late, 3)?);
    let forth_and_back = [puts(0, 7), gets(1), got(1, 7), gets(1), got(1, 0), done(0)];
    assert!(rt; is_stuck(&rt, &forth_and_back, 4)?);
    Ok(())
}

// A reader gets a content between two puts of a writer, and its stamp is still valid.
#[test]
fn a_stamp_that_stays_valid_while_contents_are_put_is_found(rt: HostRuntime) -> Result<(), Fail> {
    let mut events = [
        Event::Begins(1, Call::Optimistic),
        Event::Returns(1, Reply::Stamp(256)),
        Event::Begins(0, Call::TryWrite),
        Event::Returns(0, Reply::Stamp(384)),
        puts(0, 1),
        done(0),
        gets(1),
        got(1, 1),
        Event::Begins(1, Call::Validate(256)),
        Event::Returns(1, Reply::Yes),
    ];
    assert!(rt; is_stuck(&rt, &events, 9)?);
    events[9] = Event::Returns(1, Reply::No);
    assert!(rt; explains(&rt, &events)?);
    Ok(())
}

#[test]
fn a_content_is_put_if_the_expected_one_is_there(rt: HostRuntime) -> Result<(), Fail> {
    let mut events = [
        puts_if(0, 0, 5),
        puts_if(1, 0, 6),
        Event::Returns(1, Reply::Yes),
        Event::Returns(0, Reply::No),
        gets(2),
        got(2, 6),
    ];
    assert!(rt; explains(&rt, &events)?);
    events[3] = Event::Returns(0, Reply::Yes);
    assert!(rt; is_stuck(&rt, &events, 3)?);
    events[3] = Event::Returns(0, Reply::No);
    events[5] = got(2, 5);
    assert!(rt; is_stuck(&rt, &events, 5)?);
    Ok(())
}
