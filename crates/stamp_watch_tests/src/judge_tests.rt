use crate::fixtures::{calls, content, limits, says, stamps, words};
use stamp_core::{Call, Layout, Limits, Reply};
use stamp_watch::{Event, Verdict, Why, judge_run};
use std::test::Fail;

/// Whether this is the verdict on a run of a lock with these limits; so many positions are kept.
fn judges(
    rt: &impl AllocGlobal,
    limits: Limits,
    most: u64,
    events: &[Event],
    expected: Verdict,
) -> Result<bool, Fail> {
    Ok(judge_run(rt.alloc(), limits, events, most)? == expected)
}

/// The same of a lock for up to 127 readers and 1,000 write acquisitions.
fn gives(
    rt: &impl AllocGlobal,
    most: u64,
    events: &[Event],
    expected: Verdict,
) -> Result<bool, Fail> {
    judges(rt, limits(127, 1000)?, most, events, expected)
}

/// Whether such a run is explained, and whether it is stuck or broken at the event with this number.
fn explains(rt: &impl AllocGlobal, events: &[Event]) -> Result<bool, Fail> {
    gives(rt, 100, events, Verdict::Explained)
}

fn is_stuck(rt: &impl AllocGlobal, events: &[Event], number: u64) -> Result<bool, Fail> {
    gives(rt, 100, events, Verdict::Stuck(number))
}

fn is_broken(rt: &impl AllocGlobal, events: &[Event], number: u64) -> Result<bool, Fail> {
    gives(rt, 100, events, Verdict::Broken(number))
}

#[test]
fn a_run_with_no_events_is_explained(rt: HostRuntime) -> Result<(), Fail> {
    assert!(rt; explains(&rt, &[])?);
    Ok(())
}

// The stamps are those of Java's lock: 256 at first, a writer is 128, a reader 1.
#[test]
fn the_reading_calls_of_one_thread_are_explained(rt: HostRuntime) -> Result<(), Fail> {
    let reading = [
        calls(0, Call::Optimistic),
        stamps(0, 256),
        calls(0, Call::Validate(256)),
        says(0, Reply::Yes),
        calls(0, Call::TryRead),
        stamps(0, 257),
        calls(0, Call::ReadLock),
        stamps(0, 258),
        calls(0, Call::ReadCount),
        says(0, Reply::Count(2)),
        calls(0, Call::UnlockRead(257)),
        says(0, Reply::Done),
        calls(0, Call::IsReadLocked),
        says(0, Reply::Yes),
        calls(0, Call::TryUnlockRead),
        says(0, Reply::Yes),
        calls(0, Call::IsReadLocked),
        says(0, Reply::No),
        calls(0, Call::TryUnlockRead),
        says(0, Reply::No),
    ];
    assert!(rt; explains(&rt, &reading)?);
    Ok(())
}

#[test]
fn the_writing_calls_of_one_thread_are_explained(rt: HostRuntime) -> Result<(), Fail> {
    let writing = [
        calls(5, Call::TryWrite),
        stamps(5, 384),
        calls(5, Call::IsWriteLocked),
        says(5, Reply::Yes),
        calls(5, Call::UnlockWrite(384)),
        says(5, Reply::Done),
        calls(5, Call::UnlockWrite(384)),
        says(5, Reply::Mismatch),
        calls(5, Call::WriteLock),
        stamps(5, 640),
        calls(5, Call::Unlock(640)),
        says(5, Reply::Done),
        calls(5, Call::Validate(256)),
        says(5, Reply::No),
        calls(5, Call::TryWrite),
        stamps(5, 896),
        calls(5, Call::TryUnlockWrite),
        says(5, Reply::Yes),
        calls(5, Call::TryUnlockWrite),
        says(5, Reply::No),
    ];
    assert!(rt; explains(&rt, &writing)?);
    Ok(())
}

#[test]
fn the_conversions_of_one_thread_are_explained(rt: HostRuntime) -> Result<(), Fail> {
    let converting = [
        calls(63, Call::Optimistic),
        stamps(63, 256),
        calls(63, Call::ToRead(256)),
        stamps(63, 257),
        calls(63, Call::ToWrite(257)),
        stamps(63, 384),
        calls(63, Call::ToRead(384)),
        stamps(63, 513),
        calls(63, Call::ToOptimistic(513)),
        stamps(63, 512),
        calls(63, Call::ToWrite(512)),
        stamps(63, 640),
        calls(63, Call::ToOptimistic(640)),
        stamps(63, 768),
        calls(63, Call::ToWrite(512)),
        stamps(63, 0),
    ];
    assert!(rt; explains(&rt, &converting)?);
    Ok(())
}

#[test]
fn calls_that_overlap_may_have_either_order(rt: HostRuntime) -> Result<(), Fail> {
    let seen_before_the_write = [
        calls(0, Call::TryWrite),
        calls(1, Call::Optimistic),
        stamps(1, 256),
        stamps(0, 384),
    ];
    assert!(rt; explains(&rt, &seen_before_the_write)?);
    let readers_in_the_other_order = [
        calls(0, Call::TryRead),
        calls(1, Call::TryRead),
        calls(2, Call::ReadLock),
        stamps(0, 259),
        stamps(1, 258),
        stamps(2, 257),
    ];
    assert!(rt; explains(&rt, &readers_in_the_other_order)?);
    let a_waiter_behind_a_release = [
        calls(0, Call::TryWrite),
        stamps(0, 384),
        calls(1, Call::WriteLock),
        calls(0, Call::UnlockWrite(384)),
        stamps(1, 640),
        says(0, Reply::Done),
    ];
    assert!(rt; explains(&rt, &a_waiter_behind_a_release)?);
    Ok(())
}

#[test]
fn a_run_is_stuck_at_the_first_event_that_nothing_explains(rt: HostRuntime) -> Result<(), Fail> {
    let two_writers = [
        calls(0, Call::TryWrite),
        calls(1, Call::TryWrite),
        stamps(0, 384),
        stamps(1, 640),
    ];
    assert!(rt; is_stuck(&rt, &two_writers, 3)?);
    let seen_after_the_write = [
        calls(0, Call::TryWrite),
        stamps(0, 384),
        calls(1, Call::Optimistic),
        stamps(1, 256),
    ];
    assert!(rt; is_stuck(&rt, &seen_after_the_write, 3)?);
    let valid_after_a_write = [
        calls(1, Call::Optimistic),
        stamps(1, 256),
        calls(0, Call::TryWrite),
        stamps(0, 384),
        calls(0, Call::UnlockWrite(384)),
        says(0, Reply::Done),
        calls(1, Call::Validate(256)),
        says(1, Reply::Yes),
        calls(1, Call::Optimistic),
        stamps(1, 512),
    ];
    assert!(rt; is_stuck(&rt, &valid_after_a_write, 7)?);
    let a_stamp_that_was_given_already = [
        calls(0, Call::TryRead),
        calls(1, Call::TryRead),
        calls(2, Call::TryRead),
        calls(4, Call::ReadCount),
        says(4, Reply::Count(2)),
        stamps(0, 257),
        stamps(1, 257),
        stamps(2, 258),
    ];
    assert!(rt; is_stuck(&rt, &a_stamp_that_was_given_already, 6)?);
    Ok(())
}

#[test]
fn a_call_that_never_ends_may_be_in_effect_or_not(rt: HostRuntime) -> Result<(), Fail> {
    let in_effect = [
        calls(0, Call::WriteLock),
        calls(1, Call::IsWriteLocked),
        says(1, Reply::Yes),
        calls(1, Call::TryRead),
        stamps(1, 0),
    ];
    assert!(rt; explains(&rt, &in_effect)?);
    let not_in_effect = [
        calls(0, Call::WriteLock),
        calls(1, Call::IsWriteLocked),
        says(1, Reply::No),
        calls(1, Call::TryWrite),
        stamps(1, 384),
    ];
    assert!(rt; explains(&rt, &not_in_effect)?);
    let in_effect_and_not = [
        calls(0, Call::WriteLock),
        calls(1, Call::IsWriteLocked),
        says(1, Reply::Yes),
        calls(1, Call::TryRead),
        stamps(1, 257),
    ];
    assert!(rt; is_stuck(&rt, &in_effect_and_not, 4)?);
    let more_readers_than_began = [
        calls(0, Call::ReadLock),
        calls(1, Call::ReadCount),
        says(1, Reply::Count(2)),
    ];
    assert!(rt; is_stuck(&rt, &more_readers_than_began, 2)?);
    Ok(())
}

#[test]
fn a_withdrawn_call_took_no_effect(rt: HostRuntime) -> Result<(), Fail> {
    let left_out = [
        calls(0, Call::TryWrite),
        stamps(0, 384),
        calls(1, Call::WriteLock),
        Event::Withdraws(1),
        calls(1, Call::TryRead),
        stamps(1, 0),
        calls(0, Call::UnlockWrite(384)),
        says(0, Reply::Done),
        calls(1, Call::TryWrite),
        stamps(1, 640),
    ];
    assert!(rt; explains(&rt, &left_out)?);
    let needed = [
        calls(0, Call::WriteLock),
        calls(1, Call::IsWriteLocked),
        says(1, Reply::Yes),
        Event::Withdraws(0),
    ];
    assert!(rt; is_stuck(&rt, &needed, 3)?);
    Ok(())
}

fn put_of_two_words() -> Result<Call, Fail> {
    Ok(Call::Put(words(&[7, 8])?))
}

#[test]
fn events_out_of_form_break_a_run(rt: HostRuntime) -> Result<(), Fail> {
    let begun_twice = [calls(0, Call::TryRead), calls(0, Call::TryRead)];
    assert!(rt; is_broken(&rt, &begun_twice, 1)?);
    let never_begun = [calls(0, Call::TryRead), stamps(1, 257)];
    assert!(rt; is_broken(&rt, &never_begun, 1)?);
    let returned_twice = [calls(0, Call::TryRead), stamps(0, 257), stamps(0, 257)];
    assert!(rt; is_broken(&rt, &returned_twice, 2)?);
    let nothing_to_withdraw = [Event::Withdraws(0)];
    assert!(rt; is_broken(&rt, &nothing_to_withdraw, 0)?);
    let no_such_lane = [calls(64, Call::TryRead), stamps(64, 257)];
    assert!(rt; is_broken(&rt, &no_such_lane, 0)?);
    assert!(rt; is_broken(&rt, &[calls(0, put_of_two_words()?)], 0)?);
    assert!(rt; is_broken(&rt, &[calls(0, Call::Get), says(0, content(&[7, 8])?)], 1)?);
    Ok(())
}

#[test]
fn of_two_faults_the_first_is_told(rt: HostRuntime) -> Result<(), Fail> {
    let stuck_and_broken = [calls(0, Call::TryRead), stamps(0, 258), stamps(0, 258)];
    assert!(rt; is_stuck(&rt, &stuck_and_broken, 1)?);
    let broken_and_stuck = [
        calls(0, Call::TryRead),
        calls(0, Call::TryRead),
        stamps(0, 258),
    ];
    assert!(rt; is_broken(&rt, &broken_and_stuck, 1)?);
    Ok(())
}

/// Either reader may be the one that counts, and one of them is as it was told later: the run is stuck at its last
/// event. That takes two configurations.
fn either() -> [Event; 6] {
    [
        calls(0, Call::TryRead),
        calls(1, Call::ReadLock),
        calls(2, Call::ReadCount),
        says(2, Reply::Count(1)),
        stamps(0, 258),
        stamps(1, 258),
    ]
}

#[test]
fn a_run_is_undecided_where_too_many_configurations_are_possible(
    rt: HostRuntime,
) -> Result<(), Fail> {
    let either = either();
    assert!(rt; gives(&rt, 2, &either, Verdict::Stuck(5))?);
    assert!(rt; gives(&rt, 1, &either, Verdict::StuckWithin(3, 6))?);
    assert!(rt; gives(&rt, 1, &either[..4], Verdict::Undecided(3, Why::TooMany))?);
    assert!(rt; gives(&rt, 1, &either[..3], Verdict::Explained)?);
    Ok(())
}

#[test]
fn limits_and_layout_are_those_of_the_lock(rt: HostRuntime) -> Result<(), Fail> {
    let limits = Limits::in_layout(Layout::Two, 1, 1)?;
    let at_the_limits = [
        calls(0, Call::TryRead),
        stamps(0, 131_073),
        calls(1, Call::TryRead),
        stamps(1, 0),
        calls(0, Call::UnlockRead(131_073)),
        says(0, Reply::Done),
        calls(1, Call::TryWrite),
        stamps(1, 196_608),
        calls(1, Call::UnlockWrite(196_608)),
        says(1, Reply::Done),
        calls(0, Call::WriteLock),
        stamps(0, 0),
    ];
    assert!(rt; judges(&rt, limits, 100, &at_the_limits, Verdict::Explained)?);
    let beyond = [
        calls(0, Call::TryRead),
        stamps(0, 131_073),
        calls(1, Call::TryRead),
        stamps(1, 131_074),
    ];
    assert!(rt; judges(&rt, limits, 100, &beyond, Verdict::Stuck(3))?);
    Ok(())
}
