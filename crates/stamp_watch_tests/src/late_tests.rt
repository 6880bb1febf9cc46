ghost use Rattle.std.specs.Prelude.{IfOk, OnOk};
ghost use Rattle.stamp_watch.specs.LateJudge.{HasFoundNothingLater, IsLateJudgeOfSome};
ghost use Rattle.stamp_watch.specs.PossibleLate.{KeepsSomeLater};

use crate::fixtures::{calls, done, gets, got, limits, must, not_full, puts, says, small, stamps};
use stamp_core::{Call, LockCall, Reply};
use stamp_watch::{EndedCall, Event, LateJudge, LateVerdict, SmallCall, StreamEvent, Verdict};
use std::test::Fail;

/// Gives these events to the judge: what is found then.
fn pushed(judge: &mut LateJudge, events: &[Event]) -> Result<Option<LateVerdict>, Fail>
    requires { IsLateJudgeOfSome judge.old }
    ensures { OnOk result (IsLateJudgeOfSome judge.new) }
{
    let mut found = None;
    for event in events {
        not_full(judge.is_full())?;
        found = judge.push(&small(event)?)?;
    }
    Ok(found)
}

/// The judge of a lock for up to 127 readers and 1,000 write acquisitions.
fn judge(rt: &impl AllocGlobal, ahead: usize) -> Result<LateJudge, Fail>
    ensures known { IfOk result (λ judge. IsLateJudgeOfSome judge) }
    ensures none { IfOk result HasFoundNothingLater }
{
    Ok(LateJudge::new(rt.alloc(), limits(127, 1000)?, 100, ahead)?)
}

/// Whether this is found while the events come, and that at their end.
fn goes(
    judge: &mut LateJudge,
    events: &[Event],
    meanwhile: Option<LateVerdict>,
    at_end: LateVerdict,
) -> Result<bool, Fail>
    requires { IsLateJudgeOfSome judge.old }
{
    let found = pushed(judge, events)?;
    Ok(found == meanwhile && judge.finish()? == at_end)
}

/// So it is where a call may be open for four events before it is put aside.
fn finds(
    rt: &impl AllocGlobal,
    events: &[Event],
    meanwhile: Option<LateVerdict>,
    at_end: LateVerdict,
) -> Result<bool, Fail> {
    let mut judge = judge(rt, 68)?;
    goes(&mut judge, events, meanwhile, at_end)
}

/// Whether nothing is found while they come, and they are explained.
fn explains(rt: &impl AllocGlobal, events: &[Event]) -> Result<bool, Fail> {
    finds(rt, events, None, LateVerdict::Is(Verdict::Explained))
}

/// Whether this is found while the first of these events come and then the others, and at their end.
fn finds_of_both(
    rt: &impl AllocGlobal,
    first: &[Event],
    then: &[Event],
    found: LateVerdict,
) -> Result<bool, Fail> {
    let mut events = Vec::new(rt.alloc());
    events.extend_from_slice(first)?;
    events.extend_from_slice(then)?;
    finds(rt, events.as_slice(), Some(found), found)
}

/// A writer waits while another comes first, and until some have looked at the lock.
fn waits() -> [Event; 12] {
    [
        calls(0, Call::WriteLock),
        calls(1, Call::TryWrite),
        stamps(1, 384),
        calls(1, Call::UnlockWrite(384)),
        says(1, Reply::Done),
        calls(1, Call::Optimistic),
        stamps(1, 512),
        calls(1, Call::Optimistic),
        stamps(1, 512),
        calls(1, Call::Optimistic),
        stamps(1, 512),
        stamps(0, 640),
    ]
}

#[test]
fn a_run_is_explained_whose_calls_wait_for_long(rt: HostRuntime) -> Result<(), Fail> {
    assert!(rt; explains(&rt, &[])?);
    assert!(rt; explains(&rt, &waits())?);
    assert!(rt; explains(&rt, &waits()[..11])?);
    Ok(())
}

#[test]
fn a_run_that_is_stuck_before_its_late_calls_is_found(rt: HostRuntime) -> Result<(), Fail> {
    let stuck_first = [calls(2, Call::IsWriteLocked), says(2, Reply::Yes)];
    let stuck = LateVerdict::Is(Verdict::Stuck(1));
    assert!(rt; finds_of_both(&rt, &stuck_first, &waits(), stuck)?);
    Ok(())
}

/// The lock is held for writing once `waits` has come.
fn not_held() -> [Event; 2] {
    [calls(1, Call::IsWriteLocked), says(1, Reply::No)]
}

#[test]
fn older_stamps_show_that_a_late_writer_loses_nothing(rt: HostRuntime) -> Result<(), Fail> {
    let stuck = LateVerdict::Is(Verdict::Stuck(13));
    assert!(rt; finds_of_both(&rt, &waits(), &not_held(), stuck)?);
    Ok(())
}

/// As `waits`, but the last calls before the writer returns answer no stamps.
fn asks() -> [Event; 12] {
    [
        calls(0, Call::WriteLock),
        calls(1, Call::TryWrite),
        stamps(1, 384),
        calls(1, Call::UnlockWrite(384)),
        says(1, Reply::Done),
        calls(1, Call::Optimistic),
        stamps(1, 512),
        calls(1, Call::ReadCount),
        says(1, Reply::Count(0)),
        calls(1, Call::ReadCount),
        says(1, Reply::Count(0)),
        stamps(0, 640),
    ]
}

#[test]
fn a_run_is_late_where_nothing_shows_that_none_is_lost(rt: HostRuntime) -> Result<(), Fail> {
    assert!(rt; explains(&rt, &asks())?);
    let late = LateVerdict::Late(13);
    assert!(rt; finds_of_both(&rt, &asks(), &not_held(), late)?);
    Ok(())
}

/// A writer waits on, and another thread sees that it holds the lock.
fn waits_on() -> [Event; 9] {
    [
        calls(0, Call::WriteLock),
        calls(1, Call::IsWriteLocked),
        says(1, Reply::Yes),
        calls(1, Call::ReadCount),
        says(1, Reply::Count(0)),
        calls(1, Call::ReadCount),
        says(1, Reply::Count(0)),
        calls(1, Call::ReadCount),
        says(1, Reply::Count(0)),
    ]
}

#[test]
fn a_run_is_late_while_a_call_waits_on(rt: HostRuntime) -> Result<(), Fail> {
    let late = LateVerdict::Late(1);
    assert!(rt; finds(&rt, &waits_on(), Some(late), late)?);
    assert!(rt; explains(&rt, &waits_on()[..4])?);
    Ok(())
}

#[test]
fn an_event_that_may_not_come_breaks_a_run_with_late_calls(rt: HostRuntime) -> Result<(), Fail> {
    let again = [stamps(0, 640)];
    let broken = LateVerdict::Is(Verdict::Broken(12));
    assert!(rt; finds_of_both(&rt, &waits(), &again, broken)?);
    Ok(())
}

#[test]
fn a_run_is_broken_while_a_call_waits_on(rt: HostRuntime) -> Result<(), Fail> {
    let never = [
        calls(0, Call::ReadCount),
        calls(64, Call::ReadCount),
        says(1, Reply::Done),
        Event::Withdraws(2),
    ];
    let broken = LateVerdict::Is(Verdict::Broken(11));
    for event in never {
        assert!(rt; finds_of_both(&rt, &waits()[..11], &[event], broken)?);
    }
    Ok(())
}

/// Another thread is told that it holds the lock, which nobody does.
fn held() -> [Event; 2] {
    [calls(1, Call::IsWriteLocked), says(1, Reply::Yes)]
}

/// Whether it keeps so many events.
fn keeps(judge: &LateJudge, many: usize) -> bool
    requires { IsLateJudgeOfSome judge.now }
{
    judge.kept() == many
}

/// Whether the event with this number ends this call.
fn ends(judge: &LateJudge, number: u64, ended: EndedCall) -> bool {
    judge.ended_at(number) == Some(ended)
}

fn waits_no_longer(judge: &mut LateJudge) -> Result<(), Fail>
    requires { IsLateJudgeOfSome judge.old }
{
    let stuck = LateVerdict::Is(Verdict::Stuck(1));
    must(pushed(judge, &held())? == Some(stuck), "stuck")?;
    must(keeps(judge, 2), "both are kept")?;
    let ended = EndedCall {
        lane: 1,
        call: Call::IsWriteLocked,
        reply: Some(Reply::Yes),
    };
    must(ends(judge, 1, ended), "the call that ends")
}

#[test]
fn events_wait_only_while_a_call_is_open(rt: HostRuntime) -> Result<(), Fail> {
    let mut judge = judge(&rt, 1_000_000)?;
    waits_no_longer(&mut judge)
}

/// Gives this event to the judge, which finds nothing then.
fn going(judge: &mut LateJudge, event: &StreamEvent) -> Result<(), Fail>
    requires { IsLateJudgeOfSome judge.old }
    ensures known { OnOk result (IsLateJudgeOfSome judge.new) }
    ensures none { OnOk result (HasFoundNothingLater judge.new) }
{
    not_full(judge.is_full())?;
    match judge.push(event)? {
        None => Ok(()),
        Some(_) => Err(Fail::from("found")),
    }
}

/// Whether it was given so many events.
fn counts(judge: &LateJudge, events: u64) -> bool
    requires known { IsLateJudgeOfSome judge.now }
    requires none { HasFoundNothingLater judge.now }
{
    judge.count() == events
}

/// Whether so many of them are explained, and so many calls are open.
fn is_at(judge: &LateJudge, explained: u64, open: u64) -> bool
    requires known { IsLateJudgeOfSome judge.now }
    requires none { HasFoundNothingLater judge.now }
{
    judge.explained() == explained && judge.open_calls() == open
}

fn tells_how_far(judge: &mut LateJudge) -> Result<(), Fail>
    requires known { IsLateJudgeOfSome judge.old }
    requires none { HasFoundNothingLater judge.old }
{
    must(counts(judge, 0), "none at first")?;
    let asked = StreamEvent::begins(1, SmallCall::OfLock(LockCall::IsWriteLocked));
    going(judge, &asked)?;
    must(counts(judge, 1), "one")?;
    must(is_at(judge, 0, 1), "one is open")
}

#[test]
fn a_judge_of_late_calls_tells_how_far_it_is(rt: HostRuntime) -> Result<(), Fail> {
    let mut judge = judge(&rt, 1_000)?;
    tells_how_far(&mut judge)
}

/// Whether a question that returns at the event with this number could have had these replies alone.
fn could(judge: &LateJudge, number: u64, expected: &[Reply]) -> Result<bool, Fail>
    requires { KeepsSomeLater judge.now }
{
    let Some(told) = judge.possible_at(number, &Call::IsWriteLocked)? else {
        return Err(Fail::from("not told"));
    };
    Ok(told.as_slice() == expected)
}

/// Whether it isn't told which replies it could have had.
fn is_untold(judge: &LateJudge, number: u64) -> Result<bool, Fail>
    requires { KeepsSomeLater judge.now }
{
    Ok(judge.possible_at(number, &Call::IsWriteLocked)?.is_none())
}

fn tells_in_time(judge: &mut LateJudge) -> Result<(), Fail>
    requires { IsLateJudgeOfSome judge.old }
{
    pushed(judge, &held())?;
    must(could(judge, 1, &[Reply::No])?, "no")?;
    pushed(judge, &waits_on())?;
    must(is_untold(judge, 4)?, "none behind a late call")
}

#[test]
fn possible_replies_are_told_of_calls_that_begin_in_time(rt: HostRuntime) -> Result<(), Fail> {
    let mut judge = judge(&rt, 68)?;
    tells_in_time(&mut judge)
}

#[test]
fn a_put_that_is_open_for_long_begins_late(rt: HostRuntime) -> Result<(), Fail> {
    let mut events = [
        puts(0, 7),
        gets(1),
        got(1, 0),
        gets(1),
        got(1, 0),
        gets(1),
        got(1, 0),
        gets(1),
        got(1, 0),
        done(0),
        gets(1),
        got(1, 7),
    ];
    assert!(rt; explains(&rt, &events)?);
    events[2] = got(1, 7);
    let late = LateVerdict::Late(1);
    assert!(rt; finds(&rt, &events, Some(late), late)?);
    Ok(())
}
