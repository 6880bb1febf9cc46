ghost use Rattle.std.specs.Prelude.{IfOk, OnOk};
ghost use Rattle.stamp_watch.specs.Judge.{HasFoundNothing, IsJudgeOfSome};
ghost use Rattle.stamp_watch.specs.Possible.{IsKeeping};

use crate::fixtures::{calls, done, gets, got, limits, must, not_full, puts, says, small, stamps};
use stamp_core::{Call, LockReply, Reply};
use stamp_watch::{Event, Judge, SmallCall, SmallReply, Verdict, Why, judge_run};
use std::test::Fail;

/// The judge of a lock for up to 127 readers and 1,000 write acquisitions.
fn judge(rt: &impl AllocGlobal, most: u64, ahead: usize) -> Result<Judge, Fail>
    ensures { IfOk result (λ judge. IsJudgeOfSome judge) }
{
    Ok(Judge::new(rt.alloc(), limits(127, 1000)?, most, ahead)?)
}

/// Gives these events to the judge: what is found then.
fn pushed(judge: &mut Judge, events: &[Event]) -> Result<Option<Verdict>, Fail>
    requires { IsJudgeOfSome judge.old }
    ensures { OnOk result (IsJudgeOfSome judge.new) }
{
    let mut found = None;
    for event in events {
        not_full(judge.is_full())?;
        found = judge.push(&small(event)?)?;
    }
    Ok(found)
}

/// Whether this is found once these events have come, and that at their end.
fn goes(
    judge: &mut Judge,
    events: &[Event],
    found: Option<Verdict>,
    at_end: Verdict,
) -> Result<bool, Fail>
    requires { IsJudgeOfSome judge.old }
    ensures { OnOk result (IsJudgeOfSome judge.new) }
{
    let told = pushed(judge, events)?;
    Ok(told == found && judge.finish()? == at_end)
}

/// Whether nothing is found while they come, and this at their end.
fn finds_at_end(
    rt: &impl AllocGlobal,
    most: u64,
    events: &[Event],
    verdict: Verdict,
) -> Result<bool, Fail> {
    let mut judge = judge(rt, most, 100)?;
    goes(&mut judge, events, None, verdict)
}

/// Whether this is found while they come, and at their end.
fn finds_early(
    rt: &impl AllocGlobal,
    most: u64,
    events: &[Event],
    verdict: Verdict,
) -> Result<bool, Fail> {
    let mut judge = judge(rt, most, 100)?;
    goes(&mut judge, events, Some(verdict), verdict)
}

#[test]
fn a_run_is_explained_while_it_goes_on(rt: HostRuntime) -> Result<(), Fail> {
    assert!(rt; finds_at_end(&rt, 100, &[], Verdict::Explained)?);
    let two_writers = [
        calls(0, Call::WriteLock),
        calls(1, Call::WriteLock),
        stamps(1, 384),
        calls(1, Call::UnlockWrite(384)),
        stamps(0, 640),
        says(1, Reply::Done),
        calls(2, Call::ReadLock),
        Event::Withdraws(2),
        calls(0, Call::UnlockWrite(640)),
    ];
    assert!(rt; finds_at_end(&rt, 100, &two_writers, Verdict::Explained)?);
    Ok(())
}

#[test]
fn a_stuck_run_is_found_once_its_calls_have_ended(rt: HostRuntime) -> Result<(), Fail> {
    let two_holders = [
        calls(0, Call::TryWrite),
        calls(1, Call::TryWrite),
        stamps(0, 384),
        stamps(1, 640),
        calls(0, Call::Validate(384)),
        says(0, Reply::Yes),
    ];
    assert!(rt; finds_at_end(&rt, 100, &two_holders[..3], Verdict::Explained)?);
    let stuck = Verdict::Stuck(3);
    assert!(rt; finds_early(&rt, 100, &two_holders[..4], stuck)?);
    assert!(rt; finds_early(&rt, 100, &two_holders, stuck)?);
    let never_ended = [
        calls(0, Call::WriteLock),
        calls(1, Call::IsWriteLocked),
        says(1, Reply::Yes),
        calls(1, Call::TryRead),
        stamps(1, 257),
    ];
    assert!(rt; finds_at_end(&rt, 100, &never_ended[..3], Verdict::Explained)?);
    assert!(rt; finds_at_end(&rt, 100, &never_ended, Verdict::Stuck(4))?);
    Ok(())
}

#[test]
fn a_broken_run_is_found_at_once(rt: HostRuntime) -> Result<(), Fail> {
    let begun_twice = [
        calls(0, Call::TryRead),
        calls(0, Call::TryRead),
        stamps(0, 257),
    ];
    let broken = Verdict::Broken(1);
    assert!(rt; finds_early(&rt, 100, &begun_twice, broken)?);
    let stuck_before = [
        calls(0, Call::WriteLock),
        calls(1, Call::IsReadLocked),
        says(1, Reply::Yes),
        says(2, Reply::Yes),
    ];
    let stuck = Verdict::Stuck(2);
    assert!(rt; finds_early(&rt, 100, &stuck_before, stuck)?);
    Ok(())
}

#[test]
fn a_run_with_too_many_configurations_is_not_decided(rt: HostRuntime) -> Result<(), Fail> {
    let either = [
        calls(0, Call::TryRead),
        calls(1, Call::ReadLock),
        calls(2, Call::ReadCount),
        says(2, Reply::Count(1)),
        stamps(0, 258),
        stamps(1, 258),
    ];
    let stuck = Verdict::Stuck(5);
    assert!(rt; finds_early(&rt, 2, &either, stuck)?);
    let within = Verdict::StuckWithin(3, 6);
    assert!(rt; finds_early(&rt, 1, &either, within)?);
    assert!(rt; finds_at_end(&rt, 1, &either[..4], Verdict::Undecided(3, Why::TooMany))?);
    Ok(())
}

/// A call sees a lock that nobody has changed.
fn round() -> [Event; 2] {
    [calls(0, Call::Optimistic), stamps(0, 256)]
}

/// So many rounds.
fn rounds(rt: &impl AllocGlobal, many: usize) -> Result<Vec<Event>, Fail> {
    let mut events = Vec::new(rt.alloc());
    let round = round();
    for _ in 0..many {
        events.extend_from_slice(&round)?;
    }
    Ok(events)
}

/// How many events it keeps.
fn kept_by(judge: &Judge) -> usize {
    judge.kept()
}

/// Whether the run of these events, which are in memory, is judged so.
fn judges(rt: &impl AllocGlobal, events: &[Event], verdict: Verdict) -> Result<bool, Fail> {
    Ok(judge_run(rt.alloc(), limits(127, 1000)?, events, 100)? == verdict)
}

fn seen_after_a_write() -> [Event; 5] {
    [
        calls(1, Call::TryWrite),
        stamps(1, 384),
        calls(0, Call::Optimistic),
        stamps(0, 256),
        calls(0, Call::Optimistic),
    ]
}

const STUCK_AT_LAST: Verdict = Verdict::Stuck(10_003);

/// These events are explained, few of them are kept, and the lock is seen as it was no more.
fn lets_go(judge: &mut Judge, events: &[Event]) -> Result<(), Fail>
    requires { IsJudgeOfSome judge.old }
{
    must(kept_by(judge) == 0, "something is kept at first")?;
    must(goes(judge, events, None, Verdict::Explained)?, "explained")?;
    must(kept_by(judge) < 2100, "few are kept")?;
    let last = seen_after_a_write();
    must(
        goes(judge, &last, Some(STUCK_AT_LAST), STUCK_AT_LAST)?,
        "stuck",
    )
}

/// So does a judge for which calls may be open for ten events.
fn a_judge_lets_go(rt: &impl AllocGlobal, events: &[Event]) -> Result<(), Fail> {
    let mut judge = judge(rt, 100, 10)?;
    lets_go(&mut judge, events)
}

#[test]
fn a_judge_lets_go_of_events(rt: HostRuntime) -> Result<(), Fail> {
    let mut events = rounds(&rt, 5000)?;
    a_judge_lets_go(&rt, events.as_slice())?;
    events.extend_from_slice(&seen_after_a_write())?;
    assert!(rt; judges(&rt, events.as_slice(), STUCK_AT_LAST)?);
    Ok(())
}

/// A call that is open for five events.
fn open_for_long() -> [Event; 7] {
    [
        calls(1, Call::Optimistic),
        stamps(1, 256),
        calls(0, Call::TryRead),
        calls(1, Call::ReadCount),
        says(1, Reply::Count(1)),
        calls(1, Call::ReadCount),
        stamps(0, 257),
    ]
}

/// It ends the judging once the fourth of them has come.
fn ends_judging(judge: &mut Judge) -> Result<(), Fail>
    requires { IsJudgeOfSome judge.old }
{
    let all = open_for_long();
    let events = &all[..];
    let too_far = Verdict::Undecided(2, Why::TooFar);
    must(
        goes(judge, &events[..5], None, Verdict::Explained)?,
        "explained",
    )?;
    must(
        goes(judge, &events[5..], Some(too_far), too_far)?,
        "too far",
    )
}

#[test]
fn a_call_that_is_open_for_too_long_ends_the_judging(rt: HostRuntime) -> Result<(), Fail> {
    let mut shorter = judge(&rt, 100, 3)?;
    ends_judging(&mut shorter)
}

#[test]
fn a_call_that_is_open_for_less_long_ends_nothing(rt: HostRuntime) -> Result<(), Fail> {
    let mut longer = judge(&rt, 100, 4)?;
    must(
        goes(&mut longer, &open_for_long(), None, Verdict::Explained)?,
        "explained",
    )
}

/// Gives these events to a judge that keeps its base.
fn kept(judge: &mut Judge, events: &[Event]) -> Result<(), Fail>
    requires known { IsJudgeOfSome judge.old }
    requires keeping { IsKeeping judge.old }
    ensures known { OnOk result (IsJudgeOfSome judge.new) }
    ensures keeping { OnOk result (IsKeeping judge.new) }
{
    for event in events {
        not_full(judge.is_full())?;
        judge.push(&small(event)?)?;
    }
    Ok(())
}

/// A judge that keeps its base, before any event.
fn keeper(rt: &impl AllocGlobal) -> Result<Judge, Fail>
    ensures known { IfOk result (λ judge. IsJudgeOfSome judge) }
    ensures keeping { IfOk result IsKeeping }
{
    Ok(Judge::new(rt.alloc(), limits(127, 1000)?, 100, 100)?)
}

/// Whether the call that returns at the event with this number could have had these replies alone, in this order.
fn could(judge: &Judge, number: u64, call: Call, expected: &[Reply]) -> Result<bool, Fail>
    requires { IsKeeping judge.now }
{
    let Some(told) = judge.possible_at(number, &call)? else {
        return Err(Fail::from("not told"));
    };
    Ok(told.as_slice() == expected)
}

/// Whether it could have had these alone of those that are tried.
fn could_among(
    judge: &Judge,
    number: u64,
    tried: &[SmallReply],
    expected: &[Reply],
) -> Result<bool, Fail>
    requires { IsKeeping judge.now }
{
    let Some(told) = judge.possible_among(number, tried)? else {
        return Err(Fail::from("not told"));
    };
    Ok(told.as_slice() == expected)
}

/// Whether it isn't told which replies it could have had.
fn is_untold(judge: &Judge, number: u64, call: Call) -> Result<bool, Fail>
    requires { IsKeeping judge.now }
{
    Ok(judge.possible_at(number, &call)?.is_none())
}

fn reply(own: LockReply) -> SmallReply {
    SmallReply::OfLock(own)
}

/// A count is told while another call acquires read mode.
fn tells_counts(judge: &mut Judge) -> Result<(), Fail>
    requires known { IsJudgeOfSome judge.old }
    requires keeping { IsKeeping judge.old }
{
    let counted = [
        calls(0, Call::TryRead),
        calls(1, Call::ReadCount),
        says(1, Reply::Count(9)),
        stamps(0, 257),
    ];
    kept(judge, &counted)?;
    let either = [Reply::Count(0), Reply::Count(1)];
    must(could(judge, 2, Call::ReadCount, &either)?, "either")?;
    let tried = [
        reply(LockReply::Count(2)),
        reply(LockReply::Count(1)),
        reply(LockReply::No),
    ];
    must(
        could_among(judge, 2, &tried, &[Reply::Count(1)])?,
        "one of those tried",
    )?;
    must(is_untold(judge, 2, Call::Optimistic)?, "stamps aren't told")?;
    must(is_untold(judge, 1, Call::ReadCount)?, "a beginning")?;
    must(is_untold(judge, 4, Call::ReadCount)?, "no event")
}

#[test]
fn possible_replies_are_told_of_a_return(rt: HostRuntime) -> Result<(), Fail> {
    let mut judge = keeper(&rt)?;
    tells_counts(&mut judge)
}

/// Gives this event to the judge, which finds nothing then.
fn going(judge: &mut Judge, event: &Event) -> Result<(), Fail>
    requires { IsJudgeOfSome judge.old }
    ensures known { OnOk result (IsJudgeOfSome judge.new) }
    ensures none { OnOk result (HasFoundNothing judge.new) }
{
    not_full(judge.is_full())?;
    match judge.push(&small(event)?)? {
        None => Ok(()),
        Some(_) => Err(Fail::from("found")),
    }
}

/// Whether so many events are explained, and so many calls are open.
fn is_at(judge: &Judge, explained: u64, open: u64) -> bool
    requires known { IsJudgeOfSome judge.now }
    requires none { HasFoundNothing judge.now }
{
    judge.explained() == explained && judge.open_calls() == open
}

fn tells_how_far(judge: &mut Judge) -> Result<(), Fail>
    requires { IsJudgeOfSome judge.old }
{
    going(judge, &calls(0, Call::Optimistic))?;
    must(is_at(judge, 0, 1), "one is open")?;
    going(judge, &calls(1, Call::ReadLock))?;
    must(is_at(judge, 0, 2), "two are open")?;
    going(judge, &stamps(0, 256))?;
    must(is_at(judge, 1, 1), "one has ended")?;
    going(judge, &stamps(1, 257))?;
    must(is_at(judge, 4, 0), "both have ended")
}

#[test]
fn a_judge_tells_how_far_a_run_is_explained(rt: HostRuntime) -> Result<(), Fail> {
    let mut judge = judge(&rt, 100, 100)?;
    tells_how_far(&mut judge)
}

/// A get is answered while the content of number 7 is put.
fn tells_contents(judge: &mut Judge) -> Result<(), Fail>
    requires known { IsJudgeOfSome judge.old }
    requires keeping { IsKeeping judge.old }
{
    kept(judge, &[gets(1), puts(0, 7), done(0), got(1, 9)])?;
    let tried = [
        SmallReply::Content(7),
        SmallReply::Content(8),
        SmallReply::Content(0),
        reply(LockReply::Done),
    ];
    let possible = [
        SmallReply::Content(7).as_reply(),
        SmallReply::Content(0).as_reply(),
    ];
    must(could_among(judge, 3, &tried, &possible)?, "two contents")?;
    must(is_untold(judge, 3, Call::Get)?, "no contents by themselves")
}

#[test]
fn possible_contents_are_told(rt: HostRuntime) -> Result<(), Fail> {
    let mut judge = keeper(&rt)?;
    tells_contents(&mut judge)
}

fn tells_of_a_put(judge: &mut Judge) -> Result<(), Fail>
    requires known { IsJudgeOfSome judge.old }
    requires keeping { IsKeeping judge.old }
{
    kept(judge, &[puts(0, 7), says(0, Reply::Mismatch)])?;
    let put = SmallCall::Put(7).as_call();
    must(could(judge, 1, put, &[Reply::Done])?, "done")
}

#[test]
fn possible_replies_are_told_of_a_put(rt: HostRuntime) -> Result<(), Fail> {
    let mut judge = keeper(&rt)?;
    tells_of_a_put(&mut judge)
}

/// Whether this word, and this content, is that of the start with this number.
fn starts_with(judge: &Judge, start: usize, word: Option<u64>, content: Option<u64>) -> bool {
    judge.word_at(start) == word && judge.content_at(start) == content
}

fn tells_its_start(judge: &mut Judge) -> Result<(), Fail>
    requires known { IsJudgeOfSome judge.old }
    requires keeping { IsKeeping judge.old }
{
    kept(judge, &[puts(0, 7), done(0)])?;
    must(judge.starts() == 1, "one start")?;
    must(starts_with(judge, 0, Some(256), Some(0)), "the first")?;
    must(starts_with(judge, 1, None, None), "no other")?;
    must(judge.waiting_at(0, 0) == None, "no call waits")
}

#[test]
fn a_judge_tells_where_the_events_begin_that_it_keeps(rt: HostRuntime) -> Result<(), Fail> {
    let mut judge = keeper(&rt)?;
    tells_its_start(&mut judge)
}
