//! Schedules worked out by hand: who steps when, what each call is answered, and the last word.
ghost use Rattle.std.specs.Prelude.{◌≡◌, ◌<◌, IfOk, length};

use crate::fixtures::{entry, limits, script, script_under, words};
use stamp_core::{Call, Entry, Layout, Limits, Reply};
use stamp_machines::{
    Arg, Completions, MOST_STEPS, Run, RunError, Script, ScriptCall, Stepped, run, run_reported,
};
use std::alloc::Global;
use std::process::Abort;
use std::test::Fail;

/// Steps through the whole script, and puts down the entries that the steps tell.
fn stepped_through<'a>(
    alloc: Global,
    script: &'a Script,
    told: &mut Vec<Entry>,
) -> Result<Run<'a>, Fail>
    ensures { IfOk result (λ run. run.script ≡ script.now) }
{
    let mut run = Run::start(alloc, script)?;
    for thread in script.steps() {
        let stepped = run.step(*thread)?;
        if let Stepped::Ended(entry) = &stepped {
            // The types that a step holds have to be named where one is dropped.
            let (_call, _reply): (Call, Reply) = (entry.call, entry.reply);
            told.push(*entry)?;
        }
    }
    Ok(run)
}

/// How many of the script's steps there are until this many calls have finished.
fn steps_until(alloc: Global, script: &Script, calls: usize) -> Result<usize, RunError> {
    let mut run = Run::start(alloc, script)?;
    for thread in script.steps() {
        if run.finished().len() >= calls {
            break;
        }
        let _ = run.step(*thread)?;
    }
    Ok(run.steps().len())
}

/// Makes a step of the thread, and gives the lock's word after it.
fn word_after_step(run: &mut Run, thread: u64) -> Result<u64, RunError>
    requires { thread < length run.old.script.threads }
    ensures { run.new.script ≡ run.old.script }
{
    let stepped = run.step(thread)?;
    if let Stepped::Ended(entry) = &stepped {
        // The types that a step holds are named, as above.
        let (_call, _reply): (Call, Reply) = (entry.call, entry.reply);
    }
    Ok(run.word().bits())
}

/// The lock's word after each of the script's steps.
fn words_after_steps(alloc: Global, script: &Script) -> Result<Vec<u64>, Fail> {
    let mut run = Run::start(alloc, script)?;
    let mut words = Vec::new(alloc);
    for thread in script.steps() {
        words.push(word_after_step(&mut run, *thread)?)?;
    }
    Ok(words)
}

/// The entries that are passed on, one at a time.
fn handed_on(alloc: Global, script: &Script) -> Result<Vec<Entry>, Fail> {
    let mut completions = Completions::start(alloc, script)?;
    let mut entries = Vec::new(alloc);
    for _ in script.steps() {
        completions.advance()?;
        if let Some(entry) = completions.get() {
            entries.push(*entry)?;
        }
    }
    completions.advance()?;
    if completions.get().is_some() {
        return Err(Fail::from("one too many"));
    }
    // No step is left, so that no memory is asked for.
    match completions.advance() {
        Ok(()) => Ok(entries),
        Err(_) => unreachable!(),
    }
}

/// Run whole, run with a report, passed on and stepped through, the script has these entries, and
/// this word.
fn ends_with(
    rt: &impl Abort,
    alloc: Global,
    script: &Script,
    entries: &[Entry],
    word: u64,
) -> Result<(), Fail> {
    assert!(rt; run(alloc, script)?.entries() == entries);
    assert!(rt; run_reported(alloc, script)?.entries() == entries);
    assert!(rt; handed_on(alloc, script)?.as_slice() == entries);
    let mut told = Vec::new(alloc);
    let stepped = stepped_through(alloc, script, &mut told)?;
    assert!(rt; told.as_slice() == entries);
    assert!(rt; stepped.finished() == entries);
    assert!(rt; stepped.word().bits() == word);
    assert!(rt; stepped.steps() == script.steps());
    Ok(())
}

/// The script has these entries, and the lock these words, one after each step.
fn shows(
    rt: &impl Abort,
    alloc: Global,
    script: &Script,
    entries: &[Entry],
    words: &[u64],
) -> Result<(), Fail> {
    assert!(rt; words_after_steps(alloc, script)?.as_slice() == words);
    ends_with(rt, alloc, script, entries, *words.last().ok_or("no steps")?)
}

/// The script's report has these pairs.
fn costs(
    rt: &impl Abort,
    alloc: Global,
    script: &Script,
    report: &[(u64, u64)],
) -> Result<(), Fail> {
    assert!(rt; run_reported(alloc, script)?.report() == report);
    assert!(rt; run(alloc, script)?.report().is_empty());
    Ok(())
}

#[test]
fn a_lost_exchange_tries_again_on_the_free_word_that_it_found(rt: HostRuntime) -> Result<(), Fail> {
    let second = [ScriptCall::TryWrite, ScriptCall::UnlockWrite(Arg::Of(1, 0))];
    let script = script(
        rt.alloc(),
        0,
        [&[ScriptCall::TryWrite], &second],
        &[0, 1, 1, 1, 1, 0, 0],
    )?;
    let entries = [
        entry(1, Call::TryWrite, Reply::Stamp(384), (1, 2, 2)),
        entry(1, Call::UnlockWrite(384), Reply::Done, (3, 4, 4)),
        entry(0, Call::TryWrite, Reply::Stamp(640), (0, 6, 6)),
    ];
    ends_with(&rt, rt.alloc(), &script, &entries, 640)?;
    costs(&rt, rt.alloc(), &script, &[(2, 0), (2, 0), (3, 2)])
}

#[test]
fn a_run_is_stopped_between_two_steps(rt: HostRuntime) -> Result<(), Fail> {
    let calls = [ScriptCall::TryWrite];
    let script = script(rt.alloc(), 0, [&calls, &calls], &[0, 1, 0, 1])?;
    assert!(rt; steps_until(rt.alloc(), &script, 0)? == 0);
    assert!(rt; steps_until(rt.alloc(), &script, 1)? == 3);
    assert!(rt; steps_until(rt.alloc(), &script, 3)? == 4);
    Ok(())
}

#[test]
fn a_run_may_end_while_a_call_still_waits(rt: HostRuntime) -> Result<(), Fail> {
    let threads: [&[ScriptCall]; 2] = [&[ScriptCall::WriteLock], &[ScriptCall::TryWrite]];
    let mut steps = [0; 1002];
    steps[0] = 1;
    steps[1] = 1;
    let script = script(rt.alloc(), 0, threads, &steps)?;
    let entries = [entry(1, Call::TryWrite, Reply::Stamp(384), (0, 1, 1))];
    let mut words = [384; 1002];
    words[0] = 256;
    shows(&rt, rt.alloc(), &script, &entries, &words)
}

#[test]
fn a_waiting_writer_goes_on_once_the_reader_has_ended(rt: HostRuntime) -> Result<(), Fail> {
    let second = [ScriptCall::ReadLock, ScriptCall::UnlockRead(Arg::Of(1, 0))];
    let script = script(
        rt.alloc(),
        0,
        [&[ScriptCall::WriteLock], &second],
        &[1, 1, 0, 0, 1, 1, 0, 0],
    )?;
    let entries = [
        entry(1, Call::ReadLock, Reply::Stamp(257), (0, 1, 1)),
        entry(1, Call::UnlockRead(257), Reply::Done, (4, 5, 5)),
        entry(0, Call::WriteLock, Reply::Stamp(384), (2, 7, 7)),
    ];
    let words = [256, 257, 257, 257, 257, 256, 256, 384];
    shows(&rt, rt.alloc(), &script, &entries, &words)
}

#[test]
fn a_thread_may_release_what_another_holds(rt: HostRuntime) -> Result<(), Fail> {
    let second = [
        ScriptCall::UnlockWrite(Arg::Of(0, 0)),
        ScriptCall::UnlockWrite(Arg::Of(0, 0)),
    ];
    let script = script(
        rt.alloc(),
        0,
        [&[ScriptCall::TryWrite], &second],
        &[0, 1, 0, 1, 1],
    )?;
    let entries = [
        entry(1, Call::UnlockWrite(0), Reply::Mismatch, (1, 1, 1)),
        entry(0, Call::TryWrite, Reply::Stamp(384), (0, 2, 2)),
        entry(1, Call::UnlockWrite(384), Reply::Done, (3, 4, 4)),
    ];
    let words = [256, 256, 384, 384, 512];
    shows(&rt, rt.alloc(), &script, &entries, &words)
}

#[test]
fn gets_and_puts_of_a_record_change_no_word_of_the_lock(rt: HostRuntime) -> Result<(), Fail> {
    let calls = [ScriptCall::Put(words(&[7])?), ScriptCall::Get];
    let script = script_under(rt.alloc(), limits(127, 0)?, 1, [&calls, &[]], &[0; 7])?;
    let entries = [
        entry(0, Call::Put(words(&[7])?), Reply::Done, (0, 3, 3)),
        entry(0, Call::Get, Reply::Content(words(&[7])?), (4, 6, 6)),
    ];
    shows(&rt, rt.alloc(), &script, &entries, &[256; 7])
}

#[test]
fn a_schedule_in_the_second_layout(rt: HostRuntime) -> Result<(), Fail> {
    let second = [ScriptCall::TryWrite, ScriptCall::UnlockWrite(Arg::Of(1, 0))];
    let limits = Limits::in_layout(Layout::Two, 127, 1000).map_err(|_| Fail::from("limits"))?;
    let script = script_under(
        rt.alloc(),
        limits,
        0,
        [&[ScriptCall::TryWrite], &second],
        &[0, 1, 1, 1, 1, 0, 0],
    )?;
    let entries = [
        entry(1, Call::TryWrite, Reply::Stamp(196_608), (1, 2, 2)),
        entry(1, Call::UnlockWrite(196_608), Reply::Done, (3, 4, 4)),
        entry(0, Call::TryWrite, Reply::Stamp(327_680), (0, 6, 6)),
    ];
    ends_with(&rt, rt.alloc(), &script, &entries, 327_680)?;
    costs(&rt, rt.alloc(), &script, &[(2, 0), (2, 0), (3, 2)])
}

#[test]
fn a_get_beside_a_put_reads_words_that_were_held_together(rt: HostRuntime) -> Result<(), Fail> {
    let put = [ScriptCall::Put(words(&[7, 9])?)];
    let script = script(
        rt.alloc(),
        2,
        [&[ScriptCall::Get], &put],
        &[0, 0, 1, 1, 1, 1, 1, 0, 0, 0, 0, 0, 0, 0, 0],
    )?;
    let entries = [
        entry(1, Call::Put(words(&[7, 9])?), Reply::Done, (2, 6, 6)),
        entry(0, Call::Get, Reply::Content(words(&[7, 9])?), (0, 14, 14)),
    ];
    ends_with(&rt, rt.alloc(), &script, &entries, 256)
}

#[test]
fn two_conditional_puts_beside_each_other_store_once(rt: HostRuntime) -> Result<(), Fail> {
    let first = [ScriptCall::PutIf(words(&[0])?, words(&[5])?)];
    let second = [ScriptCall::PutIf(words(&[0])?, words(&[6])?)];
    let script = script(
        rt.alloc(),
        1,
        [&first, &second],
        &[0, 0, 1, 1, 0, 1, 0, 0, 0, 0, 1, 1, 1, 1, 0, 0, 0, 0],
    )?;
    let stored = Call::PutIf(words(&[0])?, words(&[6])?);
    let refused = Call::PutIf(words(&[0])?, words(&[5])?);
    let entries = [
        entry(1, stored, Reply::Yes, (2, 13, 13)),
        entry(0, refused, Reply::No, (0, 17, 17)),
    ];
    ends_with(&rt, rt.alloc(), &script, &entries, 256)?;
    costs(&rt, rt.alloc(), &script, &[(7, 0), (11, 0)])
}

#[test]
fn a_run_makes_a_million_steps_and_no_more(rt: HostRuntime) -> Result<(), Fail> {
    let mut steps = Vec::new(rt.alloc());
    for _ in 0..MOST_STEPS {
        steps.push(0)?;
    }
    let script = script(rt.alloc(), 0, [&[], &[]], steps.as_slice())?;
    assert!(rt; script.threads().len() == 2);
    let mut run = stepped_through(rt.alloc(), &script, &mut Vec::new(rt.alloc()))?;
    assert!(rt; matches!(run.step(0), Err(RunError::TooManySteps)));
    assert!(rt; matches!(run.step(1), Err(RunError::TooManySteps)));
    assert!(rt; run.word().bits() == 256);
    assert!(rt; run.finished().is_empty());
    assert!(rt; run.steps().len() == 1_000_000);
    Ok(())
}
