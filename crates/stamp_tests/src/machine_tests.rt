use crate::fixtures::{limits, script, words};
use stamp_core::{Call, Layout, Limits, Word};
use stamp_machines::{Access, Machine, Run, Script, ScriptCall, ScriptError, Shape, Stepped, Turn};
use std::alloc::Global;
use std::test::Fail;

#[test]
fn a_step_is_told_and_the_word_is_seen(rt: HostRuntime) -> Result<(), Fail> {
    let script = script(rt.alloc(), 0, [&[ScriptCall::TryWrite], &[]], &[])?;
    assert!(rt; script.threads().len() == 2);
    let mut run = Run::start(rt.alloc(), &script)?;
    assert!(rt; matches!(run.step(1)?, Stepped::Idle));
    assert!(rt; matches!(run.step(0)?, Stepped::Going));
    assert!(rt; run.word().bits() == 256);
    assert!(rt; matches!(run.step(0)?, Stepped::Ended(_)));
    assert!(rt; run.word().bits() == 384);
    assert!(rt; run.finished().len() == 1);
    assert!(rt; run.steps() == [1, 0, 0].as_slice());
    Ok(())
}

/// This many threads without calls.
fn idle_threads(alloc: Global, count: usize) -> Result<Vec<Vec<ScriptCall>>, Fail> {
    let mut threads = Vec::new(alloc);
    for _ in 0..count {
        threads.push(Vec::new(alloc))?;
    }
    Ok(threads)
}

/// One thread with this many calls.
fn busy_thread(
    alloc: Global,
    call: &ScriptCall,
    count: usize,
) -> Result<Vec<Vec<ScriptCall>>, Fail> {
    let mut calls = Vec::new(alloc);
    for _ in 0..count {
        calls.push(*call)?;
    }
    let mut threads = Vec::new(alloc);
    threads.push(calls)?;
    Ok(threads)
}

/// This many steps of the first thread.
fn zeros(alloc: Global, count: usize) -> Result<Vec<u64>, Fail> {
    let mut steps = Vec::new(alloc);
    for _ in 0..count {
        steps.push(0)?;
    }
    Ok(steps)
}

/// The refusal of a script, `None` for a script.
fn refusal(
    width: u64,
    threads: Vec<Vec<ScriptCall>>,
    steps: Vec<u64>,
) -> Result<Option<ScriptError>, Fail> {
    Ok(Script::new(limits(127, 1000)?, width, threads, steps).err())
}

#[test]
fn the_most_threads_calls_and_steps_are_taken(rt: HostRuntime) -> Result<(), Fail> {
    let alloc = rt.alloc();
    assert!(rt; refusal(16, idle_threads(alloc, 64)?, zeros(alloc, 1_000_000)?)?.is_none());
    let most = busy_thread(alloc, &ScriptCall::ReadCount, 10_000)?;
    assert!(rt; refusal(0, most, Vec::new(alloc))?.is_none());
    Ok(())
}

#[test]
fn a_script_is_refused_by_the_first_of_its_causes(rt: HostRuntime) -> Result<(), Fail> {
    let alloc = rt.alloc();
    let many = refusal(17, idle_threads(alloc, 65)?, Vec::new(alloc))?;
    assert!(rt; matches!(many, Some(ScriptError::TooManyThreads)));
    let calls = busy_thread(alloc, &ScriptCall::Get, 10_001)?;
    let long = refusal(0, calls, zeros(alloc, 1_000_001)?)?;
    assert!(rt; matches!(long, Some(ScriptError::TooManyCalls)));
    let steps = refusal(17, Vec::new(alloc), zeros(alloc, 1_000_001)?)?;
    assert!(rt; matches!(steps, Some(ScriptError::TooManySteps)));
    let one_unknown = vec![in alloc; 0, 64]?;
    let unknown = refusal(17, idle_threads(alloc, 2)?, one_unknown)?;
    assert!(rt; matches!(unknown, Some(ScriptError::NoSuchThread(1))));
    Ok(())
}

#[test]
fn a_call_of_the_record_has_the_record_s_width(rt: HostRuntime) -> Result<(), Fail> {
    let one = words(&[1])?;
    let two = words(&[1, 2])?;
    let table = [
        (17, ScriptCall::Optimistic, true),
        (0, ScriptCall::Get, true),
        (1, ScriptCall::Get, false),
        (2, ScriptCall::Put(one), true),
        (2, ScriptCall::Put(two), false),
        (2, ScriptCall::PutIf(one, two), true),
        (2, ScriptCall::PutIf(two, one), true),
        (2, ScriptCall::PutIf(two, two), false),
    ];
    for (width, call, is_refused) in table {
        let threads = busy_thread(rt.alloc(), &call, 1)?;
        let refused = refusal(width, threads, Vec::new(rt.alloc()))?;
        assert!(rt; matches!(refused, Some(ScriptError::RecordWidth)) == is_refused);
        assert!(rt; refused.is_some() == is_refused);
    }
    Ok(())
}

#[test]
fn a_machine_goes_on_by_what_it_finds(rt: HostRuntime) -> Result<(), Fail> {
    let shape = Shape {
        limits: Limits::widest(Layout::Two),
        width: 0,
    };
    let machine = Machine::start(Call::TryRead, shape);
    assert!(rt; machine.call() == Call::TryRead);
    assert!(rt; machine.plan() == Access::Load(0));
    let opening = Word::opening_in(Layout::Two);
    let Turn::Going(machine) = machine.resume(opening.bits()) else {
        return Err(Fail::from("it ended"));
    };
    assert!(rt; machine.plan() == Access::Cas(0, 131_072, 131_073));
    Ok(())
}
