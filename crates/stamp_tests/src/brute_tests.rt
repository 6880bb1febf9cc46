//! Two threads in many orders, beside the plain lock: each reply, the word after each step, and
//! what each call cost.
use crate::fixtures::{limits, script_under, words};
use crate::plain_lock::PlainLock;
use stamp_core::{Call, Reply, Words};
use stamp_machines::{Arg, Run, Script, ScriptCall, Stepped, run_reported};
use std::alloc::{AllocError, Global};
use std::process::Abort;
use std::test::Fail;

/// The steps of a thread's call so far, and the other thread's changes of the word meanwhile.
#[derive(Clone, Copy)]
struct Cost {
    steps: u64,
    changes: u64,
}

impl Cost {
    fn none() -> Cost {
        Cost {
            steps: 0,
            changes: 0,
        }
    }

    fn one_step_more(self) -> Cost {
        Cost {
            steps: self.steps.wrapping_add(1),
            ..self
        }
    }

    /// A change counts where the thread has a call under way.
    fn one_change_more(self) -> Cost {
        if self.steps == 0 {
            return self;
        }
        Cost {
            changes: self.changes.wrapping_add(1),
            ..self
        }
    }
}

/// The costs of the calls that two threads are in, and of those that ended.
#[derive(Drop)]
struct Costs {
    first: Cost,
    second: Cost,
    ended: Vec<(u64, u64)>,
}

impl Costs {
    fn none(alloc: Global) -> Costs {
        Costs {
            first: Cost::none(),
            second: Cost::none(),
            ended: Vec::new(alloc),
        }
    }

    /// The thread's cost, and the other's.
    fn of(&self, thread: u64) -> (Cost, Cost) {
        if thread == 0 {
            (self.first, self.second)
        } else {
            (self.second, self.first)
        }
    }

    fn set(&mut self, thread: u64, own: Cost, other: Cost) {
        if thread == 0 {
            self.first = own;
            self.second = other;
        } else {
            self.first = other;
            self.second = own;
        }
    }

    fn count(
        &mut self,
        thread: u64,
        is_changed: bool,
        stepped: &Stepped,
    ) -> Result<(), AllocError> {
        let (own, other) = self.of(thread);
        let own = own.one_step_more();
        let other = if is_changed {
            other.one_change_more()
        } else {
            other
        };
        match stepped {
            Stepped::Idle => {}
            Stepped::Going => self.set(thread, own, other),
            Stepped::Ended(_) => {
                self.ended.push((own.steps, own.changes))?;
                self.set(thread, Cost::none(), other);
            }
        }
        Ok(())
    }
}

/// The call that ended and its reply, if one did.
fn ended(stepped: &Stepped) -> Option<(Call, Reply)> {
    match stepped {
        Stepped::Ended(entry) => Some((entry.call, entry.reply)),
        Stepped::Going | Stepped::Idle => None,
    }
}

/// A call that ended has the plain lock's answer.
fn is_answered(plain: &mut PlainLock, ended: &Option<(Call, Reply)>) -> bool {
    match ended {
        Some((call, reply)) => match plain.answer(call) {
            Some(answer) => answer.is_same(reply),
            None => false,
        },
        None => true,
    }
}

/// Steps through the script beside the plain lock; `None` where a reply or a word differs.
fn stepped_beside<'a>(
    alloc: Global,
    script: &'a Script,
    plain: &mut PlainLock,
    costs: &mut Costs,
) -> Result<Option<Run<'a>>, Fail> {
    let mut run = Run::start(alloc, script)?;
    for thread in script.steps() {
        let before = plain.word();
        let stepped = run.step(*thread)?;
        if !is_answered(plain, &ended(&stepped)) || run.word().bits() != plain.word() {
            return Ok(None);
        }
        costs.count(*thread, plain.word() != before, &stepped)?;
    }
    Ok(Some(run))
}

/// The script does what the plain lock does, call by call as they end; gives how many have ended.
fn agrees(
    rt: &impl Abort,
    alloc: Global,
    script: &Script,
    mut plain: PlainLock,
) -> Result<usize, Fail> {
    let mut costs = Costs::none(alloc);
    let run = stepped_beside(alloc, script, &mut plain, &mut costs)?.ok_or("it differs")?;
    let record = run_reported(alloc, script)?;
    assert!(rt; record.entries() == run.finished());
    assert!(rt; record.report() == costs.ended.as_slice());
    Ok(run.finished().len())
}

/// Puts this many steps of the thread more.
fn step_alone(steps: &mut Vec<u64>, thread: u64, count: usize) -> Result<(), AllocError> {
    for _ in 0..count {
        steps.push(thread)?;
    }
    Ok(())
}

/// Limits and a width, and the orders in which scripts are tried.
#[derive(Clone, Copy)]
struct Setting {
    readers: u64,
    versions: u64,
    width: u64,
    orders: u64,
    /// The factor by which an order's bits stand one after the other several times.
    repeats: u64,
    /// How many steps the bits say.
    mixed: usize,
    /// How many steps each thread then makes alone.
    alone: usize,
}

impl Setting {
    /// Every order of six steps, twice.
    fn of_lock(readers: u64, versions: u64) -> Setting {
        Setting {
            readers,
            versions,
            width: 0,
            orders: 64,
            repeats: 0b100_0001,
            mixed: 12,
            alone: 6,
        }
    }

    /// Every order of seven steps, four times. The lock has no version left, which is nothing to
    /// the calls of a record.
    fn of_record(width: u64) -> Setting {
        Setting {
            readers: 127,
            versions: 0,
            width,
            orders: 128,
            repeats: 0b10_0000_0100_0000_1000_0001,
            mixed: 28,
            alone: 9,
        }
    }
}

/// Two threads in the order that a number's bits say, and then each alone.
fn steps_in_order(alloc: Global, setting: Setting, order: u64) -> Result<Vec<u64>, AllocError> {
    let mut steps = Vec::new(alloc);
    let mut rest = order.wrapping_mul(setting.repeats);
    for _ in 0..setting.mixed {
        steps.push(rest % 2)?;
        rest /= 2;
    }
    step_alone(&mut steps, 0, setting.alone)?;
    step_alone(&mut steps, 1, setting.alone)?;
    Ok(steps)
}

/// Two threads agree with the plain lock in every order; gives how many calls have ended in all.
fn orders_agree(
    rt: &impl Abort,
    alloc: Global,
    setting: Setting,
    threads: [&[ScriptCall]; 2],
) -> Result<usize, Fail> {
    let mut ended = 0usize;
    for order in 0..setting.orders {
        let steps = steps_in_order(alloc, setting, order)?;
        let limits = limits(setting.readers, setting.versions)?;
        let script = script_under(alloc, limits, setting.width, threads, steps.as_slice())?;
        let zeros = Words::zeros(if setting.width == 2 { 2 } else { 1 });
        let plain = PlainLock::new(setting.readers, setting.versions, zeros);
        ended = ended.wrapping_add(agrees(rt, alloc, &script, plain)?);
    }
    Ok(ended)
}

/// A thread's calls agree beside each of these second threads.
fn beside_each_agree(
    rt: &impl Abort,
    alloc: Global,
    setting: Setting,
    first: &[ScriptCall],
    seconds: &[[ScriptCall; 2]],
) -> Result<usize, Fail> {
    let mut ended = 0usize;
    for second in seconds {
        ended = ended.wrapping_add(orders_agree(rt, alloc, setting, [first, second])?);
    }
    Ok(ended)
}

/// Each of the first threads' calls agree beside each of the second threads'.
fn all_agree(
    rt: &impl Abort,
    alloc: Global,
    setting: Setting,
    firsts: &[[ScriptCall; 2]],
    seconds: &[[ScriptCall; 2]],
) -> Result<usize, Fail> {
    let mut ended = 0usize;
    for first in firsts {
        ended = ended.wrapping_add(beside_each_agree(rt, alloc, setting, first, seconds)?);
    }
    Ok(ended)
}

/// What a thread may call of the lock, beside another.
fn lock_calls(own: u64, other: u64) -> [[ScriptCall; 2]; 14] {
    let mine = Arg::Of(own, 0);
    let others = Arg::Of(other, 0);
    [
        [ScriptCall::TryWrite, ScriptCall::UnlockWrite(mine)],
        [ScriptCall::WriteLock, ScriptCall::ToRead(mine)],
        [ScriptCall::WriteLock, ScriptCall::Unlock(others)],
        [ScriptCall::WriteLock, ScriptCall::ToOptimistic(mine)],
        [ScriptCall::ReadLock, ScriptCall::ToWrite(mine)],
        [ScriptCall::ReadLock, ScriptCall::ToOptimistic(others)],
        [ScriptCall::TryRead, ScriptCall::UnlockRead(mine)],
        [ScriptCall::TryRead, ScriptCall::Validate(mine)],
        [ScriptCall::Optimistic, ScriptCall::ToWrite(mine)],
        [ScriptCall::Optimistic, ScriptCall::ToRead(mine)],
        [ScriptCall::Optimistic, ScriptCall::Validate(others)],
        [ScriptCall::TryUnlockWrite, ScriptCall::IsWriteLocked],
        [ScriptCall::TryUnlockRead, ScriptCall::IsReadLocked],
        [ScriptCall::TryWrite, ScriptCall::ReadCount],
    ]
}

#[test]
fn lock_calls_in_many_orders_agree_with_the_plain_lock(rt: HostRuntime) -> Result<(), Fail> {
    for (readers, versions) in [(2, 3), (1, 1)] {
        let setting = Setting::of_lock(readers, versions);
        let ended = all_agree(
            &rt,
            rt.alloc(),
            setting,
            &lock_calls(0, 1),
            &lock_calls(1, 0),
        )?;
        assert!(rt; ended > 30_000);
    }
    Ok(())
}

/// What a thread may call of a record that holds zeros.
fn record_calls(zeros: Words, one: Words, two: Words) -> [[ScriptCall; 2]; 6] {
    [
        [ScriptCall::Get, ScriptCall::Get],
        [ScriptCall::Put(one), ScriptCall::Get],
        [ScriptCall::Put(two), ScriptCall::Put(zeros)],
        [ScriptCall::PutIf(zeros, one), ScriptCall::Get],
        [ScriptCall::PutIf(zeros, two), ScriptCall::PutIf(two, one)],
        [ScriptCall::PutIf(one, two), ScriptCall::Get],
    ]
}

#[test]
fn records_of_one_word_agree_with_the_plain_record(rt: HostRuntime) -> Result<(), Fail> {
    let calls = record_calls(words(&[0])?, words(&[1])?, words(&[2])?);
    let ended = all_agree(&rt, rt.alloc(), Setting::of_record(1), &calls, &calls)?;
    assert!(rt; ended > 10_000);
    Ok(())
}

#[test]
fn records_of_two_words_agree_with_the_plain_record(rt: HostRuntime) -> Result<(), Fail> {
    let calls = record_calls(words(&[0, 0])?, words(&[0, 1])?, words(&[1, 0])?);
    let ended = all_agree(&rt, rt.alloc(), Setting::of_record(2), &calls, &calls)?;
    assert!(rt; ended > 10_000);
    Ok(())
}
