//! The state of a run: the common words, each thread's call under way, and the entries.
ghost use Rattle.std.specs.Prelude.{◌≡◌, ◌<◌, ◌≤◌, ◌+◌, ◌^◌, ℕ, length, map, replicate, vec_len};
ghost use Rattle.std.specs.Prelude.{vec_capacity, IfOk, OnOk, None, Some, slice_index};
ghost use Rattle.std.specs.Prelude.{slice_index_or, slice_get, slice_set, ◌==◌, ◌++◌, ◌∷◌, []};
ghost use Rattle.std.specs.Prelude.{if◌then◌else◌, is_some, IfSome, false, List};

use crate::access::FIRST_WORD;
use crate::machine::Machine;
use crate::running::Stepped;
use crate::script::{Arg, Script, ScriptCall};
use crate::shape::Shape;
use crate::stage::stamp_in;
use stamp_core::{Call, Entry, Reply, Word};
use std::alloc::{AllocError, Global};

/// A call under way: it has begun, and has not ended.
#[derive(Drop)]
pub(crate) struct Begun {
    pub(crate) machine: Machine,
    pub(crate) first: u64,
}

/// A thread: its call under way, and what its finished calls answered.
#[derive(Drop)]
pub(crate) struct Worker {
    pub(crate) begun: Option<Begun>,
    /// The stamp that each finished call answered, 0 where it answered none. There is one for each,
    /// so their number is also that of the finished calls, and the index of the thread's next call.
    pub(crate) stamps: Vec<u64>,
}

/// The common words, the threads, and the finished calls.
#[derive(Drop)]
pub(crate) struct RunState {
    pub(crate) words: Vec<u64>,
    pub(crate) workers: Vec<Worker>,
    pub(crate) entries: Vec<Entry>,
    /// The reply of the call that has ended last.
    reply: Reply,
}

/// The kind of a step: what `Stepped` says, without the entry, which is expensive to move.
#[derive(Clone, Copy)]
pub(crate) enum StepKind {
    Idle,
    Going,
    Ended,
}

ghost use Rattle.stamp_core.specs.declared.entry.Entry.{Entry};
ghost use Rattle.stamp_machines.specs.StateFields.{stamps_at, begun_in};
ghost use Rattle.stamp_machines.specs.inner.StateFields.{HasRoom};
ghost use Rattle.stamp_machines.specs.World.{number_of, resolved, next_call, opening_word};

fn number_of(workers: &[Worker], arg: Arg) -> u64
    ensures { result ≡ number_of (stamps_at workers.now) arg }
{
    match arg {
        Arg::Number(n) => n,
        Arg::Of(thread, index) => match workers.get(thread as usize) {
            Some(worker) => worker.stamps.get(index as usize).copied().unwrap_or(0),
            None => 0,
        },
    }
}

fn resolve(workers: &[Worker], call: &ScriptCall) -> Call
    ensures { result ≡ resolved (stamps_at workers.now) call.now }
{
    match call {
        ScriptCall::TryWrite => Call::TryWrite,
        ScriptCall::TryRead => Call::TryRead,
        ScriptCall::WriteLock => Call::WriteLock,
        ScriptCall::ReadLock => Call::ReadLock,
        ScriptCall::Optimistic => Call::Optimistic,
        ScriptCall::Validate(arg) => Call::Validate(number_of(workers, *arg)),
        ScriptCall::UnlockWrite(arg) => Call::UnlockWrite(number_of(workers, *arg)),
        ScriptCall::UnlockRead(arg) => Call::UnlockRead(number_of(workers, *arg)),
        ScriptCall::Unlock(arg) => Call::Unlock(number_of(workers, *arg)),
        ScriptCall::ToWrite(arg) => Call::ToWrite(number_of(workers, *arg)),
        ScriptCall::ToRead(arg) => Call::ToRead(number_of(workers, *arg)),
        ScriptCall::ToOptimistic(arg) => Call::ToOptimistic(number_of(workers, *arg)),
        ScriptCall::TryUnlockWrite => Call::TryUnlockWrite,
        ScriptCall::TryUnlockRead => Call::TryUnlockRead,
        ScriptCall::IsWriteLocked => Call::IsWriteLocked,
        ScriptCall::IsReadLocked => Call::IsReadLocked,
        ScriptCall::ReadCount => Call::ReadCount,
        ScriptCall::Get => Call::Get,
        ScriptCall::Put(new) => Call::Put(*new),
        ScriptCall::PutIf(old, new) => Call::PutIf(*old, *new),
    }
}

/// The call after those that the thread has finished, to begin at this position.
fn next_call(script: &Script, workers: &[Worker], thread: usize, first: u64) -> Option<Begun>
    requires thread { thread < length workers.now }
    requires workers { length workers.now ≡ length script.now.threads }
    ensures { result ≡ next_call script.now (stamps_at workers.now) first thread }
{
    let call = script.call(thread, workers[thread].stamps.len())?;
    let machine = Machine::start(resolve(workers, call), script.shape());
    Some(Begun { machine, first })
}

/// Whether the thread has a call under way.
fn has_call_under_way(workers: &[Worker], thread: usize) -> bool
    requires { thread < length workers.now }
    ensures { result ≡ is_some (slice_index_or (map begun_in workers.now) thread None) }
{
    workers[thread].begun.is_some()
}

/// Makes room for one more stamp.
fn reserve_stamp(workers: &mut [Worker], thread: usize) -> Result<(), AllocError>
    requires { thread < length workers.old }
    ensures begun { map begun_in workers.new ≡ map begun_in workers.old }
    ensures stamps { (t : ℕ) → stamps_at workers.new t ≡ stamps_at workers.old t }
    ensures room { OnOk result (HasRoom (slice_get workers.new thread)) }
{
    workers[thread].stamps.reserve(1)
}

/// The thread has this call under way from now on.
fn set_begun(workers: &mut [Worker], thread: usize, begun: Begun)
    requires { thread < length workers.old }
    ensures begun { map begun_in workers.new
        ≡ slice_set (map begun_in workers.old) thread (Some begun) }
    ensures stamps { (t : ℕ) → stamps_at workers.new t ≡ stamps_at workers.old t }
    ensures room { HasRoom (slice_get workers.old thread) → HasRoom (slice_get workers.new thread) }
{
    workers[thread].begun = Some(begun);
}

impl Worker {
    /// The thread has no call under way any more. There is room for the stamp that it answered.
    #[inline(never)]
    fn end(&mut self, stamp: u64)
        requires { vec_len self.old.stamps < vec_capacity self.old.stamps }
        ensures begun { self.new.begun ≡ None }
        ensures stamps { self.new.stamps.items ≡ self.old.stamps.items ++ stamp ∷ [] }
    {
        self.begun = None;
        let _ = self.stamps.push(stamp);
    }
}

/// Adds the entry of a call that ends at this position. There is room for it.
#[inline(never)]
fn keep(entries: &mut Vec<Entry>, begun: &Begun, thread: usize, reply: &Reply, position: u64)
    requires { vec_len entries.old < vec_capacity entries.old }
    ensures { entries.new.items ≡ entries.old.items
        ++ record {
          thread = thread;
          call = begun.now.machine.call;
          reply = reply.now;
          first = begun.now.first;
          point = position;
          last = position;
        } ∷ [] }
{
    let entry = Entry {
        thread: thread as u64,
        call: begun.machine.call(),
        reply: *reply,
        first: begun.first,
        point: position,
        last: position,
    };
    let _ = entries.push(entry);
}

fn opening_words(alloc: Global, shape: &Shape) -> Result<Vec<u64>, AllocError>
    requires { shape.now.width ≤ 16 }
    ensures { IfOk result (λ words. words.items
        ≡ opening_word shape.now.limits ∷ opening_word shape.now.limits ∷ replicate
        shape.now.width 0) }
{
    let opening = Word::opening_in(shape.limits.layout()).bits();
    let mut words = Vec::with_capacity(alloc, FIRST_WORD + shape.word_count())?;
    words.push(opening)?;
    words.push(opening)?;
    for _ in 0..shape.word_count() {
        words.push(0)?;
    }
    Ok(words)
}

impl RunState {
    ghost use Rattle.stamp_machines.specs.World.{stamps_of, current, opening_of};
    ghost use Rattle.stamp_machines.specs.inner.World.{begun_with};
    ghost use Rattle.stamp_machines.specs.StateFields.{world_at};
    ghost use Rattle.stamp_machines.specs.inner.StateFields.{SameState};
    ghost use Rattle.stamp_machines.specs.inner.StateStep.{IsStep};
    ghost use Rattle.stamp_machines.specs.inner.StepKind.{outcome_of};
    ghost use Rattle.stamp_machines.specs.inner.Invariant.{Invariant};
    ghost use Rattle.stamp_machines.specs.Script.{IsSound};

    /// The opening words, and threads that have begun nothing.
    pub(crate) fn new(alloc: Global, shape: Shape, threads: usize) -> Result<RunState, AllocError>
        requires { shape.width ≤ 16 }
        ensures world { IfOk result
            (λ s. world_at [] s 0 ≡ opening_of shape.limits shape.width threads) }
        ensures workers { IfOk result (λ s. vec_len s.workers ≡ threads) }
        ensures stamps { IfOk result (λ s. (t : ℕ) → stamps_at s.workers.items t ≡ []) }
    {
        let words = opening_words(alloc, &shape)?;
        let mut workers = Vec::with_capacity(alloc, threads)?;
        for _ in 0..threads {
            workers.push(Worker {
                begun: None,
                stamps: Vec::new(alloc),
            })?;
        }
        Ok(RunState {
            words,
            workers,
            entries: Vec::new(alloc),
            reply: Reply::Done,
        })
    }

    /// Makes room for what a step of the thread may finish.
    pub(crate) fn reserve(&mut self, thread: usize) -> Result<(), AllocError>
        requires { thread < vec_len self.old.workers }
        ensures same { SameState self.old self.new }
        ensures room { OnOk result (HasRoom (slice_get self.new.workers.items thread)) }
        ensures entries { OnOk result (vec_len self.new.entries < vec_capacity self.new.entries) }
    {
        self.entries.reserve(1)?;
        reserve_stamp(&mut self.workers, thread)
    }

    /// Begins the thread's next call, if none is under way and one is left.
    #[inline(always)]
    fn begin(&mut self, script: &Script, thread: usize, position: u64)
        ghost gone: { List Entry }
        requires thread { thread < vec_len self.old.workers }
        requires workers { vec_len self.old.workers ≡ length script.now.threads }
        requires stamps { (t : ℕ) → stamps_at self.old.workers.items t
            ≡ stamps_of t (gone ++ self.old.entries.items) }
        ensures world { world_at gone self.new position
            ≡ begun_with (world_at gone self.old position) thread
            (current script.now (world_at gone self.old position) thread) }
        ensures stamps { (t : ℕ) → stamps_at self.new.workers.items t
            ≡ stamps_at self.old.workers.items t }
        ensures workers { vec_len self.new.workers ≡ vec_len self.old.workers }
        ensures room { HasRoom (slice_get self.old.workers.items thread) →
            HasRoom (slice_get self.new.workers.items thread) }
        ensures entries { self.new.entries ≡ self.old.entries }
    {
        if has_call_under_way(&self.workers, thread) {
            return;
        }
        let Some(begun) = next_call(script, &self.workers, thread, position) else {
            return;
        };
        set_begun(&mut self.workers, thread, begun);
    }

    /// Makes one access of the thread's current call, if it has one. The entry of a call that ends
    /// by it is the last one.
    #[inline(always)]
    pub(crate) fn step(&mut self, script: &Script, thread: usize, position: u64) -> StepKind
        ghost gone: { List Entry }
        requires sound { IsSound script.now }
        requires kept { Invariant script.now (world_at gone self.old position) }
        requires few { position < 1000000 }
        requires thread { thread < vec_len self.old.workers }
        requires workers { vec_len self.old.workers ≡ length script.now.threads }
        requires stamps { (t : ℕ) → stamps_at self.old.workers.items t
            ≡ stamps_of t (gone ++ self.old.entries.items) }
        requires room { HasRoom (slice_get self.old.workers.items thread) }
        requires entries { vec_len self.old.entries < vec_capacity self.old.entries }
        ensures step { IsStep gone script.now self.old self.new thread position result }
        ensures workers { vec_len self.new.workers ≡ vec_len self.old.workers }
    {
        self.begin(script, thread, position);
        let worker = &mut self.workers[thread];
        match &mut worker.begun {
            None => StepKind::Idle,
            Some(begun) => {
                if !begun.machine.access(&mut self.words, &mut self.reply) {
                    return StepKind::Going;
                }
                keep(&mut self.entries, begun, thread, &self.reply, position);
                worker.end(stamp_in(&self.reply));
                StepKind::Ended
            }
        }
    }

    /// What a step of this kind did, with the entry of the call that has ended by it.
    pub(crate) fn outcome(&self, kind: StepKind) -> Stepped
        ensures { result ≡ outcome_of self.now.entries.items kind }
    {
        match kind {
            StepKind::Idle => Stepped::Idle,
            StepKind::Going => Stepped::Going,
            StepKind::Ended => match self.entries.last() {
                Some(entry) => Stepped::Ended(*entry),
                None => Stepped::Idle,
            },
        }
    }
}
