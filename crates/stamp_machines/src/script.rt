//! Scripts: the calls of each thread, and who steps when.
ghost use Rattle.std.specs.Prelude.{◌≡◌, ◌<◌, ◌≤◌, ◌↔◌, length, slice_get, map, vec_len, IsTrue};
ghost use Rattle.std.specs.Prelude.{option_copied};
ghost use Rattle.std.specs.Prelude.{IfSome, IfNone, IfOk, IfErr, All};
ghost use Rattle.stamp_machines.specs.Script.{Suits, IsSound, calls_of};

use crate::running::MOST_STEPS;
use crate::script_error::ScriptError;
use crate::shape::Shape;
use stamp_core::{Limits, MOST_THREADS, MOST_WORDS, Words};
use std::marker::Model;

/// The most calls of a thread of a script.
pub const MOST_CALLS: usize = 10_000;

/// A stamp that a call of a script takes: a number, or what another call answered.
#[derive(Clone, Copy)]
pub enum Arg {
    /// This number, whoever issued it, if anyone did.
    Number(u64),
    /// The stamp that this thread's call of this index, from 0, has answered when the call with the
    /// argument makes its first step; 0 where it has not finished, answered none or does not exist.
    Of(u64, u64),
}

/// A call of a script: the `Call` of `stamp_core` with the same name, which says what it does. Its
/// stamp may be one that another call of the script is still to answer.
#[derive(Clone, Copy)]
pub enum ScriptCall {
    /// Makes `Call::TryWrite`.
    TryWrite,
    /// Makes `Call::TryRead`.
    TryRead,
    /// Makes `Call::WriteLock`.
    WriteLock,
    /// Makes `Call::ReadLock`.
    ReadLock,
    /// Makes `Call::Optimistic`.
    Optimistic,
    /// Makes `Call::Validate`.
    Validate(Arg),
    /// Makes `Call::UnlockWrite`.
    UnlockWrite(Arg),
    /// Makes `Call::UnlockRead`.
    UnlockRead(Arg),
    /// Makes `Call::Unlock`.
    Unlock(Arg),
    /// Makes `Call::ToWrite`.
    ToWrite(Arg),
    /// Makes `Call::ToRead`.
    ToRead(Arg),
    /// Makes `Call::ToOptimistic`.
    ToOptimistic(Arg),
    /// Makes `Call::TryUnlockWrite`.
    TryUnlockWrite,
    /// Makes `Call::TryUnlockRead`.
    TryUnlockRead,
    /// Makes `Call::IsWriteLocked`.
    IsWriteLocked,
    /// Makes `Call::IsReadLocked`.
    IsReadLocked,
    /// Makes `Call::ReadCount`.
    ReadCount,
    /// Makes `Call::Get`.
    Get,
    /// Makes `Call::Put`.
    Put(Words),
    /// Makes `Call::PutIf`.
    PutIf(Words, Words),
}

/// The calls of each thread, and the numbers of the threads in the order in which they step.
#[derive(Drop)]
pub struct Script {
    limits: Limits,
    width: u64,
    threads: Vec<Vec<ScriptCall>>,
    steps: Vec<u64>,
}

impl Model for Script {
    ghost use Rattle.stamp_machines.specs.Script.{Scripted};

    ghost Value = { Scripted };

    ghost use Rattle.stamp_machines.specs.ScriptFields.{scripted_of, HasGoodFields};

    ghost view = { scripted_of };

    ghost invariant = { HasGoodFields };
}

ghost use Rattle.stamp_machines.specs.ScriptFault.{thread_calls, AreShort, AreOfWidth};
ghost use Rattle.stamp_machines.specs.ScriptFault.{AreOfThreads, IsFirstUnknown, IsFirstFault};
ghost use Rattle.stamp_machines.specs.ScriptFault.{IsGood};

fn suits(width: u64, call: &ScriptCall) -> bool
    ensures { IsTrue result ↔ Suits width call.now }
{
    match call {
        ScriptCall::Get => width > 0,
        ScriptCall::Put(new) => width > 0 && new.len() as u64 == width,
        ScriptCall::PutIf(old, new) => {
            width > 0 && old.len() as u64 == width && new.len() as u64 == width
        }
        _ => true,
    }
}

fn calls_suit(width: u64, calls: &[ScriptCall]) -> bool
    ensures { IsTrue result ↔ All (Suits width) calls.now }
{
    calls.iter().all(|call| suits(width, call))
}

fn are_suited(width: u64, threads: &[Vec<ScriptCall>]) -> bool
    ensures { IsTrue result ↔ AreOfWidth width threads.now }
{
    threads.iter().all(|calls| calls_suit(width, calls))
}

fn are_short(threads: &[Vec<ScriptCall>]) -> bool
    ensures { IsTrue result ↔ AreShort threads.now }
{
    threads.iter().all(|calls| calls.len() <= MOST_CALLS)
}

fn first_unknown(steps: &[u64], threads: u64) -> Option<usize>
    ensures some { IfSome result (λ i. IsFirstUnknown threads steps.now i) }
    ensures none { IfNone result (AreOfThreads threads steps.now) }
{
    steps.iter().position(|thread| threads <= *thread)
}

impl Script {
    /// Makes a script of just what was given, or tells its first fault, in the order of
    /// `ScriptError`. Then all of it is dropped (tested, not proved). It may have up to
    /// `MOST_THREADS` threads, `MOST_CALLS` calls in each, `MOST_STEPS` steps and a record of
    /// `MOST_WORDS` words.
    pub fn new(
        limits: Limits,
        width: u64,
        threads: Vec<Vec<ScriptCall>>,
        steps: Vec<u64>,
    ) -> Result<Script, ScriptError>
        ensures ok { IfOk result
            (λ s. s ≡ record {
              limits = limits;
              width = width;
              threads = map thread_calls threads.items;
              steps = steps.items;
            }) }
        ensures good { IfOk result (λ _. IsGood width threads.items steps.items) }
        ensures fault { IfErr result (IsFirstFault width threads.items steps.items) }
    {
        let count = threads.len() as u64;
        if count > MOST_THREADS {
            return Err(ScriptError::TooManyThreads);
        }
        if !are_short(&threads) {
            return Err(ScriptError::TooManyCalls);
        }
        if steps.len() > MOST_STEPS {
            return Err(ScriptError::TooManySteps);
        }
        if let Some(at) = first_unknown(&steps, count) {
            return Err(ScriptError::NoSuchThread(at as u64));
        }
        if width > MOST_WORDS as u64 || !are_suited(width, &threads) {
            return Err(ScriptError::RecordWidth);
        }
        Ok(Script {
            limits,
            width,
            threads,
            steps,
        })
    }

    /// Touches a field, by which the prover knows what each script keeps to.
    fn known(&self)
        ensures sound { IsSound self.now }
        ensures few { length self.now.steps ≤ 1000000 }
        ensures in_range { All (λ n. n < length self.now.threads) self.now.steps }
    {
        let _ = self.limits.layout();
    }

    /// What the machines of its calls are made for.
    pub(crate) fn shape(&self) -> Shape
        ensures shape { result ≡ record { limits = self.now.limits; width = self.now.width } }
        ensures sound { IsSound self.now }
        ensures few { self.now.width ≤ 16 }
    {
        self.known();
        Shape {
            limits: self.limits,
            width: self.width,
        }
    }

    /// The limits of the lock.
    pub fn limits(&self) -> Limits
        ensures limits { result ≡ self.now.limits }
        ensures sound { IsSound self.now }
    {
        self.known();
        self.limits
    }

    /// How many words the record has, 0 for no record.
    pub fn width(&self) -> u64
        ensures width { result ≡ self.now.width }
        ensures sound { IsSound self.now }
    {
        self.known();
        self.width
    }

    /// The calls of each thread, in the order in which it makes them.
    pub fn threads(&self) -> &[Vec<ScriptCall>]
        ensures threads { map thread_calls result.now ≡ self.now.threads }
        ensures sound { IsSound self.now }
    {
        self.known();
        &self.threads
    }

    /// The numbers of the threads, in the order in which they step.
    pub fn steps(&self) -> &[u64]
        ensures steps { result.now ≡ self.now.steps }
        ensures sound { IsSound self.now }
        ensures few { length self.now.steps ≤ 1000000 }
        ensures in_range { All (λ n. n < length self.now.threads) self.now.steps }
    {
        self.known();
        &self.steps
    }

    /// How many threads it has.
    pub(crate) fn thread_count(&self) -> usize
        ensures count { result ≡ length self.now.threads }
        ensures few { result ≤ 64 }
    {
        self.threads.len()
    }

    /// A call of a thread, none past its last.
    pub(crate) fn call(&self, thread: usize, index: usize) -> Option<&ScriptCall>
        requires { thread < length self.now.threads }
        ensures { option_copied result ≡ slice_get (calls_of self.now thread) index }
    {
        self.threads[thread].get(index)
    }
}
