//! Threads share a lock and a record by handles, or a value that its lock guards; each call is recorded, and the
//! observed history is written as JSON.
//!
//! `observed_handles THREADS ROUNDS` prints the observed history of lock and record, which `stamped_explain` reads,
//! and `observed_handles THREADS ROUNDS value SEED` that of the guarded value. More than 64 threads are an error, and
//! so are more than 640,000 calls.
//! `observed_handles` alone records a run of four threads, and prints who holds the lock at the end.
#![tactic(auto)]

mod record_run;
mod recorder;
mod run;
mod value_answers;
mod value_run;

use anyhow::{Result, bail, ensure};
use recorder::{Recorder, Row, WIDTH};
use run::{Subject, work};
use stamp_core::{Layout, Limits, MOST_THREADS};
use stamp_explain::{MOST_OBSERVATIONS, Observation, Observed};
use stamp_observed::write_observed;
use stamped_lock::{AnyContent, StampedLock, StampedRecord};
use stamped_value::StampedValue;
use std::alloc::AllocError;
use std::io::Write;
use std::rt::Env;
use std::sync::Wait;
use std::sync::atomic::AtomicU64;
use std::thread::{Threads, map_indices};
use std::{env, io};

/// What the threads call: a lock, and a record that it doesn't guard; or a value that its lock guards.
#[derive(Drop)]
struct Objects {
    lock: StampedLock,
    record: StampedRecord<WIDTH, AnyContent>,
    value: StampedValue<Row>,
}

/// What is to be recorded.
#[derive(Clone, Copy)]
struct Plan {
    threads: u64,
    rounds: u64,
    is_guarded: bool,
    seed: u64,
}

/// The calls that the threads make, thread by thread.
fn observations<R: Threads + Wait + Sync + AllocGlobal>(
    rt: &R,
    objects: &Objects,
    plan: Plan,
) -> Result<Vec<Observation>> {
    let tickets = AtomicU64::new(0);
    let tapes = |thread: usize| -> Result<Vec<Observation>, AllocError> {
        let number = thread as u64;
        let mut recorder = Recorder::new(rt.alloc(), &tickets, number);
        let mut subject = if plan.is_guarded {
            Subject::Guarded(&objects.value)
        } else {
            Subject::Apart {
                lock: objects.lock.enter(),
                record: objects.record.enter(),
            }
        };
        let seed = plan.seed.wrapping_add(number);
        work(rt, &mut recorder, &mut subject, plan.rounds, seed)?;
        Ok(recorder.tape())
    };
    let mut calls = Vec::new(rt.alloc());
    for tape in map_indices(rt, rt.alloc(), plan.threads as usize, &tapes)? {
        calls.extend_from_slice(&tape?)?;
    }
    Ok(calls)
}

/// The calls as the observed history of a lock of the widest limits and a record of zeros.
fn history_of(calls: Vec<Observation>) -> Result<Observed> {
    let count = calls.len();
    let Some(history) = Observed::of(Limits::widest(Layout::One), WIDTH as u64, calls) else {
        bail!("{count} calls, and a history has at most {MOST_OBSERVATIONS}");
    };
    Ok(history)
}

fn print_history(rt: &(impl Print + AllocGlobal), history: &Observed) -> Result<()> {
    let text = write_observed(rt.alloc(), history)?;
    let mut output = io::writer(rt);
    output.write_all(&text)?;
    output.write_all(b"\n")?;
    Ok(())
}

/// Reads a number from an argument; `None` where it is none.
fn number_in(arg: Option<String>) -> Option<u64> {
    arg?.parse().ok()
}

fn main(rt: HostRuntime) -> Result<()> {
    let mut args = env::args(&rt)?.skip(1);
    let wanted = number_in(args.next());
    let plan = Plan {
        threads: wanted.unwrap_or(4),
        rounds: number_in(args.next()).unwrap_or(500),
        is_guarded: args.next().is_some_and(|word| word.as_str() == "value"),
        seed: number_in(args.next()).unwrap_or(0),
    };
    ensure!(
        plan.threads <= MOST_THREADS,
        "{} threads, and a history has at most {MOST_THREADS}",
        plan.threads
    );
    let Ok(value) = StampedValue::new(rt.alloc(), Limits::widest(Layout::One), [0; WIDTH]) else {
        bail!("no memory for the value");
    };
    let objects = Objects {
        lock: StampedLock::new(rt.alloc())?,
        record: StampedRecord::new(rt.alloc(), [0; WIDTH])?,
        value,
    };
    let calls = observations(&rt, &objects, plan)?;
    if wanted.is_some() {
        return print_history(&rt, &history_of(calls)?);
    }
    let mut handle = objects.lock.enter();
    println!(rt;
        "threads: {}, a writer at the end: {}, readers: {}",
        plan.threads,
        handle.is_write_locked(),
        handle.read_count()
    )?;
    Ok(())
}
