//! Three threads share a lock whose calls are recorded, and the history is judged at the end.
//!
//! `recorded_run` prints the verdict in the words of `stamped check`. `recorded_run history` prints
//! the history itself, which `stamped check` reads.
#![tactic(auto)]

mod threads;

use anyhow::Result;
use stamp_core::{Layout, Limits, Record};
use stamp_history::{check, write_history};
use stamp_threads::{Book, Shared};
use std::io::Write;
use std::rt::Env;
use std::sync::Wait;
use std::thread::{Threads, join};
use std::{env, io};
use threads::work;

/// More calls than the threads make.
const MOST: u64 = 20_000;

/// The history of three threads that work at the same time.
fn recorded<R: Threads + Wait + Sync + AllocGlobal>(rt: &R) -> Result<Record> {
    let book = Book::new(rt.alloc(), Limits::widest(Layout::One), MOST);
    let shared = Shared::new(book);
    let (first, (second, third)) = join(
        rt,
        || work(rt, &shared, 0),
        || join(rt, || work(rt, &shared, 1), || work(rt, &shared, 2)),
    );
    first?;
    second?;
    third?;
    Ok(shared.record(rt)?)
}

/// Whether the word after the program's name is `history`.
fn is_history_wanted(rt: &(impl Env + AllocGlobal)) -> Result<bool> {
    let word = env::args(rt)?.nth(1);
    Ok(word.is_some_and(|word| word.as_str() == "history"))
}

fn print_history(rt: &(impl Print + AllocGlobal), record: &Record) -> Result<()> {
    let text = write_history(rt.alloc(), record)?;
    let mut output = io::writer(rt);
    output.write_all(&text)?;
    output.write_all(b"\n")?;
    Ok(())
}

fn main(rt: HostRuntime) -> Result<()> {
    let record = recorded(&rt)?;
    if is_history_wanted(&rt)? {
        return print_history(&rt, &record);
    }
    let calls = check(&record)?;
    println!(rt; "ok {calls}")?;
    Ok(())
}
