//! Times `decide` over a cycle of calls of the lock, each on the word that the calls before it left.
//!
//! `decide [CALLS [LAYOUT]]`: LAYOUT is 1 or 2, and 1 where none is given; since it is read, the
//! compiler can't leave out what the other layout needs.
mod run;

use crate::Numbers;
use run::run_of;
use stamp_core::{Layout, Limits};
use std::io;
use std::time::{Clock, Instant};

/// How many calls are made where no number says so.
const FEW: u64 = 1_000;

/// Writes one line.
pub fn time<R: Clock + Eprint>(rt: &R, numbers: Numbers) -> io::Result<()> {
    let calls = numbers.first.unwrap_or(FEW);
    let layout = match numbers.second {
        Some(2) => Layout::Two,
        _ => Layout::One,
    };
    let limits = Limits::widest(layout);
    let start = Instant::now(rt)?;
    let run = run_of(limits, calls);
    let nanoseconds = start.elapsed(rt)?.as_nanos();
    eprintln!(rt; "calls {calls} nanoseconds {nanoseconds} sum {}", run.sum)
}
