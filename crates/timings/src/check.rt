//! Times `check` on a record of all kinds of calls, each with its reply.
//!
//! `check [CALLS [WALKS [WIDTH]]]`: WIDTH is that of the guarded record; where it is 0, or none is
//! given, the calls are the lock's alone.
mod calls;
mod made;

use crate::Numbers;
use made::record_of;
use stamp_check::check;
use stamp_core::Limits;
use std::io;
use std::time::{Clock, Instant};

/// How many calls are made where no number says so.
const FEW: u64 = 1_000;

/// Writes one line.
pub fn time<R: AllocGlobal + Clock + Eprint>(rt: &R, numbers: Numbers) -> io::Result<()> {
    let calls = numbers.first.unwrap_or(FEW);
    let Some(limits) = Limits::new(127, 1_000_000_000).ok() else {
        return Ok(());
    };
    let Some(record) = record_of(rt.alloc(), limits, numbers.third.unwrap_or(0), calls)? else {
        return Ok(());
    };
    let mut sum = 0_u64;
    let start = Instant::now(rt)?;
    for _ in 0..numbers.second.unwrap_or(1) {
        let told = match check(&record) {
            Ok(entries) => entries,
            Err(bad) => bad.entry,
        };
        sum = sum.wrapping_add(told);
    }
    let nanoseconds = start.elapsed(rt)?.as_nanos();
    eprintln!(rt; "entries {sum} nanoseconds {nanoseconds}")
}
