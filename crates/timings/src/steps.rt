//! Times the steps of a run: a script of 64 threads, built in memory.
//!
//! `steps [STEPS [WIDTH]]`: with a WIDTH of 0, or none, the calls are those of the lock; else they
//! are gets and puts of a record of this many words.
mod mix;
mod run;
mod sum;

use crate::Numbers;
use mix::{MixError, script_of};
use run::run_of;
use std::io;
use std::time::{Clock, Instant};
use sum::sum_of;

/// How many steps are made where no number says so.
const FEW: u64 = 1_000;

/// Writes one line: the time, or that memory was refused, or that there is no such script.
pub fn time<R: AllocGlobal + Clock + Eprint>(rt: &R, numbers: Numbers) -> io::Result<()> {
    let steps = numbers.first.unwrap_or(FEW);
    let script = match script_of(rt.alloc(), steps, numbers.second.unwrap_or(0)) {
        Ok(script) => script,
        Err(MixError::Memory) => return eprintln!(rt; "memory"),
        Err(MixError::Script) => return eprintln!(rt; "no such script"),
    };
    let start = Instant::now(rt)?;
    let ran = run_of(rt.alloc(), &script);
    let nanoseconds = start.elapsed(rt)?.as_nanos();
    let Ok(run) = ran else {
        return eprintln!(rt; "memory");
    };
    eprintln!(rt;
        "steps {steps} nanoseconds {nanoseconds} entries {} sum {}",
        run.finished().len(),
        sum_of(run.word(), run.finished())
    )
}
