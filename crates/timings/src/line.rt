//! The line of what was timed.
use std::io;
use std::time::{Clock, Instant};

/// Writes the name, how many threads, how many calls each made, the nanoseconds since the start,
/// and how many calls succeeded. What it returns is the moment after it, the next start.
pub fn tell<R: Eprint + Clock>(
    rt: &R,
    name: &str,
    threads: u64,
    calls: u64,
    start: Instant,
    good: u64,
) -> io::Result<Instant> {
    let nanoseconds = start.elapsed(rt)?.as_nanos();
    eprintln!(rt; "{name} {threads} {calls} {nanoseconds} {good}")?;
    Instant::now(rt)
}
