//! Times gets and puts of a running record, by one thread, and gets by several, with and without a
//! thread that puts each 10 microseconds; gets and updates by a handle of `stamped_lock`, by one thread
//! and by several; and loads and stores of a `SeqCell` of the same words.
//!
//! `record [CALLS [ROUNDS [OFTEN]]]` writes a line for each kind of call and round: its name, how many
//! threads, how many calls each made, the nanoseconds from the first to the last, and how many calls
//! succeeded. In each round what one thread makes is timed this often.
ghost use Rattle.std.specs.Prelude.{◌≡◌, ◌≤◌, IfSome, true};

mod alike;
mod calls;
mod cells;
mod handles;
mod side_by_side;
mod updates;

use crate::Numbers;
use crate::line::tell;
use crate::threads::sum_of;
use calls::{gets, gets_handed, gets_into, puts};
use cells::{loads, stores};
use crossbeam_utils::atomic::SeqCell;
use side_by_side::{put_until_over, read_beside};
use stamp_core::{Limits, Words};
use stamp_threads::RunningRecord;
use stamped_lock::{AnyContent, StampedRecord};
use std::alloc::Global;
use std::io;
use std::sync::Wait;
use std::sync::atomic::AtomicU64;
use std::thread::Threads;
use std::time::{Clock, Instant};
use updates::{updates, updates_by};

/// How many calls are made where no number says so.
const FEW: u64 = 1_000;

/// How many times as many calls each of several threads makes, since starting and spreading them takes time too.
const MORE: u64 = 1_024;

/// The same of updates, each of which takes as long as many gets.
const MORE_UPDATES: u64 = 4;

/// What the lines call that of a record of two words which one thread makes, in its order.
const OF_TWO: [&str; 9] = [
    "get2",
    "hand2",
    "into2",
    "put2",
    "handle2",
    "handle_hand2",
    "load2",
    "store2",
    "update2",
];

/// And of one of sixteen words.
const OF_SIXTEEN: [&str; 9] = [
    "get16",
    "hand16",
    "into16",
    "put16",
    "handle16",
    "handle_hand16",
    "load16",
    "store16",
    "update16",
];

/// A record of words, and what is timed beside it: one of `stamped_lock`, and a cell.
#[derive(Drop)]
struct Timed<const N: usize> {
    running: RunningRecord,
    handled: StampedRecord<N, AnyContent>,
    cell: SeqCell<[u64; N], N>,
}

impl<const N: usize> Timed<N> {
    /// Zeros in each, if there is memory for them.
    fn new(alloc: Global) -> Option<Timed<N>>
        requires { (1 ≤ N) × (N ≤ 16) }
        ensures enterable { IfSome result (λ timed. timed.running.enterable ≡ true) }
        ensures width { IfSome result (λ timed. timed.running.shape.width ≡ N) }
    {
        let limits = Limits::new(127, 1 << 50).ok()?;
        let words = Words::new(&[0; N])?;
        let (running, _) = RunningRecord::holding_enterable(alloc, limits, words).ok()?;
        Some(Timed {
            running,
            handled: StampedRecord::new(alloc, [0; N]).ok()?,
            cell: SeqCell::new(alloc, [0; N]).ok()?,
        })
    }

    /// Gets and puts of the running record by one thread, one after the other.
    fn tell_running<R: Eprint + Clock>(
        &self,
        rt: &R,
        names: &[&str; 9],
        calls: u64,
    ) -> io::Result<()>
        requires { (self.now.running.enterable ≡ true) × (self.now.running.shape.width ≡ N) }
    {
        let mut row = [0; N];
        let Some(words) = Words::new(&row) else {
            return Ok(());
        };
        let start = Instant::now(rt)?;
        let good = gets(&self.running, calls);
        let start = tell(rt, names[0], 1, calls, start, good)?;
        let good = gets_handed(&self.running, calls);
        let start = tell(rt, names[1], 1, calls, start, good)?;
        let good = gets_into(&self.running, &mut row, calls);
        let start = tell(rt, names[2], 1, calls, start, good)?;
        let good = puts(&self.running, &words, calls);
        tell(rt, names[3], 1, calls, start, good)?;
        Ok(())
    }

    /// Gets by handles.
    fn tell_handles<R: Eprint + Clock>(
        &self,
        rt: &R,
        names: &[&str; 9],
        calls: u64,
    ) -> io::Result<()>
        requires { N ≤ 16 }
    {
        let start = Instant::now(rt)?;
        let good = handles::gets(self.handled.enter(), calls);
        let start = tell(rt, names[4], 1, calls, start, good)?;
        let good = handles::gets_handed(self.handled.enter(), calls);
        tell(rt, names[5], 1, calls, start, good)?;
        Ok(())
    }

    /// Loads and stores of the cell.
    fn tell_cell<R: Eprint + Clock + Wait>(
        &self,
        rt: &R,
        names: &[&str; 9],
        calls: u64,
    ) -> io::Result<()>
        requires { 1 ≤ N }
    {
        let start = Instant::now(rt)?;
        let good = loads(rt, &self.cell, calls);
        let start = tell(rt, names[6], 1, calls, start, good)?;
        let good = stores(rt, &self.cell, calls);
        tell(rt, names[7], 1, calls, start, good)?;
        Ok(())
    }

    /// Updates by a handle.
    fn tell_updates<R: Eprint + Clock + Wait>(
        &self,
        rt: &R,
        names: &[&str; 9],
        calls: u64,
    ) -> io::Result<()>
        requires { N ≤ 16 }
    {
        let start = Instant::now(rt)?;
        let good = updates(rt, self.handled.enter(), calls);
        tell(rt, names[8], 1, calls, start, good)?;
        Ok(())
    }

    /// All that one thread makes.
    fn tell_all<R: Eprint + Clock + Wait>(
        &self,
        rt: &R,
        names: &[&str; 9],
        calls: u64,
    ) -> io::Result<()>
        requires few { (1 ≤ N) × (N ≤ 16) }
        requires running { (self.now.running.enterable ≡ true) × (self.now.running.shape.width ≡ N) }
    {
        self.tell_running(rt, names, calls)?;
        self.tell_handles(rt, names, calls)?;
        self.tell_cell(rt, names, calls)?;
        self.tell_updates(rt, names, calls)
    }
}

/// Threads that read two words, beside this many that put them.
fn read_by<R: AllocGlobal + Clock + Threads + Sync>(
    rt: &R,
    shared: &RunningRecord,
    readers: usize,
    writers: usize,
    calls: u64,
) -> u64
    requires shared { (shared.now.enterable ≡ true) × (shared.now.shape.width ≡ 2) }
    requires few { (readers ≤ 4) × (writers ≤ 1) }
{
    let reading = AtomicU64::new(readers as u64);
    let part = |i: usize| {
        if i < readers {
            read_beside(shared, calls, &reading)
        } else {
            put_until_over(rt, shared, &reading);
            0
        }
    };
    sum_of(rt, readers + writers, &part)
}

/// One to four threads that read two words, without a writer and beside one.
fn together<R: AllocGlobal + Eprint + Clock + Threads + Sync>(
    rt: &R,
    shared: &RunningRecord,
    calls: u64,
) -> io::Result<()>
    requires { (shared.now.enterable ≡ true) × (shared.now.shape.width ≡ 2) }
{
    for threads in 1..5usize {
        let start = Instant::now(rt)?;
        let good = read_by(rt, shared, threads, 0, calls);
        let start = tell(rt, "readers", threads as u64, calls, start, good)?;
        let good = read_by(rt, shared, threads, 1, calls);
        tell(rt, "beside", threads as u64, calls, start, good)?;
    }
    Ok(())
}

/// One to four threads that get the same two words by handles.
fn get_together<R: AllocGlobal + Eprint + Clock + Threads + Sync>(
    rt: &R,
    record: &StampedRecord<2, AnyContent>,
    calls: u64,
) -> io::Result<()> {
    let part = |_: usize| handles::gets(record.enter(), calls);
    for threads in 1..5usize {
        let start = Instant::now(rt)?;
        let good = sum_of(rt, threads, &part);
        tell(rt, "handle_readers", threads as u64, calls, start, good)?;
    }
    Ok(())
}

/// One to four threads that update the same two words.
fn update_together<R: AllocGlobal + Eprint + Clock + Threads + Wait + Sync>(
    rt: &R,
    record: &StampedRecord<2, AnyContent>,
    calls: u64,
) -> io::Result<()> {
    for threads in 1..5usize {
        let start = Instant::now(rt)?;
        let good = updates_by(rt, record, threads, calls);
        tell(rt, "updaters", threads as u64, calls, start, good)?;
    }
    Ok(())
}

/// Writes a line for each kind of call and round; none for want of memory.
pub fn time<R: AllocGlobal + Clock + Eprint + Threads + Wait + Sync>(
    rt: &R,
    numbers: Numbers,
) -> io::Result<()> {
    let (Some(two), Some(sixteen)) = (Timed::<2>::new(rt.alloc()), Timed::<16>::new(rt.alloc()))
    else {
        return Ok(());
    };
    let calls = numbers.first.unwrap_or(FEW);
    for _ in 0..numbers.second.unwrap_or(1) {
        for _ in 0..numbers.third.unwrap_or(1) {
            two.tell_all(rt, &OF_TWO, calls)?;
            sixteen.tell_all(rt, &OF_SIXTEEN, calls)?;
        }
        together(rt, &two.running, calls.wrapping_mul(MORE))?;
        get_together(rt, &two.handled, calls.wrapping_mul(MORE))?;
        update_together(rt, &two.handled, calls.wrapping_mul(MORE_UPDATES))?;
    }
    Ok(())
}
