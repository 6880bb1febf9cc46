//! Threads that really share a record.
ghost use Rattle.std.specs.Prelude.{◌≡◌, length};

use crate::record_tests::made_record;
use stamp_core::{Layout, Words};
use stamp_threads::{GetFault, PutFault, RecordPass, RunningRecord};
use std::sync::atomic::{AtomicBool, Ordering};
use std::test::Fail;
use std::thread;
use std::thread::{Threads, join};

/// Sixteen times this number.
fn sixteen(number: u64) -> Words
    ensures { length result ≡ 16 }
{
    Words::of_row([number; 16], 16)
}

/// What a reader has found so far.
#[derive(Clone, Copy)]
struct Found {
    /// The last content of either writer: twice its number, and 1 more of the second writer.
    last: [u64; 2],
    /// The last lock word that a refusal gave.
    word: u64,
    /// Each content was put whole, and neither contents nor lock words ever fell.
    is_right: bool,
}

impl Found {
    fn new() -> Found {
        Found {
            last: [0, 1],
            word: 0,
            is_right: true,
        }
    }

    fn content(&mut self, words: &Words) {
        let Some(first) = words.as_slice().first() else {
            return;
        };
        let writer = (*first % 2) as usize;
        let is_whole = words.is_same(&sixteen(*first));
        self.is_right = self.is_right && is_whole && *first >= self.last[writer];
        self.last[writer] = *first;
    }

    fn lock_word(&mut self, word: u64) {
        self.is_right = self.is_right && word >= self.word;
        self.word = word;
    }

    fn fault(&mut self, fault: GetFault) {
        match fault {
            GetFault::Busy(word) => self.lock_word(word),
            GetFault::Lost { loaded, found } => {
                self.lock_word(loaded);
                self.is_right = self.is_right && found > loaded;
                self.lock_word(found);
            }
        }
    }
}

/// Gets 200,000 times, and says whether what was found was right.
fn gets(shared: &RunningRecord, mut pass: RecordPass) -> (bool, RecordPass)
    requires { pass.table ≡ shared.now.table }
    ensures { result.1.table ≡ shared.now.table }
{
    let mut found = Found::new();
    for _ in 0..200_000u64 {
        match shared.get_once(&mut pass) {
            Ok(words) => found.content(&words),
            Err(fault) => found.fault(fault),
        }
    }
    (found.is_right, pass)
}

/// Two readers, whose passes meet.
fn two_readers<R: Threads + Sync>(
    rt: &R,
    shared: &RunningRecord,
    pass: RecordPass,
) -> (bool, RecordPass)
    requires { pass.table ≡ shared.now.table }
    ensures { result.1.table ≡ shared.now.table }
{
    let (first, second) = shared.split(pass);
    let ((a, first), (b, second)) = join(rt, || gets(shared, first), || gets(shared, second));
    let (first, second) = shared.meet(first, second);
    drop(second);
    (a && b, first)
}

/// Tries 200,000 puts, each of sixteen times the same number: twice the try, and 1 more of the
/// second writer. Gives the last one that was made.
fn puts(shared: &RunningRecord, mut pass: RecordPass, writer: u64) -> (u64, RecordPass)
    requires { (pass.table ≡ shared.now.table) × (shared.now.shape.width ≡ 16) }
    ensures { result.1.table ≡ shared.now.table }
{
    let mut last = 0u64;
    for i in 1..=200_000u64 {
        let number = i.wrapping_mul(2).wrapping_add(writer);
        if shared.put_once(&mut pass, sixteen(number)).is_ok() {
            last = number;
        }
    }
    (last, pass)
}

/// A writer and two readers, whose passes meet: the last number put, and whether the gets were right.
fn writer_and_readers<R: Threads + Sync>(
    rt: &R,
    shared: &RunningRecord,
    pass: RecordPass,
    writer: u64,
) -> ((u64, bool), RecordPass)
    requires { (pass.table ≡ shared.now.table) × (shared.now.shape.width ≡ 16) }
    ensures { result.1.table ≡ shared.now.table }
{
    let (first, second) = shared.split(pass);
    let ((last, first), (are_right, second)) = join(
        rt,
        || puts(shared, first, writer),
        || -> (bool, RecordPass)
            requires { second.table ≡ shared.now.table }
            ensures { result.1.table ≡ shared.entry.now.table }
        { two_readers(rt, shared, second) },
    );
    let (first, second) = shared.meet(first, second);
    drop(second);
    ((last, are_right), first)
}

#[test]
fn four_read_what_two_put_and_all_meet(rt: HostRuntime) -> Result<(), Fail> {
    let (shared, pass) = made_record(rt.alloc(), Layout::One, 1 << 40, 16)?;
    let (first, second) = shared.split(pass);
    let (((a, a_right), first), ((b, b_right), second)) = join(
        &rt,
        || writer_and_readers(&rt, &shared, first, 0),
        || writer_and_readers(&rt, &shared, second, 1),
    );
    assert!(rt; a_right && b_right);
    let (mut first, mut second) = shared.meet(first, second);
    let left = shared.get_once(&mut first);
    assert!(rt; left == Ok(sixteen(a)) || left == Ok(sixteen(b)));
    assert!(rt; shared.get_once(&mut second) == left);
    Ok(())
}

/// This number alone: of the time that a put of one word takes, most is between its accesses to the lock word.
fn one(number: u64) -> Words
    ensures { length result ≡ 1 }
{
    match Words::new(&[number]) {
        Some(words) => words,
        None => unreachable!(),
    }
}

/// Which refusals a thread has seen.
#[derive(Clone, Copy)]
struct Refusals {
    was_busy: bool,
    was_lost: bool,
}

impl Refusals {
    fn none() -> Refusals {
        Refusals {
            was_busy: false,
            was_lost: false,
        }
    }

    fn put(&mut self, fault: PutFault) {
        match fault {
            PutFault::Busy(_) => self.was_busy = true,
            PutFault::Lost { .. } => self.was_lost = true,
            PutFault::Spent(_) => {}
        }
    }

    fn get(&mut self, fault: GetFault) {
        match fault {
            GetFault::Busy(_) => self.was_busy = true,
            GetFault::Lost { .. } => self.was_lost = true,
        }
    }

    fn are_both(&self) -> bool {
        self.was_busy && self.was_lost
    }
}

/// Puts again and again until the other thread is done.
fn put_beside(shared: &RunningRecord, mut pass: RecordPass, is_over: &AtomicBool)
    requires { (pass.table ≡ shared.now.table) × (shared.now.shape.width ≡ 1) }
{
    for i in 0..u64::MAX {
        if is_over.load(Ordering::SeqCst) {
            return;
        }
        let _ = shared.put_once(&mut pass, one(i));
    }
}

/// Gets until it was refused both ways, or often enough; whether it was. A get that finds a writer
/// yields to it, in case it was stopped in its put.
fn get_until_refused(shared: &RunningRecord, pass: &mut RecordPass) -> bool
    requires { pass.old.table ≡ shared.now.table }
    ensures { pass.new.table ≡ shared.now.table }
{
    let mut seen = Refusals::none();
    for _ in 0..1_000_000_000u64 {
        if let Err(fault) = shared.get_once(pass) {
            seen.get(fault);
            thread::yield_now();
        }
        if seen.are_both() {
            break;
        }
    }
    seen.are_both()
}

/// Puts until it was refused both ways, or this many times; whether it was.
fn put_until_refused(shared: &RunningRecord, pass: &mut RecordPass) -> bool
    requires { (pass.old.table ≡ shared.now.table) × (shared.now.shape.width ≡ 1) }
    ensures { pass.new.table ≡ shared.now.table }
{
    let mut seen = Refusals::none();
    for i in 0..100_000_000u64 {
        if let Err(fault) = shared.put_once(pass, one(i)) {
            seen.put(fault);
            thread::yield_now();
        }
        if seen.are_both() {
            break;
        }
    }
    seen.are_both()
}

/// Whether gets, and whether puts, were refused both ways; the other thread is told to end then.
fn get_and_put(shared: &RunningRecord, mut pass: RecordPass, is_over: &AtomicBool) -> (bool, bool)
    requires { (pass.table ≡ shared.now.table) × (shared.now.shape.width ≡ 1) }
{
    let gets = get_until_refused(shared, &mut pass);
    let puts = put_until_refused(shared, &mut pass);
    is_over.store(true, Ordering::SeqCst);
    (gets, puts)
}

#[test]
fn gets_and_puts_are_busy_and_are_lost_beside_a_writer(rt: HostRuntime) -> Result<(), Fail> {
    for layout in [Layout::One, Layout::Two] {
        let (shared, pass) = made_record(rt.alloc(), layout, 1 << 40, 1)?;
        let (first, second) = shared.split(pass);
        let is_over = AtomicBool::new(false);
        let (_, are_refused) = join(
            &rt,
            || put_beside(&shared, first, &is_over),
            || get_and_put(&shared, second, &is_over),
        );
        assert!(rt; are_refused == (true, true));
    }
    Ok(())
}
