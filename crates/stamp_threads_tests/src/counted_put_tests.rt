//! Threads that share a record, and whose puts are counted.
ghost use Rattle.std.specs.Prelude.{◌≡◌};

use crate::record_tests::{gives, made_record, pair, puts};
use stamp_core::Layout;
use stamp_threads::{PutFault, RecordPass, RunningRecord};
use std::sync::{Barrier, Wait};
use std::test::Fail;
use std::thread;
use std::thread::{Threads, join};

/// Puts again and again, as others do beside it, until no version is left: how many puts were made,
/// and the refusal at the end, or none after this many tries.
fn put_until_spent<R: Wait>(
    rt: &R,
    shared: &RunningRecord,
    mut pass: RecordPass,
    both: &Barrier,
) -> (u64, Option<PutFault>)
    requires { (pass.table ≡ shared.now.table) × (shared.now.shape.width ≡ 2) }
{
    both.wait(rt);
    let mut made = 0u64;
    for i in 0..10_000_000u64 {
        match shared.put_once(&mut pass, pair(i)) {
            Ok(()) => made = made.wrapping_add(1),
            Err(PutFault::Busy(_) | PutFault::Lost { .. }) => {}
            Err(spent) => return (made, Some(spent)),
        }
        thread::yield_now();
    }
    (made, None)
}

#[test]
fn two_threads_share_the_versions(rt: HostRuntime) -> Result<(), Fail> {
    let (shared, pass) = made_record(rt.alloc(), Layout::One, 50, 2)?;
    let (first, second) = shared.split(pass);
    let (second, mut third) = shared.split(second);
    let both = Barrier::new(2);
    let ((a, first_end), (b, second_end)) = join(
        &rt,
        || put_until_spent(&rt, &shared, first, &both),
        || put_until_spent(&rt, &shared, second, &both),
    );
    let spent = PutFault::Spent(13_056);
    assert!(rt; first_end == Some(spent));
    assert!(rt; second_end == Some(spent));
    assert!(rt; a.wrapping_add(b) == 50);
    assert!(rt; puts(&shared, &mut third, pair(1), Err(spent)));
    Ok(())
}

/// Lets others run in each twentieth round: in each one it would take long where many wait for a processor.
fn let_others_run(round: u64) {
    if round.is_multiple_of(20) {
        thread::yield_now();
    }
}

/// How many puts of 1 to 1000 were made; nobody else puts.
fn put_rising<R: Wait>(
    rt: &R,
    shared: &RunningRecord,
    mut pass: RecordPass,
    all: &Barrier,
) -> (u64, RecordPass)
    requires { (pass.table ≡ shared.now.table) × (shared.now.shape.width ≡ 2) }
    ensures { result.1.table ≡ shared.now.table }
{
    all.wait(rt);
    let mut made = 0u64;
    for i in 1..=1_000u64 {
        if shared.put_once(&mut pass, pair(i)).is_ok() {
            made = made.wrapping_add(1);
        }
        let_others_run(i);
    }
    (made, pass)
}

/// The number of a content that was put, 0 of the zeros; nothing where it is none of these,
/// or an older one than the last.
fn rising_number(words: &[u64], last: u64) -> Option<u64> {
    match *words {
        [k, again] if k == again && last <= k && k <= 1_000 => Some(k),
        _ => None,
    }
}

/// Gets a thousand times: the number of the last content, nothing where any was wrong.
fn get_rising<R: Wait>(
    rt: &R,
    shared: &RunningRecord,
    mut pass: RecordPass,
    all: &Barrier,
) -> (Option<u64>, RecordPass)
    requires { pass.table ≡ shared.now.table }
    ensures { result.1.table ≡ shared.now.table }
{
    all.wait(rt);
    let mut last = Some(0);
    for i in 0..1_000u64 {
        if let (Ok(words), Some(k)) = (shared.get_once(&mut pass), last) {
            last = rising_number(words.as_slice(), k);
        }
        let_others_run(i);
    }
    (last, pass)
}

/// What each of two readers found, and its pass.
fn two_get_rising<R: Threads + Wait + Sync>(
    rt: &R,
    shared: &RunningRecord,
    pass: RecordPass,
    all: &Barrier,
) -> ((Option<u64>, RecordPass), (Option<u64>, RecordPass))
    requires { pass.table ≡ shared.now.table }
    ensures first { result.0.1.table ≡ shared.now.table }
    ensures second { result.1.1.table ≡ shared.now.table }
{
    let (first, second) = shared.split(pass);
    join(
        rt,
        || get_rising(rt, shared, first, all),
        || get_rising(rt, shared, second, all),
    )
}

#[test]
fn two_threads_read_what_a_third_puts(rt: HostRuntime) -> Result<(), Fail> {
    let (shared, pass) = made_record(rt.alloc(), Layout::One, 1_000, 2)?;
    let (putting, reading) = shared.split(pass);
    let all = Barrier::new(3);
    let ((made, putting), ((a, first), (b, second))) = join(
        &rt,
        || put_rising(&rt, &shared, putting, &all),
        || two_get_rising(&rt, &shared, reading, &all),
    );
    assert!(rt; made == 1_000);
    assert!(rt; a.is_some() && b.is_some());
    let (putting, mut first) = shared.meet(putting, first);
    let (mut putting, mut second) = shared.meet(putting, second);
    let last = pair(1_000);
    assert!(rt; gives(&shared, &mut putting, last));
    assert!(rt; gives(&shared, &mut first, last));
    assert!(rt; gives(&shared, &mut second, last));
    Ok(())
}
