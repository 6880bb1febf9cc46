//! Passes of threads that come later, and records that begin with a content of their own.
ghost use Rattle.std.specs.Prelude.{◌≡◌, ◌<◌, IfOk, slice_index, true};

use crate::lock_tests::answers;
use crate::record_tests::{gives, pair, puts};
use stamp_core::{Call, Layout, Limits, Reply, Words};
use stamp_threads::{
    AnyContent, ContentRule, GetFault, Pass, PutFault, RecordPass, RuledRecord, RunningLock,
};
use std::alloc::Global;
use std::test::Fail;

/// A lock that threads may enter, and its first pass.
pub fn enterable_lock(
    alloc: Global,
    layout: Layout,
    readers: u64,
) -> Result<(RunningLock, Pass), Fail>
    ensures table { IfOk result (λ r. r.1.table ≡ r.0.table) }
    ensures enterable { IfOk result (λ r. r.0.enterable ≡ true) }
{
    match RunningLock::new_enterable(alloc, Limits::in_layout(layout, readers, 1_000_000)?) {
        Ok((lock, pass)) => Ok((lock, pass)),
        Err(_) => Err(Fail::from("no memory for the lock")),
    }
}

#[test]
fn a_pass_that_enters_finds_what_is_held_and_releases_nothing(rt: HostRuntime) -> Result<(), Fail> {
    let (lock, mut first) = enterable_lock(rt.alloc(), Layout::One, 127)?;
    assert!(rt; answers(&lock, &mut first, Call::TryWrite, Reply::Stamp(384)));
    let mut second = lock.enter();
    assert!(rt; answers(&lock, &mut second, Call::IsWriteLocked, Reply::Yes));
    assert!(rt; answers(&lock, &mut first, Call::ToRead(384), Reply::Stamp(513)));
    assert!(rt; answers(&lock, &mut second, Call::TryRead, Reply::Stamp(514)));
    let mut third = lock.split_off(&mut second);
    assert!(rt; answers(&lock, &mut third, Call::ReadCount, Reply::Count(2)));
    let (_, fourth) = lock.meet(first, lock.enter());
    assert!(rt; lock.close(fourth) == 514);
    Ok(())
}

/// Of the two puts that the limits allow the first content is one.
#[test]
fn entering_a_record_takes_no_version(rt: HostRuntime) -> Result<(), Fail> {
    let limits = Limits::new(1, 2)?;
    let Ok((shared, mut pass)) = RuledRecord::<AnyContent>::holding_enterable(
        rt.alloc(),
        limits,
        pair(1),
    ) else {
        return Err(Fail::from("no memory for the record"));
    };
    let mut second = shared.enter();
    assert!(rt; gives(&shared, &mut second, pair(1)));
    let mut third = shared.split_off(&mut second);
    assert!(rt; puts(&shared, &mut third, pair(2), Ok(())));
    assert!(rt; gives(&shared, &mut shared.enter(), pair(2)));
    assert!(rt; puts(&shared, &mut pass, pair(3), Err(PutFault::Spent(768))));
    Ok(())
}

/// The first word is below the second.
struct Rising;

impl ContentRule for Rising {
    ghost use Rattle.std.specs.Prelude.{◌<◌, slice_index};

    ghost holds = { λ words. slice_index words 0 < slice_index words 1 };
}

/// How far the second word is above the first: by the rule the difference doesn't wrap.
fn height(shared: &RuledRecord<Rising>, pass: &mut RecordPass) -> Result<u64, GetFault>
    requires { (pass.old.table ≡ shared.now.table) × (shared.now.shape.width ≡ 2) }
    ensures { pass.new.table ≡ shared.now.table }
{
    let mut row = [0u64; 2];
    shared.get_into(pass, &mut row)?;
    Ok(row[1] - row[0])
}

#[test]
fn a_record_begins_with_its_first_content(rt: HostRuntime) -> Result<(), Fail> {
    let limits = Limits::new(1, 10)?;
    let first = Words::of_row([3, 5, 0, 0, 0, 0, 0, 0, 0, 0, 0, 0, 0, 0, 0, 0], 2);
    let Ok((shared, mut pass)) = RuledRecord::<Rising>::holding(rt.alloc(), limits, first) else {
        return Err(Fail::from("no memory for the record"));
    };
    assert!(rt; height(&shared, &mut pass) == Ok(2));
    let next = Words::of_row([7, 17, 0, 0, 0, 0, 0, 0, 0, 0, 0, 0, 0, 0, 0, 0], 2);
    assert!(rt; puts(&shared, &mut pass, next, Ok(())));
    let mut later = shared.split_off(&mut pass);
    assert!(rt; height(&shared, &mut later) == Ok(10));
    Ok(())
}
