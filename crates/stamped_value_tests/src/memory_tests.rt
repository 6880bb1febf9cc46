//! Values that have memory of their own, and when they are dropped. A sanitizer sees what is freed twice.
use crate::fixtures::{last_of, made, writing};
use stamped_value::StampedValue;
use std::alloc::Global;
use std::mem;
use std::sync::Wait;
use std::sync::atomic::{AtomicU64, Ordering};
use std::test::Fail;

type Words = Vec<String>;

/// The words behind a lock, to which a writer has added one.
fn two_words<R: Wait>(rt: &R, alloc: Global) -> Result<StampedValue<Words>, Fail> {
    let first = vec![in alloc; String::from_str(alloc, "first")?]?;
    let words = made(alloc, first)?;
    let mut writer = writing(rt, words.enter())?;
    writer.push(String::from_str(alloc, "second")?)?;
    writer.release();
    Ok(words)
}

#[test]
fn the_last_value_comes_out(rt: HostRuntime) -> Result<(), Fail> {
    let words = last_of(two_words(&rt, rt.alloc())?)?;
    assert!(rt; words.len() == 2 && words[0].as_str() == "first" && words[1].as_str() == "second");
    assert!(rt; made(rt.alloc(), 7u64)?.into_inner() == Ok(7));
    Ok(())
}

/// A value that counts how often such a value is dropped.
struct Counted<'a> {
    drops: &'a AtomicU64,
}

impl Drop for Counted<'_> {
    fn drop(self) {
        let Self { drops } = self;
        drops.fetch_add(1, Ordering::SeqCst);
    }
}

#[test]
fn a_value_is_dropped_once_with_its_lock(rt: HostRuntime) -> Result<(), Fail> {
    let drops = AtomicU64::new(0);
    let value = made(rt.alloc(), Counted { drops: &drops })?;
    let mut writer = writing(&rt, value.enter())?;
    *writer = Counted { drops: &drops };
    assert!(rt; drops.load(Ordering::SeqCst) == 1);
    writer.release().read(&rt).release();
    assert!(rt; drops.load(Ordering::SeqCst) == 1);
    drop(value);
    assert!(rt; drops.load(Ordering::SeqCst) == 2);
    Ok(())
}

#[test]
fn a_value_that_comes_out_is_not_dropped_with_its_lock(rt: HostRuntime) -> Result<(), Fail> {
    let drops = AtomicU64::new(0);
    let value = last_of(made(rt.alloc(), Counted { drops: &drops })?)?;
    assert!(rt; drops.load(Ordering::SeqCst) == 0);
    drop(value);
    assert!(rt; drops.load(Ordering::SeqCst) == 1);
    Ok(())
}

#[test]
fn the_value_of_a_forgotten_writer_comes_out_and_is_dropped_once(
    rt: HostRuntime,
) -> Result<(), Fail> {
    let drops = AtomicU64::new(0);
    let value = made(rt.alloc(), Counted { drops: &drops })?;
    mem::forget(writing(&rt, value.enter())?);
    let Err(value) = value.into_inner() else {
        return Err(Fail::from("no writer is left"));
    };
    assert!(rt; drops.load(Ordering::SeqCst) == 0);
    drop(value);
    assert!(rt; drops.load(Ordering::SeqCst) == 1);
    Ok(())
}

#[test]
fn a_value_of_a_dropped_guard_is_dropped_once_with_its_lock(rt: HostRuntime) -> Result<(), Fail> {
    let drops = AtomicU64::new(0);
    let value = made(rt.alloc(), Counted { drops: &drops })?;
    drop(writing(&rt, value.enter())?);
    drop(value.enter().read(&rt));
    assert!(rt; drops.load(Ordering::SeqCst) == 0);
    drop(value);
    assert!(rt; drops.load(Ordering::SeqCst) == 1);
    Ok(())
}
