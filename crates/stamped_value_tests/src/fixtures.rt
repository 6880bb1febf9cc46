//! A guarded value, and the guards of it, or a failed test.
use stamp_core::{Layout, Limits};
use stamped_value::{ReadGuard, StampedValue, ValueHandle, WriteGuard};
use std::alloc::Global;
use std::sync::Wait;
use std::test::Fail;

/// The most readers at a time, and the most write acquisitions.
pub type Most = (u64, u64);

/// A value behind a lock of a layout with these limits.
pub fn made_in<T: Drop>(
    alloc: Global,
    layout: Layout,
    (readers, versions): Most,
    value: T,
) -> Result<StampedValue<T>, Fail> {
    let Ok(limits) = Limits::in_layout(layout, readers, versions) else {
        return Err(Fail::from("limits"));
    };
    match StampedValue::new(alloc, limits, value) {
        Ok(value) => Ok(value),
        Err(_) => Err(Fail::from("no memory for the value")),
    }
}

/// A value behind a lock of the widest limits of layout 1.
pub fn made<T: Drop>(alloc: Global, value: T) -> Result<StampedValue<T>, Fail> {
    match StampedValue::new(alloc, Limits::widest(Layout::One), value) {
        Ok(value) => Ok(value),
        Err(_) => Err(Fail::from("no memory for the value")),
    }
}

/// The last value; the test fails where a writer is left.
pub fn last_of<T: Drop>(value: StampedValue<T>) -> Result<T, Fail> {
    match value.into_inner() {
        Ok(value) => Ok(value),
        Err(_) => Err(Fail::from("a writer is left")),
    }
}

/// The writer's guard; the test fails where no version is left.
pub fn writing<'a, T, R: Wait>(
    rt: &'a R,
    handle: ValueHandle<'a, T>,
) -> Result<WriteGuard<'a, T, R>, Fail> {
    match handle.write(rt) {
        Ok(guard) => Ok(guard),
        Err(_) => Err(Fail::from("no version is left")),
    }
}

/// The guard of a reader that needn't wait.
pub fn read_at_once<'a, T, R: Wait>(
    rt: &'a R,
    handle: ValueHandle<'a, T>,
) -> Result<ReadGuard<'a, T, R>, Fail> {
    match handle.try_read(rt) {
        Ok(guard) => Ok(guard),
        Err(_) => Err(Fail::from("no reader comes")),
    }
}

/// The guard of a writer that needn't wait.
pub fn write_at_once<'a, T, R: Wait>(
    rt: &'a R,
    handle: ValueHandle<'a, T>,
) -> Result<WriteGuard<'a, T, R>, Fail> {
    match handle.try_write(rt) {
        Ok(guard) => Ok(guard),
        Err(_) => Err(Fail::from("no writer comes")),
    }
}

/// The writer's guard that a reader's has become.
pub fn upgraded<'a, T, R: Wait>(guard: ReadGuard<'a, T, R>) -> Result<WriteGuard<'a, T, R>, Fail> {
    match guard.upgrade() {
        Ok(guard) => Ok(guard),
        Err(_) => Err(Fail::from("no upgrade")),
    }
}

/// The handle that a refused reader is left with.
pub fn refused_reader<'a, T, R: Wait>(
    rt: &'a R,
    handle: ValueHandle<'a, T>,
) -> Result<ValueHandle<'a, T>, Fail> {
    match handle.try_read(rt) {
        Ok(_) => Err(Fail::from("a reader comes")),
        Err(handle) => Ok(handle),
    }
}

/// The handle that a refused writer is left with.
pub fn refused_writer<'a, T, R: Wait>(
    rt: &'a R,
    handle: ValueHandle<'a, T>,
) -> Result<ValueHandle<'a, T>, Fail> {
    match handle.try_write(rt) {
        Ok(_) => Err(Fail::from("a writer comes")),
        Err(handle) => Ok(handle),
    }
}
