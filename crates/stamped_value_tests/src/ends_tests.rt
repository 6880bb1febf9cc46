//! What comes out of a lock in the end, also where a guard was forgotten.
use crate::fixtures::{made_in, writing};
use stamp_core::Layout;
use std::mem;
use std::test::Fail;

#[test]
fn where_a_writer_was_forgotten_its_value_comes_out_as_an_error(
    rt: HostRuntime,
) -> Result<(), Fail> {
    for layout in [Layout::One, Layout::Two] {
        let value = made_in(rt.alloc(), layout, (2, 9), 7u64)?;
        let mut writer = writing(&rt, value.enter())?;
        *writer = 8;
        mem::forget(writer);
        assert!(rt; value.into_inner() == Err(8));
    }
    Ok(())
}

#[test]
fn where_readers_were_forgotten_the_last_value_comes_out(rt: HostRuntime) -> Result<(), Fail> {
    for layout in [Layout::One, Layout::Two] {
        let value = made_in(rt.alloc(), layout, (2, 9), 7u64)?;
        let mut writer = writing(&rt, value.enter())?;
        *writer = 8;
        mem::forget(writer.downgrade());
        mem::forget(value.enter().read(&rt));
        assert!(rt; value.into_inner() == Ok(8));
    }
    Ok(())
}

#[test]
fn where_a_writer_was_dropped_the_last_value_comes_out(rt: HostRuntime) -> Result<(), Fail> {
    for layout in [Layout::One, Layout::Two] {
        let value = made_in(rt.alloc(), layout, (2, 9), 7u64)?;
        let mut writer = writing(&rt, value.enter())?;
        *writer = 8;
        drop(writer);
        assert!(rt; value.into_inner() == Ok(8));
    }
    Ok(())
}
