//! Sections of one thread.
use crate::fixtures::{made, made_in, read_at_once};
use stamp_core::Layout;
use std::test::Fail;

#[test]
fn a_section_answers_its_closure_and_leaves_what_that_wrote(rt: HostRuntime) -> Result<(), Fail> {
    let value = made(rt.alloc(), 7u64)?;
    let mut handle = value.enter();
    let old = handle.write_with(&rt, |number: &mut u64| {
        let old = *number;
        *number = 8;
        old
    });
    assert!(rt; old == Some(7));
    assert!(rt; handle.read_with(&rt, |number: &u64| *number) == 8);
    let reader = read_at_once(&rt, handle)?;
    assert!(rt; *reader == 8);
    reader.release();
    Ok(())
}

#[test]
fn without_a_version_no_section_writes(rt: HostRuntime) -> Result<(), Fail> {
    for layout in [Layout::One, Layout::Two] {
        let value = made_in(rt.alloc(), layout, (2, 1), 7u64)?;
        let mut handle = value.enter();
        assert!(rt; handle.write_with(&rt, |number: &mut u64| *number = 8) == Some(()));
        assert!(rt; handle.write_with(&rt, |number: &mut u64| *number = 9) == None);
        assert!(rt; handle.read_with(&rt, |number: &u64| *number) == 8);
    }
    Ok(())
}

#[test]
fn a_section_that_reads_keeps_writers_out_and_one_that_writes_keeps_all_out(
    rt: HostRuntime,
) -> Result<(), Fail> {
    let value = made(rt.alloc(), 7u64)?;
    let mut handle = value.enter();
    let alone = handle.read_with(&rt, |_: &u64| value.enter().try_write(&rt).is_err());
    assert!(rt; alone);
    let alone = handle.write_with(&rt, |_: &mut u64| {
        value.enter().try_read(&rt).is_err() && value.enter().try_write(&rt).is_err()
    });
    assert!(rt; alone == Some(true));
    Ok(())
}

#[test]
fn the_stamp_of_a_section_is_of_the_last_value_until_a_writer_comes(
    rt: HostRuntime,
) -> Result<(), Fail> {
    let value = made(rt.alloc(), 7u64)?;
    let (mut reads, mut writes) = (value.enter(), value.enter());
    let (number, stamp) = reads.read_stamped(&rt, |number: &u64| *number);
    assert!(rt; number == 7 && reads.is_last(stamp) && writes.is_last(stamp));
    let again = writes.read_with(&rt, |number: &u64| *number);
    assert!(rt; again == 7 && reads.is_last(stamp));
    assert!(rt; writes.write_with(&rt, |number: &mut u64| *number = 8) == Some(()));
    assert!(rt; !reads.is_last(stamp) && !writes.is_last(stamp));
    let (number, next) = reads.read_stamped(&rt, |number: &u64| *number);
    assert!(rt; number == 8 && reads.is_last(next) && !reads.is_last(stamp));
    Ok(())
}
