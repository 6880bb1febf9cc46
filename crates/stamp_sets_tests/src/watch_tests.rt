use crate::samples::{Step, count, goes, returns, stamp, watch};
use stamp_core::{LockCall, LockReply};
use stamp_sets::{Ending, Progress, SmallCall, SmallReply};
use std::test::Fail;

const READ_LOCK: SmallCall = SmallCall::OfLock(LockCall::ReadLock);

const WRITE_LOCK: SmallCall = SmallCall::OfLock(LockCall::WriteLock);

const TRY_READ: SmallCall = SmallCall::OfLock(LockCall::TryRead);

const READ_COUNT: SmallCall = SmallCall::OfLock(LockCall::ReadCount);

const TRY_UNLOCK_READ: SmallCall = SmallCall::OfLock(LockCall::TryUnlockRead);

const YES: SmallReply = SmallReply::OfLock(LockReply::Yes);

#[test]
fn a_watch_goes_on_while_the_run_is_explained(rt: HostRuntime) -> Result<(), Fail> {
    let mut watch = watch(&rt)?;
    assert!(rt;
        goes(
            &mut watch,
            &[
                Step::Begins(0, READ_LOCK, returns(stamp(257), 3)),
                Step::Begins(1, WRITE_LOCK, Ending::Withdraws),
                Step::Withdraws(1),
                Step::Ends(0, stamp(257), 100),
                Step::Begins(1, WRITE_LOCK, returns(stamp(384), 5)),
                Step::Ends(1, stamp(384), 100)
            ]
        )? == Progress::Dead
    );
    Ok(())
}

#[test]
fn what_was_not_told_is_refused(rt: HostRuntime) -> Result<(), Fail> {
    let mut watch = watch(&rt)?;
    let told = returns(stamp(257), 3);
    assert!(rt; goes(&mut watch, &[Step::Begins(64, READ_LOCK, told)])? == Progress::Refused);
    assert!(rt;
        goes(
            &mut watch,
            &[
                Step::Begins(0, READ_LOCK, told),
                Step::Begins(0, READ_LOCK, told)
            ]
        )? == Progress::Refused
    );
    assert!(rt; goes(&mut watch, &[Step::Begins(0, SmallCall::Get, told)])? == Progress::Refused);
    assert!(rt; goes(&mut watch, &[Step::Ends(1, stamp(257), 100)])? == Progress::Refused);
    assert!(rt; goes(&mut watch, &[Step::Ends(0, stamp(258), 100)])? == Progress::Refused);
    assert!(rt; goes(&mut watch, &[Step::Withdraws(0)])? == Progress::Refused);
    assert!(rt;
        goes(
            &mut watch,
            &[
                Step::Ends(0, stamp(257), 100),
                Step::Begins(0, READ_LOCK, returns(stamp(258), 2)),
                Step::Ends(0, stamp(258), 100)
            ]
        )? == Progress::Refused
    );
    Ok(())
}

#[test]
fn a_watch_with_too_many_positions_is_as_before(rt: HostRuntime) -> Result<(), Fail> {
    let mut watch = watch(&rt)?;
    assert!(rt;
        goes(
            &mut watch,
            &[
                Step::Begins(0, TRY_READ, Ending::Never),
                Step::Begins(1, READ_LOCK, Ending::Never),
                Step::Begins(2, READ_COUNT, returns(count(1), 3)),
                Step::Ends(2, count(1), 1)
            ]
        )? == Progress::TooMany
    );
    assert!(rt; goes(&mut watch, &[Step::Ends(2, count(1), 2)])? == Progress::Going);
    Ok(())
}

#[test]
fn a_copy_goes_on_by_itself(rt: HostRuntime) -> Result<(), Fail> {
    let mut watch = watch(&rt)?;
    assert!(rt;
        goes(
            &mut watch,
            &[Step::Begins(0, WRITE_LOCK, returns(stamp(384), 1))]
        )? == Progress::Going
    );
    let mut copy = watch.copied()?;
    assert!(rt;
        goes(
            &mut watch,
            &[
                Step::Ends(0, stamp(384), 100),
                Step::Begins(0, TRY_READ, Ending::Withdraws)
            ]
        )? == Progress::Going
    );
    assert!(rt;
        goes(&mut copy, &[Step::Begins(0, TRY_READ, Ending::Withdraws)])? == Progress::Refused
    );
    assert!(rt; goes(&mut copy, &[Step::Ends(0, stamp(384), 100)])? == Progress::Going);
    Ok(())
}

#[test]
fn calls_that_are_alike_have_one_order(rt: HostRuntime) -> Result<(), Fail> {
    let mut watch = watch(&rt)?;
    assert!(rt;
        goes(
            &mut watch,
            &[
                Step::Begins(0, READ_LOCK, returns(stamp(257), 2)),
                Step::Begins(1, READ_LOCK, returns(stamp(258), 3)),
                Step::Begins(2, TRY_UNLOCK_READ, returns(YES, 7)),
                Step::Begins(3, TRY_UNLOCK_READ, returns(YES, 9)),
                Step::Ends(0, stamp(257), 8),
                Step::Ends(1, stamp(258), 8),
                Step::Ends(2, YES, 8),
                Step::Ends(3, YES, 8),
                Step::Begins(0, TRY_UNLOCK_READ, returns(YES, 11)),
                Step::Ends(0, YES, 8)
            ]
        )? == Progress::Dead
    );
    Ok(())
}

#[test]
fn positions_are_told_one_by_one(rt: HostRuntime) -> Result<(), Fail> {
    let mut watch = watch(&rt)?;
    assert!(rt; watch.limits().readers() == 127 && watch.positions() == 1);
    assert!(rt; watch.word_at(0) == Some(256) && watch.word_at(1) == None);
    assert!(rt;
        goes(
            &mut watch,
            &[
                Step::Begins(0, TRY_READ, Ending::Never),
                Step::Begins(2, READ_COUNT, returns(count(0), 1))
            ]
        )? == Progress::Going
    );
    assert!(rt; watch.waiting_at(0, 0, 0) == Some(TRY_READ) && watch.waiting_at(0, 0, 1) == None);
    assert!(rt; watch.waiting_at(0, 0, 2) == None && watch.waiting_at(0, 0, 64) == None);
    assert!(rt; watch.waiting_at(1, 0, 0) == None);
    Ok(())
}
