use crate::samples::{Step, goes, returns, stamp, watch};
use stamp_core::{LockCall, LockReply};
use stamp_sets::{Ending, Progress, SmallCall, SmallReply};
use std::test::Fail;

const DONE: SmallReply = SmallReply::OfLock(LockReply::Done);

const YES: SmallReply = SmallReply::OfLock(LockReply::Yes);

const NO: SmallReply = SmallReply::OfLock(LockReply::No);

const FIRST: SmallReply = SmallReply::Content(0);

const GET: SmallCall = SmallCall::Get;

#[test]
fn a_get_sees_no_put_that_never_began(rt: HostRuntime) -> Result<(), Fail> {
    let mut watch = watch(&rt)?;
    let seen = SmallReply::Content(1);
    assert!(rt;
        goes(
            &mut watch,
            &[
                Step::Begins(0, GET, returns(seen, 1)),
                Step::Ends(0, seen, 9)
            ]
        )? == Progress::Dead
    );
    Ok(())
}

#[test]
fn a_get_sees_a_put_that_never_ends(rt: HostRuntime) -> Result<(), Fail> {
    let mut watch = watch(&rt)?;
    let seen = SmallReply::Content(1);
    assert!(rt;
        goes(
            &mut watch,
            &[
                Step::Begins(1, SmallCall::Put(1), Ending::Never),
                Step::Begins(0, GET, returns(seen, 1)),
                Step::Ends(0, seen, 9),
                Step::Begins(0, GET, returns(FIRST, 2)),
                Step::Ends(0, FIRST, 9)
            ]
        )? == Progress::Dead
    );
    Ok(())
}

#[test]
fn a_get_sees_no_content_that_was_put_over(rt: HostRuntime) -> Result<(), Fail> {
    let mut watch = watch(&rt)?;
    assert!(rt;
        goes(
            &mut watch,
            &[
                Step::Begins(0, SmallCall::Put(1), returns(DONE, 1)),
                Step::Begins(1, GET, returns(FIRST, 2)),
                Step::Ends(0, DONE, 9),
                Step::Ends(1, FIRST, 9),
                Step::Begins(1, GET, returns(FIRST, 3)),
                Step::Ends(1, FIRST, 9)
            ]
        )? == Progress::Dead
    );
    Ok(())
}

#[test]
fn puts_that_overlap_come_in_either_order(rt: HostRuntime) -> Result<(), Fail> {
    let mut watch = watch(&rt)?;
    let first = SmallReply::Content(1);
    let second = SmallReply::Content(2);
    assert!(rt;
        goes(
            &mut watch,
            &[
                Step::Begins(0, SmallCall::Put(1), returns(DONE, 1)),
                Step::Begins(1, SmallCall::Put(2), returns(DONE, 2)),
                Step::Ends(0, DONE, 9),
                Step::Ends(1, DONE, 9)
            ]
        )? == Progress::Going
    );
    let mut other = watch.copied()?;
    assert!(rt;
        goes(
            &mut watch,
            &[
                Step::Begins(0, GET, returns(first, 3)),
                Step::Ends(0, first, 9)
            ]
        )? == Progress::Going
    );
    assert!(rt; watch.contents() == 1 && watch.content_at(0) == Some(1));
    assert!(rt;
        goes(
            &mut watch,
            &[
                Step::Begins(0, GET, returns(second, 4)),
                Step::Ends(0, second, 9)
            ]
        )? == Progress::Dead
    );
    assert!(rt;
        goes(
            &mut other,
            &[
                Step::Begins(0, GET, returns(second, 3)),
                Step::Ends(0, second, 9)
            ]
        )? == Progress::Going
    );
    assert!(rt;
        other.contents() == 1 && other.content_at(0) == Some(2) && other.content_at(1) == None
    );
    Ok(())
}

#[test]
fn a_put_if_is_answered_no_over_another_content(rt: HostRuntime) -> Result<(), Fail> {
    let mut watch = watch(&rt)?;
    assert!(rt;
        goes(
            &mut watch,
            &[
                Step::Begins(0, SmallCall::PutIf(1, 2), returns(NO, 1)),
                Step::Ends(0, NO, 9),
                Step::Begins(0, SmallCall::PutIf(0, 1), returns(YES, 2)),
                Step::Ends(0, YES, 9)
            ]
        )? == Progress::Going
    );
    assert!(rt; watch.contents() == 1 && watch.content_at(0) == Some(1));
    assert!(rt;
        goes(
            &mut watch,
            &[
                Step::Begins(0, SmallCall::PutIf(1, 3), returns(NO, 3)),
                Step::Ends(0, NO, 9)
            ]
        )? == Progress::Dead
    );
    Ok(())
}

#[test]
fn puts_that_overlap_stay_few_positions(rt: HostRuntime) -> Result<(), Fail> {
    let mut watch = watch(&rt)?;
    assert!(rt;
        goes(
            &mut watch,
            &[
                Step::Begins(0, SmallCall::Put(1), returns(DONE, 0)),
                Step::Begins(1, SmallCall::Put(2), returns(DONE, 1)),
                Step::Begins(2, SmallCall::Put(3), returns(DONE, 2)),
                Step::Begins(3, SmallCall::Put(4), returns(DONE, 3)),
                Step::Begins(4, SmallCall::Put(5), returns(DONE, 4)),
                Step::Begins(5, SmallCall::Put(6), returns(DONE, 5)),
                Step::Ends(0, DONE, 12),
                Step::Ends(1, DONE, 12),
                Step::Ends(2, DONE, 12),
                Step::Ends(3, DONE, 12),
                Step::Ends(4, DONE, 12),
                Step::Ends(5, DONE, 12)
            ]
        )? == Progress::Going
    );
    assert!(rt; watch.contents() == 6);
    let seen = SmallReply::Content(3);
    assert!(rt;
        goes(
            &mut watch,
            &[
                Step::Begins(0, GET, returns(seen, 6)),
                Step::Ends(0, seen, 6)
            ]
        )? == Progress::Going
    );
    assert!(rt; watch.contents() == 1 && watch.content_at(0) == Some(3));
    Ok(())
}

#[test]
fn calls_that_never_end_leave_one_position(rt: HostRuntime) -> Result<(), Fail> {
    let mut watch = watch(&rt)?;
    assert!(rt;
        goes(
            &mut watch,
            &[
                Step::Begins(0, SmallCall::PutIf(0, 1), Ending::Never),
                Step::Begins(1, SmallCall::PutIf(0, 2), Ending::Never),
                Step::Begins(2, SmallCall::PutIf(0, 3), Ending::Never),
                Step::Begins(3, SmallCall::Put(0), returns(DONE, 1)),
                Step::Begins(4, SmallCall::Put(0), returns(DONE, 2)),
                Step::Ends(3, DONE, 50)
            ]
        )? == Progress::Going
    );
    assert!(rt; watch.contents() == 1 && watch.content_at(0) == Some(0));
    assert!(rt; goes(&mut watch, &[Step::Ends(4, DONE, 50)])? == Progress::Going);
    assert!(rt; watch.contents() == 1 && watch.content_at(0) == Some(0));
    Ok(())
}

#[test]
fn a_put_that_may_have_been_put_over_is_kept_so_alone(rt: HostRuntime) -> Result<(), Fail> {
    let mut watch = watch(&rt)?;
    assert!(rt;
        goes(
            &mut watch,
            &[
                Step::Begins(0, SmallCall::Put(4), returns(DONE, 1)),
                Step::Begins(1, SmallCall::Put(0), returns(DONE, 2)),
                Step::Begins(2, SmallCall::PutIf(0, 3), returns(YES, 3)),
                Step::Ends(0, DONE, 50)
            ]
        )? == Progress::Going
    );
    assert!(rt; watch.contents() == 2);
    assert!(rt;
        goes(
            &mut watch,
            &[Step::Ends(1, DONE, 50), Step::Ends(2, YES, 50)]
        )? == Progress::Going
    );
    Ok(())
}

#[test]
fn a_lock_and_its_record_are_judged_side_by_side(rt: HostRuntime) -> Result<(), Fail> {
    let mut watch = watch(&rt)?;
    let seen = SmallReply::Content(1);
    let write = SmallCall::OfLock(LockCall::WriteLock);
    assert!(rt;
        goes(
            &mut watch,
            &[
                Step::Begins(0, write, returns(stamp(384), 1)),
                Step::Begins(1, GET, returns(seen, 3)),
                Step::Ends(0, stamp(384), 9),
                Step::Begins(0, SmallCall::Put(1), returns(DONE, 4)),
                Step::Begins(1, write, Ending::Never)
            ]
        )? == Progress::Refused
    );
    assert!(rt; goes(&mut watch, &[Step::Withdraws(1)])? == Progress::Refused);
    assert!(rt;
        watch.waiting_at(0, 0, 0) == Some(SmallCall::Put(1)) && watch.waiting_at(0, 1, 0) == None
    );
    assert!(rt;
        goes(
            &mut watch,
            &[Step::Ends(1, seen, 9), Step::Ends(0, DONE, 9)]
        )? == Progress::Going
    );
    let unlock = SmallCall::OfLock(LockCall::UnlockWrite(384));
    assert!(rt;
        goes(
            &mut watch,
            &[
                Step::Begins(0, unlock, returns(DONE, 2)),
                Step::Ends(0, DONE, 9)
            ]
        )? == Progress::Refused
    );
    Ok(())
}

#[test]
fn one_of_both_that_is_not_explained_is_enough(rt: HostRuntime) -> Result<(), Fail> {
    let mut watch = watch(&rt)?;
    let write = SmallCall::OfLock(LockCall::WriteLock);
    assert!(rt;
        goes(
            &mut watch,
            &[
                Step::Begins(0, write, returns(stamp(384), 1)),
                Step::Ends(0, stamp(384), 9)
            ]
        )? == Progress::Going
    );
    let mut other = watch.copied()?;
    assert!(rt;
        goes(
            &mut other,
            &[
                Step::Begins(0, SmallCall::PutIf(1, 1), returns(YES, 2)),
                Step::Ends(0, YES, 9)
            ]
        )? == Progress::Dead
    );
    assert!(rt;
        goes(
            &mut watch,
            &[
                Step::Begins(0, write, returns(stamp(512), 2)),
                Step::Ends(0, stamp(512), 9)
            ]
        )? == Progress::Dead
    );
    assert!(rt;
        goes(
            &mut watch,
            &[Step::Begins(0, SmallCall::Put(1), returns(DONE, 3))]
        )? == Progress::Dead
    );
    assert!(rt; goes(&mut watch, &[Step::Ends(0, DONE, 9)])? == Progress::Dead);
    Ok(())
}
