use crate::samples::{Step, goes, order_of, returns, stamp, traced, watch};
use stamp_core::{LockCall, LockReply};
use stamp_sets::{EffectAt, Ending, Progress, SmallCall, SmallReply};
use std::test::Fail;

const WRITE_LOCK: SmallCall = SmallCall::OfLock(LockCall::WriteLock);

const TRY_READ: SmallCall = SmallCall::OfLock(LockCall::TryRead);

const DONE: SmallReply = SmallReply::OfLock(LockReply::Done);

fn at(lane: u64, point: u64) -> EffectAt {
    EffectAt { lane, point }
}

#[test]
fn a_put_that_was_free_comes_before_the_one_that_is_seen(rt: HostRuntime) -> Result<(), Fail> {
    let mut watch = traced(&rt)?;
    let seen = SmallReply::Content(1);
    assert!(rt;
        goes(
            &mut watch,
            &[
                Step::Begins(0, WRITE_LOCK, returns(stamp(384), 1)),
                Step::Begins(1, SmallCall::Put(1), returns(DONE, 2)),
                Step::Begins(2, SmallCall::Put(2), returns(DONE, 3)),
                Step::Begins(4, TRY_READ, Ending::Withdraws),
                Step::Withdraws(4),
                Step::Ends(0, stamp(384), 9),
                Step::Ends(1, DONE, 9),
                Step::Ends(2, DONE, 9),
                Step::Begins(3, SmallCall::Get, returns(seen, 4)),
                Step::Ends(3, seen, 9)
            ]
        )? == Progress::Going
    );
    let Some(order) = order_of(&rt, &watch)? else {
        return Err(Fail::from("no order"));
    };
    let expected = [at(0, 5), at(2, 6), at(1, 6), at(3, 9)];
    assert!(rt; order.as_slice() == expected.as_slice());
    Ok(())
}

#[test]
fn a_watch_that_is_not_traced_tells_no_order(rt: HostRuntime) -> Result<(), Fail> {
    let watch = watch(&rt)?;
    assert!(rt; order_of(&rt, &watch)?.is_none());
    let other = traced(&rt)?;
    assert!(rt; order_of(&rt, &other)?.is_some());
    let copy = other.copied()?;
    assert!(rt; order_of(&rt, &copy)?.is_none());
    Ok(())
}
