use stamp_core::LockReply;
use stamp_watch::{Overtaking, SmallCall, SmallReply, StreamEvent};
use std::test::Fail;

/// What comes in a run.
#[derive(Clone, Copy)]
enum Step {
    /// The mark is set.
    Marks,
    /// The call begins in the lane.
    Begins(u8, SmallCall),
    /// The call of the lane is answered so.
    Returns(u8, SmallReply),
}

fn take(overtaking: &mut Overtaking, step: Step) -> Result<(), Fail> {
    match step {
        Step::Marks => overtaking.mark(),
        Step::Begins(lane, call) => {
            if lane >= 64 {
                return Err(Fail::from("lane"));
            }
            overtaking.push(&StreamEvent::begins(lane, call));
        }
        Step::Returns(lane, reply) => {
            if lane >= 64 {
                return Err(Fail::from("lane"));
            }
            overtaking.push(&StreamEvent::returns(lane, reply));
        }
    }
    Ok(())
}

/// Whether the past is overtaken once these steps came.
fn is_over(overtaking: &mut Overtaking, steps: &[Step]) -> Result<bool, Fail> {
    for step in steps {
        take(overtaking, *step)?;
    }
    Ok(overtaking.is_over())
}

const DONE: SmallReply = SmallReply::OfLock(LockReply::Done);

#[test]
fn a_past_is_overtaken_once_what_was_open_has_ended_twice(rt: HostRuntime) -> Result<(), Fail> {
    let mut overtaking = Overtaking::new();
    let a_put_beside_a_get = [
        Step::Begins(0, SmallCall::Get),
        Step::Marks,
        Step::Begins(1, SmallCall::Put(1)),
        Step::Returns(1, DONE),
    ];
    assert!(rt; !is_over(&mut overtaking, &a_put_beside_a_get)?);
    assert!(rt; !is_over(&mut overtaking, &[Step::Returns(0, SmallReply::Content(0))])?);
    let again = [
        Step::Begins(0, SmallCall::Get),
        Step::Begins(1, SmallCall::Put(2)),
        Step::Returns(1, DONE),
    ];
    assert!(rt; !is_over(&mut overtaking, &again)?);
    assert!(rt; is_over(&mut overtaking, &[Step::Returns(0, SmallReply::Content(1))])?);
    assert!(rt; !is_over(&mut overtaking, &[Step::Marks])?);
    Ok(())
}

#[test]
fn a_put_if_that_is_answered_no_tells_no_content(rt: HostRuntime) -> Result<(), Fail> {
    let mut overtaking = Overtaking::new();
    let refused = [
        Step::Begins(0, SmallCall::PutIf(1, 2)),
        Step::Returns(0, SmallReply::OfLock(LockReply::No)),
    ];
    assert!(rt; !is_over(&mut overtaking, &refused)?);
    let taken = [
        Step::Begins(0, SmallCall::PutIf(0, 2)),
        Step::Returns(0, SmallReply::OfLock(LockReply::Yes)),
    ];
    assert!(rt; is_over(&mut overtaking, &taken)?);
    Ok(())
}
