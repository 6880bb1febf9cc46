//! What the tests begin with.
ghost use Rattle.std.specs.Prelude.{IfOk};
ghost use Rattle.stamp_sets.specs.Watch.{IsWatched};

use stamp_core::{Limits, LockReply};
use stamp_sets::{EffectAt, Ending, Progress, SmallCall, SmallReply, Watch};
use std::test::Fail;

/// Those of a lock for up to 127 readers and 1,000 write acquisitions.
pub(crate) fn limits() -> Result<Limits, Fail> {
    Limits::new(127, 1000).map_err(|_| Fail::from("limits"))
}

/// The watch of a new lock with these limits, and of its record.
pub(crate) fn watch(rt: &impl AllocGlobal) -> Result<Watch, Fail>
    ensures { IfOk result (λ watch. IsWatched watch) }
{
    Ok(Watch::new(rt.alloc(), limits()?)?)
}

/// The same, and it is traced.
pub(crate) fn traced(rt: &impl AllocGlobal) -> Result<Watch, Fail>
    ensures { IfOk result (λ watch. IsWatched watch) }
{
    Ok(Watch::traced(rt.alloc(), limits()?)?)
}

/// The order that it tells.
pub(crate) fn order_of(
    rt: &impl AllocGlobal,
    watch: &Watch,
) -> Result<Option<Vec<EffectAt>>, Fail> {
    Ok(watch.order(rt.alloc())?)
}

/// A stamp, and a count, as replies.
pub(crate) fn stamp(stamp: u64) -> SmallReply {
    SmallReply::OfLock(LockReply::Stamp(stamp))
}

pub(crate) fn count(count: u64) -> SmallReply {
    SmallReply::OfLock(LockReply::Count(count))
}

/// It returns with this reply, at this place.
pub(crate) fn returns(reply: SmallReply, place: u64) -> Ending {
    Ending::Returns(reply, place)
}

/// An event of a run.
#[derive(Clone, Copy)]
pub(crate) enum Step {
    /// A call begins in the lane, and ends so.
    Begins(u64, SmallCall, Ending),
    /// The lane's call is withdrawn.
    Withdraws(u64),
    /// The lane's call returns with this reply, where up to so many positions are allowed.
    Ends(u64, SmallReply, u64),
}

fn take(watch: &mut Watch, step: Step) -> Result<Progress, Fail>
    requires { IsWatched watch.old }
    ensures { IsWatched watch.new }
{
    match step {
        Step::Begins(lane, call, ends) => Ok(watch.begins(lane, call, ends)?),
        Step::Withdraws(lane) => Ok(watch.withdraws(lane)?),
        Step::Ends(lane, reply, most) => Ok(watch.returns(lane, reply, most)?),
    }
}

/// The answer to the last of these events. At each before it the run must go on.
pub(crate) fn goes(watch: &mut Watch, steps: &[Step]) -> Result<Progress, Fail>
    requires { IsWatched watch.old }
    ensures { IsWatched watch.new }
{
    let mut last = Progress::Going;
    for step in steps {
        if last != Progress::Going {
            return Err(Fail::from("it went on no longer before the last event"));
        }
        last = take(watch, *step)?;
    }
    Ok(last)
}
