//! How far a judge has come with a run.
ghost use Rattle.std.specs.Prelude.{◌≡◌, List, ℕ, drop};
ghost use Rattle.stamp_core.specs.Limits.{Bounds};
ghost use Rattle.stamp_runs.specs.declared.event.Event.{Event};
ghost use Rattle.stamp_watch.specs.Judge.{HasFoundNothing, IsJudge, IsJudgeOfSome};
ghost use Rattle.stamp_watch.specs.SoFar.{BeginWithOpenCall, IsExplainedUpTo, open_calls};
ghost use Rattle.stamp_sets.specs.inner.Lanes.{lanes_in};

use crate::online::Judge;
use stamp_sets::{first_lane, without_lane};

/// How many lanes these are.
pub(crate) fn lanes_in(lanes: u64) -> u64
    ensures { result ≡ lanes_in lanes }
{
    let mut count = 0;
    let mut rest = lanes;
    while rest != 0 {
        let lane = first_lane(rest);
        rest = without_lane(rest, lane);
        count += 1;
    }
    count
}

impl Judge {
    /// So many of the events that it was given are explained, from the first on, where nothing is found of them. Of
    /// the others there are no more than it may look ahead, and the first of them begins a call that has not ended.
    pub fn explained(&self) -> u64
        requires some { IsJudgeOfSome self.now }
        requires none { HasFoundNothing self.now }
        ensures explained { (limits : Bounds) (most ahead : ℕ) (run : List Event)
            → IsJudge limits most ahead run self.now → IsExplainedUpTo limits run ahead result }
        ensures waits { (limits : Bounds) (most ahead : ℕ) (run : List Event)
            → IsJudge limits most ahead run self.now → BeginWithOpenCall (drop result run) }
    {
        self.course.first + self.course.seen as u64
    }

    /// How many calls are open behind the events that it was given, where nothing is found of them.
    pub fn open_calls(&self) -> u64
        requires none { HasFoundNothing self.now }
        ensures { (limits : Bounds) (most ahead : ℕ) (run : List Event)
            → IsJudge limits most ahead run self.now → result ≡ open_calls run }
    {
        lanes_in(self.busy)
    }
}
