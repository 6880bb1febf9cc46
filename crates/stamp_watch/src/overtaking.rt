//! When the past of a run is overtaken: then a content that was not told since may be forgotten.
ghost use Rattle.std.specs.Prelude.{◌≡◌, ◌<◌, ◌++◌, ◌∷◌, ◌↔◌, [], IsTrue, List, Option, not};
ghost use Rattle.stamp_core.specs.Call.{is_lock_call};
ghost use Rattle.stamp_core.specs.declared.call.Call.{Call};
ghost use Rattle.stamp_core.specs.declared.reply.Reply.{Reply};
ghost use Rattle.stamp_runs.specs.Renaming.{IsOvertaken, is_not_no};
ghost use Rattle.stamp_runs.specs.Run.{lane_of};
ghost use Rattle.stamp_runs.specs.declared.event.Event.{Event};
ghost use Rattle.stamp_runs.specs.declared.event.Event.TheVariants.{Begins};
ghost use Rattle.stamp_sets.specs.SmallCall.{reply_of};
ghost use Rattle.stamp_watch.specs.EndedCall.{end_in};
ghost use Rattle.stamp_watch.specs.Overtaking.{Follows, Tracks};
ghost use Rattle.stamp_watch.specs.inner.Overtaking.{IsToldBy, may_tell_by};

use crate::stream_event::{SmallEvent, StreamEvent};
use stamp_core::LockReply;
use stamp_sets::{SmallReply, has_lane, with_lane, without_lane};

/// How far the events since a mark have overtaken the past.
#[derive(Clone, Copy)]
pub(crate) enum Stage {
    /// Calls are open that were open at the mark.
    Open,
    /// No call that began behind that has told the content.
    Untold,
    /// Calls are open that were open when the content was told.
    Told,
    /// The past is overtaken.
    Over,
}

/// Knows of the events of a run since a mark whether they have overtaken the past. The mark is set at the opening, and
/// may be set again at any time.
#[derive(Clone, Copy)]
pub struct Overtaking {
    stage: Stage,
    /// The lanes that have an open call.
    open: u64,
    /// Those whose call was open when the stage began.
    older: u64,
    /// Those whose call began in the stage and is of the record.
    newer: u64,
}

/// Whether a call of the record that is answered so tells the content.
fn may_tell(reply: SmallReply) -> bool
    ensures { result ≡ is_not_no (reply_of reply) }
{
    !matches!(reply, SmallReply::OfLock(LockReply::No))
}

impl Overtaking {
    /// No event has come.
    pub fn new() -> Overtaking
        ensures { Tracks [] [] result }
    {
        let mut none = Overtaking {
            stage: Stage::Open,
            open: 0,
            older: 0,
            newer: 0,
        };
        none.settle();
        none
    }

    /// Goes on to the next stage where no more calls are waited for.
    fn settle(&mut self)
        ensures { (past since : List Event) → Follows past since self.old → Tracks past since self.new }
    {
        if self.older != 0 {
            return;
        }
        match self.stage {
            Stage::Open => {
                self.stage = Stage::Untold;
                self.newer = 0;
            }
            Stage::Told => self.stage = Stage::Over,
            Stage::Untold | Stage::Over => {}
        }
    }

    /// Sets the mark here: all events that came are the past.
    pub fn mark(&mut self)
        ensures { (past since : List Event) → Tracks past since self.old → Tracks (past ++ since) [] self.new }
    {
        self.stage = Stage::Open;
        self.older = self.open;
        self.settle();
    }

    /// A call begins in this lane.
    fn begin(&mut self, lane: u64, of_record: bool)
        requires lane { lane < 64 }
        ensures { (past since : List Event) (call : Call) → of_record ≡ not (is_lock_call call)
            → Tracks past since self.old → Tracks past (since ++ Begins lane call ∷ []) self.new }
    {
        self.open = with_lane(self.open, lane);
        if of_record {
            self.newer = with_lane(self.newer, lane);
        }
    }

    /// Whether the content is told where the call of this lane ends, with a reply by which it may be told or not.
    fn is_told(&self, lane: u64, tells: bool) -> bool
        requires lane { lane < 64 }
        ensures { IsTrue result ↔ IsToldBy self.now lane tells }
    {
        tells && has_lane(self.newer, lane) && matches!(self.stage, Stage::Untold)
    }

    /// The call of this lane ends.
    fn end(&mut self, lane: u64, tells: bool)
        requires lane { lane < 64 }
        ensures { (past since : List Event) (reply : Option Reply) → tells ≡ may_tell_by reply
            → Tracks past since self.old → Tracks past (since ++ end_in lane reply ∷ []) self.new }
    {
        let told = self.is_told(lane, tells);
        self.open = without_lane(self.open, lane);
        self.older = without_lane(self.older, lane);
        self.newer = without_lane(self.newer, lane);
        if told {
            self.stage = Stage::Told;
            self.older = self.open;
        }
        self.settle();
    }

    /// Takes the next event of the run, of one of 64 lanes.
    pub fn push(&mut self, event: &StreamEvent)
        requires lane { lane_of event.now < 64 }
        ensures { (past since : List Event) → Tracks past since self.old
            → Tracks past (since ++ event.now ∷ []) self.new }
    {
        match event.small() {
            SmallEvent::Begins(lane, call) => self.begin(lane as u64, !call.is_lock_call()),
            SmallEvent::Returns(lane, reply) => self.end(lane as u64, may_tell(reply)),
            SmallEvent::Withdraws(lane) => self.end(lane as u64, false),
        }
    }

    /// Whether the events since the mark have overtaken the past: all calls have ended that were open at the mark, then a
    /// call of the record that began later has told the content, and then all calls have ended that were open. Then no
    /// configuration that is possible holds a content that was not told since the mark.
    pub fn is_over(&self) -> bool
        ensures { (past since : List Event) → Tracks past since self.now
            → IsTrue result ↔ IsOvertaken past since }
    {
        matches!(self.stage, Stage::Over)
    }
}
