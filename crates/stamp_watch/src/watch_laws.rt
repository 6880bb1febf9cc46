//! Laws of runs of a lock and its record. Each function does nothing; its contract is the law, over the definitions
//! alone.
ghost use Rattle.stamp_core.specs.Limits.{Bounds};
ghost use Rattle.stamp_runs.specs.BothRun.{Both};
ghost use Rattle.stamp_watch.specs.Late.{LaterExplainsNoMore};
ghost use Rattle.stamp_watch.specs.LateLaws.{LateLosesNothing, LateStampLosesNothing, OlderIsTold, StampTellsVersion};
ghost use Rattle.stamp_watch.specs.ReplyLaws.{PossibleByNumbers, RepliesAreOfRecord};
ghost use Rattle.stamp_watch.specs.WatchLaws.{BeginsFirst, BeginsLate, BeginsSooner, BrokenIsTold, BrokenIsToldLate, CutAsEvents, ExplainedAsEvents, ExplainedAsObserved, ExplainedByNumbers, OrderExplains, OrderOfHistory, OrderUpTo, PositionsTellOrder, ReturnsFirst, ShorterStayExplained, StuckAsEvents, StuckAsObserved, StuckAsSeen, StuckAtReturns, StuckByNumbers, TakesEffectFirst, TracesExplain, UnchangingNeverNeeded, WithdrawnMayBeLeftOut, WithdrawnTakesNoEffect, WithdrawsFirst};

/// Where a call begins next, nothing is lost if it begins before other calls take effect.
pub fn begins_first()
    ensures { (limits : Bounds) → BeginsFirst (Both limits) }
{}

/// Where a call that is in effect returns next, nothing is lost if it returns before other calls take effect.
pub fn returns_first()
    ensures { (limits : Bounds) → ReturnsFirst (Both limits) }
{}

/// A call that is withdrawn next is not in effect, and nothing is lost if it is withdrawn before other calls take
/// effect.
pub fn withdraws_first()
    ensures { (limits : Bounds) → WithdrawsFirst (Both limits) }
{}

/// Where a call that is not in effect returns next, some open call takes effect.
pub fn takes_effect_first()
    ensures { (limits : Bounds) → TakesEffectFirst (Both limits) }
{}

/// A call that is withdrawn takes no effect.
pub fn withdrawn_takes_no_effect()
    ensures { (limits : Bounds) → WithdrawnTakesNoEffect (Both limits) }
{}

/// A call that is withdrawn may be left out: its two events make no difference.
pub fn withdrawn_may_be_left_out()
    ensures { WithdrawnMayBeLeftOut }
{}

/// A call that never ends is not needed where it changed nothing.
pub fn unchanging_never_needed()
    ensures { (limits : Bounds) → UnchangingNeverNeeded (Both limits) }
{}

/// What is explained is explained up to each of its events.
pub fn shorter_stay_explained()
    ensures { ShorterStayExplained }
{}

/// A call may begin later if what comes then goes on only from an older version than its reply tells.
pub fn begins_late()
    ensures { BeginsLate }
{}

/// A way on which a call begins later is one on which it begins sooner.
pub fn begins_sooner()
    ensures { (limits : Bounds) → BeginsSooner (Both limits) }
{}

/// A run in which calls begin later is explained only where the run is as it stands, up to each of its events.
pub fn later_explains_no_more()
    ensures { LaterExplainsNoMore }
{}

/// Events among which a call begins and returns go on only where the lock has no newer version than its reply tells.
pub fn older_is_told()
    ensures { OlderIsTold }
{}

/// Nothing is lost if a call begins later, before events that tell an older version than its own reply tells.
pub fn late_loses_nothing()
    ensures { LateLosesNothing }
{}

/// The stamp that a call issues is of the version that the lock has once the call has taken effect.
pub fn stamp_tells_version()
    ensures { StampTellsVersion }
{}

/// Nothing is lost if a call that issues a stamp begins later, before events among which another begins and returns
/// that issues a stamp of an older version.
pub fn late_stamp_loses_nothing()
    ensures { LateStampLosesNothing }
{}

/// A run in form is explained exactly where it is as an observed history, whose positions are the numbers of the
/// events.
pub fn explained_as_observed()
    ensures { ExplainedAsObserved }
{}

/// An order in which calls took effect along the events of a run explains its observed history.
pub fn order_explains()
    ensures { OrderExplains }
{}

/// The orders that are read back from a trace of the lock and one of its record explain it, merged by their points.
pub fn traces_explain()
    ensures { TracesExplain }
{}

/// A run in form is stuck at an event exactly where its observed history is stuck at the entry that returned there,
/// if no call that is open then is withdrawn later.
pub fn stuck_as_observed()
    ensures { StuckAsObserved }
{}

/// A run in form is stuck at an event that is no withdrawal exactly where what was seen by then is stuck there,
/// whatever comes later.
pub fn stuck_as_seen()
    ensures { StuckAsSeen }
{}

/// What matters of positions is only which calls had returned before which began: histories of the same calls, of
/// which the same had returned before the same began, are explained alike.
pub fn positions_tell_order()
    ensures { PositionsTellOrder }
{}

/// An observed history that may be told is explained exactly where the run of its events is.
pub fn explained_as_events()
    ensures { ExplainedAsEvents }
{}

/// And it is stuck at an entry exactly where that run is stuck at the entry's return.
pub fn stuck_as_events()
    ensures { StuckAsEvents }
{}

/// Such a run is stuck at returns alone.
pub fn stuck_at_returns()
    ensures { StuckAtReturns }
{}

/// Up to each of its moments an observed history is explained exactly where the run of its events is up to there.
pub fn cut_as_events()
    ensures { CutAsEvents }
{}

/// An observed history is explained exactly where the run of its events is that tells contents by numbers.
pub fn explained_by_numbers()
    ensures { ExplainedByNumbers }
{}

/// And it is stuck where that run is.
pub fn stuck_by_numbers()
    ensures { StuckByNumbers }
{}

/// An order in which calls took effect along those events is one of the history.
pub fn order_of_history()
    ensures { OrderOfHistory }
{}

/// So it is up to each of its moments, where what returns later is under way.
pub fn order_up_to()
    ensures { OrderUpTo }
{}

/// Where a run is explained before an event, and the event may not come there, the run is told as broken at the event,
/// or was given up at an event before.
pub fn broken_is_told()
    ensures { BrokenIsTold }
{}

/// So it is where calls may be open for long.
pub fn broken_is_told_late()
    ensures { BrokenIsToldLate }
{}

/// A reply of an observed history is possible exactly where its run by numbers is explained up to the return, with the
/// reply there.
pub fn possible_by_numbers()
    ensures { PossibleByNumbers }
{}

/// A content that an explained history tells in a reply is one that its record may hold.
pub fn replies_are_of_record()
    ensures { RepliesAreOfRecord }
{}
