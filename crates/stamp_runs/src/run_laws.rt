//! Laws of runs, of the sets of configurations that a judge keeps, and of positions. Each function does nothing; its
//! contract is the law, over the definitions alone: of the lock and of the record where it holds of any object.
ghost use Rattle.stamp_core.specs.Call.{is_lock_call};
ghost use Rattle.stamp_core.specs.Limits.{Bounds};
ghost use Rattle.stamp_runs.specs.BothRun.{Both};
ghost use Rattle.stamp_runs.specs.Object.{LockStep, RecordStep};
ghost use Rattle.stamp_runs.specs.Pairs.{not_of};
ghost use Rattle.stamp_runs.specs.RunLaws.{AtOnceLosesNothing, BeginsGoOn, EndlessAlikeFirst, EndlessMayAsk, ExplainedApart, ExplainedByOwn, ExplainedInForm, FreeCovers, FreeOrAsks, HeldAreTold, HiddenAlikeFirst, HiddenIsPossible, HiddenLosesNothing, HiddenWithReaders, KeptStand, LockOverwritesNever, NamesDontMatter, NamesMayChange, OpeningStands, OrderSettles, OrderTells, OrdersAscend, OrdersMerge, OthersStay, OvertakenAreForgotten, OvertakenStays, OverwritingIsPossible, OverwritingLosesNothing, OwnEventsGoOn, OwnEventsTell, PositionsGoOn, PositionsTell, PutsOverwrite, ReadersLoseNothing, ReadsChangeNothing, ReturnsGoOn, SameAreAlike, SoonerAlikeFirst, StuckByAnyNames, StuckByChangingNames, StuckIsExact, ToldGoesFirst, TraceLeads, TracesGoOn, WithdrawsGoOn};
ghost use Rattle.stamp_runs.specs.WorkedEqual.{EqualReturns};
ghost use Rattle.stamp_runs.specs.WorkedReturns.{GetReturns, PutReturns};

/// A call whose reply tells that it changes nothing may take effect as soon as it may.
#[tactic(auto, using(crate::proofs::Laws::at_once_loses_nothing))]
pub fn at_once_loses_nothing()
    ensures of_lock { (limits : Bounds) → AtOnceLosesNothing (LockStep limits) }
    ensures of_record { AtOnceLosesNothing RecordStep }
    ensures of_both { (limits : Bounds) → AtOnceLosesNothing (Both limits) }
{}

/// Calls whose replies tell that they change nothing may be in effect together.
#[tactic(auto, using(crate::proofs::Laws::readers_lose_nothing))]
pub fn readers_lose_nothing()
    ensures of_lock { (limits : Bounds) → ReadersLoseNothing (LockStep limits) }
    ensures of_record { ReadersLoseNothing RecordStep }
{}

/// Of two open calls that are alike the one that returns sooner may take effect first.
pub fn sooner_alike_first()
    ensures of_lock { (limits : Bounds) → SoonerAlikeFirst (LockStep limits) }
    ensures of_record { SoonerAlikeFirst RecordStep }
    ensures of_both { (limits : Bounds) → SoonerAlikeFirst (Both limits) }
{}

/// Of two open calls that are alike, and of which neither ends, either may take effect first.
pub fn endless_alike_first()
    ensures of_lock { (limits : Bounds) → EndlessAlikeFirst (LockStep limits) }
    ensures of_record { EndlessAlikeFirst RecordStep }
    ensures of_both { (limits : Bounds) → EndlessAlikeFirst (Both limits) }
{}

/// What goes on where a call that never ends is in effect goes on where it is not.
#[tactic(auto, using(crate::proofs::Laws::endless_may_ask))]
pub fn endless_may_ask()
    ensures of_lock { (limits : Bounds) → EndlessMayAsk (LockStep limits) }
    ensures of_record { EndlessMayAsk RecordStep }
{}

/// A run of lock and record is explained exactly where it is as a run of each among calls of the other.
#[tactic(auto, using(crate::proofs::Laws::explained_apart))]
pub fn explained_apart()
    ensures { (limits : Bounds) → ExplainedApart is_lock_call (LockStep limits) RecordStep }
{}

/// A run among calls of others, in form, is explained exactly where it is as a run of its own calls.
#[tactic(auto, using(crate::proofs::Laws::own_events_tell))]
pub fn own_events_tell()
    ensures of_lock { (limits : Bounds) → OwnEventsTell (LockStep limits) }
    ensures of_record { OwnEventsTell RecordStep }
{}

/// A run of lock and record, in form, is explained exactly where the events of each are.
#[tactic(auto, using(crate::proofs::Laws::explained_by_own))]
pub fn explained_by_own()
    ensures { (limits : Bounds) → ExplainedByOwn is_lock_call (LockStep limits) RecordStep }
{}

/// Names of contents don't matter: a run is explained exactly where it is by other names, and stuck where it is.
pub fn names_dont_matter()
    ensures explained { NamesDontMatter }
    ensures stuck { StuckByAnyNames }
{}

/// Names of contents may change along a run: it is explained exactly where it is by the names of each moment, if others
/// than before are the same for each content that may be held then, and stuck where it is.
pub fn names_may_change()
    ensures explained { NamesMayChange }
    ensures stuck { StuckByChangingNames }
{}

/// A content may be forgotten once calls that began later have overtaken all that may hold it, if it was not told since:
/// no configuration holds it that is possible then, nor one that comes of those.
pub fn overtaken_are_forgotten()
    ensures all { HeldAreTold }
    ensures overtaken { OvertakenAreForgotten }
    ensures stays { OvertakenStays }
{}

/// A run that is explained is in form.
pub fn explained_in_form()
    ensures of_lock { (limits : Bounds) → ExplainedInForm (LockStep limits) }
    ensures of_record { ExplainedInForm RecordStep }
    ensures of_both { (limits : Bounds) → ExplainedInForm (Both limits) }
{}

/// The own events of a run that goes on are those so far, and those that are own by the calls that are open then.
#[tactic(auto, using(crate::proofs::OwnEvents::own_of_both))]
pub fn own_events_go_on()
    ensures { OwnEventsGoOn }
{}

/// Of the calls of the record just puts overwrite.
#[tactic(auto, using(crate::proofs::Objects::puts_overwrite))]
pub fn puts_overwrite()
    ensures { PutsOverwrite }
{}

/// Of the calls of the lock none overwrites.
#[tactic(auto, using(crate::proofs::Objects::lock_overwrites_never))]
pub fn lock_overwrites_never()
    ensures { LockOverwritesNever }
{}

/// A get changes nothing, nor does a `PutIf` that is answered no.
#[tactic(auto, using(crate::proofs::Objects::reads_change_nothing))]
pub fn reads_change_nothing()
    ensures { ReadsChangeNothing }
{}

/// Calls of the lock that do the same are alike.
pub fn same_are_alike()
    ensures { SameAreAlike }
{}

/// All that a position stands for is possible once an overwriting call has taken effect.
#[tactic(auto, using(crate::proofs::Laws::overwriting_is_possible))]
pub fn overwriting_is_possible()
    ensures of_lock { (limits : Bounds) → OverwritingIsPossible (LockStep limits) }
    ensures of_record { OverwritingIsPossible RecordStep }
{}

/// Nothing is lost where an overwriting call takes effect.
pub fn overwriting_loses_nothing()
    ensures of_lock { (limits : Bounds) → OverwritingLosesNothing (LockStep limits) }
    ensures of_record { OverwritingLosesNothing RecordStep }
{}

/// What becomes of a lane whose call is not free becomes of it in all that the position stands for.
#[tactic(auto, using(crate::proofs::Laws::others_stay))]
pub fn others_stay()
    ensures of_lock { (limits : Bounds) → OthersStay (LockStep limits) }
    ensures of_record { OthersStay RecordStep }
{}

/// Where a free call is not in effect it may be taken out of the free ones.
#[tactic(auto, using(crate::proofs::Laws::free_or_asks))]
pub fn free_or_asks()
    ensures of_lock { (limits : Bounds) → FreeOrAsks (LockStep limits) }
    ensures of_record { FreeOrAsks RecordStep }
{}

/// A free call that overwrites covers the same call in effect.
#[tactic(auto, using(crate::proofs::Laws::free_covers))]
pub fn free_covers()
    ensures of_lock { (limits : Bounds) → FreeCovers (LockStep limits) }
    ensures of_record { FreeCovers RecordStep }
{}

/// What comes of a position by hidden calls it stood for before.
#[tactic(auto, using(crate::proofs::Laws::hidden_is_possible))]
pub fn hidden_is_possible()
    ensures of_lock { (limits : Bounds) → HiddenIsPossible (LockStep limits) }
    ensures of_record { HiddenIsPossible RecordStep }
{}

/// Where a free call that overwrites is in effect, it may be taken to be hidden first.
#[tactic(auto, using(crate::proofs::Laws::hidden_loses_nothing))]
pub fn hidden_loses_nothing()
    ensures of_lock { (limits : Bounds) → HiddenLosesNothing (LockStep limits) }
    ensures of_record { HiddenLosesNothing RecordStep }
{}

/// A free call that overwrites is hidden with all that read what it left.
pub fn hidden_with_readers()
    ensures of_lock { (limits : Bounds) → HiddenWithReaders (LockStep limits) }
    ensures of_record { HiddenWithReaders RecordStep }
{}

/// Of two free calls that overwrite and are alike the one that goes first may be hidden instead of the other.
#[tactic(auto, using(crate::proofs::Laws::hidden_alike_first))]
pub fn hidden_alike_first()
    ensures of_lock { (limits : Bounds) → HiddenAlikeFirst (LockStep limits) }
    ensures of_record { HiddenAlikeFirst RecordStep }
{}

/// Of two calls the one goes first of which that is told.
#[tactic(auto, using(crate::proofs::Telling::told_goes_first))]
pub fn told_goes_first()
    ensures { ToldGoesFirst }
{}

/// At first a judge keeps the opening alone.
#[tactic(auto, using(crate::proofs::Laws::opening_stands))]
pub fn opening_stands()
    ensures of_lock { (limits : Bounds) → OpeningStands (LockStep limits) }
    ensures of_record { OpeningStands RecordStep }
    ensures of_both { (limits : Bounds) → OpeningStands (Both limits) }
{}

/// Where a call begins, each position goes on by its beginning.
#[tactic(auto, using(crate::proofs::Laws::begins_go_on))]
pub fn begins_go_on()
    ensures of_lock { (limits : Bounds) → BeginsGoOn (LockStep limits) }
    ensures of_record { BeginsGoOn RecordStep }
{}

/// Where a call is withdrawn, those positions go on in which it is not in effect.
#[tactic(auto, using(crate::proofs::Laws::withdraws_go_on))]
pub fn withdraws_go_on()
    ensures of_lock { (limits : Bounds) → WithdrawsGoOn (LockStep limits) }
    ensures of_record { WithdrawsGoOn RecordStep }
{}

/// A return by positions loses nothing and adds nothing.
#[tactic(auto, using(crate::proofs::Laws::returns_go_on))]
pub fn returns_go_on()
    ensures of_lock { (limits : Bounds) → ReturnsGoOn (LockStep limits) }
    ensures of_record { ReturnsGoOn RecordStep }
{}

/// A set may be made smaller at any time, if each of its positions is kept as one that is reached.
#[tactic(auto, using(crate::proofs::Laws::kept_stand))]
pub fn kept_stand()
    ensures of_lock { (limits : Bounds) → KeptStand (LockStep limits) }
    ensures of_record { KeptStand RecordStep }
{}

/// What stands for the configurations after some events stands for those after one more, if it goes on by it.
#[tactic(auto, using(crate::proofs::Laws::positions_go_on))]
pub fn positions_go_on()
    ensures of_lock { (limits : Bounds) → PositionsGoOn (LockStep limits) }
    ensures of_record { PositionsGoOn RecordStep }
    ensures of_both { (limits : Bounds) → PositionsGoOn (Both limits) }
{}

/// While a position is kept the run is explained so far, and where none is nothing is that fits what is told.
#[tactic(auto, using(crate::proofs::Laws::positions_tell))]
pub fn positions_tell()
    ensures of_lock { (limits : Bounds) → PositionsTell (LockStep limits) }
    ensures of_record { PositionsTell RecordStep }
    ensures of_both { (limits : Bounds) → PositionsTell (Both limits) }
{}

/// A judge to whom nothing of what comes later is told says exactly at which event a run is stuck.
pub fn stuck_is_exact()
    ensures of_lock { (limits : Bounds) → StuckIsExact (LockStep limits) }
    ensures of_record { StuckIsExact RecordStep }
    ensures of_both { (limits : Bounds) → StuckIsExact (Both limits) }
{}

/// An order in which calls take effect along the events tells a way, and each way has one.
pub fn order_tells()
    ensures of_lock { (limits : Bounds) → OrderTells (LockStep limits) }
    ensures of_record { OrderTells RecordStep }
    ensures of_both { (limits : Bounds) → OrderTells (Both limits) }
{}

/// A trace leads to its position in the order that is read back from it.
#[tactic(auto, using(crate::proofs::Laws::trace_tells))]
pub fn trace_leads()
    ensures of_lock { (limits : Bounds) → TraceLeads (LockStep limits) }
    ensures of_record { TraceLeads RecordStep }
{}

/// What took effect before a call that overwrote keeps its place in the order.
#[tactic(auto, using(crate::proofs::Ordering::order_settles))]
pub fn order_settles()
    ensures { OrderSettles }
{}

/// Each position that a judge keeps is traced.
pub fn traces_go_on()
    ensures of_lock { (limits : Bounds) → TracesGoOn (LockStep limits) }
    ensures of_record { TracesGoOn RecordStep }
{}

/// An order along the own events stands in the order of its points among all.
#[tactic(auto, using(crate::proofs::Merging::orders_ascend))]
pub fn orders_ascend()
    ensures of_lock { (limits : Bounds) → OrdersAscend is_lock_call (LockStep limits) }
    ensures of_record { OrdersAscend (not_of is_lock_call) RecordStep }
{}

/// The orders of a lock and its record, each along its own events, are one of both, merged by their points.
#[tactic(auto, using(crate::proofs::Merging::orders_merge))]
pub fn orders_merge()
    ensures { (limits : Bounds) → OrdersMerge is_lock_call (LockStep limits) RecordStep }
{}

/// A return of a put, worked out.
#[tactic(auto, using(crate::proofs::WorkedReturns::put_returns))]
pub fn put_returns()
    ensures { PutReturns }
{}

/// A return of a get, worked out.
#[tactic(auto, using(crate::proofs::WorkedReturns::get_returns))]
pub fn get_returns()
    ensures { GetReturns }
{}

/// A return of a get where two puts are alike, worked out.
#[tactic(auto, using(crate::proofs::WorkedEqual::equal_returns))]
pub fn equal_returns()
    ensures { EqualReturns }
{}
