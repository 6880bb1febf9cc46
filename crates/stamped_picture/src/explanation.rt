//! What explains an observed history, as far as anything does.

ghost use Rattle.std.specs.Prelude.{◌≡◌, IfOk};
ghost use Rattle.stamp_explain.specs.Cut.{IsStuck};
ghost use Rattle.stamp_explain.specs.Observed.{IsObserved, IsReturnAt};
ghost use Rattle.stamp_observed.specs.Suited.{AreSuited};
ghost use Rattle.stamped_picture.specs.Explanation.{ArePossibleAt, IsExplanation, IsOrderUntil, IsStuckReturn, first_of};
ghost use Rattle.stamped_picture.specs.inner.Explanation.{IsExplainedUntil};

use stamp_core::{Record, Reply};
use stamp_explain::{Observed, seen_until};
use stamp_observed::{ObservedFault, fault_of};
use stamp_watch::{ExplainError, PossibleError, explain, possible_at};
use std::alloc::{AllocError, Global};

/// A return that no order explains.
#[derive(Drop)]
pub(crate) struct StuckReturn {
    /// Whose call returned.
    pub(crate) entry: usize,
    /// All replies that were possible; nothing where that is undecided.
    pub(crate) possible: Option<Vec<Reply>>,
    /// What explains the history up to there, with the first of these in place of its reply, or, without
    /// one, with its call under way; nothing where that is undecided.
    pub(crate) order: Option<Record>,
}

/// What explains an observed history, as far as anything does.
#[derive(Drop)]
pub(crate) enum Explanation {
    /// An observer can't have seen it, for this fault.
    Faulty(ObservedFault),
    /// This recorded history explains it.
    Explained(Record),
    /// It is explained until a call returns, and no longer.
    Stuck(StuckReturn),
    /// No order explains it. It is explained until the first of these entries returns, and no longer once the other
    /// one has.
    StuckWithin(usize, usize),
    /// It is explained until this entry returns. Just before that more positions are possible than are kept.
    Undecided(usize),
}

/// The replies that the call of this entry could have had; nothing where that is undecided.
fn possible_replies(
    alloc: Global,
    observed: &Observed,
    entry: usize,
    most: u64,
) -> Result<Option<Vec<Reply>>, AllocError>
    requires observed { IsObserved observed.now }
    requires returned { IsReturnAt observed.now.entries entry }
    ensures { IfOk result (λ found. ArePossibleAt observed.now most entry found) }
{
    match possible_at(alloc, observed, entry, most) {
        Ok(replies) => Ok(Some(replies)),
        Err(PossibleError::Undecided) => Ok(None),
        Err(PossibleError::Memory) => Err(AllocError),
    }
}

/// The first of the replies, if there is one.
fn first_of(possible: &Option<Vec<Reply>>) -> Option<Reply>
    ensures { result ≡ first_of possible.now }
{
    match possible {
        None => None,
        Some(replies) => replies.first().copied(),
    }
}

/// What explains the history up to the return of this entry, with this reply of it or with none;
/// nothing where that is undecided.
fn order_until(
    alloc: Global,
    observed: &Observed,
    entry: usize,
    reply: Option<Reply>,
    most: u64,
) -> Result<Option<Record>, AllocError>
    requires observed { IsObserved observed.now }
    requires returned { IsReturnAt observed.now.entries entry }
    requires explained { IsExplainedUntil observed.now entry reply }
    ensures { IfOk result (λ found. IsOrderUntil observed.now most entry reply found) }
{
    let seen = seen_until(alloc, observed, entry, reply)?;
    match explain(alloc, &seen, most) {
        Ok(order) => Ok(Some(order)),
        Err(refused) => match refused {
            ExplainError::Memory => Err(AllocError),
            _ => Ok(None),
        },
    }
}

/// The return at which the history is stuck, with what was possible.
fn stuck_return(
    alloc: Global,
    observed: &Observed,
    entry: usize,
    most: u64,
) -> Result<StuckReturn, AllocError>
    requires observed { IsObserved observed.now }
    requires stuck { IsStuck observed.now entry }
    ensures { IfOk result (λ stuck. IsStuckReturn observed.now most stuck) }
{
    let possible = possible_replies(alloc, observed, entry, most)?;
    let order = order_until(alloc, observed, entry, first_of(&possible), most)?;
    Ok(StuckReturn {
        entry,
        possible,
        order,
    })
}

/// What is found of a history that may be observed.
fn judged(alloc: Global, observed: &Observed, most: u64) -> Result<Explanation, AllocError>
    requires { IsObserved observed.now }
    ensures { IfOk result (λ found. IsExplanation observed.now most found) }
{
    match explain(alloc, observed, most) {
        Ok(order) => Ok(Explanation::Explained(order)),
        Err(ExplainError::Stuck(entry)) => {
            Ok(Explanation::Stuck(stuck_return(alloc, observed, entry, most)?))
        }
        Err(ExplainError::StuckWithin(first, last)) => Ok(Explanation::StuckWithin(first, last)),
        Err(ExplainError::Undecided(entry)) => Ok(Explanation::Undecided(entry)),
        Err(ExplainError::Memory) => Err(AllocError),
    }
}

/// What is found: a fault of the observation, or else what the judge of its events finds, which keeps at most `most`
/// positions of the lock, and of the record.
pub(crate) fn explanation_of(
    alloc: Global,
    observed: &Observed,
    most: u64,
) -> Result<Explanation, AllocError>
    requires { AreSuited observed.now }
    ensures { IfOk result (λ found. IsExplanation observed.now most found) }
{
    match fault_of(alloc, observed)? {
        Some(fault) => Ok(Explanation::Faulty(fault)),
        None => judged(alloc, observed, most),
    }
}
