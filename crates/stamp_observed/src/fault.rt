//! What a small history has to show.
ghost use Rattle.std.specs.Prelude.{◌≡◌, IfOk};
ghost use Rattle.stamp_explain.specs.Observed.{IsObserved, IsReturnAt};
ghost use Rattle.stamp_observed.specs.Small.{ArePossibleAt};
ghost use Rattle.stamp_observed.specs.inner.Fault.{IsFaultOf, replies_in};

use crate::issued::{IssuedStamp, issued_stamp, writes_by};
use stamp_core::Reply;
use stamp_explain::{Observation, Observed, Returned};
use stamp_watch::{PossibleError, possible_at};
use std::alloc::{AllocError, Global};

/// A call at whose return a history is stuck.
#[derive(Drop)]
pub(crate) struct Fault {
    /// The entry of the call.
    pub(crate) entry: usize,
    /// The call itself.
    pub(crate) call: Observation,
    /// Its return.
    pub(crate) returned: Returned,
    /// What it could have answered; none where that is undecided.
    pub(crate) possible: Option<Vec<Reply>>,
    /// The stamp that it takes, if a call that had returned before it was answered it; 0 isn't one.
    pub(crate) stamp: Option<IssuedStamp>,
    /// How many calls that acquire write mode, if anything, had begun by its return.
    pub(crate) writes: u64,
}

/// What the call of this entry could have answered; none where that is undecided.
fn possible_replies(
    alloc: Global,
    observed: &Observed,
    entry: usize,
    most: u64,
) -> Result<Option<Vec<Reply>>, AllocError>
    requires observed { IsObserved observed.now }
    requires returned { IsReturnAt observed.now.entries entry }
    ensures { IfOk result (λ found. ArePossibleAt observed.now most entry (replies_in found)) }
{
    match possible_at(alloc, observed, entry, most) {
        Ok(replies) => Ok(Some(replies)),
        Err(PossibleError::Undecided) => Ok(None),
        Err(PossibleError::Memory) => Err(AllocError),
    }
}

/// The call of this entry, with what it could have answered.
pub(crate) fn fault_at(
    alloc: Global,
    observed: &Observed,
    entry: usize,
    most: u64,
) -> Result<Fault, AllocError>
    requires observed { IsObserved observed.now }
    requires returned { IsReturnAt observed.now.entries entry }
    ensures fault { IfOk result (λ fault. IsFaultOf observed.now most fault) }
    ensures entry { IfOk result (λ fault. fault.entry ≡ entry) }
{
    let entries = observed.entries();
    let call = &entries[entry];
    let Some(returned) = &call.returned else {
        unreachable!();
    };
    let possible = possible_replies(alloc, observed, entry, most)?;
    Ok(Fault {
        entry,
        call: *call,
        returned: *returned,
        possible,
        stamp: issued_stamp(entries, call),
        writes: writes_by(entries, returned.last),
    })
}
