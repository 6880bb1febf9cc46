//! Another reply of a call, and whether it has returned.
ghost use Rattle.std.specs.Prelude.{◌≡◌, ◌↔◌, IsTrue, IfOk, Some, slice_get};
ghost use Rattle.stamp_explain.specs.Observed.{IsReturnAt};
ghost use Rattle.stamp_explain.specs.Possible.{with_reply};

use crate::observed::{Observation, Observed, Returned};
use stamp_core::Reply;
use std::alloc::{AllocError, Global};

/// The history with this reply of the call of this entry, which is the one given.
pub(crate) fn with_reply(
    alloc: Global,
    observed: &Observed,
    entry: usize,
    observation: Observation,
    returned: Returned,
    reply: Reply,
) -> Result<Observed, AllocError>
    requires is_entry { slice_get observed.now.entries entry ≡ Some observation }
    requires returned { observation.returned ≡ Some returned }
    ensures { IfOk result (λ made. made ≡ with_reply entry observation returned reply observed.now) }
{
    let mut entries = observed.entries().to_vec(alloc)?;
    entries[entry] = Observation {
        thread: observation.thread,
        call: observation.call,
        first: observation.first,
        returned: Some(Returned {
            last: returned.last,
            reply,
        }),
    };
    match Observed::of(observed.limits(), observed.width(), entries) {
        Some(made) => Ok(made),
        None => unreachable!(),
    }
}

/// Whether there is an entry of this index whose call has returned. Its possible replies may be
/// asked for then.
#[tactic(auto, using(crate::proofs::Replying::return_here, crate::proofs::Replying::no_return_here, crate::proofs::Replying::no_entry_here))]
pub fn has_returned_at(observed: &Observed, entry: usize) -> bool
    ensures { IsTrue result ↔ IsReturnAt observed.now.entries entry }
{
    let Some(observation) = observed.entries().get(entry) else {
        return false;
    };
    match &observation.returned {
        Some(_) => true,
        None => false,
    }
}
