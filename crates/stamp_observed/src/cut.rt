//! A run up to the return of the call at which it is stuck, and an order of it without this return.
use crate::candidate::{Candidate, history_of_calls};
use crate::fault::Fault;
use stamp_core::Record;
use stamp_explain::{Observation, Observed};
use stamp_watch::{ExplainError, explain};
use std::alloc::{AllocError, Global};

/// The call as it stands when that of the fault returns: one that returns later is under way.
fn seen_call(call: &Observation, i: usize, fault: &Fault) -> Observation {
    let Some(returned) = &call.returned else {
        return *call;
    };
    let end = fault.returned.last;
    if returned.last < end || (returned.last == end && i < fault.entry) {
        return *call;
    }
    Observation {
        returned: None,
        ..*call
    }
}

/// The run up to that return, its calls in the order in which they began.
pub(crate) fn cut_at(
    alloc: Global,
    observed: &Observed,
    fault: &Fault,
) -> Result<Candidate, AllocError> {
    let mut others = Vec::new(alloc);
    for (i, call) in observed.entries().iter().enumerate() {
        if i != fault.entry && call.first <= fault.returned.last {
            others.push(seen_call(call, i, fault))?;
        }
    }
    others.sort_by_key(|call| call.first)?;
    Ok(Candidate {
        versions: 0,
        others,
        first: fault.call.first,
        last: fault.returned.last,
    })
}

/// An order of the cut in which the call of the fault is under way, if one is found.
pub(crate) fn order_of(
    alloc: Global,
    observed: &Observed,
    fault: &Fault,
    cut: &Candidate,
    most: u64,
) -> Result<Option<Record>, AllocError> {
    let mut calls = cut.others.to_vec(alloc)?;
    calls.push(Observation {
        returned: None,
        ..fault.call
    })?;
    let Some(before) = history_of_calls(alloc, observed, calls)? else {
        return Ok(None);
    };
    match explain(alloc, &before, most) {
        Ok(order) => Ok(Some(order)),
        Err(ExplainError::Memory) => Err(AllocError),
        Err(_) => Ok(None),
    }
}
