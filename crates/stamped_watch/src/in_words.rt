//! Observed calls in words, in place of the numbers of their contents.
ghost use Rattle.std.specs.Prelude.{◌≡◌, IfOk, map};
ghost use Rattle.stamp_watch.specs.Names.{words_in};
ghost use Rattle.stamped_watch.specs.Calls.{observation_by};

use stamp_explain::{Observation, Returned};
use stamp_watch::Names;
use std::alloc::{AllocError, Global};

/// The call in words, and its reply.
fn call_in_words(names: &Names, call: &Observation) -> Observation
    ensures { result ≡ observation_by (words_in names.now) call.now }
{
    let returned = match &call.returned {
        Some(end) => Some(Returned {
            last: end.last,
            reply: names.reply_in_words(&end.reply),
        }),
        None => None,
    };
    Observation {
        thread: call.thread,
        call: names.call_in_words(&call.call),
        first: call.first,
        returned,
    }
}

/// So are all of them.
pub(crate) fn in_words(
    alloc: Global,
    names: &Names,
    calls: &[Observation],
) -> Result<Vec<Observation>, AllocError>
    ensures { IfOk result (λ told. told.items ≡ map (observation_by (words_in names.now)) calls.now) }
{
    let mut told = Vec::new(alloc);
    for (i, call) in calls.iter().enumerate() {
        told.push(call_in_words(names, call))?;
    }
    Ok(told)
}
