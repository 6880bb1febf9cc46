//! A lock whose value keeps to a rule: as one without.
use crate::outcome::Outcome;
use crate::values::{Pairs, Use, is_pair, three_pairs, unmade};
use stamp_core::Limits;
use stamped_value::{RuledValue, ValueRule};
use std::alloc::Global;
use std::sync::Wait;

/// The value has two numbers.
struct IsPair;

impl ValueRule<Vec<u64>> for IsPair {
    ghost use Rattle.std.specs.Prelude.{◌≡◌, vec_len};

    ghost holds = { λ pair. vec_len pair ≡ 2 };
}

type RuledPair = RuledValue<Vec<u64>, IsPair>;

/// Whether a section exchanges the value, and one more is refused.
fn is_exchanged<R: Wait>(rt: &R, lock: &RuledPair, next: Vec<u64>, spare: Vec<u64>) -> bool {
    let mut handle = lock.enter();
    let before = handle.optimistic();
    let written = handle.write_with(rt, |pair: &mut Vec<u64>| {
        if next.len() == 2 {
            *pair = next;
        }
    });
    let refused = handle.write_with(rt, |pair: &mut Vec<u64>| {
        if spare.len() == 2 {
            *pair = spare;
        }
    });
    let second = handle.read_with(rt, |pair: &Vec<u64>| pair[1]);
    written.is_some() && refused.is_none() && second == 8 && !handle.is_last(before)
}

/// A lock with room for one reader, and one version.
pub(crate) fn ruled_outcome<R: Wait>(rt: &R, alloc: Global, limits: Limits, used: Use) -> Outcome {
    let Ok(Pairs { first, next, spare }) = three_pairs(alloc) else {
        return Outcome::Refused;
    };
    if first.len() != 2 {
        return Outcome::Wrong;
    }
    let lock = match RuledPair::new(alloc, limits, first) {
        Ok(lock) => lock,
        Err(back) => return unmade(&back),
    };
    match used {
        Use::Own => Outcome::Right,
        Use::Guard => {
            let is_used = is_exchanged(rt, &lock, next, spare);
            Outcome::right_if(is_used && is_pair(&lock.into_inner(), 8))
        }
    }
}
