//! The calls that a record is made of: the lock's cycle, and after it calls of the record.

use crate::cycle::{self, CYCLE};
use crate::words::all_of;
use stamp_core::Call;

/// How many calls there are before they come again, where there is a record.
pub const WHOLE_CYCLE: u64 = CYCLE + 4;

/// A put, a get, a put_if that is answered yes, and one that is answered no.
fn record_call(at: u64, width: u64, number: u64) -> Option<Call> {
    let held = all_of(width, number.wrapping_sub(1))?;
    let words = all_of(width, number)?;
    match at {
        20 => Some(Call::Put(words)),
        21 => Some(Call::Get),
        22 => Some(Call::PutIf(held, words)),
        _ => Some(Call::PutIf(words, held)),
    }
}

/// The call of this index in the cycle. Those that take a stamp are given this one; words are of this number.
pub fn call_at(at: u64, width: u64, stamp: u64, number: u64) -> Option<Call> {
    if at < CYCLE {
        Some(cycle::call_at(at, stamp))
    } else {
        record_call(at, width, number)
    }
}
