//! A record whose entries are linearized.

use crate::check::calls::{WHOLE_CYCLE, call_at};
use crate::cycle::CYCLE;
use crate::words::all_of;
use stamp_core::{Call, Entry, Limits, Record, Reply, Word, transition};
use std::alloc::{AllocError, Global};

/// Where lock and record are: the word's number, the stamp answered last, and the number in each
/// word of the content.
#[derive(Clone, Copy)]
struct At {
    bits: u64,
    stamp: u64,
    number: u64,
}

fn lock_answers(limits: Limits, at: At, call: &Call) -> Option<(At, Reply)> {
    let word = limits.word_from_bits(at.bits)?;
    if !call.is_lock_call() {
        return None;
    }
    let (next, reply) = transition(limits, word, *call)?;
    let stamp = match reply {
        Reply::Stamp(stamp) => stamp,
        _ => at.stamp,
    };
    let bits = next.bits();
    Some((At { bits, stamp, ..at }, reply))
}

/// A put_if that expects this number.
fn put_if_answers(at: At, expected: u64, number: u64) -> (At, Reply) {
    if at.number == expected {
        (At { number, ..at }, Reply::Yes)
    } else {
        (at, Reply::No)
    }
}

fn record_answers(width: u64, at: At, call: &Call) -> Option<(At, Reply)> {
    match call {
        Call::Get => Some((at, Reply::Content(all_of(width, at.number)?))),
        Call::Put(words) => {
            let number = *words.as_slice().first()?;
            Some((At { number, ..at }, Reply::Done))
        }
        Call::PutIf(expected, words) => {
            let expected = *expected.as_slice().first()?;
            let number = *words.as_slice().first()?;
            Some(put_if_answers(at, expected, number))
        }
        _ => None,
    }
}

/// The call, its reply, and where it leaves lock and record; nothing where it waits.
fn answered(limits: Limits, width: u64, at: At, index: u64) -> Option<(At, Call, Reply)> {
    let call = call_at(index, width, at.stamp, at.number.wrapping_add(1))?;
    let (next, reply) = if call.is_lock_call() {
        lock_answers(limits, at, &call)?
    } else {
        record_answers(width, at, &call)?
    };
    Some((next, call, reply))
}

/// The record of this many calls of 64 threads, without those that wait.
pub fn record_of(
    alloc: Global,
    limits: Limits,
    width: u64,
    calls: u64,
) -> Result<Option<Record>, AllocError> {
    let cycle = if width == 0 { CYCLE } else { WHOLE_CYCLE };
    let mut at = At {
        bits: Word::opening_in(limits.layout()).bits(),
        stamp: 0,
        number: 0,
    };
    let mut entries = Vec::new(alloc);
    for i in 0..calls {
        if let Some((next, call, reply)) = answered(limits, width, at, i % cycle) {
            let first = i.wrapping_mul(3);
            entries.push(Entry {
                thread: i % 64,
                call,
                reply,
                first,
                point: first.wrapping_add(1),
                last: first.wrapping_add(2),
            })?;
            at = next;
        }
    }
    Ok(Record::of(limits, width, entries))
}
