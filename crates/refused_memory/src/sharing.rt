//! A book under a lock, whose calls and whose record ask for memory as a book's own do.
use crate::booking::{CALLS, call_at};
use crate::outcome::Outcome;
use stamp_check::check;
use stamp_core::{Call, Limits, Record, Reply};
use stamp_threads::{Book, BookError, Shared};
use std::alloc::Global;
use std::sync::Wait;

/// Whether the book has as many entries as there were calls so far.
fn is_at(rt: &impl Wait, shared: &Shared, made: u64) -> bool {
    match shared.record(rt) {
        Ok(record) => record.entries().len() as u64 == made,
        Err(_) => false,
    }
}

/// Makes a call of the lock, and once more where memory was refused and nothing was entered.
fn call_again(rt: &impl Wait, shared: &Shared, made: u64, call: &Call) -> Result<Reply, BookError> {
    if !call.is_lock_call() {
        return Err(BookError::Waits);
    }
    let answer = shared.call(rt, 1, *call);
    if answer == Err(BookError::Memory) && is_at(rt, shared, made) {
        return shared.call(rt, 1, *call);
    }
    answer
}

/// Makes calls until the book is full; tells whether each reply was due.
fn is_filled(rt: &impl Wait, shared: &Shared) -> bool {
    for number in 0..CALLS {
        let (call, reply) = call_at(number);
        if call_again(rt, shared, number, &call) != Ok(reply) {
            return false;
        }
    }
    true
}

/// The history, asked for once more where memory was refused.
fn record_again(rt: &impl Wait, shared: &Shared) -> Result<Record, BookError> {
    match shared.record(rt) {
        Err(BookError::Memory) => shared.record(rt),
        other => other,
    }
}

/// The end is that of a shared book that was never refused.
pub(crate) fn shared_outcome(rt: &impl Wait, alloc: Global, limits: Limits) -> Outcome {
    let shared = Shared::new(Book::new(alloc, limits, CALLS));
    if !is_filled(rt, &shared) {
        return Outcome::Wrong;
    }
    let Ok(record) = record_again(rt, &shared) else {
        return Outcome::Wrong;
    };
    let is_full = call_again(rt, &shared, CALLS, &Call::TryRead) == Err(BookError::Full);
    Outcome::right_if(check(&record) == Ok(CALLS) && is_full)
}
