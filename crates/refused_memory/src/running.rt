//! The running lock and the running record: only making them takes memory.
use crate::outcome::Outcome;
use stamp_core::{Call, Limits, Reply, Words};
use stamp_threads::{LockError, PutFault, RunningLock, RunningRecord};
use std::alloc::Global;

pub(crate) fn running_lock_outcome(alloc: Global, limits: Limits) -> Outcome {
    let (lock, mut pass) = match RunningLock::new(alloc, limits) {
        Ok(made) => made,
        Err(LockError::Unmade) => return Outcome::Refused,
    };
    let first = lock.once(&mut pass, Call::TryRead);
    let word = lock.close(pass);
    Outcome::right_if(first == Ok(Reply::Stamp(257)) && word == 257)
}

/// A record with room for one put.
pub(crate) fn running_record_outcome(alloc: Global, limits: Limits) -> Outcome {
    let (record, mut pass) = match RunningRecord::new(alloc, limits, 2) {
        Ok(made) => made,
        Err(LockError::Unmade) => return Outcome::Refused,
    };
    let Some(words) = Words::new(&[7, 9]) else {
        return Outcome::Wrong;
    };
    let is_put = record.put_once(&mut pass, words).is_ok();
    let is_got = record.get_once(&mut pass) == Ok(words);
    let second = record.put_once(&mut pass, words);
    Outcome::right_if(is_put && is_got && matches!(second, Err(PutFault::Spent(_))))
}
