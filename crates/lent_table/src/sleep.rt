//! Sleeping on the word, for callers that wait.
use crate::shared::{Shared, TableRule};
use std::marker::Brand;
use std::sync::Wait;
use std::sync::atomic::raw;
use std::time::Duration;

// A longer sleep would end at once.
const LONGEST: u64 = i64::MAX as u64;

impl<T, V, K, P: TableRule<T, V, K>> Shared<T, V, K, P> {
    /// Sleeps for `dur` at most, if the low 32 bits of the word are `expected`, and else returns at
    /// once. It is no step, and needs no seat. It may return early for no reason. Nobody wakes it, so
    /// a change of the word is seen only by a load after it.
    pub fn park_timeout<R: Wait>(&self, rt: &R, expected: u32, dur: Duration) {
        let seconds = dur.as_secs().min(LONGEST);
        self.doze(rt, expected as u64, seconds, dur.subsec_nanos() as u64);
    }

    fn doze<R: Wait>(&self, rt: &R, low: u64, seconds: u64, nanos: u64) {
        unsafe { raw::park::<Brand, R>(rt, self.word, low, seconds, nanos) }
    }
}
