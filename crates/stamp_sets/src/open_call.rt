//! The open calls of the lanes.
ghost use Rattle.std.specs.Prelude.{◌≡◌, ◌↔◌, IsTrue, Some, None, IfOk, List, replicate, slice_set};
ghost use Rattle.stamp_sets.specs.declared.object.Object.{Object};
ghost use Rattle.stamp_sets.specs.Judged.{judged};
ghost use Rattle.stamp_sets.specs.Told.{open_at};
ghost use Rattle.stamp_sets.specs.Unchanging.{reads_only};
ghost use Rattle.stamp_sets.specs.inner.Effect.{AreEndless, GoesBefore, IsAhead, GivesWayAmong, IsUnchanging};

use crate::ending::{Ending, is_same_reply};
use crate::lanes::{first_lane, has_lane, without_lane};
use crate::object::{Object, is_unchanging};
use crate::small_call::SmallCall;
use std::alloc::{AllocError, Global};

/// A call that has begun and has not ended, and how it ends.
#[derive(Clone, Copy)]
pub(crate) struct OpenCall {
    pub(crate) asks: SmallCall,
    pub(crate) ends: Ending,
}

/// So many lanes as a watch has, all without an open call.
pub(crate) fn idle_lanes(alloc: Global) -> Result<Vec<Option<OpenCall>>, AllocError>
    ensures { IfOk result (λ table. table.items ≡ replicate 64 None) }
{
    let mut table = Vec::with_capacity(alloc, 64)?;
    for count in 0..64usize {
        table.push(None)?;
    }
    Ok(table)
}

/// The open call of the lane.
#[inline(always)]
pub(crate) fn open_in(table: &[Option<OpenCall>], lane: u64) -> Option<OpenCall>
    ensures { result ≡ open_at table.now lane }
{
    match table.get(lane as usize) {
        None => None,
        Some(slot) => *slot,
    }
}

/// Puts it in the lane; where there is no such lane, nothing.
pub(crate) fn put(table: &mut Vec<Option<OpenCall>>, lane: u64, slot: Option<OpenCall>)
    ensures { table.new.items ≡ slice_set table.old.items lane slot }
{
    if (lane as usize) < table.len() {
        table[lane as usize] = slot;
    }
}

impl OpenCall {
    /// Whether the reply that is told of it is one by which it changes nothing.
    pub(crate) fn is_unchanging(&self) -> bool
        ensures value { result ≡ reads_only self.now }
        ensures unchanging { (object : Object) → IsTrue result → IsUnchanging (judged object) self.now }
    {
        match self.ends {
            Ending::Returns(told, _) => is_unchanging(self.asks, told),
            _ => false,
        }
    }

    /// Whether both do the same and have one reply, and this one returns sooner.
    fn is_ahead(&self, object: &Object, other: &OpenCall) -> bool
        ensures { IsTrue result → IsAhead (judged object.now) self.now other.now }
    {
        let Ending::Returns(reply, place) = self.ends else {
            return false;
        };
        let Ending::Returns(answer, later) = other.ends else {
            return false;
        };
        if place >= later {
            return false;
        }
        if !is_same_reply(reply, answer) {
            return false;
        }
        object.does_same(self.asks, other.asks)
    }

    /// Whether both are one call, and neither ends.
    fn is_endless_as(&self, other: &OpenCall) -> bool
        ensures { IsTrue result → AreEndless self.now other.now }
    {
        matches!(self.ends, Ending::Never)
            && matches!(other.ends, Ending::Never)
            && self.asks == other.asks
    }

    /// Whether this one of its lane goes before the other one of its: it is ahead of it, or neither ends and its lane
    /// is lower.
    fn goes_before(&self, object: &Object, lane: u64, other: &OpenCall, others_lane: u64) -> bool
        ensures { IsTrue result → GoesBefore (judged object.now) lane others_lane self.now other.now }
    {
        self.is_ahead(object, other) || (lane < others_lane && self.is_endless_as(other))
    }

    /// Whether a call of these lanes is not in effect that goes before this one of the lane: it is ahead of it, or
    /// neither ends and its lane is lower. One that changes nothing by the reply that is told of it does not.
    pub(crate) fn gives_way(
        &self,
        object: &Object,
        table: &[Option<OpenCall>],
        lanes: u64,
        in_effect: u64,
        lane: u64,
    ) -> bool
        ensures { IsTrue result → GivesWayAmong (judged object.now) table.now lanes in_effect lane self.now }
    {
        let mut rest = lanes;
        while rest != 0 {
            let other = first_lane(rest);
            if !has_lane(in_effect, other) {
                if let Some(first) = open_in(table, other) {
                    if first.goes_before(object, other, self, lane) && !first.is_unchanging() {
                        return true;
                    }
                }
            }
            rest = without_lane(rest, other);
        }
        false
    }
}
