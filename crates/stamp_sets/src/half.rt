//! One object's part of a watch.
ghost use Rattle.std.specs.Prelude.{◌≡◌, ◌<◌, ◌≤◌, ◌∷◌, ◌++◌, IfOk, OnErr, List, [], ℕ, None, Some, slice_set};
ghost use Rattle.std.specs.Prelude.{true, false};
ghost use Rattle.std.specs.List.{All};
ghost use Rattle.stamp_runs.specs.declared.event.Event.{Event};
ghost use Rattle.stamp_runs.specs.declared.event.Event.TheVariants.{Begins, Returns, Withdraws};
ghost use Rattle.stamp_sets.specs.declared.ending.Ending.TheVariants as ending;
ghost use Rattle.stamp_sets.specs.declared.position.Position.{Position};
ghost use Rattle.stamp_sets.specs.declared.small_call.SmallReply.{SmallReply};
ghost use Rattle.stamp_sets.specs.Half.{HasMore, IsSameHalf, KeepsRun};
ghost use Rattle.stamp_sets.specs.inner.Half.{ExplainsIn, ExplainsNone, KeepsSome};
ghost use Rattle.stamp_sets.specs.Judged.{judged};
ghost use Rattle.stamp_sets.specs.SmallCall.{call_of, reply_of};
ghost use Rattle.stamp_sets.specs.Told.{IsTold, open_at};
ghost use Rattle.stamp_sets.specs.inner.State.{IsState};
ghost use Rattle.stamp_sets.specs.inner.Step.{IsOpening, BeginsIn, AreBegun};
ghost use Rattle.stamp_sets.specs.inner.Trail.{IsNew, ReturnsOn};

use crate::covering::thin;
use crate::effect::at_once;
use crate::lanes::{with_lane, without_lane};
use crate::layers::return_call;
use crate::object::Object;
use crate::open_call::{OpenCall, idle_lanes, put};
use crate::position::Position;
use crate::trace::Trace;
use std::alloc::{AllocError, Global};

/// The positions of one object and its lanes that are possible after the events of its own calls, as far as they
/// matter.
#[derive(Drop)]
pub(crate) struct Half {
    pub(crate) alloc: Global,
    pub(crate) object: Object,
    pub(crate) table: Vec<Option<OpenCall>>,
    pub(crate) busy: u64,
    pub(crate) positions: Vec<Position>,
}

fn opening(object: &Object) -> Position
    ensures { IsOpening (judged object.now) result }
{
    Position {
        state: object.opening(),
        in_effect: 0,
        free: 0,
    }
}

/// The position once this call has begun in the lane.
fn begun_in(object: &Object, begun: &OpenCall, lane: u64, position: Position) -> Position
    requires state { IsState (judged object.now) position.state }
    requires lane { lane < 64 }
    ensures { BeginsIn (judged object.now) begun.now lane position result }
{
    let plain = Position {
        state: position.state,
        in_effect: without_lane(position.in_effect, lane),
        free: position.free,
    };
    at_once(object, begun, lane, plain)
}

fn begin_in_each(object: &Object, begun: &OpenCall, lane: u64, positions: &mut Vec<Position>)
    requires states { All (λ (p : Position). IsState (judged object.now) p.state) positions.old.items }
    requires lane { lane < 64 }
    ensures { AreBegun (judged object.now) begun.now lane positions.old.items positions.new.items }
{
    for position in positions.iter_mut() {
        *position = begun_in(object, begun, lane, *position);
    }
}

impl Half {
    /// The part of a new object, before any event.
    pub(crate) fn new(alloc: Global, object: Object) -> Result<Half, AllocError>
        ensures keeps { IfOk result (λ half. KeepsRun [] 0 half) }
        ensures object { IfOk result (λ half. half.object ≡ object) }
        ensures idle { IfOk result (λ half. (lane : ℕ) → open_at half.table.items lane ≡ None) }
        ensures new { IfOk result IsNew }
    {
        let table = idle_lanes(alloc)?;
        let mut positions = Vec::new(alloc);
        positions.push(opening(&object))?;
        Ok(Half {
            alloc,
            object,
            table,
            busy: 0,
            positions,
        })
    }

    /// The same part, in memory of its own.
    pub(crate) fn copied(&self) -> Result<Half, AllocError>
        ensures { IfOk result (λ copy. IsSameHalf self.now copy) }
    {
        let table = Vec::from_slice(self.alloc, self.table.as_slice())?;
        let positions = Vec::from_slice(self.alloc, self.positions.as_slice())?;
        Ok(Half {
            alloc: self.alloc,
            object: self.object,
            table,
            busy: self.busy,
            positions,
        })
    }

    /// Whether no position is kept: then nothing that comes as was told is explained, and else the run is so far.
    pub(crate) fn is_dead(&self) -> bool
        ensures alive { result ≡ false → (past : List Event) (last : ℕ) → KeepsRun past last self.now
            → ExplainsIn self.now past }
        ensures dead { result ≡ true → (past : List Event) (last : ℕ) → KeepsRun past last self.now
            → ExplainsNone past last self.now }
    {
        self.positions.is_empty()
    }

    /// One more event: a call begins in a lane that is free.
    pub(crate) fn begins(&mut self, lane: u64, begun: OpenCall)
        requires lane { lane < 64 }
        requires idle { open_at self.old.table.items lane ≡ None }
        requires some { KeepsSome self.old }
        ensures keeps { (past : List Event) (last : ℕ) → KeepsRun past last self.old
            → KeepsRun (past ++ Begins lane (call_of begun.asks) ∷ []) last self.new }
        ensures table { self.new.table.items ≡ slice_set self.old.table.items lane (Some begun) }
        ensures object { self.new.object ≡ self.old.object }
        ensures begun { AreBegun (judged self.old.object) begun lane self.old.positions.items
            self.new.positions.items }
    {
        begin_in_each(&self.object, &begun, lane, &mut self.positions);
        put(&mut self.table, lane, Some(begun));
        self.busy = with_lane(self.busy, lane);
    }

    /// One more event: the call of a lane is withdrawn, as was told of it.
    pub(crate) fn withdraws(&mut self, lane: u64)
        requires lane { lane < 64 }
        requires told { IsTold (open_at self.old.table.items) lane ending.Withdraws }
        ensures keeps { (past : List Event) (last : ℕ) → KeepsRun past last self.old
            → KeepsRun (past ++ Withdraws lane ∷ []) last self.new }
        ensures table { self.new.table.items ≡ slice_set self.old.table.items lane None }
        ensures object { self.new.object ≡ self.old.object }
        ensures same { self.new.positions ≡ self.old.positions }
    {
        put(&mut self.table, lane, None);
        self.busy = without_lane(self.busy, lane);
    }

    /// One more event: the call of a lane returns, as was told of it, unless more than `most` positions are possible
    /// just before it: whether it does. The trace goes on by it, with this number, if it is on. Else, and without
    /// memory, both are as before.
    pub(crate) fn returns(
        &mut self,
        lane: u64,
        most: u64,
        number: u64,
        trace: &mut Trace,
    ) -> Result<bool, AllocError>
        requires lane { lane < 64 }
        requires some { KeepsSome self.old }
        ensures keeps { IfOk result (λ done. done ≡ true → (past : List Event) (last place : ℕ) (reply : SmallReply)
            → KeepsRun past last self.old → IsTold (open_at self.old.table.items) lane (ending.Returns reply place)
            → last ≤ place → KeepsRun (past ++ Returns lane (reply_of reply) ∷ []) place self.new) }
        ensures table { IfOk result (λ done. done ≡ true
            → self.new.table.items ≡ slice_set self.old.table.items lane None) }
        ensures object { IfOk result (λ done. self.new.object ≡ self.old.object) }
        ensures more { IfOk result (λ done. done ≡ false → (past : List Event) (last : ℕ)
            → KeepsRun past last self.old → HasMore past most self.old) }
        ensures same { IfOk result (λ done. done ≡ false → self.new ≡ self.old) }
        ensures untold { IfOk result (λ done. done ≡ false → trace.new ≡ trace.old) }
        ensures noted { IfOk result (λ done. done ≡ true → ReturnsOn lane number self.old self.new trace.old
            trace.new) }
        ensures err { OnErr result (self.new ≡ self.old) }
        ensures err_trace { OnErr result (trace.new ≡ trace.old) }
    {
        let returned = return_call(
            self.alloc,
            &self.object,
            self.table.as_slice(),
            self.busy,
            lane,
            &mut self.positions,
            most,
            number,
            trace,
        )?;
        if !returned {
            return Ok(false);
        }
        put(&mut self.table, lane, None);
        self.busy = without_lane(self.busy, lane);
        thin(
            &self.object,
            self.table.as_slice(),
            self.busy,
            &mut self.positions,
        );
        Ok(true)
    }
}
