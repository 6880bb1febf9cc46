//! How open calls take effect in a position.
ghost use Rattle.std.specs.Prelude.{◌≡◌, ◌<◌, Some};
ghost use Rattle.std.specs.Int.{bit_at};
ghost use Rattle.stamp_sets.specs.Judged.{judged};
ghost use Rattle.stamp_sets.specs.inner.State.{IsState};
ghost use Rattle.stamp_sets.specs.Told.{HasEachOpen, open_at};
ghost use Rattle.stamp_sets.specs.inner.Effect.{AreFree, AreSettled, Frees, FreesAll, IsFoundAfter, SettlesOne};

use crate::lanes::{first_lane, has_lane, with_lane, without_lane};
use crate::object::Object;
use crate::open_call::{OpenCall, open_in};
use crate::position::Position;

/// The position with the call of this lane in effect, if it changes nothing and may take effect there.
#[inline(always)]
pub(crate) fn at_once(object: &Object, begun: &OpenCall, lane: u64, position: Position) -> Position
    requires state { IsState (judged object.now) position.state }
    requires lane { lane < 64 }
    ensures { SettlesOne (judged object.now) begun.now lane position result }
{
    if has_lane(position.in_effect, lane) {
        return position;
    }
    if !begun.is_unchanging() {
        return position;
    }
    if !object.state_after(position.state, begun).is_some() {
        return position;
    }
    Position {
        state: position.state,
        in_effect: with_lane(position.in_effect, lane),
        free: without_lane(position.free, lane),
    }
}

/// The position with each of these lanes' calls in effect that changes nothing and may take effect there.
pub(crate) fn settled(
    object: &Object,
    table: &[Option<OpenCall>],
    lanes: u64,
    position: Position,
) -> Position
    requires { IsState (judged object.now) position.state }
    ensures { AreSettled (judged object.now) table.now lanes position result }
{
    let mut settled = position;
    let mut rest = lanes;
    while rest != 0 {
        let lane = first_lane(rest);
        if let Some(begun) = open_in(table, lane) {
            settled = at_once(object, &begun, lane, settled);
        }
        rest = without_lane(rest, lane);
    }
    settled
}

/// With the lane among them, if its call may be free, is not in effect, and is not the awaited one.
fn with_freed(
    object: &Object,
    table: &[Option<OpenCall>],
    awaited: u64,
    in_effect: u64,
    lane: u64,
    free: u64,
) -> u64
    requires { lane < 64 }
    ensures { Frees (judged object.now) table.now awaited in_effect (λ l. l ≡ lane) free result }
{
    if lane == awaited {
        return free;
    }
    if has_lane(in_effect, lane) {
        return free;
    }
    let Some(begun) = open_in(table, lane) else {
        return free;
    };
    if !object.may_be_free(&begun) {
        return free;
    }
    with_lane(free, lane)
}

/// The lanes whose call is free, and all whose call may be, is not in effect, and is not the awaited one.
fn all_freed(
    object: &Object,
    table: &[Option<OpenCall>],
    busy: u64,
    awaited: u64,
    position: Position,
) -> u64
    requires { HasEachOpen table.now busy }
    ensures { FreesAll (judged object.now) table.now awaited position result }
{
    let mut freed = position.free;
    let mut rest = busy;
    while rest != 0 {
        let lane = first_lane(rest);
        freed = with_freed(object, table, awaited, position.in_effect, lane, freed);
        rest = without_lane(rest, lane);
    }
    freed
}

/// The lanes whose call is free once the call of this lane has taken effect: where it overwrites all may be that are
/// not in effect, but for the awaited one.
fn free_after(
    object: &Object,
    table: &[Option<OpenCall>],
    busy: u64,
    awaited: u64,
    lane: u64,
    begun: &OpenCall,
    position: Position,
) -> u64
    requires lane { lane < 64 }
    requires busy { HasEachOpen table.now busy }
    ensures { AreFree (judged object.now) table.now awaited position lane ((judged object.now).overwrites begun.now)
        result }
{
    match object.overwrites(begun) {
        None => without_lane(position.free, lane),
        Some(_) => without_lane(all_freed(object, table, busy, awaited, position), lane),
    }
}

/// The position once the call of this lane has taken effect, with what changes nothing then.
pub(crate) fn after_effect(
    object: &Object,
    table: &[Option<OpenCall>],
    busy: u64,
    awaited: u64,
    lane: u64,
    begun: &OpenCall,
    position: Position,
) -> Option<Position>
    requires state { IsState (judged object.now) position.state }
    requires lane { lane < 64 }
    requires busy { HasEachOpen table.now busy }
    requires is_open { open_at table.now lane ≡ Some begun.now }
    requires unused { bit_at position.in_effect lane ≡ 0 }
    ensures { IsFoundAfter (judged object.now) table.now awaited position lane begun.now result }
{
    match object.state_after(position.state, begun) {
        None => None,
        Some(state) => {
            let next = Position {
                state,
                in_effect: with_lane(position.in_effect, lane),
                free: free_after(object, table, busy, awaited, lane, begun, position),
            };
            Some(settled(object, table, busy, next))
        }
    }
}
