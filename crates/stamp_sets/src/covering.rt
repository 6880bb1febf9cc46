//! Positions that others cover: a set of positions is kept small without them.
ghost use Rattle.std.specs.Prelude.{◌≡◌, ◌<◌, ◌⊎◌, ◌↔◌, IsTrue, List, Option, ℕ, Some, true, length};
ghost use Rattle.std.specs.Int.{bit_at};
ghost use Rattle.stamp_sets.specs.declared.open_call.OpenCall.{OpenCall};
ghost use Rattle.stamp_sets.specs.Judged.{guarded, judged};
ghost use Rattle.stamp_sets.specs.Told.{HasEachOpen, open_at};
ghost use Rattle.stamp_sets.specs.inner.Covering.{AreKinds, IsCoveredAt, IsCoveredBy, IsThinned};

use crate::ending::Ending;
use crate::lanes::{first_lane, with_lane, without_lane};
use crate::object::Object;
use crate::open_call::{OpenCall, open_in};
use crate::position::Position;

/// The longest list of which positions are dropped. Each is compared with each, which takes too long beyond.
const MOST: usize = 4096;

/// The lanes with an open call, and which of these calls overwrite, change nothing as they return, or never end.
#[derive(Clone, Copy)]
struct Kinds {
    busy: u64,
    overwriting: u64,
    reading: u64,
    endless: u64,
}

/// These lanes, and this one if it is so.
fn with_lane_if(lanes: u64, lane: u64, is: bool) -> u64
    requires { lane < 64 }
    ensures { (other : ℕ) → bit_at result other ≡ 1 → (bit_at lanes other ≡ 1) ⊎ ((other ≡ lane) × IsTrue is) }
{
    if is {
        return with_lane(lanes, lane);
    }
    lanes
}

/// With the lane of this call where it belongs.
fn with_kind(kinds: Kinds, lane: u64, begun: &OpenCall) -> Kinds
    requires { lane < 64 }
    ensures { (table : List (Option OpenCall)) → open_at table lane ≡ Some begun.now → AreKinds guarded table kinds
        → AreKinds guarded table result }
{
    Kinds {
        busy: kinds.busy,
        overwriting: with_lane_if(
            kinds.overwriting,
            lane,
            Object::Record.overwrites(begun).is_some(),
        ),
        reading: with_lane_if(kinds.reading, lane, begun.is_unchanging()),
        endless: with_lane_if(kinds.endless, lane, matches!(begun.ends, Ending::Never)),
    }
}

/// The open calls of a record by their kinds.
fn kinds_of(table: &[Option<OpenCall>], busy: u64) -> Kinds
    requires { HasEachOpen table.now busy }
    ensures { AreKinds guarded table.now result }
{
    let mut kinds = Kinds {
        busy,
        overwriting: 0,
        reading: 0,
        endless: 0,
    };
    let mut rest = busy;
    while rest != 0 {
        let lane = first_lane(rest);
        if let Some(begun) = open_in(table, lane) {
            kinds = with_kind(kinds, lane, &begun);
        }
        rest = without_lane(rest, lane);
    }
    kinds
}

/// Whether each of the first lanes is among the others.
fn are_among(lanes: u64, others: u64) -> bool
    ensures { IsTrue result → (lane : ℕ) → bit_at lanes lane ≡ 1 → bit_at others lane ≡ 1 }
{
    lanes | others == others
}

/// Whether the first position covers the other one: both have one state; a call in effect in the other is so in the
/// first, or is free there and overwrites, or never ends; one in effect in the first is so in the other, or changes
/// nothing as it returns; one free in the other is so in the first, or changes nothing as it returns and is in effect
/// there.
fn covers(kinds: &Kinds, first: &Position, other: &Position) -> bool
    ensures { IsTrue result → (table : List (Option OpenCall)) → AreKinds guarded table kinds.now
        → IsCoveredBy guarded table first.now other.now }
{
    if first.state != other.state {
        return false;
    }
    let hidden = first.free & kinds.overwriting;
    if !are_among(
        other.in_effect & kinds.busy,
        first.in_effect | hidden | kinds.endless,
    ) {
        return false;
    }
    if !are_among(
        first.in_effect & kinds.busy,
        other.in_effect | kinds.reading,
    ) {
        return false;
    }
    let read = first.in_effect & kinds.reading;
    are_among(other.free & kinds.busy, first.free | read)
}

/// Whether another position covers the one of this place.
fn is_covered(kinds: &Kinds, positions: &[Position], at: usize) -> bool
    requires { at < length positions.now }
    ensures { IsTrue result → (table : List (Option OpenCall)) → AreKinds guarded table kinds.now
        → IsCoveredAt guarded table at positions.now }
{
    for place in 0..positions.len() {
        if place != at && covers(kinds, &positions[place], &positions[at]) {
            return true;
        }
    }
    false
}

/// Drops each position that another one covers.
fn drop_covered(kinds: &Kinds, positions: &mut Vec<Position>)
    ensures { (table : List (Option OpenCall)) → AreKinds guarded table kinds.now
        → IsThinned guarded table positions.old.items positions.new.items }
{
    let mut at = 0;
    while at < positions.len() {
        if is_covered(kinds, positions.as_slice(), at) {
            positions.remove(at);
        } else {
            at += 1;
        }
    }
}

/// Drops each position of a record that another one covers, where there are no more than `MOST`. Those of a lock stay:
/// none of its calls is free.
pub(crate) fn thin(
    object: &Object,
    table: &[Option<OpenCall>],
    busy: u64,
    positions: &mut Vec<Position>,
)
    requires { HasEachOpen table.now busy }
    ensures { IsThinned (judged object.now) table.now positions.old.items positions.new.items }
{
    let Object::Record = object else {
        return;
    };
    if positions.len() < 2 || positions.len() > MOST {
        return;
    }
    drop_covered(&kinds_of(table, busy), positions);
}
