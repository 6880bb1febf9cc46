//! The first layer on the way to a return: where the call that returns is free it may have taken effect unseen.
ghost use Rattle.std.specs.Prelude.{◌≡◌, ◌<◌, OnOk, []};
ghost use Rattle.std.specs.Int.{bit_at};
ghost use Rattle.std.specs.List.{Contains};
ghost use Rattle.stamp_sets.specs.Judged.{judged};
ghost use Rattle.stamp_sets.specs.inner.State.{IsState};
ghost use Rattle.stamp_sets.specs.inner.Start.{Hides, HidesEach, IsFixed, IsHidden, StartsWith, TakesUp};
ghost use Rattle.stamp_sets.specs.inner.Trail.{AreNoted};

use crate::effect::settled;
use crate::lanes::{first_lane, has_lane, with_lane, without_lane};
use crate::object::Object;
use crate::open_call::{OpenCall, open_in};
use crate::position::Position;
use crate::trail::{Entry, Link, Trail, Way, add_by};
use std::alloc::AllocError;

/// The position with the lane's call not free.
fn fixed(position: Position, lane: u64) -> Position
    requires { lane < 64 }
    ensures { IsFixed lane position result }
{
    Position {
        state: position.state,
        in_effect: position.in_effect,
        free: without_lane(position.free, lane),
    }
}

/// The position where the lane's free call took effect unseen and left this state, and so did all free calls after it
/// that read that one.
fn hidden(
    object: &Object,
    table: &[Option<OpenCall>],
    lane: u64,
    left: u64,
    position: Position,
) -> Position
    requires lane { lane < 64 }
    requires state { IsState (judged object.now) left }
    ensures { IsHidden (judged object.now) table.now lane left position result }
{
    let there = Position {
        state: left,
        in_effect: with_lane(position.in_effect, lane),
        free: without_lane(position.free, lane),
    };
    let then = settled(object, table, there.free, there);
    Position {
        state: position.state,
        in_effect: then.in_effect,
        free: then.free,
    }
}

/// Adds the position where the source's free call, which overwrites, was hidden, and with it this lane's.
fn hide_source(
    object: &Object,
    table: &[Option<OpenCall>],
    source: u64,
    lane: u64,
    position: Position,
    first: &mut Vec<Position>,
    trail: &mut Trail,
) -> Result<(), AllocError>
    requires source { source < 64 }
    requires lane { lane < 64 }
    requires free { bit_at position.free source ≡ 1 }
    ensures hides { OnOk result (Hides (judged object.now) table.now lane position (λ s. s ≡ source)
        first.old.items first.new.items) }
    ensures noted { OnOk result (AreNoted (judged object.now) table.now (λ p. p ≡ position) trail.old trail.new
        first.old.items first.new.items) }
{
    let Some(begun) = open_in(table, source) else {
        return Ok(());
    };
    let Some(left) = object.overwrites(&begun) else {
        return Ok(());
    };
    if begun.gives_way(object, table, position.free, position.in_effect, source) {
        return Ok(());
    }
    let then = hidden(object, table, source, left, position);
    if !has_lane(then.in_effect, lane) {
        return Ok(());
    }
    let link = Link {
        way: Way::Hides,
        lane: source,
        from: position,
        to: then,
    };
    add_by(first, trail, link)
}

/// Adds the positions where some free call that overwrites was hidden, and with it this lane's.
fn hide_sources(
    object: &Object,
    table: &[Option<OpenCall>],
    lane: u64,
    position: Position,
    first: &mut Vec<Position>,
    trail: &mut Trail,
) -> Result<(), AllocError>
    requires { lane < 64 }
    ensures hides { OnOk result (Hides (judged object.now) table.now lane position (λ s. s < 64) first.old.items
        first.new.items) }
    ensures noted { OnOk result (AreNoted (judged object.now) table.now (λ p. p ≡ position) trail.old trail.new
        first.old.items first.new.items) }
{
    let mut rest = position.free;
    while rest != 0 {
        let source = first_lane(rest);
        hide_source(object, table, source, lane, position, first, trail)?;
        rest = without_lane(rest, source);
    }
    Ok(())
}

/// Adds the positions where the lane's free call was hidden.
fn hide(
    object: &Object,
    table: &[Option<OpenCall>],
    lane: u64,
    position: Position,
    first: &mut Vec<Position>,
    trail: &mut Trail,
) -> Result<(), AllocError>
    requires lane { lane < 64 }
    requires free { bit_at position.free lane ≡ 1 }
    ensures hides { OnOk result (HidesEach (judged object.now) table.now lane position first.old.items
        first.new.items) }
    ensures noted { OnOk result (AreNoted (judged object.now) table.now (λ p. p ≡ position) trail.old trail.new
        first.old.items first.new.items) }
{
    let Some(begun) = open_in(table, lane) else {
        return Ok(());
    };
    match object.overwrites(&begun) {
        None => hide_sources(object, table, lane, position, first, trail),
        Some(left) => {
            let then = hidden(object, table, lane, left, position);
            let link = Link {
                way: Way::Hides,
                lane,
                from: position,
                to: then,
            };
            add_by(first, trail, link)
        }
    }
}

/// Adds what comes of a position as the lane's call is about to return.
fn take_up(
    object: &Object,
    table: &[Option<OpenCall>],
    lane: u64,
    position: Position,
    first: &mut Vec<Position>,
    trail: &mut Trail,
) -> Result<(), AllocError>
    requires lane { lane < 64 }
    ensures takes { OnOk result (TakesUp (judged object.now) table.now lane position first.old.items
        first.new.items) }
    ensures noted { OnOk result (AreNoted (judged object.now) table.now (λ p. p ≡ position) trail.old trail.new
        first.old.items first.new.items) }
{
    if !has_lane(position.free, lane) {
        first.push(position)?;
        return Ok(());
    }
    let then = fixed(position, lane);
    first.push(then)?;
    trail.note(Entry::Comes(Link {
        way: Way::Fixes,
        lane,
        from: position,
        to: then,
    }))?;
    hide(object, table, lane, position, first, trail)
}

/// Adds what comes of each position.
pub(crate) fn take_up_each(
    object: &Object,
    table: &[Option<OpenCall>],
    lane: u64,
    positions: &[Position],
    first: &mut Vec<Position>,
    trail: &mut Trail,
) -> Result<(), AllocError>
    requires lane { lane < 64 }
    ensures starts { OnOk result (first.old.items ≡ [] → StartsWith (judged object.now) table.now lane
        positions.now first.new.items) }
    ensures noted { OnOk result (AreNoted (judged object.now) table.now (Contains positions.now) trail.old trail.new
        first.old.items first.new.items) }
{
    for position in positions {
        take_up(object, table, lane, *position, first, trail)?;
    }
    Ok(())
}
