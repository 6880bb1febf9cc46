//! How a set of positions goes on to a return.
ghost use Rattle.std.specs.Prelude.{ℕ, ◌≡◌, ◌<◌, IsTrue, OnOk, OnErr, IfOk, false, true, MatchOption, [], ◌∷◌};
ghost use Rattle.std.specs.List.{All, Contains};
ghost use Rattle.std.specs.Int.{bit_at};
ghost use Rattle.stamp_sets.specs.declared.position.Position.{Position};
ghost use Rattle.stamp_sets.specs.Judged.{judged};
ghost use Rattle.stamp_sets.specs.inner.State.{IsState};
ghost use Rattle.stamp_sets.specs.declared.open_call.OpenCall.{OpenCall};
ghost use Rattle.stamp_sets.specs.Told.{HasEachOpen, open_at};
ghost use Rattle.stamp_sets.specs.inner.Effect.{IsLeftOut, IsPassedOver, IsUnseen};
ghost use Rattle.stamp_sets.specs.inner.Layer.{Expands, LooksAt, LooksThrough, TooManyFollow, ReturnsThrough};
ghost use Rattle.stamp_sets.specs.Tracing.{IsReturnedFrom};
ghost use Rattle.stamp_sets.specs.inner.Layer.{AreReturned, IsAfterReturn};
ghost use Rattle.stamp_sets.specs.inner.Trail.{AreNoted, AreReturnedBy, ReturnsTraced, way_of};

use crate::effect::after_effect;
use crate::ending::Ending;
use crate::lanes::{first_lane, has_lane, without_lane};
use crate::object::Object;
use crate::open_call::{OpenCall, open_in};
use crate::position::{Position, add};
use crate::start::take_up_each;
use crate::trace::Trace;
use crate::trail::{Entry, Link, Trail, Way, add_by};
use std::alloc::{AllocError, Global};

/// Whether the lane's call, which is not in effect, takes no effect of its own in a state: it overwrites; or it changes
/// nothing as it is told to return, and is not awaited; or it ends, and gets no reply there that it may get.
fn is_passed_over(object: &Object, awaited: u64, lane: u64, begun: &OpenCall, state: u64) -> bool
    requires { IsState (judged object.now) state }
    ensures { IsTrue result → IsPassedOver (judged object.now) awaited lane begun.now state }
{
    if object.overwrites(begun).is_some() {
        return true;
    }
    if lane != awaited {
        if begun.is_unchanging() {
            return true;
        }
    }
    if let Ending::Never = begun.ends {
        return false;
    }
    object.state_after(state, begun).is_none()
}

/// Whether the lane's call, if it has one that is not in effect, is passed over in the state.
fn is_lane_passed_over(
    object: &Object,
    table: &[Option<OpenCall>],
    awaited: u64,
    in_effect: u64,
    lane: u64,
    state: u64,
) -> bool
    requires state { IsState (judged object.now) state }
    requires lane { lane < 64 }
    ensures { IsTrue result → (begun : OpenCall) → open_at table.now lane ≡ Some begun → bit_at in_effect lane ≡ 0
        → IsPassedOver (judged object.now) awaited lane begun state }
{
    if has_lane(in_effect, lane) {
        return true;
    }
    match open_in(table, lane) {
        None => true,
        Some(begun) => is_passed_over(object, awaited, lane, &begun, state),
    }
}

/// Whether each call that is not in effect is passed over in the state.
fn is_unseen(
    object: &Object,
    table: &[Option<OpenCall>],
    busy: u64,
    awaited: u64,
    in_effect: u64,
    state: u64,
) -> bool
    requires state { IsState (judged object.now) state }
    requires busy { HasEachOpen table.now busy }
    ensures { IsTrue result → IsUnseen (judged object.now) table.now awaited in_effect state }
{
    let mut rest = busy;
    while rest != 0 {
        let lane = first_lane(rest);
        if !is_lane_passed_over(object, table, awaited, in_effect, lane, state) {
            return false;
        }
        rest = without_lane(rest, lane);
    }
    true
}

/// Whether the lane's call is left out: it overwrites and is unseen, or gives way to another.
fn is_left_out(
    object: &Object,
    table: &[Option<OpenCall>],
    busy: u64,
    awaited: u64,
    in_effect: u64,
    lane: u64,
    begun: &OpenCall,
) -> bool
    requires { HasEachOpen table.now busy }
    ensures { IsTrue result → IsLeftOut (judged object.now) table.now awaited in_effect lane begun.now }
{
    if let Some(left) = object.overwrites(begun) {
        if is_unseen(object, table, busy, awaited, in_effect, left) {
            return true;
        }
    }
    begun.gives_way(object, table, busy, in_effect, lane)
}

/// What an effect of the call is.
fn way_of_effect(object: &Object, begun: &OpenCall) -> Way
    ensures { result ≡ way_of ((judged object.now).overwrites begun.now) }
{
    match object.overwrites(begun) {
        None => Way::Takes,
        Some(_) => Way::Frees,
    }
}

/// Adds what follows the position by the call of this lane.
fn expand_lane(
    object: &Object,
    table: &[Option<OpenCall>],
    busy: u64,
    awaited: u64,
    position: Position,
    lane: u64,
    next: &mut Vec<Position>,
    trail: &mut Trail,
) -> Result<(), AllocError>
    requires state { IsState (judged object.now) position.state }
    requires lane { lane < 64 }
    requires busy { HasEachOpen table.now busy }
    ensures expands { OnOk result (Expands (judged object.now) table.now awaited position (λ l. l ≡ lane)
        next.old.items next.new.items) }
    ensures noted { OnOk result (AreNoted (judged object.now) table.now (λ p. p ≡ position) trail.old trail.new
        next.old.items next.new.items) }
{
    let Some(begun) = open_in(table, lane) else {
        return Ok(());
    };
    if has_lane(position.in_effect, lane) {
        return Ok(());
    }
    let Some(after) = after_effect(object, table, busy, awaited, lane, &begun, position) else {
        return Ok(());
    };
    let link = Link {
        way: way_of_effect(object, &begun),
        lane,
        from: position,
        to: after,
    };
    if lane == awaited {
        return add_by(next, trail, link);
    }
    if is_left_out(
        object,
        table,
        busy,
        awaited,
        position.in_effect,
        lane,
        &begun,
    ) {
        return Ok(());
    }
    add_by(next, trail, link)
}

/// Adds what follows the position by one call.
fn expand(
    object: &Object,
    table: &[Option<OpenCall>],
    busy: u64,
    awaited: u64,
    position: Position,
    next: &mut Vec<Position>,
    trail: &mut Trail,
) -> Result<(), AllocError>
    requires state { IsState (judged object.now) position.state }
    requires busy { HasEachOpen table.now busy }
    ensures expands { OnOk result (Expands (judged object.now) table.now awaited position (λ l. l < 64)
        next.old.items next.new.items) }
    ensures noted { OnOk result (AreNoted (judged object.now) table.now (λ p. p ≡ position) trail.old trail.new
        next.old.items next.new.items) }
{
    let mut rest = busy;
    while rest != 0 {
        let lane = first_lane(rest);
        expand_lane(object, table, busy, awaited, position, lane, next, trail)?;
        rest = without_lane(rest, lane);
    }
    Ok(())
}

/// Looks at a position: where the lane's call is in effect it returns, and else some call takes effect.
fn look(
    object: &Object,
    table: &[Option<OpenCall>],
    busy: u64,
    lane: u64,
    position: Position,
    done: &mut Vec<Position>,
    next: &mut Vec<Position>,
    trail: &mut Trail,
) -> Result<(), AllocError>
    requires state { IsState (judged object.now) position.state }
    requires lane { lane < 64 }
    requires busy { HasEachOpen table.now busy }
    ensures looks { OnOk result (LooksAt (judged object.now) table.now lane (position ∷ []) done.old.items
        done.new.items next.old.items next.new.items) }
    ensures noted { OnOk result (AreNoted (judged object.now) table.now (λ p. p ≡ position) trail.old trail.new
        next.old.items next.new.items) }
{
    if has_lane(position.in_effect, lane) {
        add(
            done,
            Position {
                state: position.state,
                in_effect: without_lane(position.in_effect, lane),
                free: position.free,
            },
        )
    } else {
        expand(object, table, busy, lane, position, next, trail)
    }
}

/// Looks at each position of a layer, as long as the next one has no more than `most`: whether at all.
fn look_through(
    object: &Object,
    table: &[Option<OpenCall>],
    busy: u64,
    lane: u64,
    layer: &[Position],
    most: u64,
    done: &mut Vec<Position>,
    next: &mut Vec<Position>,
    trail: &mut Trail,
) -> Result<bool, AllocError>
    requires states { All (λ (p : Position). IsState (judged object.now) p.state) layer.now }
    requires lane { lane < 64 }
    requires busy { HasEachOpen table.now busy }
    ensures looks { IfOk result (λ all. LooksThrough (judged object.now) table.now lane layer.now done.old.items
        done.new.items next.old.items next.new.items most all) }
    ensures noted { IfOk result (λ all. AreNoted (judged object.now) table.now (Contains layer.now) trail.old
        trail.new next.old.items next.new.items) }
{
    for position in layer {
        look(object, table, busy, lane, *position, done, next, trail)?;
        if next.len() as u64 > most {
            return Ok(false);
        }
    }
    Ok(true)
}

/// The positions after the return of this lane's call; nothing where a layer on the way has more than `most`.
fn returned(
    alloc: Global,
    object: &Object,
    table: &[Option<OpenCall>],
    busy: u64,
    lane: u64,
    start: &[Position],
    most: u64,
    trail: &mut Trail,
) -> Result<Option<Vec<Position>>, AllocError>
    requires states { All (λ (p : Position). IsState (judged object.now) p.state) start.now }
    requires lane { lane < 64 }
    requires busy { HasEachOpen table.now busy }
    ensures done { IfOk result (λ found. MatchOption found (TooManyFollow (judged object.now) table.now lane most
        start.now) (λ done. ReturnsThrough (judged object.now) table.now lane start.now done.items)) }
    ensures noted { IfOk result (λ found. MatchOption found (Unit {0}) (λ done. ReturnsTraced (judged object.now)
        table.now lane trail.old trail.new start.now done.items)) }
{
    let mut done = Vec::new(alloc);
    let mut layer = Vec::new(alloc);
    take_up_each(object, table, lane, start, &mut layer, trail)?;
    for depth in 0..65u64 {
        if layer.is_empty() {
            return Ok(Some(done));
        }
        let mut next = Vec::new(alloc);
        if !look_through(
            object,
            table,
            busy,
            lane,
            layer.as_slice(),
            most,
            &mut done,
            &mut next,
            trail,
        )? {
            return Ok(None);
        }
        layer = next;
    }
    Ok(Some(done))
}

/// Whether the lane's call is in effect in each of them.
fn is_in_each(positions: &[Position], lane: u64) -> bool
    requires { lane < 64 }
    ensures { IsTrue result → All (λ (p : Position). bit_at p.in_effect lane ≡ 1) positions.now }
{
    for position in positions {
        if !has_lane(position.in_effect, lane) {
            return false;
        }
    }
    true
}

/// The position once the lane's call, which is in effect there, has returned.
fn returned_from(position: Position, lane: u64) -> Position
    requires lane { lane < 64 }
    requires taken { bit_at position.in_effect lane ≡ 1 }
    ensures { IsReturnedFrom lane position result }
{
    Position {
        state: position.state,
        in_effect: without_lane(position.in_effect, lane),
        free: position.free,
    }
}

/// The lane's call returns in each of them.
fn return_in_each(positions: &mut Vec<Position>, lane: u64)
    requires lane { lane < 64 }
    requires taken { All (λ (p : Position). bit_at p.in_effect lane ≡ 1) positions.old.items }
    ensures { AreReturned lane positions.old.items positions.new.items }
{
    for position in positions.iter_mut() {
        *position = returned_from(*position, lane);
    }
}

/// The lane's call returns, unless a layer on the way has more than `most`: whether it does. If the trace is on, it goes
/// on by this event, which has this number. Without memory nothing changes, and none is taken where the call is in
/// effect in each position and the trace is off.
pub(crate) fn return_call(
    alloc: Global,
    object: &Object,
    table: &[Option<OpenCall>],
    busy: u64,
    lane: u64,
    positions: &mut Vec<Position>,
    most: u64,
    number: u64,
    trace: &mut Trace,
) -> Result<bool, AllocError>
    requires states { All (λ (p : Position). IsState (judged object.now) p.state) positions.old.items }
    requires lane { lane < 64 }
    requires busy { HasEachOpen table.now busy }
    ensures done { IfOk result (λ done. IsAfterReturn (judged object.now) table.now lane most positions.old.items
        positions.new.items done) }
    ensures not { IfOk result (λ done. done ≡ false → positions.new ≡ positions.old) }
    ensures untold { IfOk result (λ done. done ≡ false → trace.new ≡ trace.old) }
    ensures noted { IfOk result (λ done. done ≡ true → AreReturnedBy (judged object.now) table.now lane number
        trace.old trace.new positions.old.items positions.new.items) }
    ensures err { OnErr result (positions.new ≡ positions.old) }
    ensures err_trace { OnErr result (trace.new ≡ trace.old) }
{
    let mut trail = Trail::new(alloc, trace.is_on);
    if is_in_each(positions.as_slice(), lane) {
        trace.go_on(&[Entry::Returns(lane)], number)?;
        return_in_each(positions, lane);
        return Ok(true);
    }
    let start = positions.as_slice();
    let Some(done) = returned(alloc, object, table, busy, lane, start, most, &mut trail)? else {
        return Ok(false);
    };
    trail.note(Entry::Returns(lane))?;
    trace.go_on(trail.entries.as_slice(), number)?;
    *positions = done;
    Ok(true)
}
