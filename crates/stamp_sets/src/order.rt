//! The order in which calls took effect, read back from a trail.
ghost use Rattle.std.specs.Prelude.{ℕ, ◌≡◌, ◌<◌, ◌++◌, ◌∷◌, IfOk, OnOk, List, [], map, reverse, get_or, length};
ghost use Rattle.std.specs.Prelude.{MatchOption, None};
ghost use Rattle.stamp_runs.specs.declared.event.Event.{Event};
ghost use Rattle.stamp_sets.specs.Judged.{judged};
ghost use Rattle.stamp_runs.specs.Trace.{Move, order_of};
ghost use Rattle.stamp_sets.specs.declared.trail.Entry.{Entry};
ghost use Rattle.stamp_sets.specs.declared.trail.Entry.TheVariants.{Begins, Comes, Returns};
ghost use Rattle.stamp_sets.specs.declared.order.EffectAt.{EffectAt};
ghost use Rattle.stamp_sets.specs.Order.{effect_at};
ghost use Rattle.stamp_sets.specs.inner.Order.{HasFreed, IsOrderAmong, WalksTo, lanes_at, told_among, turns_of};
ghost use Rattle.stamp_sets.specs.Tracing.{KeepsTrace, Says, events_in, is_reader};

use crate::half::Half;
use crate::lanes::{has_lane, with_lane, without_lane};
use crate::position::Position;
use crate::trace::Trace;
use crate::trail::{Entry, Link, Way};
use std::alloc::{AllocError, Global};

/// A call takes effect: its lane, 0 to 63, and how many events came before it. The call is the one that is open in the
/// lane then.
#[derive(Clone, Copy, Debug, PartialEq, Eq)]
pub struct EffectAt {
    pub lane: u64,
    pub point: u64,
}

/// A way back: the position that it has come to, and how many events came before that; the calls that were hidden
/// since, the newest first; and the effects since, too.
#[derive(Drop)]
struct Walk {
    position: Position,
    point: u64,
    pending: Vec<EffectAt>,
    out: Vec<EffectAt>,
}

/// Whether another lane's call took effect with that of the link.
fn is_reader(link: &Link, lane: u64) -> bool
    requires { lane < 64 }
    ensures { result ≡ is_reader link.now lane }
{
    if lane == link.lane || !has_lane(link.to.in_effect, lane) {
        return false;
    }
    !has_lane(link.from.in_effect, lane)
}

/// Adds the calls that took effect by the link, the last one first.
fn push_turns(link: &Link, point: u64, list: &mut Vec<EffectAt>) -> Result<(), AllocError>
    ensures { OnOk result (list.new.items ≡ list.old.items ++ reverse (turns_of point link.now)) }
{
    for step in 0..64u64 {
        let lane = 63 - step;
        if is_reader(link, lane) {
            list.push(EffectAt { lane, point })?;
        }
    }
    list.push(EffectAt {
        lane: link.lane,
        point,
    })?;
    Ok(())
}

/// Adds these calls, at this point.
fn push_at(calls: &[EffectAt], point: u64, list: &mut Vec<EffectAt>) -> Result<(), AllocError>
    ensures { OnOk result (list.new.items ≡ list.old.items ++ lanes_at point calls.now) }
{
    for call in calls {
        list.push(EffectAt {
            lane: call.lane,
            point,
        })?;
    }
    Ok(())
}

impl Walk {
    /// Back over the beginning of the lane's call, which may have taken effect at once.
    fn begun(&mut self, lane: u64) -> Result<(), AllocError>
        ensures { OnOk result ((older : List Entry) (order : List EffectAt)
            → WalksTo (Begins lane ∷ older) order self.old → WalksTo older order self.new) }
    {
        if lane >= 64 || !has_lane(self.position.in_effect, lane) {
            self.point = self.point.saturating_sub(1);
            return Ok(());
        }
        self.out.push(EffectAt {
            lane,
            point: self.point,
        })?;
        self.position.in_effect = without_lane(self.position.in_effect, lane);
        self.point = self.point.saturating_sub(1);
        Ok(())
    }

    /// Back over the return of the lane's call, which was in effect.
    fn returned(&mut self, lane: u64)
        ensures { (older : List Entry) (order : List EffectAt) → WalksTo (Returns lane ∷ older) order self.old
            → WalksTo older order self.new }
    {
        self.point = self.point.saturating_sub(1);
        if lane >= 64 {
            return;
        }
        self.position.in_effect = with_lane(self.position.in_effect, lane);
    }

    /// Takes down a call that overwrites, and those that were hidden since.
    fn freed(&mut self, link: &Link) -> Result<(), AllocError>
        ensures { OnOk result (HasFreed link.now self.old self.new) }
    {
        push_turns(link, self.point, &mut self.out)?;
        push_at(self.pending.as_slice(), self.point, &mut self.out)?;
        self.pending.clear();
        Ok(())
    }

    /// Back over a link, if it leads to the position.
    fn came(&mut self, link: &Link) -> Result<(), AllocError>
        ensures { OnOk result ((older : List Entry) (order : List EffectAt)
            → WalksTo (Comes link.now ∷ older) order self.old → WalksTo older order self.new) }
    {
        if !link.to.is_same(&self.position) {
            return Ok(());
        }
        self.position = link.from;
        match link.way {
            Way::Fixes => Ok(()),
            Way::Takes => push_turns(link, self.point, &mut self.out),
            Way::Frees => self.freed(link),
            Way::Hides => push_turns(link, self.point, &mut self.pending),
        }
    }

    /// Back over one entry.
    fn step(&mut self, entry: &Entry) -> Result<(), AllocError>
        ensures { OnOk result ((older : List Entry) (order : List EffectAt)
            → WalksTo (entry.now ∷ older) order self.old → WalksTo older order self.new) }
    {
        match entry {
            Entry::Begins(lane) => self.begun(*lane),
            Entry::Withdraws => {
                self.point = self.point.saturating_sub(1);
                Ok(())
            }
            Entry::Returns(lane) => {
                self.returned(*lane);
                Ok(())
            }
            Entry::Comes(link) => self.came(link),
        }
    }
}

/// The order in which calls took effect on the way to the position, by its moves, which the entries say; the last one
/// first. So many events they have.
fn read_order(
    alloc: Global,
    entries: &[Entry],
    events: u64,
    position: Position,
) -> Result<Vec<EffectAt>, AllocError>
    ensures { IfOk result (λ order. (moves : List Move) → events_in (reverse entries.now) ≡ events
        → Says (reverse entries.now) position moves → map effect_at (order_of moves) ≡ reverse order.items) }
{
    let mut walk = Walk {
        position,
        point: events,
        pending: Vec::new(alloc),
        out: Vec::new(alloc),
    };
    let mut rest = entries.len();
    while rest > 0 {
        rest -= 1;
        walk.step(&entries[rest])?;
    }
    Ok(walk.out)
}

/// The number, among all events, of the own one with this number; behind the last own one, that of the next event.
fn number_at(numbers: &[u64], events: u64, point: u64) -> u64
    ensures { result ≡ get_or numbers.now point events }
{
    match numbers.get(point as usize) {
        Some(number) => *number,
        None => events,
    }
}

/// The same effects, by the numbers of all events, of which there are so many.
fn among_all(
    alloc: Global,
    effects: &[EffectAt],
    numbers: &[u64],
    events: u64,
) -> Result<Vec<EffectAt>, AllocError>
    ensures { IfOk result (λ all. all.items ≡ map (told_among numbers.now events) effects.now) }
{
    let mut all = Vec::with_capacity(alloc, effects.len())?;
    for effect in effects {
        all.push(EffectAt {
            lane: effect.lane,
            point: number_at(numbers, events, effect.point),
        })?;
    }
    Ok(all)
}

/// The order in which calls of a half took effect on a way to its first position, the last one first, by the numbers of
/// all events, of which there are so many; none where it has no position.
pub(crate) fn order_of(
    alloc: Global,
    half: &Half,
    trace: &Trace,
    events: u64,
) -> Result<Option<Vec<EffectAt>>, AllocError>
    ensures none { IfOk result (λ found. half.now.positions.items ≡ [] → found ≡ None) }
    ensures order { IfOk result (λ found. MatchOption found (half.now.positions.items ≡ []) (λ order. (past : List Event)
        → KeepsTrace past half.now trace.now → length trace.now.numbers ≡ length past
        → IsOrderAmong (judged half.now.object) past trace.now.numbers events order.items)) }
{
    let Some(position) = half.positions.as_slice().get(0) else {
        return Ok(None);
    };
    let own = read_order(alloc, trace.entries.as_slice(), trace.events(), *position)?;
    let order = among_all(alloc, own.as_slice(), trace.numbers.as_slice(), events)?;
    Ok(Some(order))
}
