//! Two orders of effects as one, by their points.
ghost use Rattle.std.specs.Prelude.{◌≡◌, ◌<◌, ◌≤◌, ◌+◌, List, IfOk, map, reverse, length, true, false};
ghost use Rattle.stamp_runs.specs.Merged.{Ascends};
ghost use Rattle.stamp_runs.specs.Trace.{Taken};
ghost use Rattle.stamp_sets.specs.Order.{effect_at};
ghost use Rattle.stamp_sets.specs.inner.Order.{IsNext, MergesTo};

use crate::order::EffectAt;
use std::alloc::{AllocError, Global};

/// Whether the effect before this place of the first order comes before that of the second: it has one, with no higher
/// point.
fn is_next(first: &[EffectAt], ahead: usize, second: &[EffectAt], behind: usize) -> bool
    requires ahead { ahead ≤ length first.now }
    requires behind { behind ≤ length second.now }
    ensures first { result ≡ true → IsNext first.now ahead second.now behind }
    ensures second { result ≡ false → 0 < ahead + behind → IsNext second.now behind first.now ahead }
{
    if ahead == 0 {
        return false;
    }
    behind == 0 || first[ahead - 1].point <= second[behind - 1].point
}

/// Merges two orders, each with its last effect first, into one with its first effect first.
pub(crate) fn merged(
    alloc: Global,
    first: &[EffectAt],
    second: &[EffectAt],
) -> Result<Vec<EffectAt>, AllocError>
    ensures { IfOk result (λ order. (one other : List Taken) → map effect_at one ≡ reverse first.now
        → map effect_at other ≡ reverse second.now → Ascends 0 one → Ascends 0 other
        → MergesTo one other order.items) }
{
    let mut order = Vec::new(alloc);
    let mut ahead = first.len();
    let mut behind = second.len();
    while ahead > 0 || behind > 0 {
        if is_next(first, ahead, second, behind) {
            ahead -= 1;
            order.push(first[ahead])?;
        } else {
            behind -= 1;
            order.push(second[behind])?;
        }
    }
    Ok(order)
}
