//! An order in which calls took effect, by the entries of an observed history.
ghost use Rattle.std.specs.Prelude.{◌++◌, IfOk, List, length};
ghost use Rattle.std.specs.List.{All};
ghost use Rattle.stamp_explain.specs.Observed.{IsObserved};
ghost use Rattle.stamp_watch.specs.AsEvents.{AreMomentsOf, IsMomentOf, cut_to};
ghost use Rattle.stamp_watch.specs.declared.moments.Moment.{Moment};
ghost use Rattle.stamp_watch.specs.inner.Ordering.{AreAlong, AreEntriesOf, AreLastBegun};

use crate::moments::Moment;
use stamp_explain::Observed;
use stamp_sets::EffectAt;
use std::alloc::{AllocError, Global};

/// The last entry of each lane that has begun, when these moments have passed, too.
fn pass(last: &mut [usize; 64], observed: &Observed, moments: &[Moment])
    requires told { IsObserved observed.now }
    requires of { All (IsMomentOf observed.now.entries) moments.now }
    ensures { (past : List Moment) → AreLastBegun observed.now.entries past last.old
        → AreLastBegun observed.now.entries (past ++ moments.now) last.new }
{
    let entries = observed.entries();
    for moment in moments {
        if !moment.is_return {
            let lane = entries[moment.entry].thread as usize;
            last[lane] = moment.entry;
        }
    }
}

/// The entries of the calls that took effect, in their order: each is of the call that was open in the lane of its
/// effect then. It goes through the moments once.
pub(crate) fn entries_in_order(
    alloc: Global,
    observed: &Observed,
    moments: &[Moment],
    effects: &[EffectAt],
) -> Result<Vec<usize>, AllocError>
    requires told { IsObserved observed.now }
    requires moments { AreMomentsOf observed.now.entries moments.now }
    requires along { AreAlong (length moments.now) effects.now }
    ensures whole { IfOk result (λ indices. AreEntriesOf observed.now moments.now effects.now indices.items) }
    ensures cut { IfOk result (λ indices. (m : Moment)
        → AreEntriesOf (cut_to m observed.now) moments.now effects.now indices.items) }
{
    let mut last = [0; 64];
    let mut seen = 0;
    let mut indices = Vec::new(alloc);
    for effect in effects {
        let point = effect.point as usize;
        pass(&mut last, observed, &moments[seen..point]);
        seen = point;
        indices.push(last[effect.lane as usize])?;
    }
    Ok(indices)
}
