//! Stamps of layout 1, spelled anew in layout 2.
ghost use Rattle.std.specs.Prelude.{◌≡◌};
ghost use Rattle.stamp_core.specs.StampKind.{HasKind};
ghost use Rattle.stamp_core.specs.Layout.{narrow};
ghost use Rattle.stamp_core.specs.Respelling.{respelled, IsRespelled};

use crate::layout::Layout;
use crate::stamps::{StampKind, stamp_kind};

#[tactic(auto, unfolding(crate::specs::Layout::units_of))]
fn spelled(kind: StampKind, stamp: u64) -> u64
    requires { HasKind narrow stamp kind }
    ensures { result ≡ respelled kind }
{
    let most = Layout::Two.most_versions();
    let unit = Layout::Two.version_unit();
    match kind {
        StampKind::Write(k) if k <= most => unit * k + Layout::Two.writer_unit(),
        StampKind::Read(k, c) if k <= most => unit * (k + 1) + c,
        StampKind::Optimistic(k) if k <= most => unit * (k + 1),
        _ => 0,
    }
}

/// Spells a stamp of layout 1 as that of the same kind, version and count in layout 2. It is 0 for
/// a number that is no stamp of layout 1, and for a version above 2^46-2, which layout 2 has not.
#[tactic(auto, unfolding(crate::specs::Layout::units_of))]
pub fn respell(stamp: u64) -> u64
    ensures { IsRespelled stamp result }
{
    spelled(stamp_kind(stamp), stamp)
}
