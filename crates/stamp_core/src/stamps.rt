//! What a number is as a stamp. A number that no lock issued is decided by its spelling alone.
ghost use Rattle.std.specs.Prelude.{◌≡◌, ℕ, ◌↔◌, ◌⊎◌, IsTrue};
ghost use Rattle.stamp_core.specs.Layout.{units_of};
ghost use Rattle.stamp_core.specs.Stamp.{IsWriteStamp, IsReadStamp, IsOptimisticStamp};
ghost use Rattle.stamp_core.specs.StampKind.{HasKind, OfSomeVersion};

use crate::layout::Layout;
use crate::word::Word;

/// What a number is as a stamp, which its spelling alone decides, whoever issued it.
#[derive(Clone, Copy, Debug, PartialEq, Eq)]
pub enum StampKind {
    /// The stamp of this write acquisition, counted from 1.
    Write(u64),
    /// A read stamp after this many write acquisitions, and the number of readers, with the one who
    /// got it.
    Read(u64, u64),
    /// The stamp of an optimistic read after this many write acquisitions.
    Optimistic(u64),
    /// No stamp.
    Neither,
}

/// What a number is as a stamp of the layout.
pub fn stamp_kind_in(layout: Layout, stamp: u64) -> StampKind
    ensures { HasKind (units_of layout) stamp result }
{
    // A stamp is the number of the word that the call that issued it left or saw.
    let Some(word) = Word::decoded(layout, stamp) else {
        return StampKind::Neither;
    };
    if word.has_writer() {
        StampKind::Write(word.write_count())
    } else if word.reader_count() > 0 {
        StampKind::Read(word.write_count(), word.reader_count())
    } else {
        StampKind::Optimistic(word.write_count())
    }
}

/// Whether a number is, in the layout, the stamp of a write acquisition.
pub fn is_write_stamp_in(layout: Layout, stamp: u64) -> bool
    ensures { IsTrue result ↔ OfSomeVersion (λ k. IsWriteStamp (units_of layout) k stamp) }
{
    matches!(stamp_kind_in(layout, stamp), StampKind::Write(_))
}

/// Whether a number is a read stamp of the layout.
pub fn is_read_stamp_in(layout: Layout, stamp: u64) -> bool
    ensures { IsTrue result ↔ OfSomeVersion (λ k. IsReadStamp (units_of layout) k stamp) }
{
    matches!(stamp_kind_in(layout, stamp), StampKind::Read(_, _))
}

/// Whether a number is a write stamp or a read stamp of the layout.
pub fn is_lock_stamp_in(layout: Layout, stamp: u64) -> bool
    ensures { IsTrue result ↔ (OfSomeVersion (λ k. IsWriteStamp (units_of layout) k stamp)
        ⊎ OfSomeVersion (λ k. IsReadStamp (units_of layout) k stamp)) }
{
    is_write_stamp_in(layout, stamp) || is_read_stamp_in(layout, stamp)
}

/// Whether a number is, in the layout, the stamp of an optimistic read.
pub fn is_optimistic_stamp_in(layout: Layout, stamp: u64) -> bool
    ensures { IsTrue result ↔ OfSomeVersion (λ k. IsOptimisticStamp (units_of layout) k stamp) }
{
    matches!(stamp_kind_in(layout, stamp), StampKind::Optimistic(_))
}

/// What a number is as a stamp of layout 1.
pub fn stamp_kind(stamp: u64) -> StampKind
    ensures { HasKind (units_of Layout.One) stamp result }
{
    stamp_kind_in(Layout::One, stamp)
}

/// Whether a number is the stamp of a write acquisition in layout 1.
pub fn is_write_stamp(stamp: u64) -> bool
    ensures { IsTrue result ↔ OfSomeVersion (λ k. IsWriteStamp (units_of Layout.One) k stamp) }
{
    is_write_stamp_in(Layout::One, stamp)
}

/// Whether a number is a read stamp in layout 1.
pub fn is_read_stamp(stamp: u64) -> bool
    ensures { IsTrue result ↔ OfSomeVersion (λ k. IsReadStamp (units_of Layout.One) k stamp) }
{
    is_read_stamp_in(Layout::One, stamp)
}

/// Whether a number is a write stamp or a read stamp in layout 1.
pub fn is_lock_stamp(stamp: u64) -> bool
    ensures { IsTrue result ↔ (OfSomeVersion (λ k. IsWriteStamp (units_of Layout.One) k stamp)
        ⊎ OfSomeVersion (λ k. IsReadStamp (units_of Layout.One) k stamp)) }
{
    is_lock_stamp_in(Layout::One, stamp)
}

/// Whether a number is the stamp of an optimistic read in layout 1.
pub fn is_optimistic_stamp(stamp: u64) -> bool
    ensures { IsTrue result ↔ OfSomeVersion (λ k. IsOptimisticStamp (units_of Layout.One) k stamp) }
{
    is_optimistic_stamp_in(Layout::One, stamp)
}
