//! That there are locks, records and cells of all limits and widths.
ghost use Rattle.std.specs.Prelude.{◌≡◌, ◌≤◌};

use stamped_lock::{
    AnyContent, KnownLayout, Layout, LayoutOne, LayoutTwo, Limits, StampedCell, StampedLock,
    StampedRecord, StampedWideRecord,
};
use std::alloc::Global;
use std::process::Abort;
use std::test::Fail;

/// Whether a lock, both records and a cell of these limits are made.
fn are_made_in<L: KnownLayout>(alloc: Global, limits: Limits) -> bool
    requires layout { L.seen limits.layout ≡ limits.layout }
    requires version { 1 ≤ limits.versions }
{
    StampedLock::<L>::in_layout(alloc, limits).is_ok()
        && StampedRecord::<2, AnyContent, L>::in_layout(alloc, limits, [5, 7]).is_ok()
        && StampedWideRecord::<20, AnyContent, L>::in_layout(alloc, limits, &[5; 20]).is_ok()
        && StampedCell::<1, u64, L>::in_layout(alloc, limits, 5).is_ok()
}

/// Whether they are made of these limits of layout 1, by the calls that name no layout.
fn are_made(alloc: Global, limits: Limits) -> bool
    requires layout { limits.layout ≡ Layout.One }
    requires version { 1 ≤ limits.versions }
{
    StampedLock::with_limits(alloc, limits).is_ok()
        && StampedRecord::<2, AnyContent>::with_limits(alloc, limits, [5, 7]).is_ok()
        && StampedWideRecord::<20, AnyContent>::with_limits(alloc, limits, &[5; 20]).is_ok()
        && StampedCell::<1, u64>::with_limits(alloc, limits, 5).is_ok()
}

/// The most versions of each layout.
const MOST_IN_ONE: u64 = 36_028_797_018_963_966;

const MOST_IN_TWO: u64 = 70_368_744_177_662;

/// Whether they are made of so many readers and versions, one at least, in the layouts that have room for them.
fn of_both(alloc: Global, readers: u64, versions: u64) -> bool {
    let versions = versions.max(1);
    let one = match Limits::new(readers, versions) {
        Ok(limits) => are_made(alloc, limits) && are_made_in::<LayoutOne>(alloc, limits),
        Err(_) => readers > 127 || versions > MOST_IN_ONE,
    };
    let two = match Limits::in_layout(Layout::Two, readers, versions) {
        Ok(limits) => are_made_in::<LayoutTwo>(alloc, limits),
        Err(_) => readers > 65_535 || versions > MOST_IN_TWO,
    };
    one && two
}

#[test]
fn locks_and_records_are_made_of_all_limits(rt: HostRuntime) {
    for number in 1..=1_024u64 {
        assert!(rt; of_both(rt.alloc(), number, 1000), "{number} readers");
        assert!(rt; of_both(rt.alloc(), 1, number), "{number} versions");
    }
    for hundreds in 0..=655u64 {
        let readers = hundreds * 100 + 35;
        assert!(rt; of_both(rt.alloc(), readers, 1000), "{readers} readers");
    }
    for shift in 0..55u32 {
        let most = MOST_IN_ONE >> shift;
        for versions in [most, most - most / 3, most - most / 2 + most / 8] {
            assert!(rt; of_both(rt.alloc(), 100, versions), "{versions} versions");
        }
    }
}

/// Whether a record of `N` words, and a cell of a value of so many, are made.
fn are_as_wide<const N: usize>(alloc: Global) -> bool
    requires { (1 ≤ N) × (N ≤ 16) }
{
    StampedRecord::<N, AnyContent>::new(alloc, [5; N]).is_ok()
        && StampedCell::<N, [u64; N]>::new(alloc, [5; N]).is_ok()
        && is_so_wide::<N>(alloc)
}

/// Whether a record of many words is made of `N` words, and holds them.
fn is_so_wide<const N: usize>(alloc: Global) -> bool
    requires { (1 ≤ N) × (N ≤ 4096) }
{
    let words = [5; N];
    let mut got = [0; N];
    match StampedWideRecord::<N, AnyContent>::new(alloc, &words) {
        Ok(record) => record.enter().get_into_once(&mut got) == Ok(()) && got == words,
        Err(_) => false,
    }
}

#[test]
fn records_and_cells_are_made_of_all_widths(rt: HostRuntime) {
    let alloc = rt.alloc();
    assert!(rt; are_as_wide::<1>(alloc) && are_as_wide::<2>(alloc) && are_as_wide::<3>(alloc));
    assert!(rt; are_as_wide::<4>(alloc) && are_as_wide::<5>(alloc) && are_as_wide::<6>(alloc));
    assert!(rt; are_as_wide::<7>(alloc) && are_as_wide::<8>(alloc) && are_as_wide::<9>(alloc));
    assert!(rt; are_as_wide::<10>(alloc) && are_as_wide::<11>(alloc) && are_as_wide::<12>(alloc));
    assert!(rt; are_as_wide::<13>(alloc) && are_as_wide::<14>(alloc));
    assert!(rt; are_as_wide::<15>(alloc) && are_as_wide::<16>(alloc));
    assert!(rt; is_so_wide::<17>(alloc) && is_so_wide::<31>(alloc) && is_so_wide::<50>(alloc));
    assert!(rt; is_so_wide::<64>(alloc) && is_so_wide::<100>(alloc) && is_so_wide::<200>(alloc));
    assert!(rt; is_so_wide::<255>(alloc) && is_so_wide::<512>(alloc) && is_so_wide::<700>(alloc));
    assert!(rt;
        is_so_wide::<1000>(alloc) && is_so_wide::<1025>(alloc) && is_so_wide::<1500>(alloc)
    );
    assert!(rt;
        is_so_wide::<2048>(alloc) && is_so_wide::<3000>(alloc) && is_so_wide::<4096>(alloc)
    );
}
