//! That there are locks and records of all limits and widths.
ghost use Rattle.std.specs.Prelude.{◌≡◌, ◌≤◌, length};

use crate::record_tests::pair;
use stamp_core::{KnownLayout, Layout, LayoutOne, LayoutTwo, Limits};
use stamp_threads::{AnyContent, RuledRecord, RunningLock, RunningRecord, WideRecord};
use std::alloc::Global;
use std::test::Fail;

/// Whether a lock and a record of two words are made of these limits by each call that makes one.
fn are_made<L: KnownLayout>(alloc: Global, limits: Limits) -> bool
    requires layout { L.seen limits.layout ≡ limits.layout }
    requires version { 1 ≤ limits.versions }
{
    let locks = RunningLock::new(alloc, limits).is_ok()
        && RunningLock::new_enterable(alloc, limits).is_ok();
    let few_words = RunningRecord::new(alloc, limits, 2).is_ok()
        && RuledRecord::<AnyContent>::holding(alloc, limits, pair(5)).is_ok()
        && RuledRecord::<AnyContent>::holding_enterable(alloc, limits, pair(5)).is_ok()
        && RuledRecord::<AnyContent, L>::enterable_in(alloc, limits, pair(5)).is_ok();
    let any_words = WideRecord::<AnyContent>::holding(alloc, limits, &[5, 7]).is_ok()
        && WideRecord::<AnyContent>::holding_enterable(alloc, limits, &[5, 7]).is_ok()
        && WideRecord::<AnyContent, L>::enterable_in(alloc, limits, &[5, 7]).is_ok();
    locks && few_words && any_words
}

/// Whether they are made of so many readers and versions in this layout.
fn are_made_of(alloc: Global, layout: Layout, readers: u64, versions: u64) -> bool
    requires { 1 ≤ versions }
{
    match (layout, Limits::in_layout(layout, readers, versions)) {
        (Layout::One, Ok(limits)) => are_made::<LayoutOne>(alloc, limits),
        (Layout::Two, Ok(limits)) => are_made::<LayoutTwo>(alloc, limits),
        (_, Err(_)) => false,
    }
}

#[test]
fn locks_and_records_are_made_of_many_limits(rt: HostRuntime) {
    for layout in [Layout::One, Layout::Two] {
        let most = Limits::widest(layout);
        for readers in 1..=most.readers().min(1_024) {
            assert!(rt;
                are_made_of(rt.alloc(), layout, readers, 1000),
                "{readers} readers"
            );
        }
        for hundreds in 0..=655u64 {
            let readers = (hundreds * 100 + 35).min(most.readers());
            assert!(rt;
                are_made_of(rt.alloc(), layout, readers, 1000),
                "{readers} readers"
            );
        }
        for versions in 1..=1_024u64 {
            assert!(rt;
                are_made_of(rt.alloc(), layout, 1, versions),
                "{versions} versions"
            );
        }
        for shift in 0..40u32 {
            let versions = (most.versions() >> shift).max(1);
            assert!(rt;
                are_made_of(rt.alloc(), layout, 100, versions),
                "{versions} versions"
            );
        }
    }
}

/// Whether a record of these words is made by each call that makes one.
fn are_as_wide(alloc: Global, one: Limits, two: Limits, words: &[u64]) -> bool
    requires width { (1 ≤ length words.now) × (length words.now ≤ 4096) }
    requires layout { two.layout ≡ Layout.Two }
    requires version { (1 ≤ one.versions) × (1 ≤ two.versions) }
{
    WideRecord::<AnyContent>::holding(alloc, one, words).is_ok()
        && WideRecord::<AnyContent>::holding_enterable(alloc, one, words).is_ok()
        && WideRecord::<AnyContent, LayoutTwo>::enterable_in(alloc, two, words).is_ok()
}

#[test]
fn records_are_made_of_all_widths(rt: HostRuntime) -> Result<(), Fail> {
    let (one, two) = (Limits::new(1, 1)?, Limits::in_layout(Layout::Two, 1, 1)?);
    let words = [5; 4096];
    for width in 1..=4096usize {
        assert!(rt;
            are_as_wide(rt.alloc(), one, two, &words[..width]),
            "{width} words"
        );
    }
    Ok(())
}
