//! Values of types of one's own that threads share.
ghost use Rattle.std.specs.Prelude.{◌≡◌, ◌≤◌, ◌≤ℤ◌, ◌∷◌, []};
ghost use Rattle.stamped_lock.specs.InWords.{i64_word, f64_word, bool_word, IsI64, IsF64};

use stamped_lock::{
    CellHandle, InWord, InWords, KnownLayout, Layout, LayoutTwo, Limits, Spent, StampedCell,
    UpdateError,
};
use std::sync::Wait;
use std::sync::atomic::{AtomicU64, Ordering};
use std::test::Fail;
use std::thread::join;

/// A range of numbers, how far it may go, and whether it may still grow.
#[derive(Clone, Copy, PartialEq, Debug)]
struct Range {
    low: i64,
    high: i64,
    step: f64,
    grows: bool,
    ghost ordered: { low ≤ℤ high },
}

impl InWords<4> for Range {
    ghost words = { λ r. i64_word r.low ∷ i64_word r.high ∷ f64_word r.step ∷ bool_word r.grows ∷ [] };

    ghost is_value = { λ r. IsI64 r.low × IsI64 r.high × IsF64 r.step };

    fn to_words(&self) -> [u64; 4] {
        [
            self.low.to_word(),
            self.high.to_word(),
            self.step.to_word(),
            self.grows.to_word(),
        ]
    }

    fn from_words(row: &[u64]) -> Range {
        Range {
            low: i64::from_word(row[0]),
            high: i64::from_word(row[1]),
            step: f64::from_word(row[2]),
            grows: bool::from_word(row[3]),
        }
    }
}

type RangeCell = StampedCell<4, Range>;

type RangeHandle<'a> = CellHandle<'a, 4, Range>;

fn of_bounds(low: i64, high: i64, step: f64, grows: bool) -> Range
    requires { low ≤ℤ high }
    ensures { (result.low ≡ low) × (result.high ≡ high) × (result.step ≡ step) × (result.grows ≡ grows) }
{
    Range {
        low,
        high,
        step,
        grows,
    }
}

/// Grows by one at both ends, a thousand times.
fn grow<R: Wait>(rt: &R, mut cell: RangeHandle<'_>) -> Result<(), Spent> {
    for _ in 0..1_000u64 {
        cell.update(rt, |r: &Range| -> Range {
            of_bounds(
                r.low.saturating_sub(1),
                r.high.saturating_add(1),
                r.step,
                r.grows,
            )
        })?;
    }
    Ok(())
}

/// Whether each of a thousand values is as far below zero as above.
fn is_even<R: Wait>(rt: &R, mut cell: RangeHandle<'_>) -> bool {
    for _ in 0..1_000u64 {
        let value = cell.get(rt);
        if value.low.saturating_add(value.high) != 0 {
            return false;
        }
    }
    true
}

#[test]
fn two_threads_grow_a_range_that_a_third_reads(rt: HostRuntime) -> Result<(), Fail> {
    let Ok(cell) = RangeCell::new(rt.alloc(), of_bounds(-1, 1, 0.5, true)) else {
        return Err(Fail::from("no memory for the cell"));
    };
    let (even, (one, two)) = join(
        &rt,
        || is_even(&rt, cell.enter()),
        || join(&rt, || grow(&rt, cell.enter()), || grow(&rt, cell.enter())),
    );
    assert!(rt; even && one.is_ok() && two.is_ok());
    assert!(rt; cell.enter().get(&rt) == of_bounds(-2_001, 2_001, 0.5, true));
    Ok(())
}

/// Stops growing, where it still grows.
fn stop<L: KnownLayout, R: Wait>(
    rt: &R,
    cell: &mut CellHandle<'_, 4, Range, L>,
) -> Result<Range, UpdateError<Range>> {
    cell.try_update(rt, |r: &Range| -> Option<Range> {
        if r.grows {
            Some(of_bounds(r.low, r.high, r.step, false))
        } else {
            None
        }
    })
}

/// What a cell of four versions that begins as -7 to 9 gives and refuses.
fn gives_what_was_put<L: KnownLayout, R: Wait>(
    rt: &R,
    mut cell: CellHandle<'_, 4, Range, L>,
) -> bool {
    let (first, second) = (
        of_bounds(-7, 9, -0.25, true),
        of_bounds(i64::MIN, i64::MAX, 1e300, true),
    );
    let stopped = of_bounds(-7, 9, -0.25, false);
    let put = cell.get(rt) == first
        && cell.put(rt, second).is_ok()
        && cell.put_if(rt, first, first) == Ok(false)
        && cell.put_if(rt, second, first) == Ok(true);
    let updated = stop(rt, &mut cell) == Ok(first)
        && stop(rt, &mut cell) == Err(UpdateError::Declined(stopped));
    put && updated && cell.put(rt, first).is_err() && cell.split().get(rt) == stopped
}

#[test]
fn a_cell_gives_what_was_put(rt: HostRuntime) -> Result<(), Fail> {
    let (one, two) = (Limits::new(1, 4)?, Limits::in_layout(Layout::Two, 1, 4)?);
    let first = of_bounds(-7, 9, -0.25, true);
    let (Ok(cell), Ok(in_two)) = (
        RangeCell::with_limits(rt.alloc(), one, first),
        StampedCell::<4, Range, LayoutTwo>::in_layout(rt.alloc(), two, first),
    ) else {
        return Err(Fail::from("no memory for the cell"));
    };
    assert!(rt; gives_what_was_put(&rt, cell.enter()));
    assert!(rt; gives_what_was_put(&rt, in_two.enter()));
    Ok(())
}

/// Counts a run of an update's closure, and in the first one puts 50, if it is to.
fn run_beside<R: Wait>(rt: &R, cell: &StampedCell<1, u64>, runs: &AtomicU64, puts: bool) {
    if runs.fetch_add(1, Ordering::SeqCst) == 0 && puts {
        let _ = cell.enter().put(rt, 50);
    }
}

/// An update of a cell that holds 5, by a closure that doubles, and may decline. In its first run somebody puts 50,
/// if it is to. What the update answers, if it isn't declined, and how often the closure ran.
fn doubled<R: Wait>(
    rt: &R,
    cell: &StampedCell<1, u64>,
    (tries, declines, puts): (bool, bool, bool),
) -> (Option<u64>, u64) {
    let runs = AtomicU64::new(0);
    let mut handle = cell.enter();
    let answer = if tries {
        handle
            .try_update(rt, |old: &u64| -> Option<u64> {
                run_beside(rt, cell, &runs, puts);
                if declines {
                    None
                } else {
                    Some(old.wrapping_mul(2))
                }
            })
            .ok()
    } else {
        handle
            .update(rt, |old: &u64| -> u64 {
                run_beside(rt, cell, &runs, puts);
                old.wrapping_mul(2)
            })
            .ok()
    };
    (answer, runs.load(Ordering::SeqCst))
}

#[test]
fn the_closure_of_an_update_runs_once_and_again_after_each_loss(
    rt: HostRuntime,
) -> Result<(), Fail> {
    for (case, want, left) in [
        ((false, false, false), (Some(5), 1), 10),
        ((false, false, true), (Some(50), 2), 100),
        ((true, false, false), (Some(5), 1), 10),
        ((true, false, true), (Some(50), 2), 100),
        ((true, true, false), (None, 1), 5),
        ((true, true, true), (None, 1), 50),
    ] {
        let Ok(cell) = StampedCell::new(rt.alloc(), 5) else {
            return Err(Fail::from("no memory for the cell"));
        };
        assert!(rt; doubled(&rt, &cell, case) == want);
        assert!(rt; cell.enter().get(&rt) == left);
    }
    Ok(())
}

/// Whether a cell of this value gives it back.
fn comes_back<const N: usize, T: InWords<N> + PartialEq, R: Wait + AllocGlobal>(
    rt: &R,
    value: T,
) -> Option<bool>
    requires { (1 ≤ N) × (N ≤ 16) }
{
    let cell = StampedCell::new(rt.alloc(), value).ok()?;
    Some(cell.enter().get(rt) == value)
}

#[test]
fn numbers_pairs_and_arrays_come_back(rt: HostRuntime) -> Result<(), Fail> {
    let rt = &rt;
    assert!(rt; comes_back::<1, u64, _>(rt, u64::MAX) == Some(true));
    assert!(rt; comes_back::<1, i64, _>(rt, i64::MIN) == Some(true));
    assert!(rt; comes_back::<1, bool, _>(rt, true) == Some(true));
    assert!(rt; comes_back::<1, bool, _>(rt, false) == Some(true));
    assert!(rt; comes_back::<1, f64, _>(rt, -0.5) == Some(true));
    assert!(rt; comes_back::<2, (i64, f64), _>(rt, (-3, 2.5)) == Some(true));
    assert!(rt; comes_back::<2, (u64, bool), _>(rt, (7, true)) == Some(true));
    assert!(rt; comes_back::<3, [u64; 3], _>(rt, [1, 2, 3]) == Some(true));
    assert!(rt; comes_back::<3, [i64; 3], _>(rt, [i64::MIN, -1, 7]) == Some(true));
    assert!(rt; comes_back::<2, [f64; 2], _>(rt, [-0.5, 1e300]) == Some(true));
    assert!(rt; comes_back::<4, [bool; 4], _>(rt, [true, false, false, true]) == Some(true));
    Ok(())
}
