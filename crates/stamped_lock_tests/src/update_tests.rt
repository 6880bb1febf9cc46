//! Records that several threads change.
ghost use Rattle.std.specs.Prelude.{◌≡◌, ◌<◌, slice_index, IfSome};

use stamped_lock::{
    AnyContent, ContentRule, KnownLayout, Layout, LayoutTwo, Limits, PutFault, RecordHandle, Spent,
    StampedRecord, UpdateError,
};
use std::sync::Wait;
use std::sync::atomic::{AtomicU64, Ordering};
use std::test::Fail;
use std::thread::join;

/// Adds one to the first word and takes one from the second, ten thousand times.
fn move_one<R: Wait>(rt: &R, mut pair: RecordHandle<'_, 2, AnyContent>) -> Result<(), Spent> {
    for _ in 0..10_000u64 {
        pair.update(rt, |pair: &[u64; 2]| -> [u64; 2] {
            [pair[0].wrapping_add(1), pair[1].wrapping_sub(1)]
        })?;
    }
    Ok(())
}

#[test]
fn four_threads_update_and_none_is_lost(rt: HostRuntime) -> Result<(), Fail> {
    let Ok(pair) = StampedRecord::new(rt.alloc(), [5, 50_000]) else {
        return Err(Fail::from("no memory for the record"));
    };
    let ((one, two), (three, four)) = join(
        &rt,
        || {
            join(
                &rt,
                || move_one(&rt, pair.enter()),
                || move_one(&rt, pair.enter()),
            )
        },
        || {
            join(
                &rt,
                || move_one(&rt, pair.enter()),
                || move_one(&rt, pair.enter()),
            )
        },
    );
    assert!(rt; one.is_ok() && two.is_ok() && three.is_ok() && four.is_ok());
    assert!(rt; pair.enter().get(&rt) == [40_005, 10_000]);
    Ok(())
}

/// The first word, a bid, is below the second, an ask.
struct BidBelowAsk;

impl ContentRule for BidBelowAsk {
    ghost use Rattle.std.specs.Prelude.{◌<◌, slice_index};

    ghost holds = { λ row. slice_index row 0 < slice_index row 1 };
}

type Board = StampedRecord<2, BidBelowAsk>;

/// Moves the bid halfway to the ask.
fn to_the_middle<L: KnownLayout, R: Wait>(
    rt: &R,
    board: &mut RecordHandle<'_, 2, BidBelowAsk, L>,
) -> Result<[u64; 2], Spent> {
    board.update(
        rt,
        |row: &[u64; 2]| -> [u64; 2]
            requires { slice_index row.now 0 < slice_index row.now 1 }
            ensures { slice_index result 0 < slice_index result 1 }
        { [row[0] + (row[1] - row[0]) / 2, row[1]] },
    )
}

/// Takes one from the ask, where it stays above the bid.
fn lower<L: KnownLayout, R: Wait>(
    rt: &R,
    board: &mut RecordHandle<'_, 2, BidBelowAsk, L>,
) -> Result<[u64; 2], UpdateError<[u64; 2]>> {
    board.try_update(
        rt,
        |row: &[u64; 2]| -> Option<[u64; 2]>
            requires { slice_index row.now 0 < slice_index row.now 1 }
            ensures { IfSome result (λ new. slice_index new 0 < slice_index new 1) }
        {
            if row[1] - row[0] > 1 {
                Some([row[0], row[1] - 1])
            } else {
                None
            }
        },
    )
}

#[test]
fn an_update_gives_the_old_words(rt: HostRuntime) -> Result<(), Fail> {
    let limits = Limits::in_layout(Layout::Two, 1, 4)?;
    let Ok(board) = StampedRecord::<2, BidBelowAsk, LayoutTwo>::in_layout(
        rt.alloc(),
        limits,
        [3, 9],
    ) else {
        return Err(Fail::from("no memory for the record"));
    };
    let mut handle = board.enter();
    assert!(rt; to_the_middle(&rt, &mut handle) == Ok([3, 9]));
    assert!(rt; to_the_middle(&rt, &mut handle) == Ok([6, 9]));
    assert!(rt; lower(&rt, &mut handle) == Ok([7, 9]));
    assert!(rt; lower(&rt, &mut handle) == Err(UpdateError::Declined([7, 8])));
    assert!(rt; to_the_middle(&rt, &mut handle).is_err());
    assert!(rt; handle.get(&rt) == [7, 8]);
    Ok(())
}

#[test]
fn an_update_that_is_not_declined_is_spent_where_no_version_is_left(
    rt: HostRuntime,
) -> Result<(), Fail> {
    let limits = Limits::in_layout(Layout::One, 1, 2)?;
    let Ok(board) = Board::with_limits(rt.alloc(), limits, [3, 9]) else {
        return Err(Fail::from("no memory for the record"));
    };
    let mut handle = board.enter();
    assert!(rt; lower(&rt, &mut handle) == Ok([3, 9]));
    assert!(rt; lower(&rt, &mut handle) == Err(UpdateError::Spent));
    assert!(rt; handle.get(&rt) == [3, 8]);
    Ok(())
}

/// Counts a run of an update's closure, and in the first one puts 50, if it is to.
fn run_beside<R: Wait>(rt: &R, word: &StampedRecord<1, AnyContent>, runs: &AtomicU64, puts: bool) {
    if runs.fetch_add(1, Ordering::SeqCst) == 0 && puts {
        let _ = word.enter().put(rt, [50]);
    }
}

/// An update of a record by a closure that doubles a number, and may decline.
#[derive(Clone, Copy, Debug)]
enum Update {
    Once,
    Anew,
    Trying,
    Declining,
}

/// What an update answers on a record of the number 5: the old number, or whether it was lost, and else declined.
fn doubled<R: Wait>(
    rt: &R,
    word: &StampedRecord<1, AnyContent>,
    runs: &AtomicU64,
    (update, puts): (Update, bool),
) -> Result<u64, bool> {
    let mut handle = word.enter();
    let double = |old: &[u64; 1]| -> [u64; 1] {
        run_beside(rt, word, runs, puts);
        [old[0].wrapping_mul(2)]
    };
    let answer = match update {
        Update::Once => handle
            .update_once(double)
            .map_err(|fault| matches!(fault, PutFault::Lost { .. })),
        Update::Anew => handle.update(rt, double).map_err(|_| false),
        Update::Trying => handle
            .try_update(rt, |old: &[u64; 1]| -> Option<[u64; 1]> {
                Some(double(old))
            })
            .map_err(|_| false),
        Update::Declining => handle
            .try_update(rt, |old: &[u64; 1]| -> Option<[u64; 1]> {
                double(old);
                None
            })
            .map_err(|_| false),
    };
    answer.map(|old| old[0])
}

/// Each update, whether somebody puts in the closure's first run, what it answers, how often the closure runs, and
/// what the record holds then.
const UPDATES: [(Update, bool, Result<u64, bool>, u64, u64); 8] = [
    (Update::Once, false, Ok(5), 1, 10),
    (Update::Once, true, Err(true), 1, 50),
    (Update::Anew, false, Ok(5), 1, 10),
    (Update::Anew, true, Ok(50), 2, 100),
    (Update::Trying, false, Ok(5), 1, 10),
    (Update::Trying, true, Ok(50), 2, 100),
    (Update::Declining, false, Err(false), 1, 5),
    (Update::Declining, true, Err(false), 1, 50),
];

#[test]
fn the_closure_of_an_update_runs_once_and_again_after_each_loss(
    rt: HostRuntime,
) -> Result<(), Fail> {
    for (update, puts, want, ran, left) in UPDATES {
        let Ok(word) = StampedRecord::<1, AnyContent>::new(rt.alloc(), [5]) else {
            return Err(Fail::from("no memory for the record"));
        };
        let runs = AtomicU64::new(0);
        assert!(rt;
            doubled(&rt, &word, &runs, (update, puts)) == want,
            "{update:?}, {puts}"
        );
        assert!(rt; runs.load(Ordering::SeqCst) == ran, "{update:?}, {puts}");
        assert!(rt; word.enter().get(&rt) == [left], "{update:?}, {puts}");
    }
    Ok(())
}

#[test]
fn a_put_if_puts_over_the_expected_words_alone(rt: HostRuntime) -> Result<(), Fail> {
    let limits = Limits::in_layout(Layout::One, 1, 2)?;
    let Ok(board) = Board::with_limits(rt.alloc(), limits, [3, 9]) else {
        return Err(Fail::from("no memory for the record"));
    };
    let mut handle = board.enter();
    assert!(rt; handle.put_if(&rt, [3, 8], [4, 9]) == Ok(false));
    assert!(rt; handle.put_if(&rt, [3, 9], [4, 9]) == Ok(true));
    assert!(rt; handle.put_if_once([3, 9], [5, 9]) == Ok(false));
    assert!(rt; handle.put_if_once([4, 9], [5, 9]) == Err(PutFault::Spent(768)));
    assert!(rt; handle.put_if(&rt, [4, 9], [5, 9]).is_err());
    assert!(rt; handle.get(&rt) == [4, 9]);
    Ok(())
}
