//! A record whose readers rely on its rule.
ghost use Rattle.std.specs.Prelude.{◌≡◌, ◌<◌, slice_index};

use stamped_lock::{
    ContentRule, EitherLayout, KnownLayout, Layout, LayoutTwo, Limits, PutFault, RecordHandle,
    Spent, StampedRecord,
};
use std::sync::Wait;
use std::test::Fail;
use std::thread::join;

/// The first word, a bid, is below the second, an ask.
struct BidBelowAsk;

impl ContentRule for BidBelowAsk {
    ghost use Rattle.std.specs.Prelude.{◌<◌, slice_index};

    ghost holds = { λ row. slice_index row 0 < slice_index row 1 };
}

type Board = StampedRecord<2, BidBelowAsk>;

/// How far the ask is above the bid, read this many times: the least and the most.
fn spreads<R: Wait>(rt: &R, mut board: RecordHandle<'_, 2, BidBelowAsk>) -> (u64, u64) {
    let mut least = u64::MAX;
    let mut most = 0;
    for _ in 0..1_000u64 {
        let row = board.get(rt);
        let spread = row[1] - row[0];
        least = least.min(spread);
        most = most.max(spread);
    }
    (least, most)
}

/// Puts bids from 1 to 1000, with asks from one to seven above them.
fn quote<R: Wait>(rt: &R, mut board: RecordHandle<'_, 2, BidBelowAsk>) -> Result<(), Spent> {
    for bid in 1..=1_000u64 {
        board.put(rt, [bid, bid + 1 + bid % 7])?;
    }
    Ok(())
}

#[test]
fn readers_rely_on_the_rule_beside_a_writer(rt: HostRuntime) -> Result<(), Fail> {
    let Ok(board) = Board::new(rt.alloc(), [10, 11]) else {
        return Err(Fail::from("no memory for the record"));
    };
    let (quoted, (least, most)) = join(
        &rt,
        || quote(&rt, board.enter()),
        || spreads(&rt, board.enter()),
    );
    assert!(rt; quoted.is_ok() && least >= 1 && most <= 7);
    assert!(rt; board.enter().get(&rt) == [1_000, 1_007]);
    Ok(())
}

/// Makes each call that may come across another's put, four thousand times.
fn come_across<R: Wait>(rt: &R, mut board: RecordHandle<'_, 2, BidBelowAsk>) -> Result<(), Spent> {
    for bid in 1..=4_000u64 {
        board.put(rt, [bid, bid + 1])?;
        let _ = board.put_once([bid, bid + 2]);
        board.put_if(rt, [bid, bid + 1], [bid, bid + 3])?;
        board.get(rt);
        board.update(
            rt,
            |row: &[u64; 2]| -> [u64; 2]
                requires { slice_index row.now 0 < slice_index row.now 1 }
                ensures { slice_index result 0 < slice_index result 1 }
            { [row[0], row[1].saturating_add(1)] },
        )?;
    }
    Ok(())
}

/// Where a call doesn't try again, the test doesn't end.
#[test]
fn two_who_put_at_once_come_back(rt: HostRuntime) -> Result<(), Fail> {
    let Ok(board) = Board::new(rt.alloc(), [10, 11]) else {
        return Err(Fail::from("no memory for the record"));
    };
    let (one, two) = join(
        &rt,
        || come_across(&rt, board.enter()),
        || come_across(&rt, board.enter()),
    );
    assert!(rt; one.is_ok() && two.is_ok());
    Ok(())
}

/// Two versions: the second put finds none left, and its word is told.
fn first_takes_a_version<L: KnownLayout, R: Wait>(
    rt: &R,
    mut board: RecordHandle<'_, 2, BidBelowAsk, L>,
    last: u64,
) -> bool {
    board.get_once() == Ok([3, 5])
        && board.put_once([4, 6]).is_ok()
        && board.put_once([5, 7]) == Err(PutFault::Spent(last))
        && board.put(rt, [5, 7]).is_err()
        && board.split().get(rt) == [4, 6]
}

#[test]
fn the_first_content_takes_a_version(rt: HostRuntime) -> Result<(), Fail> {
    let (one, two) = (Limits::new(1, 2)?, Limits::in_layout(Layout::Two, 1, 2)?);
    let alloc = rt.alloc();
    let (Ok(first), Ok(second), Ok(either)) = (
        Board::with_limits(alloc, one, [3, 5]),
        StampedRecord::<2, BidBelowAsk, LayoutTwo>::in_layout(alloc, two, [3, 5]),
        StampedRecord::<2, BidBelowAsk, EitherLayout>::in_layout(alloc, two, [3, 5]),
    ) else {
        return Err(Fail::from("no memory for the record"));
    };
    assert!(rt; first_takes_a_version(&rt, first.enter(), 768));
    assert!(rt; first_takes_a_version(&rt, second.enter(), 393_216));
    assert!(rt; first_takes_a_version(&rt, either.enter(), 393_216));
    Ok(())
}
