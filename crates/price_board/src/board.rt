//! A bid and an ask that threads share.
ghost use Rattle.std.specs.Prelude.{◌<◌};

use stamped_lock::{ContentRule, RecordHandle, StampedRecord};
use std::sync::Wait;

/// The first word, a bid, is below the second, an ask.
pub struct BidBelowAsk;

impl ContentRule for BidBelowAsk {
    ghost use Rattle.std.specs.Prelude.{◌<◌, slice_index};

    ghost holds = { λ row. slice_index row 0 < slice_index row 1 };
}

pub type Board = StampedRecord<2, BidBelowAsk>;

pub type BoardHandle<'a> = RecordHandle<'a, 2, BidBelowAsk>;

/// How far the ask is above the bid.
pub fn spread<R: Wait>(rt: &R, board: &mut BoardHandle<'_>) -> u64
    ensures { 0 < result }
{
    let [bid, ask] = board.get(rt);
    ask - bid
}
