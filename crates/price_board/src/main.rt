//! One thread writes a bid and an ask into a record, and three read them meanwhile.
//!
//! The record keeps to a rule, so a reader may subtract the bid from the ask: it is proved that the
//! difference doesn't wrap, whatever the writer does.
#![tactic(auto)]

mod board;
mod threads;

use anyhow::Result;
use board::{Board, spread};
use std::thread::join;
use threads::{quote, watch_by_three};

fn main(rt: HostRuntime) -> Result<()> {
    let board = Board::new(rt.alloc(), [1, 2])?;
    let (quoted, watched) = join(
        &rt,
        || quote(&rt, board.enter()),
        || watch_by_three(&rt, &board),
    );
    quoted?;
    watched?;
    let mut board = board.enter();
    let [bid, ask] = board.get(&rt);
    println!(rt; "bid {bid}, ask {ask}, spread {}", spread(&rt, &mut board))?;
    Ok(())
}
