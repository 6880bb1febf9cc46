//! Loads and stores of a cell of some words, one after the other.
ghost use Rattle.std.specs.Prelude.{◌≤◌};

use crossbeam_utils::atomic::SeqCell;
use std::sync::Wait;

/// Loads the words; how many of the loads gave words that are alike.
pub fn loads<const N: usize, R: Wait>(rt: &R, cell: &SeqCell<[u64; N], N>, calls: u64) -> u64
    requires { 1 ≤ N }
{
    let mut good = 0u64;
    for _ in 0..calls {
        let words = cell.load(rt);
        if words[0] == words[N - 1] {
            good = good.wrapping_add(1);
        }
    }
    good
}

/// Stores the same words again and again.
pub fn stores<const N: usize, R: Wait>(rt: &R, cell: &SeqCell<[u64; N], N>, calls: u64) -> u64 {
    let mut good = 0u64;
    for i in 0..calls {
        cell.store(rt, [i; N]);
        good = good.wrapping_add(1);
    }
    good
}
