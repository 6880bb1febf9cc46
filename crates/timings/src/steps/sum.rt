//! One number for all that a run has left.
use stamp_core::{Entry, Reply, Word};

fn number_of(reply: &Reply) -> u64 {
    match reply {
        Reply::Stamp(stamp) => *stamp,
        Reply::Yes => 1,
        Reply::No => 2,
        Reply::Done => 3,
        Reply::Mismatch => 4,
        Reply::Count(count) => count.wrapping_add(5),
        Reply::Content(words) => words.as_slice()[words.len() - 1].wrapping_add(6),
    }
}

fn digit(sum: u64, number: u64) -> u64 {
    sum.wrapping_mul(31).wrapping_add(number)
}

/// The word and the entries as the digits of a number in base 31, modulo 2^64.
pub fn sum_of(word: Word, entries: &[Entry]) -> u64 {
    let mut sum = word.bits();
    for entry in entries {
        sum = digit(sum, entry.thread);
        sum = digit(sum, entry.first);
        sum = digit(sum, entry.last);
        sum = digit(sum, number_of(&entry.reply));
    }
    sum
}
