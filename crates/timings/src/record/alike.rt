//! Whether words that were got are alike, so that they are used.

/// Whether the first two words are alike, or there is one.
#[inline(always)]
pub fn begins_alike(row: &[u64]) -> bool {
    row.len() < 2 || row[0] == row[1]
}

/// Whether the first word is the last one; a function that is called, so the words have to stand
/// in memory.
#[inline(never)]
pub fn ends_alike(row: &[u64]) -> bool {
    row.is_empty() || row[0] == row[row.len() - 1]
}
