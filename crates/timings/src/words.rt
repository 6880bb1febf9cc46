//! The words that are put.
use stamp_core::Words;

/// This many words with this number in each; `None` for a width of 0, or over 16.
pub fn all_of(width: u64, number: u64) -> Option<Words> {
    if width > 16 {
        return None;
    }
    Words::new(&[number; 16][..width as usize])
}
