//! Tests of the numbers that a C program gives, each of which names its error.
ghost use Rattle.std.specs.Prelude.{Err};
ghost use Rattle.stamp_core.specs.Word.{IsAdmitted, word_at};
ghost use Rattle.stamped_c.specs.Checks.{IsLayoutOf, AreLimitsIn, AreLimitsOf, IsWordUnder};

use crate::codes::layout_by_code;
use crate::error::CError;
use crate::structs::CLimits;
use stamp_core::{Layout, Limits, Word};

/// The layout that a number names.
pub(crate) fn checked_layout(number: u32) -> Result<Layout, CError>
    ensures { IsLayoutOf number result }
{
    match layout_by_code(number) {
        Some(layout) => Ok(layout),
        None => Err(CError::UnknownLayout),
    }
}

/// Limits of a layout.
#[inline(always)]
pub(crate) fn limits_in(layout: Layout, readers: u32, versions: u64) -> Result<Limits, CError>
    ensures { AreLimitsIn layout readers versions result }
{
    match Limits::in_layout(layout, u64::from(readers), versions) {
        Ok(limits) => Ok(limits),
        Err(_) => Err(CError::LimitsOutOfRange),
    }
}

/// The limits that were given.
#[inline(always)]
pub(crate) fn checked_limits(given: CLimits) -> Result<Limits, CError>
    ensures { AreLimitsOf given result }
{
    let layout = checked_layout(given.layout)?;
    limits_in(layout, given.readers, given.versions)
}

/// Why the limits admit no word of this number.
fn word_error(limits: Limits, number: u64) -> CError
    requires { ¬ IsAdmitted limits (word_at limits number) }
    ensures { IsWordUnder limits number (Err result) }
{
    match Word::from_bits_in(limits.layout(), number) {
        Some(_) => CError::BeyondLimits,
        None => CError::NoWord,
    }
}

/// The word of this number, of a lock with these limits.
#[inline(always)]
pub(crate) fn checked_word(limits: Limits, number: u64) -> Result<Word, CError>
    ensures { IsWordUnder limits number result }
{
    match limits.word_from_bits(number) {
        Some(word) => Ok(word),
        None => Err(word_error(limits, number)),
    }
}
