//! What C calls. Nothing is required of a caller: each function tests what it is given.
ghost use Rattle.stamped_c.specs.Checks.{IsWordOf};
ghost use Rattle.stamped_c.specs.Answers.{IsKindOf, AnswersOpening, AnswersLimits, AnswersWord, AnswersDecision, AnswersKind};

use crate::checks::{checked_layout, checked_limits, checked_word};
use crate::decided::decided;
use crate::error::CError;
use crate::structs::{CDecision, CKind, CLimits};
use stamp_core::{StampKind, Word, stamp_kind_in};

/// The word of a new lock. It is 0, which is no word, exactly where the number names no layout.
#[unsafe(no_mangle)]
pub extern "C" fn stamped_opening(layout: u32) -> u64
    ensures { AnswersOpening layout result }
{
    match checked_layout(layout) {
        Ok(known) => Word::opening_in(known).bits(),
        Err(_) => 0,
    }
}

/// Whether the limits are in their layout's range: 0, or 1 `UnknownLayout`, 2 `LimitsOutOfRange`.
#[unsafe(no_mangle)]
pub extern "C" fn stamped_check_limits(limits: CLimits) -> u32
    ensures { AnswersLimits limits result }
{
    match checked_limits(limits) {
        Ok(_) => 0,
        Err(error) => error.code(),
    }
}

fn word_of(given: CLimits, number: u64) -> Result<Word, CError>
    ensures { IsWordOf given number result }
{
    let limits = checked_limits(given)?;
    checked_word(limits, number)
}

/// Whether the number is the word of a lock with these limits: 0, or as `stamped_check_limits`, or
/// 3 `NoWord`, 4 `BeyondLimits`.
#[unsafe(no_mangle)]
pub extern "C" fn stamped_check_word(limits: CLimits, word: u64) -> u32
    ensures { AnswersWord limits word result }
{
    match word_of(limits, word) {
        Ok(_) => 0,
        Err(error) => error.code(),
    }
}

/// What a call is to do with the word that it finds. Where a number that was given is wrong, `word`
/// is the first error, as in `stamped_check_word`, or 5 `UnknownCall`.
#[unsafe(no_mangle)]
pub extern "C" fn stamped_decide(limits: CLimits, word: u64, call: u32, stamp: u64) -> CDecision
    ensures { AnswersDecision limits word call stamp result }
{
    decided(limits, word, call, stamp)
}

fn kind_of(layout: u32, stamp: u64) -> Result<StampKind, CError>
    ensures { IsKindOf layout stamp result }
{
    let known = checked_layout(layout)?;
    Ok(stamp_kind_in(known, stamp))
}

/// What a number is as a stamp of the layout. `kind` is 1 `UnknownLayout` where there is no such
/// layout.
#[unsafe(no_mangle)]
pub extern "C" fn stamped_kind_of(layout: u32, stamp: u64) -> CKind
    ensures { AnswersKind layout stamp result }
{
    CKind::of(kind_of(layout, stamp))
}
