//! Calls of a record, one after the other, by a pass of the function's own. Each function gives how
//! many calls succeeded; of gets that are `get_once`, how many gave words that are alike, so that the
//! words are used.
ghost use Rattle.std.specs.Prelude.{◌≡◌, length, true};

use crate::record::alike::{begins_alike, ends_alike};
use stamp_core::Words;
use stamp_threads::RunningRecord;

/// Gets the words, and hands them to a function.
pub fn gets_handed(shared: &RunningRecord, calls: u64) -> u64
    requires { shared.now.enterable ≡ true }
{
    let mut pass = shared.enter();
    let mut good = 0u64;
    for _ in 0..calls {
        if let Ok(words) = shared.get_once(&mut pass) {
            if ends_alike(words.as_slice()) {
                good = good.wrapping_add(1);
            }
        }
    }
    good
}

/// Gets the words, and uses the first two.
pub fn gets(shared: &RunningRecord, calls: u64) -> u64
    requires { shared.now.enterable ≡ true }
{
    let mut pass = shared.enter();
    let mut good = 0u64;
    for _ in 0..calls {
        if let Ok(words) = shared.get_once(&mut pass) {
            if begins_alike(words.as_slice()) {
                good = good.wrapping_add(1);
            }
        }
    }
    good
}

/// Gets the words into the same room.
pub fn gets_into(shared: &RunningRecord, into: &mut [u64], calls: u64) -> u64
    requires enterable { shared.now.enterable ≡ true }
    requires width { length into.old ≡ shared.now.shape.width }
{
    let mut pass = shared.enter();
    let mut good = 0u64;
    for _ in 0..calls {
        if shared.get_into(&mut pass, into).is_ok() {
            good = good.wrapping_add(1);
        }
    }
    good
}

/// Puts the words.
pub fn puts(shared: &RunningRecord, words: &Words, calls: u64) -> u64
    requires enterable { shared.now.enterable ≡ true }
    requires width { length words.now ≡ shared.now.shape.width }
{
    let mut pass = shared.enter();
    let mut good = 0u64;
    for _ in 0..calls {
        if shared.put_once(&mut pass, *words).is_ok() {
            good = good.wrapping_add(1);
        }
    }
    good
}
