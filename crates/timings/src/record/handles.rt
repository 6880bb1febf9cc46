//! Gets by a handle of the function's own, as a thread has one. Each function gives how many gave words
//! that are alike, so that the words are used.
ghost use Rattle.std.specs.Prelude.{◌≤◌};

use crate::record::alike::{begins_alike, ends_alike};
use stamped_lock::{AnyContent, RecordHandle};

/// Gets whose first two words are used.
#[inline(never)]
pub fn gets<const N: usize>(mut handle: RecordHandle<'_, N, AnyContent>, calls: u64) -> u64
    requires { N ≤ 16 }
{
    let mut good = 0u64;
    for _ in 0..calls {
        if let Ok(row) = handle.get_once() {
            if begins_alike(&row) {
                good = good.wrapping_add(1);
            }
        }
    }
    good
}

/// Gets whose words are passed to a function.
#[inline(never)]
pub fn gets_handed<const N: usize>(mut handle: RecordHandle<'_, N, AnyContent>, calls: u64) -> u64
    requires { N ≤ 16 }
{
    let mut good = 0u64;
    for _ in 0..calls {
        if let Ok(row) = handle.get_once() {
            if ends_alike(&row) {
                good = good.wrapping_add(1);
            }
        }
    }
    good
}
