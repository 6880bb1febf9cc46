//! Threads beside one another.
ghost use Rattle.std.specs.Prelude.{ℕ, ◌<◌};

use std::thread::{Threads, map_indices};

/// The sum of what the part gives in each of these threads; 0 for want of memory.
pub fn sum_of<R: AllocGlobal + Threads + Sync, F: Fn(usize) -> u64 + Sync>(
    rt: &R,
    threads: usize,
    part: &F,
) -> u64
    requires { (i : ℕ) → i < threads → F.pre part.now i }
{
    let mut sum = 0u64;
    if let Ok(counts) = map_indices(rt, rt.alloc(), threads, part) {
        for &count in &counts {
            sum = sum.wrapping_add(count);
        }
    }
    sum
}
