// Eight counters in one record: four threads count, each two at a time, and one reads all eight at once.
#![tactic(auto)]

ghost use Rattle.std.specs.Prelude.{◌<◌};

use stamped_lock::{AnyContent, RecordHandle, Spent, StampedRecord};
use std::sync::Wait;
use std::thread::join;

/// Eight counters, which may hold any numbers.
type Registry = StampedRecord<8, AnyContent>;

/// One thread's handle of them.
type RegistryHandle<'a> = RecordHandle<'a, 8, AnyContent>;

/// Adds one to this counter and to the next, a thousand times.
fn count<R: Wait>(rt: &R, mut registry: RegistryHandle<'_>, first: usize) -> Result<(), Spent>
    requires { first < 7 }
{
    for _ in 0..1000 {
        registry.update(
            rt,
            |old: &[u64; 8]| -> [u64; 8]
                requires { first < 7 }
            {
                let mut new = *old;
                new[first] = new[first].wrapping_add(1);
                new[first + 1] = new[first + 1].wrapping_add(1);
                new
            },
        )?;
    }
    Ok(())
}

/// Whether the two counters of each thread are alike.
fn is_consistent(row: &[u64; 8]) -> bool {
    row[0] == row[1] && row[2] == row[3] && row[4] == row[5] && row[6] == row[7]
}

/// Whether each of a thousand snapshots is consistent.
fn watch<R: Wait>(rt: &R, mut registry: RegistryHandle<'_>) -> bool {
    for _ in 0..1000 {
        if !is_consistent(&registry.get(rt)) {
            return false;
        }
    }
    true
}

fn main(rt: HostRuntime) -> anyhow::Result<()> {
    let registry = Registry::new(rt.alloc(), [0; 8])?;
    let (is_consistent, ((one, two), (three, four))) = join(
        &rt,
        || watch(&rt, registry.enter()),
        || {
            join(
                &rt,
                || {
                    join(
                        &rt,
                        || count(&rt, registry.enter(), 0),
                        || count(&rt, registry.enter(), 2),
                    )
                },
                || {
                    join(
                        &rt,
                        || count(&rt, registry.enter(), 4),
                        || count(&rt, registry.enter(), 6),
                    )
                },
            )
        },
    );
    one.and(two).and(three).and(four)?;
    let row = registry.enter().get(&rt);
    let sum = row.iter().fold(0u64, |sum, n| sum.wrapping_add(*n));
    println!(rt; "consistent: {is_consistent}, sum: {sum}")?;
    Ok(())
}
