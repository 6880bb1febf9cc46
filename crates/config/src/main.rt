// A configuration of three fields: two threads change it a thousand times each, and two read it.
#![tactic(auto)]

ghost use Rattle.std.specs.Prelude.{◌≤◌, ◌∷◌, []};
ghost use Rattle.stamped_lock.specs.InWords.{f64_word, IsF64};

use stamped_lock::{CellHandle, InWord, InWords, Spent, StampedCell};
use std::sync::Wait;
use std::thread::join;

/// Two bounds, of which the lower is never above the upper, and the step between them.
#[derive(Clone, Copy)]
struct Config {
    low: u64,
    high: u64,
    step: f64,
    ghost ordered: { low ≤ high },
}

/// How it is written in three words, and read back.
impl InWords<3> for Config {
    ghost words = { λ c. c.low ∷ c.high ∷ f64_word c.step ∷ [] };

    ghost is_value = { λ c. IsF64 c.step };

    fn to_words(&self) -> [u64; 3] {
        [self.low, self.high, self.step.to_word()]
    }

    fn from_words(row: &[u64]) -> Config {
        Config {
            low: row[0],
            high: row[1],
            step: f64::from_word(row[2]),
        }
    }
}

/// Raises the upper bound by one, a thousand times.
fn raise<R: Wait>(rt: &R, mut cell: CellHandle<'_, 3, Config>) -> Result<(), Spent> {
    for _ in 0..1000 {
        cell.update(rt, |c: &Config| -> Config {
            Config {
                low: c.low,
                high: c.high.saturating_add(1),
                step: c.step,
            }
        })?;
    }
    Ok(())
}

/// Lowers the lower bound by one, a thousand times.
fn lower<R: Wait>(rt: &R, mut cell: CellHandle<'_, 3, Config>) -> Result<(), Spent> {
    for _ in 0..1000 {
        cell.update(rt, |c: &Config| -> Config {
            Config {
                low: c.low.saturating_sub(1),
                high: c.high,
                step: c.step,
            }
        })?;
    }
    Ok(())
}

/// The least distance between the bounds in a thousand reads: the difference can't wrap.
fn least<R: Wait>(rt: &R, mut cell: CellHandle<'_, 3, Config>) -> u64 {
    let mut least = u64::MAX;
    for _ in 0..1000 {
        let config = cell.get(rt);
        least = least.min(config.high - config.low);
    }
    least
}

fn main(rt: HostRuntime) -> anyhow::Result<()> {
    let first = Config {
        low: 5000,
        high: 5010,
        step: 0.5,
    };
    let cell = StampedCell::new(rt.alloc(), first)?;
    let ((raised, lowered), (one, two)) = join(
        &rt,
        || {
            join(
                &rt,
                || raise(&rt, cell.enter()),
                || lower(&rt, cell.enter()),
            )
        },
        || {
            join(
                &rt,
                || least(&rt, cell.enter()),
                || least(&rt, cell.enter()),
            )
        },
    );
    raised.and(lowered)?;
    let last = cell.enter().get(&rt);
    let apart = one >= 10 && two >= 10;
    println!(rt; "{apart}: {} to {} by {}", last.low, last.high, last.step)?;
    Ok(())
}
