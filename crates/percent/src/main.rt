// A number from 0 to 100 in a cell of one word: two threads raise it, and two read how far it is from 100.
#![tactic(auto)]

ghost use Rattle.std.specs.Prelude.{◌≤◌, ◌∷◌, []};

use stamped_lock::{CellHandle, InWords, Spent, StampedCell};
use std::sync::Wait;
use std::thread::join;

/// So many of a hundred.
#[derive(Clone, Copy)]
struct Percent {
    part: u64,
    ghost fits: { part ≤ 100 },
}

/// How it is written in one word, and read back.
impl InWords<1> for Percent {
    ghost words = { λ p. p.part ∷ [] };

    fn to_words(&self) -> [u64; 1] {
        [self.part]
    }

    fn from_words(row: &[u64]) -> Percent {
        Percent { part: row[0] }
    }
}

/// Raises it by one, a thousand times. At 100 it stays.
fn raise<R: Wait>(rt: &R, mut cell: CellHandle<'_, 1, Percent>) -> Result<(), Spent> {
    for _ in 0..1000 {
        cell.update(rt, |p: &Percent| -> Percent {
            Percent {
                part: (p.part + 1).min(100),
            }
        })?;
    }
    Ok(())
}

/// The most that is left to 100 in a thousand reads: the difference can't wrap.
fn most_left<R: Wait>(rt: &R, mut cell: CellHandle<'_, 1, Percent>) -> u64 {
    let mut most = 0;
    for _ in 0..1000 {
        most = (100 - cell.get(rt).part).max(most);
    }
    most
}

fn main(rt: HostRuntime) -> anyhow::Result<()> {
    let cell = StampedCell::new(rt.alloc(), Percent { part: 40 })?;
    let ((first, second), (one, two)) = join(
        &rt,
        || {
            join(
                &rt,
                || raise(&rt, cell.enter()),
                || raise(&rt, cell.enter()),
            )
        },
        || {
            join(
                &rt,
                || most_left(&rt, cell.enter()),
                || most_left(&rt, cell.enter()),
            )
        },
    );
    first.and(second)?;
    let last = cell.enter().get(&rt);
    let within = one <= 60 && two <= 60;
    println!(rt; "{within}: {}%", last.part)?;
    Ok(())
}
