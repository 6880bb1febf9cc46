//! What a call does before it tries again.
ghost use Rattle.std.specs.Prelude.{◌≡◌, ◌+◌, ◌≤◌, ◌<◌, IsSome, IsNone};
ghost use Rattle.stamp_threads.specs.Patience.{one_more};

use std::marker::Model;
use std::time::Duration;
use std::{hint, thread};

/// The rounds in which it spins. In later ones it lets other threads run.
const SPINNING: u32 = 8;

/// The rounds in which it never sleeps. In later ones a call that waits does.
const AWAKE: u32 = 16;

/// How many microseconds it sleeps at most.
const NAP: u64 = 100;

/// What a call does that has to try again: it spins, lets other threads run, or sleeps. It is seen as the
/// number of rounds in which the call has tried in vain, counted up to 16.
#[derive(Drop)]
pub struct Patience {
    rounds: u32,
}

impl Model for Patience {
    ghost use Rattle.std.specs.Prelude.{ℕ, ◌≤◌};

    ghost Value = { ℕ };

    ghost view = { λ p. p.rounds };

    ghost invariant = { λ p. p.rounds ≤ 16 };
}

impl Patience {
    /// A patience that has not tried yet.
    pub fn new() -> Patience
        ensures { result ≡ 0 }
    {
        Patience { rounds: 0 }
    }

    /// A patience that has tried once, and paused.
    pub fn paused() -> Patience
        ensures { result ≡ 1 }
    {
        let mut patience = Patience::new();
        patience.pause();
        patience
    }

    /// Spins, each time twice as long as before, and after eight rounds lets other threads run. After a
    /// lost exchange that is all: others come on, so the call can be tried again soon.
    pub fn pause(&mut self)
        ensures { self.new ≡ one_more self.old }
    {
        if self.rounds < SPINNING {
            for _ in 0..1u32 << self.rounds {
                hint::spin_loop();
            }
        } else {
            thread::yield_now();
        }
        if self.rounds < AWAKE {
            self.rounds += 1;
        }
    }

    /// Pauses before a call that waits for others looks again. After sixteen rounds it doesn't: it answers
    /// for how long the call is to sleep instead, 100 microseconds.
    pub fn nap(&mut self) -> Option<Duration>
        ensures rounds { self.new ≡ one_more self.old }
        ensures awake { IsNone result → self.old < 16 }
        ensures asleep { IsSome result → self.old ≡ 16 }
    {
        if self.rounds < AWAKE {
            self.pause();
            return None;
        }
        Some(Duration::from_micros(NAP))
    }
}
