//! The same pairs on std's `RwLock` and on a `Counted`. Each function gives how many succeeded.
use crate::value::BETWEEN;
use counted_slot::{Counted, FREE, Fits, ONE_READER, PRESENT, TAKEN};
use std::sync::{RwLock, Wait};

/// The number in a `Counted`.
#[derive(Drop)]
pub struct Number(pub u64);

impl Fits for Number {
    type Tag = ();

    ghost fits = { λ _ _. Unit {0} };
}

/// Reads by guards of the lock.
#[inline(never)]
pub fn locked_reads<R: Wait>(rt: &R, lock: &RwLock<u64>, pairs: u64) -> u64 {
    let mut good = 0u64;
    for _ in 0..pairs {
        let guard = lock.read(rt);
        if *guard != 0 {
            good = good.wrapping_add(1);
        }
    }
    good
}

/// Writes by guards of the lock.
#[inline(never)]
pub fn locked_writes<R: Wait>(rt: &R, lock: &RwLock<u64>, pairs: u64) -> u64 {
    let mut good = 0u64;
    for _ in 0..pairs {
        let mut guard = lock.write(rt);
        *guard = guard.wrapping_add(1);
        good = good.wrapping_add(1);
    }
    good
}

/// Reads this many times, and writes once after each 1,024 reads.
pub fn mostly_locked_reads<R: Wait>(rt: &R, lock: &RwLock<u64>, pairs: u64) -> u64 {
    let mut good = 0u64;
    for _ in 0..pairs / BETWEEN {
        good = good.wrapping_add(locked_reads(rt, lock, BETWEEN));
        locked_writes(rt, lock, 1);
    }
    good
}

/// Reads of the slot, where a value is in it that nobody reads.
#[inline(never)]
pub fn counted_reads(slot: &Counted<Number>, pairs: u64) -> u64 {
    let mut good = 0u64;
    for _ in 0..pairs {
        if slot.load() == PRESENT {
            let (found, claim) = slot.turn(PRESENT, PRESENT + ONE_READER);
            if found == PRESENT {
                if claim.get().0 != 0 {
                    good = good.wrapping_add(1);
                }
                claim.leave();
            } else {
                claim.done();
            }
        }
    }
    good
}

/// Writes of the slot, where nobody reads it or writes it. The first write lets readers in.
#[inline(never)]
pub fn counted_writes(slot: &Counted<Number>, pairs: u64) -> u64 {
    let mut good = 0u64;
    for i in 0..pairs {
        let seen = slot.load();
        if seen == FREE || seen == PRESENT {
            let (found, claim) = slot.turn(seen, TAKEN);
            if found == seen {
                claim.put(Number(i | 1), PRESENT);
                good = good.wrapping_add(1);
            } else {
                claim.done();
            }
        }
    }
    good
}
