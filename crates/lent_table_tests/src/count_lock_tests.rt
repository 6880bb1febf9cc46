//! Threads and one of them alone, on a number that a word counts the readers of.
ghost use Rattle.std.specs.Prelude.{◌≡◌, IfOk, IsTrue, Some};
ghost use Rattle.lent_table.specs.Table.{none, writes};
ghost use Rattle.lent_table_tests.specs.Count.{Writes};

use crate::count_lock::{
    Looking, Number, Seated, Shown, give_back, leave, try_leave, try_read, try_write,
};
use lent_table::Table;
use std::alloc::Global;
use std::process::Abort;
use std::test::Fail;
use std::thread::join;
use std::time::Duration;

/// A number, and its first seat.
fn made(alloc: Global, value: u64) -> Result<(Number, Seated), Fail>
    ensures { IfOk result (λ r. (r.1.table_id ≡ r.0.shared.table_id) × (r.1.me.1 ≡ none)) }
{
    match Table::new(alloc, 1, value, &()) {
        Ok((number, seat)) => Ok((number, seat)),
        Err(_) => Err(Fail::from("no memory for the number")),
    }
}

/// The word and the number, at last.
fn ends(number: Number) -> (u64, u64) {
    let (word, value, _) = number.close();
    (word, value)
}

/// The number as this seat reads it, if it may read. The test ends where it can't leave then.
fn read_once(rt: &impl Abort, number: &Shown, seat: &mut Seated) -> Option<u64>
    requires { (seat.old.table_id ≡ number.now.table_id) × (seat.old.me.1 ≡ none) }
    ensures { (seat.new.table_id ≡ number.now.table_id) × (seat.new.me.1 ≡ none) }
{
    if !try_read(number, seat) {
        return None;
    }
    let value = *seat.value_ref(number);
    assert!(rt; try_leave(number, seat));
    Some(value)
}

/// Whether this seat wrote the number anew, and gave it back.
fn add_one(number: &Shown, seat: &mut Seated) -> bool
    requires { (seat.old.table_id ≡ number.now.table_id) × (seat.old.me.1 ≡ none) }
    ensures { (seat.new.table_id ≡ number.now.table_id) × (seat.new.me.1 ≡ none) }
{
    if !try_write(number, seat) {
        return false;
    }
    let value = seat.value_mut(number);
    *value = value.wrapping_add(1);
    give_back(number, seat);
    true
}

/// The number as its writer sees it by a `&`, once it is written.
fn write_and_see(number: &Shown, seat: &mut Seated, value: u64) -> u64
    requires { (seat.old.table_id ≡ number.now.table_id) × Writes seat.old.me.1 }
    ensures seat { (seat.new.table_id ≡ number.now.table_id) × (seat.new.me.1 ≡ writes value) }
    ensures value { result ≡ value }
{
    *seat.value_mut(number) = value;
    let seat: &Seated = seat;
    *seat.value_ref(number)
}

#[test]
fn what_is_written_is_read_and_comes_back(rt: HostRuntime) -> Result<(), Fail> {
    let (number, mut seat) = made(rt.alloc(), 7)?;
    assert!(rt; try_write(&number.shared, &mut seat));
    *seat.value_mut(&number.shared) = 8;
    give_back(&number.shared, &mut seat);
    assert!(rt; add_one(&number.shared, &mut seat));
    assert!(rt; read_once(&rt, &number.shared, &mut seat) == Some(9));
    seat.leave();
    assert!(rt; ends(number) == (1, 9));
    Ok(())
}

#[test]
fn a_writer_sees_what_it_wrote(rt: HostRuntime) -> Result<(), Fail> {
    let (number, mut seat) = made(rt.alloc(), 7)?;
    assert!(rt; try_write(&number.shared, &mut seat));
    assert!(rt; *seat.value_ref(&number.shared) == 7);
    assert!(rt; write_and_see(&number.shared, &mut seat, 8) == 8);
    let (first, second) = (
        seat.value_ref(&number.shared),
        seat.value_ref(&number.shared),
    );
    assert!(rt; *first == 8 && *second == 8);
    *seat.value_mut(&number.shared) = 9;
    assert!(rt; *seat.value_ref(&number.shared) == 9);
    give_back(&number.shared, &mut seat);
    seat.leave();
    assert!(rt; ends(number) == (1, 9));
    Ok(())
}

#[test]
fn readers_read_beside_each_other_and_keep_writers_out(rt: HostRuntime) -> Result<(), Fail> {
    let (number, mut first) = made(rt.alloc(), 7)?;
    assert!(rt; try_write(&number.shared, &mut first));
    let (word, mut second) = number.shared.enter::<Looking>();
    assert!(rt; word == 0);
    assert!(rt; !try_read(&number.shared, &mut second));
    give_back(&number.shared, &mut first);
    assert!(rt; try_read(&number.shared, &mut first));
    let (word, mut third) = number.shared.enter::<Looking>();
    assert!(rt; word == 2);
    assert!(rt; read_once(&rt, &number.shared, &mut third) == Some(7));
    assert!(rt; *first.value_ref(&number.shared) == 7);
    assert!(rt; number.shared.load_beside::<Looking>(&mut third, &mut first) == 2);
    let (_, mut fourth) = number.shared.enter::<Looking>();
    assert!(rt; !add_one(&number.shared, &mut fourth));
    assert!(rt; try_read(&number.shared, &mut second));
    leave(&number.shared, &mut second);
    assert!(rt; number.shared.load_beside::<Looking>(&mut third, &mut first) == 2);
    assert!(rt; try_leave(&number.shared, &mut first));
    assert!(rt; add_one(&number.shared, &mut fourth));
    first.leave();
    second.leave();
    third.leave();
    fourth.leave();
    assert!(rt; ends(number) == (1, 8));
    Ok(())
}

/// How often a seat of this thread's wrote the number anew, of so many times that it tried.
fn add_some(number: &Shown, times: u64) -> u64 {
    let (_, mut seat) = number.enter::<Looking>();
    let mut added = 0u64;
    for _ in 0..times {
        if add_one(number, &mut seat) {
            added = added.wrapping_add(1);
        }
    }
    seat.leave();
    added
}

#[test]
fn threads_lose_no_write(rt: HostRuntime) -> Result<(), Fail> {
    let (number, seat) = made(rt.alloc(), 0)?;
    seat.leave();
    let (left, right) = join(
        &rt,
        || add_some(&number.shared, 2_000),
        || add_some(&number.shared, 2_000),
    );
    assert!(rt; ends(number) == (1, left.wrapping_add(right)));
    Ok(())
}

#[test]
fn a_sleep_heeds_the_word_and_ends(rt: HostRuntime) -> Result<(), Fail> {
    let (number, seat) = made(rt.alloc(), 7)?;
    seat.leave();
    // The word is 1: a sleep that took no heed of it would go on beyond the time of a test.
    number
        .shared
        .park_timeout(&rt, 2, Duration::from_secs(3600));
    number.shared.park_timeout(&rt, 1, Duration::ZERO);
    assert!(rt; ends(number) == (1, 7));
    Ok(())
}
