//! Records of many words.
ghost use Rattle.std.specs.Prelude.{◌≡◌, length};

use stamped_lock::{
    AnyContent, KnownLayout, Layout, LayoutTwo, Limits, PutFault, Spent, StampedWideRecord,
    WideHandle,
};
use std::sync::Wait;
use std::sync::atomic::{AtomicU64, Ordering};
use std::test::Fail;
use std::thread::join;

/// Adds one to each of the words, four thousand times.
fn count<R: Wait>(rt: &R, mut row: WideHandle<'_, 64, AnyContent>) -> Result<(), Spent> {
    let mut old = [0; 64];
    let mut new = [0; 64];
    for _ in 0..4_000u64 {
        row.update_in(
            rt,
            &mut old,
            &mut new,
            |words: &mut [u64]|
                requires { length words.old ≡ 64 }
                ensures { length words.new ≡ 64 }
            {
                for word in words.iter_mut() {
                    *word = word.wrapping_add(1);
                }
            },
        )?;
    }
    Ok(())
}

/// Gets the words as often, and says whether all were alike each time.
fn are_alike<R: Wait>(rt: &R, mut row: WideHandle<'_, 64, AnyContent>) -> bool {
    let mut words = [0; 64];
    for _ in 0..4_000u64 {
        row.get_into(rt, &mut words);
        if words.iter().any(|word| *word != words[0]) {
            return false;
        }
    }
    true
}

#[test]
fn sixty_four_words_are_updated_by_two_and_read_by_two(rt: HostRuntime) -> Result<(), Fail> {
    let Ok(row) = StampedWideRecord::<64, AnyContent>::new(rt.alloc(), &[7; 64]) else {
        return Err(Fail::from("no memory for the record"));
    };
    let ((one, two), (three, four)) = join(
        &rt,
        || join(&rt, || count(&rt, row.enter()), || count(&rt, row.enter())),
        || {
            join(
                &rt,
                || are_alike(&rt, row.enter()),
                || are_alike(&rt, row.enter()),
            )
        },
    );
    assert!(rt; one.is_ok() && two.is_ok() && three && four);
    let mut words = [0; 64];
    row.enter().get_into(&rt, &mut words);
    assert!(rt; words == [8_007; 64]);
    Ok(())
}

#[test]
fn the_widest_record_holds_what_was_put(rt: HostRuntime) -> Result<(), Fail> {
    let mut words = [1; 4096];
    let Ok(row) = StampedWideRecord::<4096, AnyContent>::new(rt.alloc(), &words) else {
        return Err(Fail::from("no memory for the record"));
    };
    let mut handle = row.enter();
    words[4095] = 2;
    assert!(rt; handle.put_from(&rt, &words) == Ok(()));
    let mut got = [0; 4096];
    let mut other = handle.split();
    other.get_into(&rt, &mut got);
    assert!(rt; got == words);
    Ok(())
}

/// What a record of two versions that begins as 1, 2, 3 gives and refuses.
fn turned<L: KnownLayout, R: Wait>(rt: &R, mut row: WideHandle<'_, 3, AnyContent, L>) -> bool {
    let mut old = [0; 3];
    let mut new = [0; 3];
    let turn = |words: &mut [u64]|
        requires { length words.old ≡ 3 }
        ensures { length words.new ≡ 3 }
    {
        words.reverse();
    };
    if row.update_in_once(&mut old, &mut new, turn) != Ok(()) {
        return false;
    }
    let left = old == [1, 2, 3] && new == [3, 2, 1];
    let refused = matches!(row.put_from_once(&[4, 5, 6]), Err(PutFault::Spent(_)))
        && row.put_from(rt, &[4, 5, 6]) == Err(Spent)
        && row.update_in(rt, &mut old, &mut new, turn) == Err(Spent);
    left && refused && row.get_into_once(&mut old) == Ok(()) && old == [3, 2, 1]
}

#[test]
fn an_update_leaves_the_old_words_and_the_new(rt: HostRuntime) -> Result<(), Fail> {
    let (one, two) = (Limits::new(1, 2)?, Limits::in_layout(Layout::Two, 1, 2)?);
    let (Ok(row), Ok(in_two)) = (
        StampedWideRecord::<3, AnyContent>::with_limits(rt.alloc(), one, &[1, 2, 3]),
        StampedWideRecord::<3, AnyContent, LayoutTwo>::in_layout(rt.alloc(), two, &[1, 2, 3]),
    ) else {
        return Err(Fail::from("no memory for the record"));
    };
    assert!(rt; turned(&rt, row.enter()));
    assert!(rt; turned(&rt, in_two.enter()));
    Ok(())
}

/// Adds one to the word by an update, which is tried once or until it is made. In the closure's first run somebody
/// puts 50, if it is to. Whether it was made, and how often the closure ran.
fn add_one<R: Wait>(
    rt: &R,
    row: &StampedWideRecord<1, AnyContent>,
    tries_once: bool,
    puts: bool,
) -> (bool, u64) {
    let (mut old, mut new) = ([0], [0]);
    let runs = AtomicU64::new(0);
    let add = |words: &mut [u64]|
        requires { length words.old ≡ 1 }
        ensures { length words.new ≡ 1 }
    {
        if runs.fetch_add(1, Ordering::SeqCst) == 0 && puts {
            let _ = row.enter().put_from(rt, &[50]);
        }
        words[0] = words[0].wrapping_add(1);
    };
    let mut handle = row.enter();
    let made = if tries_once {
        handle.update_in_once(&mut old, &mut new, add).is_ok()
    } else {
        handle.update_in(rt, &mut old, &mut new, add).is_ok()
    };
    (made, runs.load(Ordering::SeqCst))
}

#[test]
fn the_closure_of_an_update_runs_once_and_again_after_each_loss(
    rt: HostRuntime,
) -> Result<(), Fail> {
    for (tries_once, puts, want, left) in [
        (true, false, (true, 1), 6),
        (true, true, (false, 1), 50),
        (false, false, (true, 1), 6),
        (false, true, (true, 2), 51),
    ] {
        let Ok(row) = StampedWideRecord::<1, AnyContent>::new(rt.alloc(), &[5]) else {
            return Err(Fail::from("no memory for the record"));
        };
        let mut got = [0];
        assert!(rt; add_one(&rt, &row, tries_once, puts) == want);
        assert!(rt; row.enter().get_into_once(&mut got) == Ok(()) && got == [left]);
    }
    Ok(())
}

/// Makes each call that may come across another's put, fifty times. The words are many, so that a put takes
/// longer than all else.
fn come_across<R: Wait>(rt: &R, mut row: WideHandle<'_, 4096, AnyContent>) -> Result<(), Spent> {
    let mut words = [0; 4096];
    let mut new = [0; 4096];
    for _ in 0..50u64 {
        row.put_from(rt, &words)?;
        row.get_into(rt, &mut words);
        row.update_in(
            rt,
            &mut words,
            &mut new,
            |words: &mut [u64]|
                requires { length words.old ≡ 4096 }
                ensures { length words.new ≡ 4096 }
            {
                words[0] = words[4095];
            },
        )?;
    }
    Ok(())
}

/// Where a call doesn't try again, the test doesn't end.
#[test]
fn two_who_put_at_once_come_back(rt: HostRuntime) -> Result<(), Fail> {
    let Ok(row) = StampedWideRecord::<4096, AnyContent>::new(rt.alloc(), &[7; 4096]) else {
        return Err(Fail::from("no memory for the record"));
    };
    let (one, two) = join(
        &rt,
        || come_across(&rt, row.enter()),
        || come_across(&rt, row.enter()),
    );
    assert!(rt; one.is_ok() && two.is_ok());
    Ok(())
}
