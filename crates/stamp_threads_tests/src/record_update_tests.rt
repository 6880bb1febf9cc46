//! Words that are put over others, by one thread, by worked rows.
ghost use Rattle.std.specs.Prelude.{◌≡◌};

use crate::record_tests::{gives, made_record, pair, puts};
use stamp_core::Layout;
use stamp_threads::{PutFault, RecordPass, RunningRecord};
use std::test::Fail;

/// Sees two words, and puts this pair over them: the words that it saw.
fn replace(shared: &RunningRecord, pass: &mut RecordPass, number: u64) -> Result<[u64; 2], PutFault>
    requires { (pass.old.table ≡ shared.now.table) × (shared.now.shape.width ≡ 2) }
    ensures { pass.new.table ≡ shared.now.table }
{
    let mut row = [17; 2];
    let word = shared.see_once(pass, &mut row)?;
    shared.replace_once(pass, word, pair(number))?;
    Ok(row)
}

#[test]
fn words_are_put_over_those_that_were_seen(rt: HostRuntime) -> Result<(), Fail> {
    for (layout, spent) in [(Layout::One, 768), (Layout::Two, 393_216)] {
        let (shared, mut pass) = made_record(rt.alloc(), layout, 2, 2)?;
        assert!(rt; replace(&shared, &mut pass, 4) == Ok([0, 0]));
        assert!(rt; replace(&shared, &mut pass, 9) == Ok([4, 4]));
        assert!(rt; replace(&shared, &mut pass, 5) == Err(PutFault::Spent(spent)));
        assert!(rt; gives(&shared, &mut pass, pair(9)));
    }
    Ok(())
}

#[test]
fn what_was_put_since_is_not_put_over(rt: HostRuntime) -> Result<(), Fail> {
    for (layout, loaded, found) in [(Layout::One, 256, 512), (Layout::Two, 131_072, 262_144)] {
        let (shared, pass) = made_record(rt.alloc(), layout, 9, 2)?;
        let (mut first, mut second) = shared.split(pass);
        let mut row = [17; 2];
        let Ok(word) = shared.see_once(&mut first, &mut row) else {
            return Err(Fail::from("somebody is putting"));
        };
        assert!(rt; puts(&shared, &mut second, pair(3), Ok(())));
        let lost = PutFault::Lost { loaded, found };
        assert!(rt; shared.replace_once(&mut first, word, pair(8)) == Err(lost));
        assert!(rt; gives(&shared, &mut first, pair(3)));
    }
    Ok(())
}

/// Whether a put_if of these two pairs by this pass is answered so at once, and leaves this pair.
fn is_put_if(
    shared: &RunningRecord,
    pass: &mut RecordPass,
    pairs: [u64; 2],
    answer: Result<bool, PutFault>,
    left: u64,
) -> bool
    requires { (pass.old.table ≡ shared.now.table) × (shared.now.shape.width ≡ 2) }
    ensures { pass.new.table ≡ shared.now.table }
{
    let [expected, number] = pairs;
    shared.put_if_once(pass, pair(expected), pair(number)) == answer
        && gives(shared, pass, pair(left))
}

/// Where the words are others it is answered no, also where no version is left.
#[test]
fn a_put_if_is_answered_by_the_words(rt: HostRuntime) -> Result<(), Fail> {
    for (layout, spent) in [(Layout::One, 768), (Layout::Two, 393_216)] {
        let (shared, mut pass) = made_record(rt.alloc(), layout, 2, 2)?;
        assert!(rt; is_put_if(&shared, &mut pass, [1, 5], Ok(false), 0));
        assert!(rt; is_put_if(&shared, &mut pass, [0, 5], Ok(true), 5));
        assert!(rt; is_put_if(&shared, &mut pass, [0, 6], Ok(false), 5));
        assert!(rt; is_put_if(&shared, &mut pass, [5, 5], Ok(true), 5));
        assert!(rt; is_put_if(&shared, &mut pass, [6, 7], Ok(false), 5));
        let refused = Err(PutFault::Spent(spent));
        assert!(rt; is_put_if(&shared, &mut pass, [5, 7], refused, 5));
    }
    Ok(())
}
