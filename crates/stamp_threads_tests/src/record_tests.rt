//! Calls of a record by one thread, by worked rows.
ghost use Rattle.std.specs.Prelude.{◌≡◌, ◌≤◌, IfOk, length};

use stamp_core::{Layout, Limits, Words};
use stamp_threads::{ContentRule, PutFault, RecordPass, RuledRecord, RunningRecord};
use std::alloc::Global;
use std::test::Fail;

/// A record and its first pass; the test fails where there is no memory for it.
pub fn made_record(
    alloc: Global,
    layout: Layout,
    versions: u64,
    width: usize,
) -> Result<(RunningRecord, RecordPass), Fail>
    requires { (1 ≤ width) × (width ≤ 16) }
    ensures table { IfOk result (λ r. r.1.table ≡ r.0.table) }
    ensures width { IfOk result (λ r. r.0.shape.width ≡ width) }
{
    let Ok(limits) = Limits::in_layout(layout, 1, versions) else {
        return Err(Fail::from("limits"));
    };
    match RunningRecord::new(alloc, limits, width) {
        Ok((record, pass)) => Ok((record, pass)),
        Err(_) => Err(Fail::from("no memory for the record")),
    }
}

/// The words; the test fails where they are none or too many.
fn words_of(words: &[u64]) -> Result<Words, Fail>
    ensures { IfOk result (λ made. made ≡ words.now) }
{
    match Words::new(words) {
        Some(made) => Ok(made),
        None => Err(Fail::from("so many words are no record's")),
    }
}

/// Two words, both this number.
pub fn pair(number: u64) -> Words
    ensures { length result ≡ 2 }
{
    match Words::new(&[number, number]) {
        Some(words) => words,
        None => unreachable!(),
    }
}

/// Whether a put by this pass is answered so at once.
pub fn puts<P: ContentRule>(
    shared: &RuledRecord<P>,
    pass: &mut RecordPass,
    words: Words,
    answer: Result<(), PutFault>,
) -> bool
    requires table { pass.old.table ≡ shared.now.table }
    requires width { length words ≡ shared.now.shape.width }
    requires rule { P.holds words }
    ensures { pass.new.table ≡ shared.now.table }
{
    shared.put_once(pass, words) == answer
}

/// Whether a get by this pass gives these words at once.
pub fn gives<P: ContentRule>(shared: &RuledRecord<P>, pass: &mut RecordPass, words: Words) -> bool
    requires { pass.old.table ≡ shared.now.table }
    ensures { pass.new.table ≡ shared.now.table }
{
    shared.get_once(pass) == Ok(words)
}

/// Two words.
fn two(first: u64, second: u64) -> Words
    ensures { length result ≡ 2 }
{
    match Words::new(&[first, second]) {
        Some(words) => words,
        None => unreachable!(),
    }
}

#[test]
fn two_words_are_got_as_they_were_put_and_without_a_version_none_are(
    rt: HostRuntime,
) -> Result<(), Fail> {
    for (layout, spent) in [(Layout::One, 256), (Layout::Two, 131_072)] {
        let (shared, mut pass) = made_record(rt.alloc(), layout, 1_000, 2)?;
        assert!(rt; puts(&shared, &mut pass, two(7, 9), Ok(())));
        assert!(rt; gives(&shared, &mut pass, two(7, 9)));
        let (shared, mut pass) = made_record(rt.alloc(), layout, 0, 2)?;
        let refused = Err(PutFault::Spent(spent));
        assert!(rt; puts(&shared, &mut pass, two(7, 9), refused));
    }
    Ok(())
}

#[test]
fn the_third_put_of_two_versions_is_refused(rt: HostRuntime) -> Result<(), Fail> {
    let (shared, mut pass) = made_record(rt.alloc(), Layout::One, 2, 2)?;
    assert!(rt; puts(&shared, &mut pass, two(1, 2), Ok(())));
    assert!(rt; puts(&shared, &mut pass, two(3, 4), Ok(())));
    assert!(rt; puts(&shared, &mut pass, two(5, 6), Err(PutFault::Spent(768))));
    Ok(())
}

#[test]
fn a_refused_put_leaves_the_words_that_were_put_last(rt: HostRuntime) -> Result<(), Fail> {
    let (shared, mut pass) = made_record(rt.alloc(), Layout::One, 2, 2)?;
    assert!(rt; puts(&shared, &mut pass, two(1, 2), Ok(())));
    assert!(rt; puts(&shared, &mut pass, two(3, 4), Ok(())));
    assert!(rt; gives(&shared, &mut pass, two(3, 4)));
    assert!(rt; puts(&shared, &mut pass, two(5, 6), Err(PutFault::Spent(768))));
    assert!(rt; gives(&shared, &mut pass, two(3, 4)));
    Ok(())
}

/// Whether so many puts, each of other words, are made and got.
fn puts_each(shared: &RunningRecord, pass: &mut RecordPass, versions: u64) -> bool
    requires { (pass.old.table ≡ shared.now.table) × (shared.now.shape.width ≡ 2) }
    ensures { pass.new.table ≡ shared.now.table }
{
    for i in 1..=versions {
        if !puts(shared, pass, pair(i), Ok(())) || !gives(shared, pass, pair(i)) {
            return false;
        }
    }
    true
}

/// The word of the refusal when each version was put; the record still gives the last words then.
fn spent_word(alloc: Global, layout: Layout, versions: u64) -> Result<Option<u64>, Fail> {
    let (shared, mut pass) = made_record(alloc, layout, versions, 2)?;
    if !puts_each(&shared, &mut pass, versions) {
        return Ok(None);
    }
    match shared.put_once(&mut pass, pair(9)) {
        Err(PutFault::Spent(word)) if gives(&shared, &mut pass, pair(versions)) => Ok(Some(word)),
        _ => Ok(None),
    }
}

#[test]
fn a_record_takes_a_put_for_each_version_and_still_gives_the_last(
    rt: HostRuntime,
) -> Result<(), Fail> {
    for (layout, versions, word) in [
        (Layout::One, 0, 256),
        (Layout::One, 1, 512),
        (Layout::One, 2, 768),
        (Layout::Two, 0, 131_072),
        (Layout::Two, 1, 262_144),
    ] {
        assert!(rt;
            spent_word(rt.alloc(), layout, versions)? == Some(word),
            "{versions}"
        );
    }
    Ok(())
}

/// Whether a get into the caller's own room gives these words.
fn gives_into(shared: &RunningRecord, pass: &mut RecordPass, words: &Words) -> bool
    requires table { pass.old.table ≡ shared.now.table }
    requires width { length words.now ≡ shared.now.shape.width }
    ensures { pass.new.table ≡ shared.now.table }
{
    let mut row = [17; 16];
    let into = &mut row[..words.len()];
    shared.get_into(pass, into) == Ok(()) && *into == *words.as_slice()
}

/// Whether a new record gives zeros, and then these words when they were put, by both gets.
fn gives_every_word(alloc: Global, layout: Layout, words: &[u64]) -> Result<bool, Fail>
    requires { (1 ≤ length words.now) × (length words.now ≤ 16) }
{
    let (record, mut pass) = made_record(alloc, layout, 2, words.len())?;
    let put = words_of(words)?;
    Ok(
        gives(&record, &mut pass, Words::zeros(words.len()))
            && puts(&record, &mut pass, put, Ok(()))
            && gives(&record, &mut pass, put)
            && gives_into(&record, &mut pass, &put),
    )
}

#[test]
fn a_record_of_any_width_gives_every_word(rt: HostRuntime) -> Result<(), Fail> {
    let row = [u64::MAX, 2, 3, 4, 5, 6, 7, 8, 9, 10, 11, 12, 13, 14, 15, 16];
    for width in 1..=16usize {
        assert!(rt; gives_every_word(rt.alloc(), Layout::One, &row[..width])?);
    }
    assert!(rt; gives_every_word(rt.alloc(), Layout::Two, &row)?);
    Ok(())
}
