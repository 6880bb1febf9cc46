//! The calls of a record by a pass of it: what the handles of records and of cells make.
ghost use Rattle.std.specs.Prelude.{◌≡◌, ℕ, List, IfOk, IfErr, OnOk, OnErr, Some};
ghost use Rattle.std.specs.Fn.{FnReturnsAt};
ghost use Rattle.stamp_core.specs.declared.call.Call.TheVariants.{Get, Put, PutIf};
ghost use Rattle.stamp_core.specs.declared.reply.Reply.TheVariants.{Done, Content, Yes};
ghost use Rattle.stamp_threads.specs.RecordLog.{content_in};
ghost use Rattle.stamp_threads.specs.RecordCall.{HasSeen, StandsAtWord, GetRefused, ReplaceRefused};
ghost use Rattle.stamp_threads.specs.RecordCall as by_pass;
ghost use Rattle.stamped_lock.specs.InWords.{AreWordsOf};
ghost use Rattle.stamped_lock.specs.RecordCalls.{MadeOnRecord, RefusesPut, RefusesGet, MadeAtLast, SpentAtLast};
ghost use Rattle.stamped_lock.specs.RecordCalls.{RefusesUpdate, Updated, UpdateSpent, PutIfAtLast, SeenAtLast};
ghost use Rattle.stamped_lock.specs.RecordCalls.{PutNothing};
ghost use Rattle.stamped_lock.specs.inner.RecordCalls.{handle_of, HasWidth, Attempted, RefusesTry};

use crate::in_words::InWords;
use crate::spent::Spent;
use crate::update_error::UpdateError;
use stamp_core::{KnownLayout, Words};
use stamp_threads::{ContentRule, GetFault, PutFault, RecordPass, RuledRecord};
use std::sync::Wait;
use std::thread;

/// Gets the words if nobody is putting.
#[inline(always)]
pub fn get_once<const N: usize, P: ContentRule, L: KnownLayout>(
    running: &RuledRecord<P, L>,
    pass: &mut RecordPass,
) -> Result<[u64; N], GetFault>
    requires table { pass.old.table ≡ running.now.table }
    requires width { HasWidth N running.now.shape }
    ensures table { pass.new.table ≡ pass.old.table }
    ensures rule { IfOk result (λ words. P.holds words) }
    ensures ok { let h = handle_of running.now pass.old.view in
        IfOk result (λ words. MadeOnRecord Get (Content words) h (handle_of running.now pass.new.view)) }
    ensures err { let h = handle_of running.now pass.old.view in
        IfErr result (λ fault. RefusesGet fault h (handle_of running.now pass.new.view)) }
{
    let mut words = [0; N];
    running.get_into(pass, &mut words)?;
    Ok(words)
}

/// Gets the words. Where it is refused it lets other threads run, and tries again.
#[inline(always)]
pub fn get<const N: usize, P: ContentRule, L: KnownLayout, R: Wait>(
    rt: &R,
    running: &RuledRecord<P, L>,
    pass: &mut RecordPass,
) -> [u64; N]
    requires table { pass.old.table ≡ running.now.table }
    requires width { HasWidth N running.now.shape }
    ensures table { pass.new.table ≡ pass.old.table }
    ensures rule { P.holds result }
    ensures made { MadeAtLast Get (Content result) (handle_of running.now pass.old.view)
        (handle_of running.now pass.new.view) }
{
    for _ in rt.forever() {
        if let Ok(words) = get_once(running, pass) {
            return words;
        }
        thread::yield_now();
    }
    unreachable!()
}

/// Puts the words if nobody else is putting.
#[inline(always)]
pub fn put_once<const N: usize, P: ContentRule, L: KnownLayout>(
    running: &RuledRecord<P, L>,
    pass: &mut RecordPass,
    words: &[u64; N],
) -> Result<(), PutFault>
    requires table { pass.old.table ≡ running.now.table }
    requires width { HasWidth N running.now.shape }
    requires rule { P.holds words.now }
    ensures table { pass.new.table ≡ pass.old.table }
    ensures ok { let h = handle_of running.now pass.old.view in
        OnOk result (MadeOnRecord (Put words.now) Done h (handle_of running.now pass.new.view)) }
    ensures err { let h = handle_of running.now pass.old.view in
        IfErr result (λ fault. RefusesPut fault h (handle_of running.now pass.new.view)) }
{
    let Some(new_words) = Words::new(words) else {
        unreachable!()
    };
    running.put_once(pass, new_words)
}

/// Puts the words. Where it is refused as `Busy` or as `Lost` it lets other threads run, and tries again.
#[inline(always)]
pub fn put<const N: usize, P: ContentRule, L: KnownLayout, R: Wait>(
    rt: &R,
    running: &RuledRecord<P, L>,
    pass: &mut RecordPass,
    words: &[u64; N],
) -> Result<(), Spent>
    requires table { pass.old.table ≡ running.now.table }
    requires width { HasWidth N running.now.shape }
    requires rule { P.holds words.now }
    ensures table { pass.new.table ≡ pass.old.table }
    ensures made { OnOk result (MadeAtLast (Put words.now) Done (handle_of running.now pass.old.view)
        (handle_of running.now pass.new.view)) }
    ensures spent { OnErr result (SpentAtLast (handle_of running.now pass.old.view)
        (handle_of running.now pass.new.view)) }
{
    for _ in rt.forever() {
        match put_once(running, pass, words) {
            Ok(()) => return Ok(()),
            Err(PutFault::Spent(_)) => return Err(Spent),
            Err(PutFault::Busy(_) | PutFault::Lost { .. }) => thread::yield_now(),
        }
    }
    unreachable!()
}

/// Sees the value, and makes no call: gives the lock word at which its words stood, too.
#[inline(always)]
fn see<const N: usize, P: ContentRule, L: KnownLayout, T: InWords<N>>(
    running: &RuledRecord<P, L>,
    pass: &mut RecordPass,
) -> Result<(u64, T), GetFault>
    requires table { pass.old.table ≡ running.now.table }
    requires width { HasWidth N running.now.shape }
    requires spelled { (row : List ℕ) → P.holds row → AreWordsOf T.is_value T.words row }
    ensures table { pass.new.table ≡ pass.old.table }
    ensures value { IfOk result (λ seen. T.is_value seen.1) }
    ensures ok { let shape = running.now.shape in let v = pass.old.view in
        IfOk result (λ seen. HasSeen P.holds shape seen.0 (T.words seen.1) v pass.new.view) }
    ensures err { let shape = running.now.shape in let v = pass.old.view in
        IfErr result (λ fault. GetRefused shape v fault pass.new.view) }
{
    let mut row = [0; N];
    let word = running.see_once(pass, &mut row)?;
    Ok((word, T::from_words(&row)))
}

/// Puts the value over the one that was seen at this lock word.
#[inline(always)]
fn replace<const N: usize, P: ContentRule, L: KnownLayout, T: InWords<N>>(
    running: &RuledRecord<P, L>,
    pass: &mut RecordPass,
    word: u64,
    value: &T,
) -> Result<(), PutFault>
    requires table { pass.old.table ≡ running.now.table }
    requires width { HasWidth N running.now.shape }
    requires rule { T.is_value value.now → P.holds (T.words value.now) }
    requires stands { StandsAtWord running.now.shape word pass.old.view }
    ensures table { pass.new.table ≡ pass.old.table }
    ensures ok { let shape = running.now.shape in let v = pass.old.view in
        OnOk result (by_pass.MadeOnRecord shape (PutIf (content_in shape.width v.known) (T.words value.now)) Yes
        v pass.new.view) }
    ensures err { let shape = running.now.shape in let v = pass.old.view in
        IfErr result (λ fault. ReplaceRefused shape word v fault pass.new.view) }
{
    let row = value.to_words();
    let Some(words) = Words::new(&row) else {
        unreachable!()
    };
    running.replace_once(pass, word, words)
}

/// Puts what the closure answers on the value over it, as one call, and gives the old value.
#[inline(always)]
pub fn update_once<const N: usize, P: ContentRule, L: KnownLayout, T: InWords<N>, F: Fn(&T) -> T>(
    running: &RuledRecord<P, L>,
    pass: &mut RecordPass,
    f: &F,
) -> Result<T, PutFault>
    requires table { pass.old.table ≡ running.now.table }
    requires width { HasWidth N running.now.shape }
    requires spelled { (row : List ℕ) → P.holds row → AreWordsOf T.is_value T.words row }
    requires callable { (value : _) (seen : _) → T.is_value value.now → P.holds (T.words value.now)
        → SeenAtLast P.holds (T.words value.now) (handle_of running.now pass.old.view) (handle_of running.now seen)
        → F.pre f.now value }
    requires rule { (old : _) (value : T) → T.is_value old.now → P.holds (T.words old.now)
        → F.post f.now old value → T.is_value value → P.holds (T.words value) }
    ensures table { pass.new.table ≡ pass.old.table }
    ensures rule { IfOk result (λ old. T.is_value old × P.holds (T.words old)) }
    ensures ok { let h = handle_of running.now pass.old.view in
        IfOk result (λ old. Updated (λ value. FnReturnsAt F.Fn f.now old value) T.words old h
        (handle_of running.now pass.new.view)) }
    ensures err { let h = handle_of running.now pass.old.view in
        IfErr result (λ fault. RefusesUpdate P.holds fault h (handle_of running.now pass.new.view)) }
{
    let (word, old) = see::<N, P, L, T>(running, pass)?;
    let value = f(&old);
    replace(running, pass, word, &value)?;
    Ok(old)
}

/// Puts what the closure answers on the value, and gives the old value. Where it is refused as `Busy` or as
/// `Lost` it lets other threads run, and tries again.
#[inline(always)]
pub fn update<
    const N: usize,
    P: ContentRule,
    L: KnownLayout,
    T: InWords<N>,
    R: Wait,
    F: Fn(&T) -> T,
>(rt: &R, running: &RuledRecord<P, L>, pass: &mut RecordPass, f: &F) -> Result<T, Spent>
    requires table { pass.old.table ≡ running.now.table }
    requires width { HasWidth N running.now.shape }
    requires spelled { (row : List ℕ) → P.holds row → AreWordsOf T.is_value T.words row }
    requires callable { (value : _) (seen : _) → T.is_value value.now → P.holds (T.words value.now)
        → SeenAtLast P.holds (T.words value.now) (handle_of running.now pass.old.view) (handle_of running.now seen)
        → F.pre f.now value }
    requires rule { (old : _) (value : T) → T.is_value old.now → P.holds (T.words old.now)
        → F.post f.now old value → T.is_value value → P.holds (T.words value) }
    ensures table { pass.new.table ≡ pass.old.table }
    ensures rule { IfOk result (λ old. T.is_value old × P.holds (T.words old)) }
    ensures made { let h = handle_of running.now pass.old.view in
        IfOk result (λ old. Updated (λ value. FnReturnsAt F.Fn f.now old value) T.words old h
        (handle_of running.now pass.new.view)) }
    ensures spent { OnErr result (UpdateSpent P.holds (handle_of running.now pass.old.view)
        (handle_of running.now pass.new.view)) }
{
    for _ in rt.forever() {
        match update_once(running, pass, f) {
            Ok(old) => return Ok(old),
            Err(PutFault::Spent(_)) => return Err(Spent),
            Err(PutFault::Busy(_) | PutFault::Lost { .. }) => thread::yield_now(),
        }
    }
    unreachable!()
}

/// As `update_once`, by a closure that may decline: gives the old value, in an `Err` where it was declined.
#[inline(always)]
fn try_update_once<
    const N: usize,
    P: ContentRule,
    L: KnownLayout,
    T: InWords<N>,
    F: Fn(&T) -> Option<T>,
>(running: &RuledRecord<P, L>, pass: &mut RecordPass, f: &F) -> Result<Result<T, T>, PutFault>
    requires table { pass.old.table ≡ running.now.table }
    requires width { HasWidth N running.now.shape }
    requires spelled { (row : List ℕ) → P.holds row → AreWordsOf T.is_value T.words row }
    requires callable { (value : _) (seen : _) → T.is_value value.now → P.holds (T.words value.now)
        → SeenAtLast P.holds (T.words value.now) (handle_of running.now pass.old.view) (handle_of running.now seen)
        → F.pre f.now value }
    requires rule { (old : _) (value : T) → T.is_value old.now → P.holds (T.words old.now)
        → F.post f.now old (Some value) → T.is_value value → P.holds (T.words value) }
    ensures table { pass.new.table ≡ pass.old.table }
    ensures ok { let h = handle_of running.now pass.old.view in IfOk result (λ tried.
        Attempted (FnReturnsAt F.Fn f.now) P.holds T.is_value T.words tried h
        (handle_of running.now pass.new.view)) }
    ensures err { let h = handle_of running.now pass.old.view in
        IfErr result (λ fault. RefusesTry (FnReturnsAt F.Fn f.now) P.holds T.words fault h
        (handle_of running.now pass.new.view)) }
{
    let (word, old) = see::<N, P, L, T>(running, pass)?;
    let Some(new) = f(&old) else {
        return Ok(Err(old));
    };
    match replace(running, pass, word, &new) {
        Ok(()) => Ok(Ok(old)),
        Err(fault) => Err(fault),
    }
}

/// As `update`, by a closure that may decline.
#[inline(always)]
pub fn try_update<
    const N: usize,
    P: ContentRule,
    L: KnownLayout,
    T: InWords<N>,
    R: Wait,
    F: Fn(&T) -> Option<T>,
>(rt: &R, running: &RuledRecord<P, L>, pass: &mut RecordPass, f: &F) -> Result<T, UpdateError<T>>
    requires table { pass.old.table ≡ running.now.table }
    requires width { HasWidth N running.now.shape }
    requires spelled { (row : List ℕ) → P.holds row → AreWordsOf T.is_value T.words row }
    requires callable { (value : _) (seen : _) → T.is_value value.now → P.holds (T.words value.now)
        → SeenAtLast P.holds (T.words value.now) (handle_of running.now pass.old.view) (handle_of running.now seen)
        → F.pre f.now value }
    requires rule { (old : _) (value : T) → T.is_value old.now → P.holds (T.words old.now)
        → F.post f.now old (Some value) → T.is_value value → P.holds (T.words value) }
    ensures table { pass.new.table ≡ pass.old.table }
    ensures rule { IfOk result (λ old. T.is_value old × P.holds (T.words old)) }
    ensures made { let h = handle_of running.now pass.old.view in
        IfOk result (λ old. Updated (λ value. FnReturnsAt F.Fn f.now old (Some value)) T.words old h
        (handle_of running.now pass.new.view)) }
    ensures err { let h = handle_of running.now pass.old.view in
        IfErr result (λ error. PutNothing (FnReturnsAt F.Fn f.now) P.holds T.is_value T.words error h
        (handle_of running.now pass.new.view)) }
{
    for _ in rt.forever() {
        match try_update_once(running, pass, f) {
            Ok(Ok(old)) => return Ok(old),
            Ok(Err(old)) => return Err(UpdateError::Declined(old)),
            Err(PutFault::Spent(_)) => return Err(UpdateError::Spent),
            Err(PutFault::Busy(_) | PutFault::Lost { .. }) => thread::yield_now(),
        }
    }
    unreachable!()
}

/// Puts the second words if the record holds the first, and says whether it did.
#[inline(always)]
pub fn put_if_once<const N: usize, P: ContentRule, L: KnownLayout>(
    running: &RuledRecord<P, L>,
    pass: &mut RecordPass,
    expected: &[u64; N],
    words: &[u64; N],
) -> Result<bool, PutFault>
    requires table { pass.old.table ≡ running.now.table }
    requires width { HasWidth N running.now.shape }
    requires rule { P.holds expected.now → P.holds words.now }
    ensures table { pass.new.table ≡ pass.old.table }
    ensures ok { let h = handle_of running.now pass.old.view in
        IfOk result (λ yes. PutIfAtLast expected.now words.now yes h (handle_of running.now pass.new.view)) }
    ensures err { let h = handle_of running.now pass.old.view in
        IfErr result (λ fault. RefusesUpdate (λ row. row ≡ expected.now) fault h (handle_of running.now pass.new.view)) }
{
    let (Some(expected), Some(words)) = (Words::new(expected), Words::new(words)) else {
        unreachable!()
    };
    let put = running.put_if_once(pass, expected, words)?;
    Ok(put)
}

/// As `put_if_once`. Where it is refused as `Busy` or as `Lost` it lets other threads run, and tries again.
#[inline(always)]
pub fn put_if<const N: usize, P: ContentRule, L: KnownLayout, R: Wait>(
    rt: &R,
    running: &RuledRecord<P, L>,
    pass: &mut RecordPass,
    expected: &[u64; N],
    words: &[u64; N],
) -> Result<bool, Spent>
    requires table { pass.old.table ≡ running.now.table }
    requires width { HasWidth N running.now.shape }
    requires rule { P.holds expected.now → P.holds words.now }
    ensures table { pass.new.table ≡ pass.old.table }
    ensures made { let h = handle_of running.now pass.old.view in
        IfOk result (λ yes. PutIfAtLast expected.now words.now yes h (handle_of running.now pass.new.view)) }
    ensures spent { OnErr result (UpdateSpent (λ row. row ≡ expected.now) (handle_of running.now pass.old.view)
        (handle_of running.now pass.new.view)) }
{
    for _ in rt.forever() {
        match put_if_once(running, pass, expected, words) {
            Ok(yes) => return Ok(yes),
            Err(PutFault::Spent(_)) => return Err(Spent),
            Err(PutFault::Busy(_) | PutFault::Lost { .. }) => thread::yield_now(),
        }
    }
    unreachable!()
}
