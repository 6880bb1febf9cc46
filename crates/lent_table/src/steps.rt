//! Single steps on the word.
ghost use Rattle.std.specs.Prelude.{◌≡◌, ◌==◌, ◌+◌, ◌-◌, ◌%◌, ◌^◌};
ghost use prog.Atomic.{either};
ghost use Rattle.lent_table.specs.Table.{none, step, Allows, Learns, LearnsBeside, Enters};

use crate::shared::{Play, Seat, Shared, TableRule};
use atomic_table::exchange;
use std::marker::{Brand, PhantomData};
use std::sync::atomic::Ordering::SeqCst;
use std::sync::atomic::raw;

impl<T, V, K, P: TableRule<T, V, K>> Shared<T, V, K, P> {
    /// Reads the word. The seat may come to know more.
    pub fn load<M: Play<T, V>>(&self, seat: &mut Seat<T, V>) -> u64
        requires { (seat.old.table_id ≡ self.now.table_id) × Learns (P.holds self.now.key) seat.old.id seat.old.me (M.then (step 0 0) seat.old.me) }
        ensures { (seat.new.table_id ≡ seat.old.table_id) × (seat.new.id ≡ seat.old.id) × M.then (step 0 0) seat.old.me result seat.new.me }
    {
        unsafe { raw::load::<Brand>(self.word, SeqCst) }
    }

    /// Reads the word by one seat beside another seat of the table: as `load`, where the view of the
    /// other is known to be in the table too. The other stays as it is.
    pub fn load_beside<M: Play<T, V>>(&self, seat: &mut Seat<T, V>, other: &mut Seat<T, V>) -> u64
        requires { (seat.old.table_id ≡ self.now.table_id) × (other.old.table_id ≡ self.now.table_id) × LearnsBeside (P.holds self.now.key) seat.old.id seat.old.me other.old.id other.old.me.0 (M.then (step 0 0) seat.old.me) }
        ensures learns { (seat.new.table_id ≡ seat.old.table_id) × (seat.new.id ≡ seat.old.id) × M.then (step 0 0) seat.old.me result seat.new.me }
        ensures other { other.new ≡ other.old }
    {
        unsafe { raw::load::<Brand>(self.word, SeqCst) }
    }

    /// Reads the word, and makes a seat that has nothing of the value.
    pub fn enter<M: Play<T, V>>(&self) -> (u64, Seat<T, V>)
        requires { Enters (P.holds self.now.key) (M.then (step 0 0) (P.first self.now.key, none)) }
        ensures { (result.1.table_id ≡ self.now.table_id) × (result.1.me.1 ≡ none) × M.then (step 0 0) (P.first self.now.key, none) result.0 result.1.me }
    {
        let found = unsafe { raw::load::<Brand>(self.word, SeqCst) };
        let marker = PhantomData;
        (found, Seat { marker })
    }

    /// Returns the word as it was, which has become `new` if it was `old`. The seat may take the
    /// value by it, or give it back.
    pub fn compare_exchange<M: Play<T, V>>(&self, seat: &mut Seat<T, V>, old: u64, new: u64) -> u64
        requires { (seat.old.table_id ≡ self.now.table_id) × Allows (P.holds self.now.key) seat.old.id seat.old.me (λ n. either (n == old) new n) (M.then (step old new) seat.old.me) }
        ensures { (seat.new.table_id ≡ seat.old.table_id) × (seat.new.id ≡ seat.old.id) × M.then (step old new) seat.old.me result seat.new.me }
    {
        unsafe { exchange::<Brand>(self.word, old, new) }
    }

    /// Returns the word as it was, and takes `k` from it, below 0 going on from 2^64. So it always changes the
    /// word, whatever that is. The seat may give the value back by it, or take it.
    pub fn fetch_sub<M: Play<T, V>>(&self, seat: &mut Seat<T, V>, k: u64) -> u64
        requires { (seat.old.table_id ≡ self.now.table_id) × Allows (P.holds self.now.key) seat.old.id seat.old.me (λ n. (n + (2 ^ 64 - k)) % 2 ^ 64) (M.then (step 0 k) seat.old.me) }
        ensures { (seat.new.table_id ≡ seat.old.table_id) × (seat.new.id ≡ seat.old.id) × M.then (step 0 k) seat.old.me result seat.new.me }
    {
        unsafe { raw::fetch_sub::<Brand>(self.word, k, SeqCst) }
    }
}
