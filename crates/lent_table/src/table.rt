//! The table with its memory.
ghost use Rattle.std.specs.Prelude.{◌≡◌, IfOk, IfErr};
ghost use Rattle.lent_table.specs.Table.{none, opening, Closes};

use crate::plot::{Deed, rebox, unbox};
use crate::shared::{Ended, Seat, Shared, TableRule};
use std::alloc::{AllocFailed, Allocator};

/// A table, with the memory of its word and its value. Where it is dropped the value is dropped too,
/// also one that a seat still had.
pub struct Table<T, V, K, P: TableRule<T, V, K>, A: Allocator> {
    /// What threads share.
    pub shared: Shared<T, V, K, P>,
    word: Deed<u64, A>,
    value: Deed<T, A>,
    ghost places: { (word.at ≡ shared.word) × (value.at ≡ shared.value) },
}

impl<T: Drop, V, K, P: TableRule<T, V, K>, A: Allocator + Copy> Table<T, V, K, P, A> {
    /// A table that lends its value to nobody yet, and its first seat. The value comes back where
    /// memory is wanting.
    pub fn new(alloc: A, word: u64, value: T, about: &K) -> Result<(Self, Seat<T, V>), T>
        requires { P.holds about.now (opening word (P.first about.now) value) }
        ensures ok { IfOk result (λ t. (t.0.shared.key ≡ about.now) × (t.1.table_id ≡ t.0.shared.table_id) × (t.1.me ≡ (P.first about.now, none))) }
        ensures err { IfErr result (λ x. x ≡ value) }
    {
        let Ok(word) = Box::new(alloc, word) else {
            return Err(value);
        };
        match Box::new(alloc, value) {
            Ok(value) => Ok(Table::of(word, value, about)),
            Err(AllocFailed { value }) => Err(value),
        }
    }
}

impl<T: Drop, V, K, P: TableRule<T, V, K>, A: Allocator> Table<T, V, K, P, A> {
    fn of(word: Box<u64, A>, value: Box<T, A>, about: &K) -> (Self, Seat<T, V>)
        requires { P.holds about.now (opening word.value (P.first about.now) value.value) }
        ensures { (result.0.shared.key ≡ about.now) × (result.1.table_id ≡ result.0.shared.table_id) × (result.1.me ≡ (P.first about.now, none)) }
    {
        let (word, word_deed) = unbox(word);
        let (value, value_deed) = unbox(value);
        let (shared, seat) = Shared::deal(about, word, value);
        let table = Table {
            shared,
            word: word_deed,
            value: value_deed,
        };
        (table, seat)
    }
}

impl<T, V, K, P: TableRule<T, V, K>, A: Allocator> Table<T, V, K, P, A> {
    /// The word and the value, once the table is shared no more, and what each seat knew at last. A
    /// value that was lent is what was lent; of one that a seat might still write, nothing is known.
    pub fn close(self) -> (u64, T, Ended<V>)
        ensures last { Closes (P.holds self.shared.key) result.0 result.1 result.2.views }
        ensures table { result.2.table_id ≡ self.shared.table_id }
    {
        let Table {
            shared,
            word,
            value,
        } = self;
        let (word_plot, value_plot, ended) = shared.gather();
        let word = rebox(word_plot, word);
        let value = rebox(value_plot, value);
        (Box::into_inner(word), Box::into_inner(value), ended)
    }
}

impl<T: Drop, V, K, P: TableRule<T, V, K>, A: Allocator> Drop for Table<T, V, K, P, A> {
    fn drop(self) {
        let (_, value, _) = self.close();
        drop(value);
    }
}
