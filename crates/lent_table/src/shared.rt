//! The table as threads see it, and what one of them knows and has.
ghost use Rattle.std.specs.Prelude.{◌≡◌, ℕ, List};
ghost use Rattle.std.specs.Coded.{coded_list};
ghost use Rattle.lent_table.specs.Table.{State, Hold, Me, Step, none, writes, me_coded, opening, Closes};
ghost use Rattle.lent_table.specs.Lending.{TableId, table_id_coded, table_owns, table_shares, seat_owns, hold_shares};
ghost use Rattle.lent_table.specs.Lending.{has_left, has_ended};
ghost use types.Logic.{sem};

use crate::plot::Plot;
use std::marker::{Model, PhantomData};

/// The rule of a table: a fact about its word, where its value is, and what its seats know. T is the
/// value, V what a seat knows, and K what the table is told once, when it is made.
pub trait TableRule<T, V, K> {
    ghost holds: { K → State T V → Type 0 };
    // What the first seat knows.
    ghost first: { K → V };
}

/// What a step tells its caller.
pub trait Play<T, V> {
    // Of the step, the seat before, the number found, and the seat after.
    ghost then: { Step → Me T V → ℕ → Me T V → Type 0 };
}

/// The word and the value, for any number of threads.
pub struct Shared<T, V, K, P: TableRule<T, V, K>> {
    pub(crate) word: *mut u64,
    pub(crate) value: *mut T,
    marker: PhantomData<(P, V, K)>,
    pub ghost table_id: { TableId } by { table_id_coded },
    pub ghost key: { K },
}

impl<T, V, K, P: TableRule<T, V, K>> Model for Shared<T, V, K, P> {
    ghost also_owns = { λ t. table_owns T.row V.row.coded.code (P.holds t.key) t.word t.value t.table_id };

    ghost also_shares = { λ t _ κ. table_shares T.row V.row.coded.code (P.holds t.key) t.word t.value t.table_id κ };
}

/// What a thread knows of a table, and what it has of the value. It has no bytes. It can't be
/// dropped: it gives back what it has, and leaves.
pub struct Seat<T, V> {
    pub(crate) marker: PhantomData<(T, V)>,
    pub ghost table_id: { TableId } by { table_id_coded },
    pub ghost id: { ℕ },
    pub ghost me: { Me T V } by { me_coded T.code V.code },
}

impl<T, V> Model for Seat<T, V> {
    ghost also_owns = { λ s. seat_owns T.row V.row.coded.code s.table_id s.id s.me };

    ghost also_shares = { λ s _ κ. hold_shares T.row s.table_id s.me.1 κ };
}

/// That a seat left its table for good, and what it knew then. It has no bytes.
#[derive(Drop)]
pub struct Left<V> {
    pub(crate) marker: PhantomData<V>,
    pub ghost table_id: { TableId } by { table_id_coded },
    pub ghost id: { ℕ },
    pub ghost view: { V },
}

impl<V> Model for Left<V> {
    ghost also_owns = { λ l. has_left V.row.coded.code l.table_id l.id l.view };
}

/// That a table ended, and what each of its seats knew at last. It has no bytes.
#[derive(Drop)]
pub struct Ended<V> {
    pub(crate) marker: PhantomData<V>,
    pub ghost table_id: { TableId } by { table_id_coded },
    pub ghost views: { List V } by { coded_list V.code },
}

impl<V> Model for Ended<V> {
    ghost also_owns = { λ e. has_ended V.row.coded.code e.table_id e.views };
}

impl<T, V, K, P: TableRule<T, V, K>> Shared<T, V, K, P> {
    pub(crate) fn deal(
        about: &K,
        word: Plot<u64>,
        value: Plot<T>,
    ) -> (Shared<T, V, K, P>, Seat<T, V>)
        requires { P.holds about.now (opening word.value (P.first about.now) value.value) }
        ensures places { (result.0.word ≡ word.at) × (result.0.value ≡ value.at) × (result.0.key ≡ about.now) }
        ensures seat { (result.1.table_id ≡ result.0.table_id) × (result.1.me ≡ (P.first about.now, none)) }
    {
        let Plot { at: word } = word;
        let Plot { at: value } = value;
        let marker = PhantomData;
        let shared = Shared {
            word,
            value,
            marker,
        };
        let marker = PhantomData;
        (shared, Seat { marker })
    }

    pub(crate) fn gather(self) -> (Plot<u64>, Plot<T>, Ended<V>)
        ensures places { (result.0.at ≡ self.word) × (result.1.at ≡ self.value) × (result.2.table_id ≡ self.table_id) }
        ensures last { Closes (P.holds self.key) result.0.value result.1.value result.2.views }
    {
        let Shared {
            word,
            value,
            marker: _,
        } = self;
        let marker = PhantomData;
        (Plot { at: word }, Plot { at: value }, Ended { marker })
    }
}

impl<T, V> Seat<T, V> {
    /// Whoever may write stands alone: no other seat of the table has anything of the value.
    pub fn alone(&mut self, other: &mut Seat<T, V>)
        ensures same { (self.new ≡ self.old) × (other.new ≡ other.old) }
        ensures alone { other.old.table_id ≡ self.old.table_id → (x : T) → self.old.me.1 ≡ writes x → other.old.me.1 ≡ none }
    {}

    /// Gives up a seat that has nothing of the value, for good.
    pub fn leave(self) -> Left<V>
        requires { self.me.1 ≡ none }
        ensures { (result.table_id ≡ self.table_id) × (result.id ≡ self.id) × (result.view ≡ self.me.0) }
    {
        let Seat { marker: _ } = self;
        let marker = PhantomData;
        Left { marker }
    }
}

impl<V> Left<V> {
    /// The same, for the contract of a function that has no result.
    pub fn tell(self)
        ensures* left { sem 𝓛 (has_left V.row.coded.code self.table_id self.id self.view) }
    {
        let Left { marker: _ } = self;
    }
}

impl<V> Ended<V> {
    /// The same, for the contract of a function that has another result.
    pub fn tell(self)
        ensures* ended { sem 𝓛 (has_ended V.row.coded.code self.table_id self.views) }
    {
        let Ended { marker: _ } = self;
    }
}

unsafe impl<T: Send + Sync, V> Send for Seat<T, V> {}

unsafe impl<T: Send + Sync, V, K, P: TableRule<T, V, K>> Send for Shared<T, V, K, P> {}

unsafe impl<T: Send + Sync, V, K, P: TableRule<T, V, K>> Sync for Shared<T, V, K, P> {}
