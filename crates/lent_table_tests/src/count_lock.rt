//! A number behind one word: 0 while somebody may write the number, and else 1 and as many as read it.
ghost use Rattle.std.specs.Prelude.{◌≡◌, IsTrue, IsFalse};
ghost use Rattle.lent_table.specs.Table.{none};
ghost use Rattle.lent_table_tests.specs.Count.{Reads, Writes};

use lent_table::{Play, Seat, Shared, Table, TableRule};
use std::alloc::Global;

/// The rule: the word counts who has the value.
pub struct CountRule;

impl<T> TableRule<T, (), ()> for CountRule {
    ghost use Rattle.lent_table_tests.specs.Count.{Counts};

    ghost holds = { λ _ s. Counts s.home s.word };

    ghost first = { λ _. tt };
}

/// A load.
pub struct Looking;

impl<T> Play<T, ()> for Looking {
    ghost use Rattle.lent_table_tests.specs.Count.{Looked};

    ghost then = { Looked };
}

/// A reader comes.
pub struct Coming;

impl<T> Play<T, ()> for Coming {
    ghost use Rattle.lent_table_tests.specs.Count.{Brings, Reads};

    ghost then = { Brings Reads };
}

/// A reader leaves.
pub struct Leaving;

impl<T> Play<T, ()> for Leaving {
    ghost use Rattle.lent_table_tests.specs.Count.{Brings, Idles};

    ghost then = { Brings Idles };
}

/// A writer takes the value.
pub struct Taking;

impl<T> Play<T, ()> for Taking {
    ghost use Rattle.lent_table_tests.specs.Count.{Brings, Writes};

    ghost then = { Brings Writes };
}

/// Whoever has the value gives it back.
pub struct Giving;

impl<T> Play<T, ()> for Giving {
    ghost use Rattle.lent_table_tests.specs.Count.{Frees};

    ghost then = { Frees };
}

/// A number and its word.
pub type Number = Table<u64, (), (), CountRule, Global>;

/// What threads share of it.
pub type Shown = Shared<u64, (), (), CountRule>;

/// A seat of it.
pub type Seated = Seat<u64, ()>;

/// Whether the seat may read now: not beside a writer, beside 100 readers, or where another thread
/// came between.
pub fn try_read(number: &Shown, seat: &mut Seated) -> bool
    requires { (seat.old.table_id ≡ number.now.table_id) × (seat.old.me.1 ≡ none) }
    ensures table { seat.new.table_id ≡ number.now.table_id }
    ensures yes { IsTrue result → Reads seat.new.me.1 }
    ensures no { IsFalse result → seat.new.me.1 ≡ none }
{
    let word = number.load::<Looking>(seat);
    if word == 0 || word > 100 {
        return false;
    }
    number.compare_exchange::<Coming>(seat, word, word + 1) == word
}

/// Whether the seat has left: not where another thread came between.
pub fn try_leave(number: &Shown, seat: &mut Seated) -> bool
    requires { (seat.old.table_id ≡ number.now.table_id) × Reads seat.old.me.1 }
    ensures table { seat.new.table_id ≡ number.now.table_id }
    ensures yes { IsTrue result → seat.new.me.1 ≡ none }
    ensures no { IsFalse result → seat.new.me.1 ≡ seat.old.me.1 }
{
    let word = number.load::<Looking>(seat);
    number.compare_exchange::<Leaving>(seat, word, word - 1) == word
}

/// The reader leaves, by one step that nothing can disturb.
pub fn leave(number: &Shown, seat: &mut Seated)
    requires { (seat.old.table_id ≡ number.now.table_id) × Reads seat.old.me.1 }
    ensures { (seat.new.table_id ≡ number.now.table_id) × (seat.new.me.1 ≡ none) }
{
    number.fetch_sub::<Giving>(seat, 1);
}

/// Whether the seat may write now: not beside anybody.
pub fn try_write(number: &Shown, seat: &mut Seated) -> bool
    requires { (seat.old.table_id ≡ number.now.table_id) × (seat.old.me.1 ≡ none) }
    ensures table { seat.new.table_id ≡ number.now.table_id }
    ensures yes { IsTrue result → Writes seat.new.me.1 }
    ensures no { IsFalse result → seat.new.me.1 ≡ none }
{
    number.compare_exchange::<Taking>(seat, 1, 0) == 1
}

/// The writer gives the number back, by one exchange that nothing can disturb.
pub fn give_back(number: &Shown, seat: &mut Seated)
    requires { (seat.old.table_id ≡ number.now.table_id) × Writes seat.old.me.1 }
    ensures { (seat.new.table_id ≡ number.now.table_id) × (seat.new.me.1 ≡ none) }
{
    number.compare_exchange::<Giving>(seat, 0, 1);
}
