//! One access to one of the common words.
ghost use Rattle.std.specs.Prelude.{◌≡◌, ◌<◌, length};
ghost use Rattle.stamp_machines.specs.Access.{index_of, words_after, found_by};

/// The index of the lock's word.
pub(crate) const LOCK: usize = 0;

/// The index of the word of the record's own lock.
pub(crate) const RECORD_LOCK: usize = 1;

/// The index of the record's first word.
pub(crate) const FIRST_WORD: usize = 2;

/// One access to a common word, which its index tells: 0 is the lock's word, 1 that of the record's
/// own lock, and the record's words come after them. What an access finds is the value that stood
/// there before it.
#[derive(Clone, Copy, Debug, PartialEq, Eq)]
pub enum Access {
    /// Leaves the word.
    Load(usize),
    /// Puts the second value where the first one is found.
    Cas(usize, u64, u64),
    /// Puts the value.
    Store(usize, u64),
}

/// Makes the access, and gives what stood there before.
pub(crate) fn make(words: &mut [u64], access: Access) -> u64
    requires { index_of access < length words.old }
    ensures words { words.new ≡ words_after access words.old }
    ensures found { result ≡ found_by access words.old }
{
    match access {
        Access::Load(i) => words[i],
        Access::Cas(i, old, new) => {
            let found = words[i];
            if found == old {
                words[i] = new;
            }
            found
        }
        Access::Store(i, value) => {
            let before = words[i];
            words[i] = value;
            before
        }
    }
}
