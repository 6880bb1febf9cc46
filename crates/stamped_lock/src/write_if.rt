//! A section in write mode where a test holds.
ghost use Rattle.std.specs.Prelude.{true};
ghost use Rattle.std.specs.Fn.{FnOnceReturnsAt, FnReturnsAt};
ghost use Rattle.stamped_lock.specs.Sections.{WriteSection, WriteIfSection, RanIf};

use crate::entered::Entered;
use crate::handle::LockHandle;
use crate::write_error::WriteError;
use stamp_core::KnownLayout;
use std::sync::Wait;

impl<'a, L: KnownLayout> LockHandle<'a, L> {
    /// Runs the second closure in write mode, if the first answers true there (Javadoc's
    /// `moveIfAtOrigin`): None where it doesn't. First it asks as `read_optimistically` does, so that a
    /// test that is false acquires no write mode; then, in write mode, once more. So the test may run
    /// three times, and what it reads first may be torn.
    ///
    /// It waits as `read_optimistically` and `write_with` do. `Spent` where no version was left, and
    /// `Mismatch` where another thread had released the lock before a closure ended, as there.
    pub fn write_if<T: Drop, R: Wait, P: Fn(&Entered<'a>) -> bool, F: FnOnce(&Entered<'a>) -> T>(
        &mut self,
        rt: &R,
        test: P,
        then: F,
    ) -> Result<Option<T>, WriteError>
        requires test { P.IsAlwaysCallable test }
        requires then { (m : _) → FnReturnsAt P.Fn test m.now true → F.pre then m }
        ensures { WriteIfSection (λ yes m. FnReturnsAt P.Fn test m yes) (λ t m. FnOnceReturnsAt F.FnOnce then m t)
            result self.old self.new }
    {
        if !self.read_lent(rt, &test)? {
            return Ok(None);
        }
        self.write_tested(rt, &test, then)
    }

    /// Runs the second closure in write mode, if the first answers true there.
    fn write_tested<T: Drop, R: Wait, P: Fn(&Entered<'a>) -> bool, F: FnOnce(&Entered<'a>) -> T>(
        &mut self,
        rt: &R,
        test: &P,
        then: F,
    ) -> Result<Option<T>, WriteError>
        requires test { P.IsAlwaysCallable test.now }
        requires then { (m : _) → FnReturnsAt P.Fn test.now m.now true → F.pre then m }
        ensures { WriteSection (RanIf (λ yes m. FnReturnsAt P.Fn test.now m yes)
            (λ t m. FnOnceReturnsAt F.FnOnce then m t)) result self.old self.new }
    {
        let Some(stamp) = self.write(rt) else {
            return Err(WriteError::Spent);
        };
        let answer = if test(self.entered()) {
            Some(then(self.entered()))
        } else {
            None
        };
        match self.unlock_write(stamp) {
            Ok(()) => Ok(answer),
            Err(_) => Err(WriteError::Mismatch),
        }
    }
}
