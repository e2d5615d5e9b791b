//! What is done to the locks, and what can be asked of them.
ghost use Rattle.std.specs.Prelude.{◌≡◌, ◌<◌, false, [], IfSome, IfOk, OnOk};
ghost use Rattle.rules.specs.Refusals.{waits, holds, holds_some, some_held};
ghost use Rattle.rules.specs.State.{free};
ghost use Rattle.rules.specs.Steps.{acquired_by, released_to, forgetting};
ghost use Rattle.rules.specs.Tables.{first, upd};
ghost use Rattle.locks.specs.Acquire.{acquire_answer, acquire_after};
ghost use Rattle.locks.specs.Refused.{common_rows, answered};
ghost use Rattle.locks.specs.Release.{release_answer, release_after};
ghost use Rattle.locks.specs.Rows.{granted, passed_to};
ghost use Rattle.locks.specs.Views.{locks_of, does};
ghost use Rattle.locks.specs.declared.attendance.Attendance.TheVariants.{Away, Holds};

use super::Locks;
use crate::attendance::{Attendance, hand_over};
use crate::grant::Grant;
use crate::row::Row;
use call::Refusal;
use std::array;

impl Locks {
    /// Eight locks that nobody holds.
    pub fn free() -> Locks
        ensures { locks_of result ≡ (λ _. free) }
    {
        Locks {
            rows: array::from_fn(|_| Row::free()),
            cores: [Attendance::Away; 8],
        }
    }

    // What a core does about locks; a core above 7 does nothing.
    fn does(&self, core: u8) -> Attendance
        ensures { result ≡ does self.now core }
    {
        self.cores
            .get(core as usize)
            .copied()
            .unwrap_or(Attendance::Away)
    }

    /// Whether the core waits for a lock.
    #[tactic(auto, using(crate::proofs::Kept::waits_of))]
    pub fn waits(&self, core: u8) -> bool
        ensures { result ≡ waits (locks_of self.now) core }
    {
        self.does(core).is_waiting()
    }

    /// Whether the core holds this lock; there is none above 7.
    pub fn holds(&self, core: u8, lock: u8) -> bool
        ensures { result ≡ holds (locks_of self.now) core lock }
    {
        self.does(core).holds(lock)
    }

    /// Whether some lock is held.
    pub fn some_held(&self) -> bool
        ensures { result ≡ some_held (locks_of self.now) }
    {
        self.rows.iter().any(|row| row.holder().is_some())
    }

    // Whether the core holds some lock.
    #[tactic(auto, using(crate::proofs::Kept::holds_of))]
    fn holds_some(&self, core: u8) -> bool
        ensures { result ≡ holds_some (locks_of self.now) core }
    {
        self.does(core).is_holding()
    }

    // What acquire and release ask first: there are such a core and such a lock, and the core does not wait.
    fn check(&self, core: u8, lock: u8) -> Result<(), Refusal>
        ensures answer { result ≡ answered (first (common_rows (locks_of self.now) core lock [])) tt }
        ensures passed { OnOk result ((core < 8) × (lock < 8) × (waits (locks_of self.now) core ≡ false)) }
    {
        if core >= 8 {
            return Err(Refusal::NoCore);
        }
        if self.waits(core) {
            return Err(Refusal::Waiting);
        }
        if lock >= 8 {
            return Err(Refusal::NoLock);
        }
        Ok(())
    }

    /// Gives a free lock to the core, with its last releaser, or queues the core for a held lock. A core that holds a lock
    /// or waits for one is refused.
    #[tactic(auto, using(crate::proofs::Kept::neither))]
    pub fn acquire(&mut self, core: u8, lock: u8) -> Result<Grant, Refusal>
        ensures answer { result ≡ acquire_answer (locks_of self.old) core lock }
        ensures after { locks_of self.new ≡ acquire_after (locks_of self.old) core lock }
    {
        self.check(core, lock)?;
        if self.holds_some(core) {
            return Err(Refusal::HoldsLock);
        }
        Ok(self.enter(core, lock))
    }

    // A core that does nothing gets the lock or is queued for it.
    fn enter(&mut self, core: u8, lock: u8) -> Grant
        requires { (core < 8) × ((lock < 8) × (does self.old core ≡ Away)) }
        ensures answer { result ≡ granted (locks_of self.old lock).holder (locks_of self.old lock) }
        ensures after { locks_of self.new ≡ upd (locks_of self.old) lock (acquired_by (locks_of self.old lock).holder (locks_of self.old lock) core) }
    {
        let grant = self.rows[lock as usize].acquire(core);
        self.cores[core as usize] = Attendance::after(grant, lock);
        grant
    }

    /// Passes the lock that the core holds to the first in its queue, and answers that core, if there is one. Who does not
    /// hold the lock is refused.
    pub fn release(&mut self, core: u8, lock: u8) -> Result<Option<u8>, Refusal>
        ensures answer { result ≡ release_answer (locks_of self.old) core lock }
        ensures after { locks_of self.new ≡ release_after (locks_of self.old) core lock }
        ensures below { IfOk result (λ next. IfSome next (λ n. n < 8)) }
    {
        self.check(core, lock)?;
        if !self.holds(core, lock) {
            return Err(Refusal::NotHeld);
        }
        Ok(self.leave(core, lock))
    }

    // The holder puts the lock down, and the first in the queue takes it up.
    fn leave(&mut self, core: u8, lock: u8) -> Option<u8>
        requires { (core < 8) × ((lock < 8) × (does self.old core ≡ Holds lock)) }
        ensures answer { result ≡ passed_to (locks_of self.old lock).queue }
        ensures after { locks_of self.new ≡ upd (locks_of self.old) lock (released_to (locks_of self.old lock).queue core) }
        ensures below { IfSome result (λ n. n < 8) }
    {
        let next = self.rows[lock as usize].release(core);
        hand_over(&mut self.cores, core, next, lock);
        next
    }

    /// Forgets who released each lock last: a phase that begins has no releasers yet.
    pub fn forget_releasers(&mut self)
        ensures { locks_of self.new ≡ (λ lock. forgetting (locks_of self.old lock)) }
    {
        for row in &mut self.rows {
            row.forget();
        }
    }
}

// Examples: cores served in turn, each refusal, and releasers that are forgotten.
#[cfg(test)]
mod tests {
    use super::*;

    // Two cores wait for lock 5 and are served in the order in which they came.
    #[test]
    fn served_in_turn(rt: HostRuntime) {
        let mut locks = Locks::free();
        assert!(rt; locks.acquire(2, 5) == Ok(Grant::Granted(None)));
        assert!(rt; locks.acquire(7, 5) == Ok(Grant::Queued));
        assert!(rt; locks.acquire(0, 5) == Ok(Grant::Queued));
        assert!(rt; locks.release(2, 5) == Ok(Some(7)));
        assert!(rt; locks.waits(0) && !locks.waits(7));
        assert!(rt; locks.release(7, 5) == Ok(Some(0)));
        assert!(rt; locks.release(0, 5) == Ok(None));
    }

    #[test]
    fn refusals(rt: HostRuntime) {
        let mut locks = Locks::free();
        assert!(rt; locks.acquire(8, 8) == Err(Refusal::NoCore));
        assert!(rt; locks.acquire(0, 8) == Err(Refusal::NoLock));
        assert!(rt; locks.acquire(0, 7) == Ok(Grant::Granted(None)));
        assert!(rt; locks.acquire(0, 7) == Err(Refusal::HoldsLock));
        assert!(rt; locks.release(1, 7) == Err(Refusal::NotHeld));
        assert!(rt; locks.acquire(1, 7) == Ok(Grant::Queued));
        assert!(rt; locks.acquire(1, 8) == Err(Refusal::Waiting));
        assert!(rt; locks.release(255, 0) == Err(Refusal::NoCore));
    }

    // The last releaser of lock 3 is known until it is forgotten.
    #[test]
    fn releasers(rt: HostRuntime) {
        let mut locks = Locks::free();
        assert!(rt; locks.acquire(4, 3) == Ok(Grant::Granted(None)));
        assert!(rt; locks.some_held() && locks.holds(4, 3));
        assert!(rt; locks.release(4, 3) == Ok(None));
        assert!(rt; locks.acquire(6, 3) == Ok(Grant::Granted(Some(4))));
        assert!(rt; locks.release(6, 3) == Ok(None));
        assert!(rt; !locks.some_held());
        locks.forget_releasers();
        assert!(rt; locks.acquire(4, 3) == Ok(Grant::Granted(None)));
    }
}
