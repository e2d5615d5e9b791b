//! Acquire and release of the locks, with the signatures that go along.
ghost use Rattle.std.specs.Prelude.{◌≡◌, IfOk};
ghost use Rattle.call.specs.declared.call.Call.TheVariants.{Acquire, Release};
ghost use Rattle.locks.specs.Rows.{granted};
ghost use Rattle.locks.specs.Views.{locks_of};
ghost use Rattle.rules.specs.Steps.{changed_by};
ghost use Rattle.board.specs.Obeying.{Obeys, answered, acquire_given, release_given};
ghost use Rattle.board.specs.Turns.{taken_on, handed_on};

use super::Board;
use call::Refusal;
use locks::Grant;
use page::PageStore;
use signature::Signature;

// Lets a core that is granted a lock take in the signature of its last releaser, if there is one.
fn take_on<S: Signature>(signature: &mut S, core: u8, grant: Grant)
    ensures { signature.new ≡ changed_by S.operations signature.old (taken_on grant core) }
{
    if let Grant::Granted(Some(last)) = grant {
        signature.take_in(core, last);
    }
}

// Lets the core that a lock passes to, if there is one, take in the releaser's signature.
fn hand_on<S: Signature>(signature: &mut S, core: u8, next: Option<u8>)
    ensures { signature.new ≡ changed_by S.operations signature.old (handed_on next core) }
{
    if let Some(next) = next {
        signature.take_in(next, core);
    }
}

impl<P: PageStore, S: Signature> Board<P, S> {
    /// Asks for a lock. A free one is granted, and the core's signature takes in the last releaser's, if there is one; for a held one the
    /// core waits as the last in its queue. Refused in this order: 1 there is no such core, 3 the core waits, 8 there is no such lock,
    /// 9 the core holds a lock.
    pub fn acquire(&mut self, core: u8, lock: u8) -> Result<Grant, Refusal>
        ensures obeys { Obeys P.words S.operations self.old self.new (Acquire core lock) (answered acquire_given result) }
        ensures grant { IfOk result (λ grant. grant ≡ granted (locks_of self.old.locks lock).holder (locks_of self.old.locks lock)) }
    {
        self.check_core(core)?;
        let grant = self.locks.acquire(core, lock)?;
        take_on(&mut self.signature, core, grant);
        Ok(grant)
    }

    /// Gives a lock back. It passes to the first in its queue, whose signature takes in the releaser's; the answer is that core, or none if
    /// nobody waits. Refused in this order: 1 there is no such core, 3 the core waits, 8 there is no such lock, 10 the core does not
    /// hold it.
    pub fn release(&mut self, core: u8, lock: u8) -> Result<Option<u8>, Refusal>
        ensures { Obeys P.words S.operations self.old self.new (Release core lock) (answered release_given result) }
    {
        self.check_core(core)?;
        let next = self.locks.release(core, lock)?;
        hand_on(&mut self.signature, core, next);
        Ok(next)
    }
}
