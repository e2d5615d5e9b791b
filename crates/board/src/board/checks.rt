//! Why a call is refused: the checks of each call in the order of the list of refusals, the first that is met. No check changes
//! the board.
ghost use Rattle.std.specs.Prelude.{◌≡◌, ℕ, ◌<◌, not, List, [], ◌∷◌, IfOk, OnOk, nat_le};
ghost use Rattle.call.specs.Figures.{figures};
ghost use Rattle.call.specs.declared.call.Call.TheVariants as calls;
ghost use Rattle.call.specs.declared.refusal.Refusal.TheVariants as refusals;
ghost use Rattle.call.specs.declared.refusal.Access.TheVariants as access;
ghost use Rattle.locks.specs.Views.{locks_of};
ghost use Rattle.memory.specs.Modes.{mode_in};
ghost use Rattle.races.specs.Remembered.{Remembers};
ghost use Rattle.rules.specs.Plans.{mode_of};
ghost use Rattle.rules.specs.Refusals.{as_race, earliest, waits, holds as holder};
ghost use Rattle.rules.specs.State.{Accessed};
ghost use Rattle.rules.specs.Tables.{first, when};
ghost use Rattle.board.specs.Checking.{load_rows, store_rows};
ghost use Rattle.board.specs.Obeying.{Checks, refused_by};
ghost use Rattle.board.specs.Views.{counts_of};

use super::Board;
use call::{Access, Refusal};
use memory::{Core, Mode, Place, has_bad_mode, mode_of};
use page::PageStore;
use signature::Signature;

impl<P: PageStore, S: Signature> Board<P, S> {
    // The mode of a word's strip under the plan in force.
    pub(super) fn mode(&self, word: Place) -> Mode
        ensures { mode_in result ≡ mode_of (figures self.now.memory.figures) self.now.plan word.number }
    {
        let figures = self.memory.figures();
        mode_of(&figures, self.plan, word.into())
    }

    // The board has this core.
    pub(super) fn check_core(&self, core: u8) -> Result<Core, Refusal>
        ensures told { refused_by result ≡ when (nat_le (figures self.now.memory.figures).cores core) refusals.NoCore }
        ensures found { IfOk result (λ c. c.number ≡ core) }
    {
        if core >= self.memory.figures().cores() {
            return Err(Refusal::NoCore);
        }
        Ok(Core::new(core.into()).unwrap())
    }

    // Rows 1 and 2: the board has the core and the word.
    pub(super) fn check_word(&self, core: u8, word: u16) -> Result<(Core, Place), Refusal>
        ensures told { Checks self.now (calls.Evict core word) (refused_by result) }
        ensures found { IfOk result (λ p. (p.0.number ≡ core) × (p.1.number ≡ word)) }
    {
        let core = self.check_core(core)?;
        if word >= self.size {
            return Err(Refusal::OutsideBoard);
        }
        Ok((core, Place::new(word).unwrap()))
    }

    // The core does not wait for a lock.
    fn check_waiting(&self, core: Core) -> Result<(), Refusal>
        ensures { refused_by result ≡ when (waits (locks_of self.now.locks) core.number) refusals.Waiting }
    {
        if self.locks.waits(core.into()) {
            return Err(Refusal::Waiting);
        }
        Ok(())
    }

    // No other core has made such an access to the word in this phase.
    fn check_race(&self, access: Access, core: Core, word: Place) -> Result<(), Refusal>
        ensures { (accesses : List Accessed) → Remembers self.now.races accesses → refused_by result ≡ as_race access (earliest access core.number word.number accesses) }
    {
        match self.races.by_another(access, core.into(), word.into()) {
            Some(other) => Err(Refusal::Race(other, access)),
            None => Ok(()),
        }
    }

    // The core holds the lock of a locked strip.
    fn check_holder(&self, core: Core, lock: u8) -> Result<(), Refusal>
        ensures { refused_by result ≡ when (not (holder (locks_of self.now.locks) core.number lock)) refusals.NotHolder }
    {
        if !self.locks.holds(core.into(), lock) {
            return Err(Refusal::NotHolder);
        }
        Ok(())
    }

    // The core may make one store more.
    #[tactic(auto, unfolding(crate::specs::Views::counts_of))]
    fn check_allowance(&self, core: Core) -> Result<(), Refusal>
        ensures told { refused_by result ≡ when (nat_le (figures self.now.memory.figures).allowance (counts_of self.now.counts core.number)) refusals.AllowanceSpent }
        ensures allowed { OnOk result (counts_of self.now.counts core.number < 1000000) }
    {
        if self.counts[u8::from(core) as usize] >= self.memory.figures().allowance() {
            return Err(Refusal::AllowanceSpent);
        }
        Ok(())
    }

    // What the mode of the word's strip says of a load.
    fn check_load_mode(&self, core: Core, word: Place) -> Result<(), Refusal>
        ensures { (accesses : List Accessed) → Remembers self.now.races accesses → refused_by result ≡ first (load_rows (mode_of (figures self.now.memory.figures) self.now.plan word.number) (locks_of self.now.locks) accesses core.number word.number) }
    {
        match self.mode(word) {
            Mode::ReadOnly => Ok(()),
            Mode::Written => self.check_race(Access::Store, core, word),
            Mode::Locked(lock) => self.check_holder(core, lock),
        }
    }

    // No other core has stored the word in this phase, nor loaded it.
    fn check_both_races(&self, core: Core, word: Place) -> Result<(), Refusal>
        ensures { (accesses : List Accessed) → Remembers self.now.races accesses → refused_by result ≡ first (as_race (access.Store) (earliest access.Store core.number word.number accesses) ∷ as_race (access.Load) (earliest access.Load core.number word.number accesses) ∷ []) }
    {
        self.check_race(Access::Store, core, word)?;
        self.check_race(Access::Load, core, word)
    }

    // What the mode of the word's strip says of a store.
    fn check_store_mode(&self, core: Core, word: Place) -> Result<(), Refusal>
        ensures { (accesses : List Accessed) → Remembers self.now.races accesses → refused_by result ≡ first (store_rows (mode_of (figures self.now.memory.figures) self.now.plan word.number) (locks_of self.now.locks) accesses core.number word.number) }
    {
        match self.mode(word) {
            Mode::ReadOnly => Err(Refusal::ReadOnly),
            Mode::Written => self.check_both_races(core, word),
            Mode::Locked(lock) => self.check_holder(core, lock),
        }
    }

    // Rows 1, 2, 3, 5 and 6: beyond that the core does not wait, and the strip's mode admits the load.
    pub(super) fn check_load(&self, core: u8, word: u16) -> Result<(Core, Place), Refusal>
        ensures told { Checks self.now (calls.Load core word) (refused_by result) }
        ensures found { IfOk result (λ p. (p.0.number ≡ core) × (p.1.number ≡ word)) }
    {
        let (core, word) = self.check_word(core, word)?;
        self.check_waiting(core)?;
        self.check_load_mode(core, word)?;
        Ok((core, word))
    }

    // Rows 1 to 7: beyond that the strip's mode admits the store, and the core's allowance is not spent.
    pub(super) fn check_store(&self, core: u8, word: u16) -> Result<(Core, Place), Refusal>
        ensures told { (value : ℕ) → Checks self.now (calls.Store core word value) (refused_by result) }
        ensures found { IfOk result (λ p. (p.0.number ≡ core) × (p.1.number ≡ word)) }
        ensures allowed { OnOk result (counts_of self.now.counts core < 1000000) }
    {
        let (core, word) = self.check_word(core, word)?;
        self.check_waiting(core)?;
        self.check_store_mode(core, word)?;
        self.check_allowance(core)?;
        Ok((core, word))
    }

    // Rows 11 and 12: the plan has lawful modes, and no lock is held.
    pub(super) fn check_phase(&self, plan: u64) -> Result<(), Refusal>
        ensures { Checks self.now (calls.Phase plan) (refused_by result) }
    {
        if has_bad_mode(plan) {
            return Err(Refusal::BadMode);
        }
        if self.locks.some_held() {
            return Err(Refusal::LockHeld);
        }
        Ok(())
    }
}
