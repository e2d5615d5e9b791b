//! Settle, and the phases.
ghost use Rattle.std.specs.Prelude.{◌≡◌, Ok};
ghost use Rattle.call.specs.declared.answer.Answer.TheVariants.{Done};
ghost use Rattle.call.specs.declared.call.Call.TheVariants.{Phase, Settle};
ghost use Rattle.memory.specs.Views.{five_of, view as memory_view};
ghost use Rattle.rules.specs.Effects.{fade};
ghost use Rattle.rules.specs.Steps.{changed_by, clear_all};
ghost use Rattle.board.specs.Obeying.{Performs, Obeys, answered};

use super::Board;
use call::Refusal;
use memory::Memory;
use page::PageStore;
use signature::Signature;

// Clears the signatures of all cores, in rising order.
#[tactic(auto, using(crate::proofs::Clears::cleared_more))]
pub(super) fn clear_all<S: Signature>(signature: &mut S)
    ensures { signature.new ≡ changed_by S.operations signature.old clear_all }
{
    for core in 0..8 {
        signature.clear(core);
    }
}

impl<P: PageStore, S: Signature> Board<P, S> {
    /// Writes every registered copy to the page: each becomes valid and its word has no owner any more. How many there were. It is never
    /// refused.
    pub fn settle(&mut self) -> u16
        ensures { Obeys P.words S.operations self.old self.new Settle (Ok (Done result)) }
    {
        self.memory.settle()
    }

    // A phase call that no check refuses. Copies go by the plan in force, which then makes way for the next.
    fn begin(&mut self, plan: u64) -> u16
        ensures { Performs P.words S.operations self.old self.new (Phase plan) (Ok (Done result)) }
    {
        let dropped = self.memory.fade(self.plan);
        self.plan = plan;
        clear_all(&mut self.signature);
        self.locks.forget_releasers();
        self.races.forget();
        dropped
    }

    /// Ends a phase and begins the next under a plan. Valid copies of words whose strip was written or locked in the phase that ends go,
    /// all signatures are cleared, and last releasers and the phase's accesses are forgotten. How many copies were dropped. Refused
    /// in this order: 11 the plan has a mode from 2 to 7, 12 some lock is held.
    pub fn phase(&mut self, plan: u64) -> Result<u16, Refusal>
        ensures { Obeys P.words S.operations self.old self.new (Phase plan) (answered Done result) }
    {
        self.check_phase(plan)?;
        Ok(self.begin(plan))
    }
}
