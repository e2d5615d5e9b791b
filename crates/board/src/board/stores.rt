//! Stores and evictions.
ghost use Rattle.std.specs.Prelude.{◌≡◌, ◌+◌, ◌<◌, [], ◌∷◌, if◌then◌else◌, Ok};
ghost use Rattle.call.specs.declared.answer.Answer.TheVariants.{Done};
ghost use Rattle.call.specs.declared.call.Call.TheVariants.{Store, Evict};
ghost use Rattle.memory.specs.Entries.{number_of};
ghost use Rattle.memory.specs.Modes.{mode_in};
ghost use Rattle.rules.specs.Plans.{is_locked};
ghost use Rattle.rules.specs.Steps.{put, changed_by};
ghost use Rattle.word.specs.Lawful.{mark_of};
ghost use Rattle.word.specs.Marks.{mark_at};
ghost use Rattle.board.specs.Obeying.{Performs, Obeys, answered, store_given, evict_given};
ghost use Rattle.board.specs.Views.{counts_of};

use super::Board;
use call::{Access, Refusal};
use memory::{Core, Mode, Owner, Place, State};
use page::PageStore;
use signature::Signature;
use word::{Mark, Word};

// Puts a word that is stored in a locked strip into the core's signature.
fn sign<S: Signature>(signature: &mut S, mode: Mode, core: Core, word: Place)
    ensures { signature.new ≡ changed_by S.operations signature.old (if is_locked (mode_in mode) then put core.number word.number ∷ [] else []) }
{
    match mode {
        Mode::ReadOnly | Mode::Written => {}
        Mode::Locked(_) => signature.put(core.into(), word.into()),
    }
}

impl<P: PageStore, S: Signature> Board<P, S> {
    // The mark of the core's next store.
    #[tactic(auto, unfolding(crate::specs::Views::counts_of))]
    fn next_mark(&self, core: Core) -> Mark
        requires { counts_of self.now.counts core.number < 1000000 }
        ensures { result ≡ mark_at (mark_of core.number (counts_of self.now.counts core.number + 1)) }
    {
        let core = u8::from(core);
        Mark::of_store(core, self.counts[core as usize] + 1).unwrap()
    }

    // A store that no check refuses.
    #[tactic(auto, unfolding(crate::specs::Views::counts_of))]
    fn put(&mut self, core: Core, word: Place, value: u32) -> (Owner, Mark)
        requires { counts_of self.old.counts core.number < 1000000 }
        ensures { Performs P.words S.operations self.old self.new (Store core.number word.number value) (Ok (store_given result)) }
    {
        let mode = self.mode(word);
        let mark = self.next_mark(core);
        let owner = self.memory.store(core, word, Word { value, mark });
        self.races.note(Access::Store, core.into(), word.into());
        self.counts[u8::from(core) as usize] += 1;
        sign(&mut self.signature, mode, core, word);
        (owner, mark)
    }

    /// Stores a value to a word of a core, and tells who owned the word: the core itself, which stores into its own registered copy, nobody,
    /// or another core, whose copy is gone then; with the mark that the word is given. Refused in this order: 1 there is no such
    /// core, 2 no such word, 3 the core waits, 4 the strip is read-only, 5 it is locked and the core does not hold its lock, 6 another
    /// core stored the word, or loaded it, in this phase of a written strip, 7 the core has made as many stores as it is allowed.
    pub fn store(&mut self, core: u8, word: u16, value: u32) -> Result<(Owner, Mark), Refusal>
        ensures { Obeys P.words S.operations self.old self.new (Store core word value) (answered store_given result) }
    {
        let (core, word) = self.check_store(core, word)?;
        Ok(self.put(core, word, value))
    }

    // An evict that no check refuses.
    fn give_up(&mut self, core: Core, word: Place) -> State
        ensures { Performs P.words S.operations self.old self.new (Evict core.number word.number) (Ok (Done (number_of result))) }
    {
        self.memory.evict(core, word)
    }

    /// Gives up a core's copy of a word, and tells the state of that copy: invalid without a copy, valid, or registered, which is written
    /// to the page. Refused in this order: 1 there is no such core, 2 no such word.
    pub fn evict(&mut self, core: u8, word: u16) -> Result<State, Refusal>
        ensures { Obeys P.words S.operations self.old self.new (Evict core word) (answered evict_given result) }
    {
        let (core, word) = self.check_word(core, word)?;
        Ok(self.give_up(core, word))
    }
}
