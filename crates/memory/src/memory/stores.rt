//! Stores: into the core's own registered copy, or by taking the word from whoever owns it; and evictions.
ghost use Rattle.std.specs.Prelude.{◌≡◌, true, false, get_or, Some, None, slice_index_or, slice_set};
ghost use Rattle.call.specs.Figures.{slot_of};
ghost use Rattle.rules.specs.Effects.{store as rule, claim as claimed, evict as evicted, is_registered as counts, with_copy, write_back};
ghost use Rattle.rules.specs.State.{copy_of, invalid, registered};
ghost use Rattle.memory.specs.Entries.{empty, number_of, number_of_owner};
ghost use Rattle.memory.specs.Owners.{index_of, is_registered};
ghost use Rattle.memory.specs.Views.{view, five_of, source_by, taken_by};
ghost use Rattle.memory.specs.declared.entry.State.TheVariants.{Registered};

use super::Memory;
use crate::bounds::{Core, Place, Seat};
use crate::entry::{Entry, Event, Owner, State};
use page::PageStore;
use word::Word;

impl<P: PageStore> Memory<P> {
    // The registered copy of a word takes another word.
    fn rewrite(&mut self, core: Core, word: Place, stored: Word)
        requires { counts (copy_of (five_of self.old) (view P.words self.old) core.number word.number) ≡ true }
        ensures figures { self.new.figures ≡ self.old.figures }
        ensures after { view P.words self.new ≡ with_copy (view P.words self.old) core.number (slot_of (five_of self.old) word.number) (registered word.number stored) }
    {
        let at = self.seat(core, word);
        self.entries[at.index()] = Entry {
            state: State::Registered,
            place: word,
            word: stored,
        };
    }

    // A slot that holds no registered copy gets one, and its core owns the word.
    fn register(&mut self, at: Seat, word: Place, stored: Word)
        requires seated { at.slot.number ≡ slot_of (five_of self.old) word.number }
        requires idle { is_registered (get_or self.old.entries (index_of at) empty).state ≡ false }
        ensures figures { self.new.figures ≡ self.old.figures }
        ensures entries { self.new.entries ≡ slice_set self.old.entries (index_of at) (record { state = Registered; place = word; word = stored }) }
        ensures owners { self.new.owners ≡ slice_set self.old.owners word.number (Some at.core) }
        ensures page { P.words self.new.page ≡ P.words self.old.page }
    {
        self.entries[at.index()] = Entry {
            state: State::Registered,
            place: word,
            word: stored,
        };
        self.owners[word.number as usize] = Some(at.core);
    }

    // Takes a word from its owner, if it has one, who has no copy any more then: whether nobody owned it, or another core.
    fn take(&mut self, word: Place) -> Owner
        ensures answer { number_of_owner result ≡ source_by (slice_index_or self.old.owners word.number None) }
        ensures figures { self.new.figures ≡ self.old.figures }
        ensures entries { self.new.entries ≡ taken_by (slice_index_or self.old.owners word.number None) (five_of self.old) self.old.entries word.number }
        ensures owners { self.new.owners ≡ slice_set self.old.owners word.number None }
        ensures page { P.words self.new.page ≡ P.words self.old.page }
    {
        match self.owner_at(word) {
            None => Owner::Nobody,
            Some(owner) => {
                let at = self.seat(owner, word);
                let _ = self.turn_at(at, Event::Taken);
                Owner::Another
            }
        }
    }

    // A store of a core that has no registered copy of the word: the slot's old word makes way, whoever owns the word loses
    // it, and the core becomes owner. After the write back the core itself is not the owner.
    fn claim(&mut self, core: Core, word: Place, stored: Word) -> Owner
        ensures figures { self.new.figures ≡ self.old.figures }
        ensures answer { number_of_owner result ≡ (claimed (five_of self.old) (view P.words self.old) core.number word.number stored).answer }
        ensures after { view P.words self.new ≡ (claimed (five_of self.old) (view P.words self.old) core.number word.number stored).memory }
    {
        let at = self.seat(core, word);
        let _ = self.write_back(at);
        let owner = self.take(word);
        self.register(at, word, stored);
        owner
    }

    /// Stores a word of a core, and tells who owned the word: the core itself, which stores into its own registered copy, or nobody,
    /// or another core, whose copy is gone then. The core owns the word from now on.
    pub fn store(&mut self, core: Core, word: Place, stored: Word) -> Owner
        ensures figures { self.new.figures ≡ self.old.figures }
        ensures answer { number_of_owner result ≡ (rule (five_of self.old) (view P.words self.old) core.number word.number stored).answer }
        ensures after { view P.words self.new ≡ (rule (five_of self.old) (view P.words self.old) core.number word.number stored).memory }
    {
        let (state, _) = self.found(core, word);
        match state {
            State::Invalid | State::Valid => self.claim(core, word, stored),
            State::Registered => {
                self.rewrite(core, word, stored);
                Owner::Itself
            }
        }
    }

    // A slot's copy is written back if it is registered, and goes.
    fn clear(&mut self, at: Seat)
        ensures figures { self.new.figures ≡ self.old.figures }
        ensures after { view P.words self.new ≡ with_copy (write_back (view P.words self.old) at.core.number at.slot.number) at.core.number at.slot.number invalid }
    {
        let _ = self.turn_at(at, Event::Evict);
    }

    /// Gives up a core's copy of a word, and tells its state: a registered copy is written to the page. A slot that holds another
    /// word stays as it is.
    pub fn evict(&mut self, core: Core, word: Place) -> State
        ensures figures { self.new.figures ≡ self.old.figures }
        ensures answer { number_of result ≡ (evicted (five_of self.old) (view P.words self.old) core.number word.number).answer }
        ensures after { view P.words self.new ≡ (evicted (five_of self.old) (view P.words self.old) core.number word.number).memory }
    {
        let (state, _) = self.found(core, word);
        match state {
            State::Invalid => {}
            State::Valid | State::Registered => self.clear(self.seat(core, word)),
        }
        state
    }
}
