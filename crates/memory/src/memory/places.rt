//! Where a word's copy stands in a core's cache, and what stands there.
ghost use Rattle.std.specs.Prelude.{◌≡◌, None, slice_index_or};
ghost use Rattle.call.specs.Figures.{slot_of};
ghost use Rattle.rules.specs.State.{copy_of};
ghost use Rattle.memory.specs.Entries.{copy_by};
ghost use Rattle.memory.specs.Views.{view, five_of};

use super::Memory;
use crate::bounds::{Core, Place, Seat, Slot};
use crate::entry::State;
use page::PageStore;
use word::Word;

impl<P: PageStore> Memory<P> {
    // The seat of a word's copy in a core's cache: the one routine that finds it.
    pub(super) fn seat(&self, core: Core, word: Place) -> Seat
        ensures core { result.core.number ≡ core.number }
        ensures slot { result.slot.number ≡ slot_of (five_of self.now) word.number }
    {
        Seat {
            core,
            slot: Slot {
                number: self.figures.slot_of(word.number) as u16,
            },
        }
    }

    // The owner of a word, if it has one.
    pub(super) fn owner_at(&self, word: Place) -> Option<Core>
        ensures { result ≡ slice_index_or self.now.owners word.number None }
    {
        self.owners[word.number as usize]
    }

    // The copy of a word in a core's cache: its state, and the word that it holds.
    pub(super) fn found(&self, core: Core, word: Place) -> (State, Word)
        ensures { copy_of (five_of self.now) (view P.words self.now) core.number word.number ≡ copy_by result.0 word.number result.1 }
    {
        let held = self.entries[self.seat(core, word).index()];
        (held.state_for(word), held.word)
    }
}
