//! The bank: a page store over any page store. It is made, looked through, drained and taken apart, and it is itself a
//! page store.
ghost use Rattle.std.specs.Prelude.{◌≡◌, ℕ, ◌≤◌, true, length, replicate, None, slice_index_or, slice_set};
ghost use Rattle.page.specs.Pages.{read_answer, write_answer};
ghost use Rattle.page.specs.Sizes.{laid_at_most};
ghost use Rattle.page.specs.Slots.{in_slot, slot_for, changed, laid, made_way, slots_after, below_after};

use crate::change::Change;
use crate::outside::Outside;
use crate::store::PageStore;
use word::Word;

/// A page over a page below, with 128 slots that hold changed words until they are written below. Word w lies in slot
/// w mod 128 and in no other. The bank means the list below with its changed words laid over it.
#[derive(Drop)]
pub struct Bank<P> {
    slots: [Option<Change>; 128],
    below: P,
    ghost full: { length slots ≡ 128 },
    ghost lies: { (slot : ℕ) → in_slot slot (slice_index_or slots slot None) ≡ true },
}

impl<P: PageStore> Bank<P> {
    /// A bank over a page, with every slot empty: it means what the page below means.
    pub fn new(below: P) -> Bank<P>
        ensures slots { result.slots ≡ replicate 128 None }
        ensures below { result.below ≡ below }
        ensures same { laid result.slots (P.words result.below) ≡ P.words below }
    {
        Bank {
            slots: [None; 128],
            below,
        }
    }

    /// The store below, to look at. What it means lacks the changed words that the slots still hold.
    pub fn below(&self) -> &P
        ensures { result.now ≡ self.now.below }
    {
        &self.below
    }

    /// Writes every changed word below and empties all slots. The bank then means what it meant, and so does the store
    /// below. A bank below keeps its own slots.
    pub fn drain(&mut self)
        ensures slots { self.new.slots ≡ replicate 128 None }
        ensures below { P.words self.new.below ≡ laid self.old.slots (P.words self.old.below) }
        ensures same { laid self.new.slots (P.words self.new.below) ≡ laid self.old.slots (P.words self.old.below) }
    {
        for slot in self.slots.iter_mut() {
            if let Some(change) = slot.take() {
                let _ = self.below.write(change.place, change.word);
            }
        }
    }

    /// Drains the bank and gives the store below back: it means what the bank meant.
    pub fn into_below(mut self) -> P
        ensures { P.words result ≡ laid self.slots (P.words self.below) }
    {
        self.drain();
        let Bank { slots: _, below } = self;
        below
    }

    // The changed word that the bank holds for a place, if it holds one.
    fn changed(&self, place: u16) -> Option<Word>
        ensures { result ≡ changed (slot_for self.now.slots place) place }
    {
        self.slots[(place % 128) as usize]
            .filter(|change| change.place == place)
            .map(|change| change.word)
    }

    // Writes below what the slot of a place holds for another place. Only places inside are ever put in a slot, and the
    // size below never changes, so that write is never outside.
    fn make_way(&mut self, place: u16)
        ensures slots { self.new.slots ≡ self.old.slots }
        ensures below { P.words self.new.below ≡ made_way (slot_for self.old.slots place) place (P.words self.old.below) }
    {
        if let Some(change) = self.slots[(place % 128) as usize] {
            if change.place != place {
                let _ = self.below.write(change.place, change.word);
            }
        }
    }
}

impl<P: PageStore> PageStore for Bank<P> {
    ghost words = { λ b. laid b.slots (P.PageStore.words b.below) };

    ghost bounded = { λ b. laid_at_most b.slots (P.PageStore.words b.below) (P.PageStore.bounded b.below) };

    #[tactic(auto, using(crate::proofs::Slots::length_laid))]
    fn size(&self) -> u16 {
        self.below.size()
    }

    #[tactic(auto, using(crate::proofs::Slots::length_laid, crate::proofs::Slots::laid_at))]
    fn read(&mut self, place: u16) -> Result<Word, Outside>
        ensures answer { result ≡ read_answer (laid self.old.slots (P.PageStore.words self.old.below)) place }
        ensures same { laid self.new.slots (P.PageStore.words self.new.below) ≡ laid self.old.slots (P.PageStore.words self.old.below) }
        ensures slots { self.new.slots ≡ self.old.slots }
        ensures below { P.PageStore.words self.new.below ≡ P.PageStore.words self.old.below }
    {
        if place >= self.below.size() {
            return Err(Outside);
        }
        match self.changed(place) {
            Some(word) => Ok(word),
            None => self.below.read(place),
        }
    }

    #[tactic(auto, using(crate::proofs::Slots::length_laid, std::proofs::lemmas::List::set_past))]
    fn write(&mut self, place: u16, word: Word) -> Result<(), Outside>
        ensures answer { result ≡ write_answer (laid self.old.slots (P.PageStore.words self.old.below)) place }
        ensures after { laid self.new.slots (P.PageStore.words self.new.below) ≡ slice_set (laid self.old.slots (P.PageStore.words self.old.below)) place word }
        ensures slots { self.new.slots ≡ slots_after self.old.slots (P.PageStore.words self.old.below) place word }
        ensures below { P.PageStore.words self.new.below ≡ below_after self.old.slots (P.PageStore.words self.old.below) place }
    {
        if place >= self.below.size() {
            return Err(Outside);
        }
        self.make_way(place);
        self.slots[(place % 128) as usize] = Some(Change { place, word });
        Ok(())
    }
}
