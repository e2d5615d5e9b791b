//! Loads: from the core's own copy, from the page, or from the owner's copy.
ghost use Rattle.std.specs.Prelude.{◌≡◌, false, get_or, None, slice_index_or, slice_set};
ghost use Rattle.rules.specs.Effects.{load as rule, fetch as fetched};
ghost use Rattle.word.specs.Words.{blank_word};
ghost use Rattle.memory.specs.Entries.{empty};
ghost use Rattle.memory.specs.Owners.{index_of, is_registered};
ghost use Rattle.memory.specs.Views.{view, five_of, word_by, source_by};
ghost use Rattle.memory.specs.declared.entry.State.TheVariants.{Valid};

use super::Memory;
use crate::bounds::{Core, Place, Seat};
use crate::entry::{Entry, State};
use page::PageStore;
use word::Word;

// The page's word at a place; past the page's end it reads as a blank word.
pub(super) fn page_word<P: PageStore>(page: &mut P, word: u16) -> Word
    ensures answer { result ≡ slice_index_or (P.words page.old) word blank_word }
    ensures same { P.words page.new ≡ P.words page.old }
{
    page.read(word).unwrap_or(Word::blank())
}

impl<P: PageStore> Memory<P> {
    // A word as its owner has it or, without an owner, as it is on the page, and which of the two.
    fn current(&mut self, word: Place) -> (Word, u8)
        ensures word { result.0 ≡ word_by (slice_index_or self.old.owners word.number None) (five_of self.old) (P.words self.old.page) self.old.entries word.number }
        ensures source { result.1 ≡ source_by (slice_index_or self.old.owners word.number None) }
        ensures figures { self.new.figures ≡ self.old.figures }
        ensures entries { self.new.entries ≡ self.old.entries }
        ensures owners { self.new.owners ≡ self.old.owners }
        ensures page { P.words self.new.page ≡ P.words self.old.page }
    {
        match self.owner_at(word) {
            Some(owner) => (self.entries[self.seat(owner, word).index()].word, 2),
            None => (page_word(&mut self.page, word.number), 1),
        }
    }

    // A slot that holds no registered copy is filled with a valid one.
    fn fill(&mut self, at: Seat, word: Place, found: Word)
        requires { is_registered (get_or self.old.entries (index_of at) empty).state ≡ false }
        ensures figures { self.new.figures ≡ self.old.figures }
        ensures entries { self.new.entries ≡ slice_set self.old.entries (index_of at) (record { state = Valid; place = word; word = found }) }
        ensures owners { self.new.owners ≡ self.old.owners }
        ensures page { P.words self.new.page ≡ P.words self.old.page }
    {
        self.entries[at.index()] = Entry {
            state: State::Valid,
            place: word,
            word: found,
        };
    }

    // A word that the core has not, or may have an older one of: the slot's old word makes way first.
    fn fetch(&mut self, core: Core, word: Place) -> (Word, u8)
        ensures figures { self.new.figures ≡ self.old.figures }
        ensures word { result.0 ≡ (fetched (five_of self.old) (view P.words self.old) core.number word.number).word }
        ensures source { result.1 ≡ (fetched (five_of self.old) (view P.words self.old) core.number word.number).source }
        ensures after { view P.words self.new ≡ (fetched (five_of self.old) (view P.words self.old) core.number word.number).memory }
    {
        let at = self.seat(core, word);
        let _ = self.write_back(at);
        let (found, source) = self.current(word);
        self.fill(at, word, found);
        (found, source)
    }

    /// Gives a core a word, with where it came from: 0 its own copy, 1 the page, 2 the owner's copy. A valid copy is fetched
    /// again where `again` says that the core may have an older word. A registered copy of another word in the slot is
    /// written to the page first.
    pub fn load(&mut self, core: Core, word: Place, again: bool) -> (Word, u8)
        ensures figures { self.new.figures ≡ self.old.figures }
        ensures word { result.0 ≡ (rule (five_of self.old) (view P.words self.old) again core.number word.number).word }
        ensures source { result.1 ≡ (rule (five_of self.old) (view P.words self.old) again core.number word.number).source }
        ensures after { view P.words self.new ≡ (rule (five_of self.old) (view P.words self.old) again core.number word.number).memory }
    {
        let (state, held) = self.found(core, word);
        match (state, again) {
            (State::Invalid, _) | (State::Valid, true) => self.fetch(core, word),
            (State::Valid, false) | (State::Registered, _) => (held, 0),
        }
    }
}
