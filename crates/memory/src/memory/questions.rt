//! What can be asked of a memory. No question changes it.
ghost use Rattle.std.specs.Prelude.{◌≡◌, ◌≤◌, is_some, count_by, take};
ghost use Rattle.rules.specs.Questions.{owned_among};
ghost use Rattle.rules.specs.State.{size_of, page_word};
ghost use Rattle.rules.specs.Tables.{below};
ghost use Rattle.memory.specs.Views.{view, five_of};

use super::Memory;
use super::loads::page_word;
use super::opens::size_with;
use crate::bounds::{Core, Place};
use call::Figures;
use page::PageStore;
use word::Word;

// How many of the first owners of a table are there.
fn owned_first(owners: &[Option<Core>], size: u16) -> u16
    ensures { result ≡ count_by is_some (take size owners.now) }
{
    owners
        .iter()
        .take(size as usize)
        .filter(|owner| owner.is_some())
        .count() as u16
}

impl<P: PageStore> Memory<P> {
    /// The figures that it was opened with.
    pub fn figures(&self) -> Figures
        ensures { result ≡ self.now.figures }
    {
        self.figures
    }

    /// How many words it has: as many as its figures allow and its page has.
    pub fn size(&self) -> u16
        ensures value { result ≡ size_of (five_of self.now) (P.words self.now.page) }
        ensures most { result ≤ 4096 }
    {
        size_with(&self.figures, &self.page)
    }

    /// The core that owns a word, if there is one. A word past the table has no owner.
    pub fn owner(&self, word: u16) -> Option<u8>
        ensures { result ≡ (view P.words self.now).owners word }
    {
        let place = Place::new(word)?;
        let owner = self.owner_at(place)?;
        Some(owner.into())
    }

    /// The page's word at a place, whoever owns it; past the page's end a blank word.
    pub fn peek_word(&mut self, word: u16) -> Word
        ensures answer { result ≡ page_word (view P.words self.old) word }
        ensures figures { self.new.figures ≡ self.old.figures }
        ensures after { view P.words self.new ≡ view P.words self.old }
    {
        page_word(&mut self.page, word)
    }

    /// How many words have an owner.
    pub fn owned(&self) -> u16
        ensures { result ≡ owned_among (view P.words self.now) (below (size_of (five_of self.now) (P.words self.now.page))) }
    {
        self.owned_below(self.size())
    }

    /// How many of the first words have an owner.
    pub fn owned_below(&self, size: u16) -> u16
        ensures { result ≡ owned_among (view P.words self.now) (below size) }
    {
        owned_first(&self.owners, size)
    }
}
