//! The two questions, which alter nothing.
ghost use Rattle.std.specs.Prelude.{◌≡◌};
ghost use Rattle.memory.specs.Views.{view as memory_view};
ghost use Rattle.rules.specs.Questions.{peek as peeked, owned as owned_words};
ghost use Rattle.board.specs.Obeying.{Unaltered};
ghost use Rattle.board.specs.Views.{setting_of};

use super::Board;
use call::Refusal;
use page::PageStore;
use signature::Signature;
use word::Word;

impl<P: PageStore, S: Signature> Board<P, S> {
    /// The page's word at a place, if it has no owner. Refused in this order: 2 there is no such word, 13 the word has an owner.
    pub fn peek(&mut self, word: u16) -> Result<Word, Refusal>
        ensures answer { result ≡ peeked (setting_of self.old) (memory_view P.words self.old.memory) word }
        ensures same { Unaltered P.words self.old self.new }
    {
        if word >= self.size {
            return Err(Refusal::OutsideBoard);
        }
        if self.memory.owner(word).is_some() {
            return Err(Refusal::Owned);
        }
        Ok(self.memory.peek_word(word))
    }

    /// How many words have an owner.
    pub fn owned(&self) -> u16
        ensures { result ≡ owned_words (setting_of self.now) (memory_view P.words self.now.memory) }
    {
        self.memory.owned_below(self.size)
    }
}
