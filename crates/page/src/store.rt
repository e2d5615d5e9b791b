//! What every page store promises: it means a list of words, and its calls answer by that list alone.
ghost use Rattle.std.specs.Prelude.{◌≡◌, ◌≤◌, List, length, slice_set};
ghost use Rattle.page.specs.Pages.{read_answer, write_answer};
ghost use Rattle.word.specs.declared.word.Word.{Word};

use crate::outside::Outside;
use word::Word;

/// A page store means a list of words. Its size is the list's length, at most 4,096, and never changes. Every value of
/// a store's type is a store: no call asks anything of its caller.
pub trait PageStore {
    /// The list of words that the store means.
    ghost words: { Self → List Word };

    /// No page has more than 4,096 words.
    ghost bounded: { (s : Self) → length (words s) ≤ 4096 };

    /// The number of words.
    fn size(&self) -> u16
        ensures { result ≡ length (words self.now) };

    /// The word at `place`, if it is below the size. The store may act to read, but what it means stays.
    fn read(&mut self, place: u16) -> Result<Word, Outside>
        ensures answer { result ≡ read_answer (words self.old) place }
        ensures same { words self.new ≡ words self.old };

    /// Replaces the word at `place`, if it is below the size; every other place keeps its word.
    fn write(&mut self, place: u16, word: Word) -> Result<(), Outside>
        ensures answer { result ≡ write_answer (words self.old) place }
        ensures after { words self.new ≡ slice_set (words self.old) place word };
}
