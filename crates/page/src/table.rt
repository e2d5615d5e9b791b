//! The table store: 4,096 words in a table of its own. As a page store it means its table.
ghost use Rattle.std.specs.Prelude.{◌≡◌, ◌≤◌, length, replicate, slice_set};
ghost use Rattle.page.specs.Pages.{read_answer, write_answer};
ghost use Rattle.page.specs.Sizes.{at_most};
ghost use Rattle.word.specs.Words.{blank_word};

use crate::outside::Outside;
use crate::store::PageStore;
use word::Word;

/// A page of 4,096 words in a table of its own.
#[derive(Drop)]
pub struct Table {
    cells: [Word; 4096],
    ghost full: { length cells ≡ 4096 },
}

impl Table {
    /// A table with every word 0 and its mark blank.
    pub fn new() -> Table
        ensures { result.cells ≡ replicate 4096 blank_word }
    {
        Table {
            cells: [Word::blank(); 4096],
        }
    }

    /// The words as they are now, to look at.
    pub fn cells(&self) -> &[Word]
        ensures { result.now ≡ self.now.cells }
    {
        &self.cells
    }
}

impl PageStore for Table {
    ghost words = { λ s. s.cells };

    ghost bounded = { λ s. at_most s.cells 4096 s.full };

    fn size(&self) -> u16 {
        4096
    }

    fn read(&mut self, place: u16) -> Result<Word, Outside>
        ensures answer { result ≡ read_answer self.old.cells place }
        ensures same { self.new.cells ≡ self.old.cells }
    {
        self.cells.get(place as usize).copied().ok_or(Outside)
    }

    fn write(&mut self, place: u16, word: Word) -> Result<(), Outside>
        ensures answer { result ≡ write_answer self.old.cells place }
        ensures after { self.new.cells ≡ slice_set self.old.cells place word }
    {
        if place >= self.size() {
            return Err(Outside);
        }
        self.cells[place as usize] = word;
        Ok(())
    }
}
