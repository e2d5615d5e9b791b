//! How a memory is opened over a page, and taken apart again.
ghost use Rattle.std.specs.Prelude.{◌≡◌, ◌≤◌, length, replicate, None, slice_index_or, slice_set};
ghost use Rattle.call.specs.Figures.{figures as numbers};
ghost use Rattle.rules.specs.State.{unmarked, opened, size_of, empty_caches};
ghost use Rattle.word.specs.Words.{blank_word};
ghost use Rattle.memory.specs.Entries.{empty};
ghost use Rattle.memory.specs.Views.{view};

use super::Memory;
use super::loads::page_word;
use crate::entry::Entry;
use call::Figures;
use page::PageStore;
use word::Word;

// The same value with a blank mark.
fn without_mark(x: Word) -> Word
    ensures { result ≡ unmarked x }
{
    Word {
        value: x.value,
        ..Word::blank()
    }
}

// The word at a place loses its mark. The place is below the page's size, so the write is done and its answer may be let go.
fn unmark_at<P: PageStore>(page: &mut P, word: u16)
    ensures { P.words page.new ≡ slice_set (P.words page.old) word (unmarked (slice_index_or (P.words page.old) word blank_word)) }
{
    let old = page_word(page, word);
    let _ = page.write(word, without_mark(old));
}

// The first words of a page lose their marks, in rising order.
fn unmark<P: PageStore>(page: &mut P, size: u16)
    requires { size ≤ length (P.words page.old) }
    ensures { P.words page.new ≡ opened size (P.words page.old) }
{
    for word in 0..size {
        unmark_at(page, word);
    }
}

// How many words of a page a board uses: as many as its figures allow and the page has.
pub(super) fn size_with<P: PageStore>(figures: &Figures, page: &P) -> u16
    ensures value { result ≡ size_of (numbers figures.now) (P.words page.now) }
    ensures inside { result ≤ length (P.words page.now) }
    ensures most { result ≤ 4096 }
{
    figures.words().min(page.size())
}

impl<P: PageStore> Memory<P> {
    /// A memory over a page: no copies and no owners. Each page word below the memory's size keeps its value and loses its
    /// mark, in rising order; words from there on stay.
    pub fn open(figures: Figures, mut page: P) -> Memory<P>
        ensures figures { result.figures ≡ figures }
        ensures after { view P.words result ≡ empty_caches (opened (size_of (numbers figures) (P.words page)) (P.words page)) }
    {
        let size = size_with(&figures, &page);
        unmark(&mut page, size);
        Memory {
            figures,
            page,
            entries: [Entry::empty(); 512],
            owners: [None; 4096],
        }
    }

    /// The page, as it stands: words whose registered copy was not settled are as they were before.
    pub fn into_page(self) -> P
        ensures { result ≡ self.page }
    {
        self.page
    }
}
