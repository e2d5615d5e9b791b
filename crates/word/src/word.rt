//! The word: what a place of the page and a copy in a cache hold.
ghost use Rattle.std.specs.Prelude.{◌≡◌};
ghost use Rattle.word.specs.Words.{blank_word};

use crate::mark::Mark;

/// A word of the page: a value, and the mark of the store that wrote it.
#[derive(Clone, Copy, PartialEq, Eq, Debug)]
pub struct Word {
    pub value: u32,
    pub mark: Mark,
}

impl Word {
    /// A word of value 0 that no core has stored.
    pub fn blank() -> Word
        ensures { result ≡ blank_word }
    {
        Word {
            value: 0,
            mark: Mark::blank(),
        }
    }
}
