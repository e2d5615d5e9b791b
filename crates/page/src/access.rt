//! Reads and writes as values, so that a whole list of them can be spoken of and played.
use word::Word;

/// One access to a page: a read at a place, or a write of a word to a place.
#[derive(Clone, Copy)]
pub enum Access {
    Read(u16),
    Write(u16, Word),
}

/// What a page answers to one access inside it: the word read, or that the word is written.
#[derive(Clone, Copy, PartialEq, Eq, Debug)]
pub enum Reply {
    Gave(Word),
    Written,
}
