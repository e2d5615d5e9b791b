//! What a slot of a bank holds.
use word::Word;

/// A changed word, and the place that it is for: what a filled slot of a bank holds until it is written below.
#[derive(Clone, Copy)]
pub struct Change {
    pub place: u16,
    pub word: Word,
}
