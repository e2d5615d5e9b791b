//! The byte store: words in bytes that the caller lends, in groups of 8.
ghost use Rattle.std.specs.Prelude.{◌≡◌, ◌*◌, ◌≤◌, length, slice_set};
ghost use Rattle.page.specs.ByteWords.{byte_size, byte_words, bytes_after};
ghost use Rattle.page.specs.Pages.{read_answer, write_answer};
ghost use Rattle.page.specs.Sizes.{bytes_at_most};

use crate::outside::Outside;
use crate::store::PageStore;
use word::Word;

/// A page in bytes that the caller lends: each whole group of 8 bytes is a word, 4,096 of them at most.
#[derive(Drop)]
pub struct Bytes<'a> {
    bytes: &'a mut [u8],
}

impl<'a> Bytes<'a> {
    /// The page that the lent bytes spell; making it changes none of them.
    pub fn new(bytes: &'a mut [u8]) -> Bytes<'a>
        ensures same { result.bytes.now ≡ bytes.old }
        ensures lent { result.bytes.ghost_name ≡ bytes.entry.ghost_name }
    {
        Bytes { bytes }
    }

    /// The bytes as they are now, to look at.
    pub fn as_bytes(&self) -> &[u8]
        ensures { result.now ≡ self.now.bytes.now }
    {
        &*self.bytes
    }
}

impl PageStore for Bytes<'_> {
    ghost words = { λ s. byte_words s.bytes.now };

    ghost bounded = { λ s. bytes_at_most s.bytes.now };

    #[tactic(auto, using(crate::proofs::ByteWords::length_words))]
    fn size(&self) -> u16
        ensures { result ≡ length (byte_words self.now.bytes.now) }
    {
        (self.bytes.len() / 8).min(4096) as u16
    }

    #[tactic(auto, using(crate::proofs::ByteWords::length_words))]
    fn read(&mut self, place: u16) -> Result<Word, Outside>
        ensures answer { result ≡ read_answer (byte_words self.old.bytes.now) place }
        ensures same { byte_words self.new.bytes.now ≡ byte_words self.old.bytes.now }
        ensures bytes { self.new.bytes.now ≡ self.old.bytes.now }
        ensures lent { self.new.bytes.ghost_name ≡ self.old.bytes.ghost_name }
    {
        if place >= self.size() {
            return Err(Outside);
        }
        let (groups, _) = self.as_bytes().as_chunks::<8>();
        Ok(Word::from(groups[place as usize]))
    }

    #[tactic(auto, using(crate::proofs::ByteWords::length_words))]
    fn write(&mut self, place: u16, word: Word) -> Result<(), Outside>
        ensures answer { result ≡ write_answer (byte_words self.old.bytes.now) place }
        ensures after { byte_words self.new.bytes.now ≡ slice_set (byte_words self.old.bytes.now) place word }
        ensures bytes { self.new.bytes.now ≡ bytes_after self.old.bytes.now place word }
        ensures lent { self.new.bytes.ghost_name ≡ self.old.bytes.ghost_name }
    {
        if place >= self.size() {
            return Err(Outside);
        }
        let at = place as usize * 8;
        self.bytes[at..at + 8].copy_from_slice(&<[u8; 8]>::from(word));
        Ok(())
    }
}
