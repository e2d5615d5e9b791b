//! Proved examples: a word written straight into bytes, and one that goes through a bank over a bank over bytes.
ghost use Rattle.std.specs.Prelude.{◌≡◌, slice_set};
ghost use Rattle.page.specs.ByteWords.{byte_words, bytes_after};
ghost use Rattle.page.specs.Pages.{read_answer};

use page::{Bank, Bytes, Outside, PageStore};
use word::Word;

/// Writes a word into bytes. They end with the word's group at its place, and every other byte as it was.
pub fn put_in_bytes(bytes: &mut [u8], place: u16, word: Word)
    ensures { bytes.new ≡ bytes_after bytes.old place word }
{
    let mut store = Bytes::new(bytes);
    let _ = store.write(place, word);
}

/// Writes a word through a bank over a bank over a store, drains both, and gives the store back.
pub fn through_two_banks<P: PageStore>(store: P, place: u16, word: Word) -> P
    ensures { P.words result ≡ slice_set (P.words store) place word }
{
    let mut outer = Bank::new(Bank::new(store));
    let _ = outer.write(place, word);
    outer.into_below().into_below()
}

/// Writes a word through a bank over a bank over bytes, drains both, and reads it from the bytes.
pub fn through_to_bytes(bytes: &mut [u8], place: u16, word: Word) -> Result<Word, Outside>
    ensures { result ≡ read_answer (slice_set (byte_words bytes.old) place word) place }
{
    let mut store = through_two_banks(Bytes::new(bytes), place, word);
    store.read(place)
}
