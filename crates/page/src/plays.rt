//! A list of reads and writes, played on any page store or on a bank: the answers are those of a plain list of words.
ghost use Rattle.std.specs.Prelude.{◌≡◌, min, ◌++◌, length, take, drop, replicate, None};
ghost use Rattle.page.specs.Plays.{reply_of, list_after, replies_of, list_after_all};
ghost use Rattle.page.specs.Slots.{laid};

use crate::access::{Access, Reply};
use crate::bank::Bank;
use crate::outside::Outside;
use crate::store::PageStore;

/// Makes one access to a store: it answers as the list that the store means would, and then means what that list becomes.
pub fn serve<P: PageStore>(store: &mut P, access: Access) -> Result<Reply, Outside>
    ensures answer { result ≡ reply_of (P.words store.old) access }
    ensures after { P.words store.new ≡ list_after (P.words store.old) access }
{
    match access {
        Access::Read(place) => Ok(Reply::Gave(store.read(place)?)),
        Access::Write(place, word) => {
            store.write(place, word)?;
            Ok(Reply::Written)
        }
    }
}

/// Plays accesses on a store in their order, as many as there is room for answers, and gives their number. The answers are
/// those of the list that the store means; room past them is kept.
pub fn play<P: PageStore>(
    store: &mut P,
    accesses: &[Access],
    replies: &mut [Result<Reply, Outside>],
) -> usize
    ensures number { result ≡ min (length accesses.now) (length replies.old) }
    ensures answers { replies.new ≡ replies_of (P.words store.old) (take result accesses.now) ++ drop result replies.old }
    ensures after { P.words store.new ≡ list_after_all (P.words store.old) (take result accesses.now) }
{
    let number = accesses.len().min(replies.len());
    for (i, access) in accesses[..number].iter().enumerate() {
        replies[i] = serve(store, *access);
    }
    number
}

/// Plays accesses on a bank and drains it. The answers are those of a plain list of words that began as what the bank
/// meant, and at the end the bank with its slots empty and the store below both mean what that list has become.
pub fn play_and_drain<P: PageStore>(
    bank: &mut Bank<P>,
    accesses: &[Access],
    replies: &mut [Result<Reply, Outside>],
) -> usize
    ensures number { result ≡ min (length accesses.now) (length replies.old) }
    ensures answers { replies.new ≡ replies_of (laid bank.old.slots (P.words bank.old.below)) (take result accesses.now) ++ drop result replies.old }
    ensures after { laid bank.new.slots (P.words bank.new.below) ≡ list_after_all (laid bank.old.slots (P.words bank.old.below)) (take result accesses.now) }
    ensures below { P.words bank.new.below ≡ list_after_all (laid bank.old.slots (P.words bank.old.below)) (take result accesses.now) }
    ensures slots { bank.new.slots ≡ replicate 128 None }
{
    let number = play(bank, accesses, replies);
    bank.drain();
    number
}
