//! Lists of changes made to a signature, and the law that no signature loses a word: what the exact signature holds after the
//! same changes, every signature holds.
ghost use Rattle.std.specs.Prelude.{◌≡◌};
ghost use Rattle.sets.specs.Sentences.{Within};
ghost use Rattle.signature.specs.Blooms.{fresh as fresh_bloom, held as held_bloom, operations as bloom_operations};
ghost use Rattle.signature.specs.Changes.{changed, applied};
ghost use Rattle.signature.specs.Exacts.{fresh as fresh_exact, held as held_exact, operations as exact_operations};

use super::Change;
use crate::bloom::Bloom;
use crate::exact::Exact;
use crate::interface::Signature;

// Makes one change.
fn make<S: Signature>(s: &mut S, change: Change)
    ensures { s.new ≡ changed S.operations s.old change }
{
    match change {
        Change::Put(core, word) => s.put(core, word),
        Change::TakeIn(core, other) => s.take_in(core, other),
        Change::Clear(core) => s.clear(core),
    }
}

// Makes one change to the exact signature and to another.
fn make_both<S: Signature>(exact: &mut Exact, other: &mut S, change: Change)
    ensures exactly { exact.new ≡ changed exact_operations exact.old change }
    ensures after { other.new ≡ changed S.operations other.old change }
    ensures never_loses { Within (held_exact exact.old) (S.operations.holds other.old) → Within (held_exact exact.new) (S.operations.holds other.new) }
{
    make(exact, change);
    make(other, change);
}

/// Makes a list of changes in turn, to any signature.
pub fn apply<S: Signature>(s: &mut S, changes: &[Change])
    ensures { s.new ≡ applied S.operations s.old changes.now }
{
    for change in changes {
        make(s, *change);
    }
}

/// Makes the same changes to the exact signature and to another, which loses no word: where at the start it held every word
/// that the exact one held for a core, it does so at the end, whatever the changes, their order and their numbers.
pub fn apply_to_both<S: Signature>(exact: &mut Exact, other: &mut S, changes: &[Change])
    ensures exactly { exact.new ≡ applied exact_operations exact.old changes.now }
    ensures after { other.new ≡ applied S.operations other.old changes.now }
    ensures never_loses { Within (held_exact exact.old) (S.operations.holds other.old) → Within (held_exact exact.new) (S.operations.holds other.new) }
{
    for change in changes {
        make_both(exact, other, *change);
    }
}

/// The exact and the Bloom signature after the same changes, both from all sets empty: every word that the exact signature
/// holds for a core the Bloom signature holds too.
pub fn both_after(changes: &[Change]) -> (Exact, Bloom)
    ensures exactly { result.0 ≡ applied exact_operations fresh_exact changes.now }
    ensures after { result.1 ≡ applied bloom_operations fresh_bloom changes.now }
    ensures never_loses { Within (held_exact result.0) (held_bloom result.1) }
{
    let mut exact = Exact::new();
    let mut bloom = Bloom::new();
    apply_to_both(&mut exact, &mut bloom, changes);
    (exact, bloom)
}
