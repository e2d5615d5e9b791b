//! Signatures: for each core the set of words that it has to fetch again. The interface by its sentences, the exact signature
//! and the Bloom signature.
#![tactic(auto)]

pub mod bloom;
pub mod change;
pub mod exact;
pub mod interface;
mod rows;

pub use bloom::Bloom;
pub use change::Change;
pub use exact::Exact;
pub use interface::Signature;

// Examples: small fills, words that collide, the ranges, and sets that are taken in and cleared.
#[cfg(test)]
mod tests {
    use crate::bloom::Bloom;
    use crate::change::Change;
    use crate::change::apply::{apply, both_after};
    use crate::exact::Exact;
    use crate::interface::Signature;
    use std::process::Abort;

    #[test]
    fn two_words_fill_three_bits(rt: HostRuntime) {
        let mut bloom = Bloom::new();
        assert_eq!(rt; bloom.fill(0), 0);
        bloom.put(0, 0);
        bloom.put(0, 1);
        assert_eq!(rt; bloom.fill(0), 3);
        assert_eq!(rt; bloom.ask(0, 1), true);
        assert_eq!(rt; bloom.ask(0, 257), false);
        assert_eq!(rt; bloom.fill(1), 0);
        assert_eq!(rt; bloom.fill(8), 0);
    }

    // The bits of 3335 are those of 1 the other way round, and 3336 has one bit alone, the first of 8.
    #[test]
    fn words_collide(rt: HostRuntime) {
        let (exact, bloom) = both_after(&[Change::Put(3, 1), Change::Put(4, 8)]);
        assert_eq!(rt; bloom.ask(3, 3335), true);
        assert_eq!(rt; bloom.ask(4, 3336), true);
        assert_eq!(rt; exact.ask(3, 3335), false);
        assert_eq!(rt; exact.ask(4, 3336), false);
    }

    #[test]
    fn fills_up_and_empties(rt: HostRuntime) {
        let mut bloom = Bloom::new();
        for word in 0u16..256 {
            bloom.put(7, word);
        }
        assert_eq!(rt; bloom.fill(7), 256);
        assert_eq!(rt; bloom.ask(7, 4095), true);
        assert_eq!(rt; bloom.ask(7, 4096), false);
        bloom.clear(7);
        assert_eq!(rt; bloom.fill(7), 0);
    }

    // Core 2 takes in core 1's set before core 1 is cleared; the numbers out of range alter nothing.
    fn taken_in<S: Signature>(rt: &impl Abort, s: &mut S) {
        apply(
            s,
            &[
                Change::Put(1, 4095),
                Change::Put(2, 64),
                Change::TakeIn(2, 1),
                Change::Clear(1),
            ],
        );
        apply(
            s,
            &[
                Change::Put(8, 5),
                Change::Put(1, 4096),
                Change::TakeIn(1, 8),
                Change::TakeIn(8, 2),
                Change::Clear(8),
            ],
        );
        assert_eq!(rt; s.ask(2, 4095), true);
        assert_eq!(rt; s.ask(2, 64), true);
        assert_eq!(rt; s.ask(1, 4095), false);
        assert_eq!(rt; s.ask(8, 5), false);
    }

    #[test]
    fn takes_in_and_clears(rt: HostRuntime) {
        taken_in(&rt, &mut Exact::new());
        taken_in(&rt, &mut Bloom::new());
    }
}
