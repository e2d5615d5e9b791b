//! The mark of a word: which store wrote it. Definitions that name the type are imported where a method cites them.
ghost use Rattle.std.specs.Prelude.{◌≡◌, ℕ, ◌<◌, ◌≤◌, true, MatchOption, MatchResult};
ghost use Rattle.word.specs.Lawful.{lawful, Lawful, Stores, mark_of};

use std::error::Error;
use std::fmt;

/// Which store wrote a word: blank, 0, for a word that no core has stored since the board was opened; else the number
/// core × 1,048,576 + count, of a core 0 to 7 and that core's count of accepted stores, 1 to 1,000,000, this one
/// included. No mark with another number exists.
#[derive(Clone, Copy, PartialEq, Eq, Debug)]
pub struct Mark {
    number: u32,
    ghost law: { lawful number ≡ true },
}

/// A number that no mark has.
#[derive(Clone, Copy, PartialEq, Eq, Debug)]
pub struct NoMark {
    pub number: u32,
}

// Whether a number is that of a mark.
fn is_lawful(number: u32) -> bool
    ensures { result ≡ lawful number }
{
    let count = number % 1_048_576;
    number == 0 || number < 8_388_608 && 1 <= count && count <= 1_000_000
}

impl Mark {
    ghost use Rattle.word.specs.Marks.{number, core_of, count_of};

    /// The mark of a word that no core has stored.
    pub fn blank() -> Mark
        ensures { number result ≡ 0 }
    {
        Mark { number: 0 }
    }

    /// The mark of a core's store, by its count; none for a core above 7 or a count that is 0 or above 1,000,000.
    pub fn of_store(core: u8, count: u32) -> Option<Mark>
        ensures value { MatchOption result (Stores core count → ⊥) (λ m. Stores core count × (number m ≡ mark_of core count)) }
        ensures apart { (d k : ℕ) → Stores core count → Stores d k → mark_of core count ≡ mark_of d k → (core ≡ d) × (count ≡ k) }
    {
        if core < 8 && 1 <= count && count <= 1_000_000 {
            Some(Mark {
                number: core as u32 * 1_048_576 + count,
            })
        } else {
            None
        }
    }

    /// The mark's number.
    pub fn number(self) -> u32
        ensures { result ≡ number self }
    {
        let number = self.number;
        number
    }

    /// The core whose store the mark tells; none of a blank mark.
    pub fn core(self) -> Option<u8>
        ensures { result ≡ core_of (number self) }
    {
        if self.number == 0 {
            return None;
        }
        Some((self.number / 1_048_576) as u8)
    }

    /// The count of that store among its core's, itself included; 0 of a blank mark.
    pub fn count(self) -> u32
        ensures { result ≡ count_of (number self) }
    {
        self.number % 1_048_576
    }
}

/// The mark with a number, if the number is lawful: the only way from a number to a mark.
impl TryFrom<u32> for Mark {
    ghost use Rattle.word.specs.Marks.{mark_read};

    type Error = NoMark;

    ghost try_from_gives = { λ n read. read ≡ mark_read n };

    fn try_from(n: u32) -> Result<Mark, NoMark>
        ensures value { result ≡ mark_read n }
        ensures exactly { MatchResult result (λ _. Lawful n) (λ _. Lawful n → ⊥) }
    {
        if is_lawful(n) {
            Ok(Mark { number: n })
        } else {
            Err(NoMark { number: n })
        }
    }
}

impl fmt::Display for NoMark {
    ghost use Rattle.std.specs.Prelude.{◌++◌, Some, codes};
    ghost use Rattle.std.specs.Fmt.{decimal};

    ghost output = { λ refused. Some (codes "no mark has the number " ++ decimal refused.number) };

    fn fmt<W: fmt::Write>(&self, f: &mut fmt::Formatter<W>) -> fmt::Result {
        write!(f, "no mark has the number {}", self.number)
    }
}

impl Error for NoMark {}

#[cfg(test)]
mod tests {
    use super::*;
    use std::test::Fail;

    // The largest mark, the number above it, and a core's mark with count 0.
    #[test]
    fn lawful_numbers(rt: HostRuntime) {
        assert!(rt; Mark::try_from(8_340_032).is_ok());
        assert!(rt; Mark::try_from(8_340_033).is_err());
        assert!(rt; Mark::try_from(1_048_576).is_err());
        assert!(rt; Mark::try_from(0).is_ok());
    }

    #[test]
    fn parts_of_a_mark(rt: HostRuntime) -> Result<(), Fail> {
        let Some(mark) = Mark::of_store(7, 1_000_000) else {
            return Err(Fail::new("no mark"));
        };
        assert!(rt; mark.number() == 8_340_032);
        assert!(rt; mark.core() == Some(7));
        assert!(rt; mark.count() == 1_000_000);
        assert!(rt; Mark::blank().core() == None);
        assert!(rt; Mark::of_store(8, 1).is_none());
        assert!(rt; Mark::of_store(0, 0).is_none());
        assert!(rt; Mark::of_store(0, 1_000_001).is_none());
        Ok(())
    }
}
