//! The group of 8 bytes that spells a word: the value, then the mark's number, 4 bytes each, the highest byte first.
//! It stands apart from the word, since a word needs no bytes.
ghost use Rattle.std.specs.Prelude.{◌≡◌, ◌++◌};
ghost use Rattle.word.specs.Groups.{four_bytes, four_number, group_bytes, group_word};

use crate::mark::Mark;
use crate::word::Word;

/// The word that a group spells. An unlawful mark reads as the blank one, with the group's value.
impl From<[u8; 8]> for Word {
    ghost from_gives = { λ group word. word ≡ group_word group };

    fn from(group: [u8; 8]) -> Word {
        let (value, number) = halves_of(group);
        let mark = Mark::try_from(number).unwrap_or(Mark::blank());
        Word { value, mark }
    }
}

/// The group that spells a word.
impl From<Word> for [u8; 8] {
    ghost from_gives = { λ word group. group ≡ group_bytes word };

    #[tactic(auto, using(crate::proofs::Groups::group_back))]
    fn from(word: Word) -> [u8; 8]
        ensures value { result ≡ group_bytes word }
        ensures back { group_word result ≡ word }
    {
        spelled(word.value, word.mark.number())
    }
}

// The two numbers that a group spells.
fn halves_of(group: [u8; 8]) -> (u32, u32)
    ensures { result ≡ (four_number group 0, four_number group 4) }
{
    let [a, b, c, d, e, f, g, h] = group;
    (
        u32::from_be_bytes([a, b, c, d]),
        u32::from_be_bytes([e, f, g, h]),
    )
}

// The group that spells two numbers.
fn spelled(value: u32, number: u32) -> [u8; 8]
    ensures { result ≡ four_bytes value ++ four_bytes number }
{
    let [a, b, c, d] = value.to_be_bytes();
    let [e, f, g, h] = number.to_be_bytes();
    [a, b, c, d, e, f, g, h]
}
