//! What a call answers, and the record of it that a run keeps.
ghost use Rattle.std.specs.Prelude.{◌≡◌};
ghost use Rattle.call.specs.Calls.{caller_of, kind_of};
ghost use Rattle.call.specs.Told.{told, answer_told, given_told, refusal_told};

use crate::call::{Call, Kind};
use crate::refusal::{Access, Refusal};
use word::{Mark, Word};

/// What an accepted call answers. A call answers this or, if it is refused, why.
#[derive(Clone, Copy, PartialEq, Eq, Debug)]
pub enum Answer {
    /// A load: the word, and its source, 0 the core's own copy, 1 the page, 2 the owner's copy.
    Loaded(Word, u8),
    /// A store: 0, 1 or 2 for a copy that was owned by this core, by none or by another, and the mark it was given.
    Stored(u8, Mark),
    /// Any other call: its answer or number.
    Done(u16),
}

/// What an answer tells in numbers: the refusal's number, 0 if accepted; the source, answer or number; the value; the
/// mark. A race tells the earlier core, and 1 for a store or 0 for a load; every other place of a refusal is 0.
#[derive(Clone, Copy, PartialEq, Eq, Debug)]
pub struct Told {
    pub refusal: u8,
    pub small: u16,
    pub value: u32,
    pub mark: u32,
}

/// One line of a run: who called, what kind of call, and its answer or why it was refused.
#[derive(Clone, Copy, PartialEq, Eq, Debug)]
pub struct AnswerRecord {
    pub caller: u8,
    pub kind: Kind,
    pub answer: Result<Answer, Refusal>,
}

// The four numbers that an answer tells.
fn tells(refusal: u8, small: u16, value: u32, mark: u32) -> Told
    ensures { result ≡ told refusal small value mark }
{
    Told {
        refusal,
        small,
        value,
        mark,
    }
}

/// The refusal's number and values.
impl From<Refusal> for Told {
    ghost from_gives = { λ r t. t ≡ refusal_told r };

    fn from(refusal: Refusal) -> Told
        ensures { result ≡ refusal_told refusal }
    {
        match refusal {
            Refusal::NoCore => tells(1, 0, 0, 0),
            Refusal::OutsideBoard => tells(2, 0, 0, 0),
            Refusal::Waiting => tells(3, 0, 0, 0),
            Refusal::ReadOnly => tells(4, 0, 0, 0),
            Refusal::NotHolder => tells(5, 0, 0, 0),
            Refusal::Race(core, Access::Load) => tells(6, core as u16, 0, 0),
            Refusal::Race(core, Access::Store) => tells(6, core as u16, 1, 0),
            Refusal::AllowanceSpent => tells(7, 0, 0, 0),
            Refusal::NoLock => tells(8, 0, 0, 0),
            Refusal::HoldsLock => tells(9, 0, 0, 0),
            Refusal::NotHeld => tells(10, 0, 0, 0),
            Refusal::BadMode => tells(11, 0, 0, 0),
            Refusal::LockHeld => tells(12, 0, 0, 0),
            Refusal::Owned => tells(13, 0, 0, 0),
        }
    }
}

/// The values of an accepted call, with 0 for the refusal's number.
impl From<Answer> for Told {
    ghost from_gives = { λ a t. t ≡ given_told a };

    fn from(answer: Answer) -> Told
        ensures { result ≡ given_told answer }
    {
        match answer {
            Answer::Loaded(word, source) => tells(0, source as u16, word.value, word.mark.number()),
            Answer::Stored(answer, mark) => tells(0, answer as u16, 0, mark.number()),
            Answer::Done(small) => tells(0, small, 0, 0),
        }
    }
}

/// The number and values of a call's answer, accepted or refused.
impl From<Result<Answer, Refusal>> for Told {
    ghost from_gives = { λ a t. t ≡ answer_told a };

    fn from(answer: Result<Answer, Refusal>) -> Told
        ensures { result ≡ answer_told answer }
    {
        match answer {
            Ok(answer) => Told::from(answer),
            Err(refusal) => Told::from(refusal),
        }
    }
}

impl AnswerRecord {
    /// The record of a call and its answer.
    pub fn of(call: Call, answer: Result<Answer, Refusal>) -> AnswerRecord
        ensures { result ≡ record { caller = caller_of call; kind = kind_of call; answer = answer } }
    {
        AnswerRecord {
            caller: call.caller(),
            kind: call.kind(),
            answer,
        }
    }
}
