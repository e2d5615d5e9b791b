//! Any call, and its answer.
ghost use Rattle.std.specs.Prelude.{◌≡◌};
ghost use Rattle.board.specs.Obeying.{record_of, Obeys};

use super::Board;
use call::{Answer, AnswerRecord, Call, Refusal};
use locks::Grant;
use page::PageStore;
use signature::Signature;

impl<P: PageStore, S: Signature> Board<P, S> {
    /// Makes a call, and gives its answer, or why it is refused.
    pub fn answer(&mut self, call: Call) -> Result<Answer, Refusal>
        ensures { Obeys P.words S.operations self.old self.new call result }
    {
        let answer = match call {
            Call::Load(core, word) => {
                let (word, source) = self.load(core, word)?;
                Answer::Loaded(word, source)
            }
            Call::Store(core, word, value) => {
                let (owner, mark) = self.store(core, word, value)?;
                Answer::Stored(owner as u8, mark)
            }
            Call::Evict(core, word) => Answer::Done(self.evict(core, word)? as u16),
            Call::Acquire(core, lock) => Answer::Done(match self.acquire(core, lock)? {
                Grant::Granted(_) => 0,
                Grant::Queued => 1,
            }),
            Call::Release(core, lock) => {
                let next = self.release(core, lock)?;
                Answer::Done(next.map_or(0, |next| next as u16 + 1))
            }
            Call::Phase(plan) => Answer::Done(self.phase(plan)?),
            Call::Settle => Answer::Done(self.settle()),
        };
        Ok(answer)
    }

    /// Makes a call, and gives the record of it: who called, what kind of call, and its answer.
    pub fn record(&mut self, call: Call) -> AnswerRecord
        ensures value { result ≡ record_of call result.answer }
        ensures obeys { Obeys P.words S.operations self.old self.new call result.answer }
    {
        AnswerRecord::of(call, self.answer(call))
    }
}
