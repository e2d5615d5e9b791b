//! Loads: the word, with where it came from.
ghost use Rattle.std.specs.Prelude.{◌≡◌, ◌&&◌, Ok};
ghost use Rattle.call.specs.Figures.{figures};
ghost use Rattle.call.specs.declared.answer.Answer.TheVariants.{Loaded};
ghost use Rattle.call.specs.declared.call.Call.TheVariants.{Load};
ghost use Rattle.rules.specs.Plans.{mode_of, is_locked};
ghost use Rattle.board.specs.Obeying.{Performs, Obeys, answered, load_given};

use super::Board;
use call::{Access, Refusal};
use memory::{Core, Mode, Place};
use page::PageStore;
use signature::Signature;
use word::Word;

impl<P: PageStore, S: Signature> Board<P, S> {
    // Whether the core may have an old copy of the word: in a locked strip, where its signature holds the word.
    fn may_be_old(&self, core: Core, word: Place) -> bool
        ensures { result ≡ is_locked (mode_of (figures self.now.memory.figures) self.now.plan word.number) && S.operations.holds self.now.signature core.number word.number }
    {
        match self.mode(word) {
            Mode::ReadOnly | Mode::Written => false,
            Mode::Locked(_) => self.signature.ask(core.into(), word.into()),
        }
    }

    // A load that no check refuses.
    fn give(&mut self, core: Core, word: Place) -> (Word, u8)
        ensures { Performs P.words S.operations self.old self.new (Load core.number word.number) (Ok (Loaded result.0 result.1)) }
    {
        let again = self.may_be_old(core, word);
        let found = self.memory.load(core, word, again);
        self.races.note(Access::Load, core.into(), word.into());
        found
    }

    /// Gives a core a word, with where it came from: 0 its own copy, 1 the page, 2 its owner's copy. Refused in this order: 1 there is
    /// no such core, 2 no such word, 3 the core waits, 5 the strip is locked and the core does not hold its lock, 6 another core
    /// stored the word in this phase of a written strip.
    pub fn load(&mut self, core: u8, word: u16) -> Result<(Word, u8), Refusal>
        ensures { Obeys P.words S.operations self.old self.new (Load core word) (answered load_given result) }
    {
        let (core, word) = self.check_load(core, word)?;
        Ok(self.give(core, word))
    }
}
