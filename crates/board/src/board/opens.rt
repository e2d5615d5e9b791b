//! How a board is opened over a page and a signature, and taken apart again.
ghost use Rattle.std.specs.Prelude.{◌≡◌, ◌≤◌, List, [], replicate};
ghost use Rattle.call.specs.Figures.{figures as numbers};
ghost use Rattle.locks.specs.Views.{locks_of};
ghost use Rattle.races.specs.Remembered.{Remembers};
ghost use Rattle.rules.specs.State.{free, size_of, opening};
ghost use Rattle.rules.specs.Steps.{changed_by, clear_all};
ghost use Rattle.board.specs.Views.{view};

use super::Board;
use super::phases::clear_all;
use call::Figures;
use locks::Locks;
use memory::Memory;
use page::PageStore;
use races::Races;
use signature::Signature;

impl<P: PageStore, S: Signature> Board<P, S> {
    /// Opens a board: its size is the smaller of its figures' words and the page's size. Each page word below that keeps its value and
    /// loses its mark, and words from there on stay; signatures are cleared, caches empty, no word has an owner, locks are free and every
    /// strip is read-only. It is never refused.
    pub fn open(figures: Figures, page: P, mut signature: S) -> Board<P, S>
        ensures figures { result.memory.figures ≡ figures }
        ensures size { result.size ≡ size_of (numbers figures) (P.words page) }
        ensures state { view P.words result [] ≡ opening (numbers figures) (P.words page) }
        ensures remembers { Remembers result.races [] }
        ensures signature { result.signature ≡ changed_by S.operations signature clear_all }
    {
        let memory = Memory::open(figures, page);
        let size = memory.size();
        clear_all(&mut signature);
        Board {
            memory,
            signature,
            locks: Locks::free(),
            races: Races::new(),
            counts: [0; 8],
            plan: 0,
            size,
        }
    }

    /// Takes the board apart: its page, on which words whose registered copy was not settled are as they were before, and its
    /// signature.
    pub fn into_parts(self) -> (P, S)
        ensures page { result.0 ≡ self.memory.page }
        ensures signature { result.1 ≡ self.signature }
    {
        (self.memory.into_page(), self.signature)
    }
}
