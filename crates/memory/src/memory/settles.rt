//! Settle: every registered copy is written to the page.
ghost use Rattle.std.specs.Prelude.{◌≡◌, ℕ, ◌/◌, ◌%◌, ◌<◌, ◌≤◌, cond, ◌&&◌, get_or, if◌then◌else◌, slice_index_or};
ghost use Rattle.call.specs.Figures.{figures as numbers};
ghost use Rattle.rules.specs.Effects.{settle as rule, write_back};
ghost use Rattle.memory.specs.Entries.{empty};
ghost use Rattle.memory.specs.Owners.{is_registered};
ghost use Rattle.memory.specs.Views.{view, five_of};
ghost use Rattle.memory.specs.Walks.{within as has};

use super::Memory;
use crate::bounds::Seat;
use call::Figures;
use page::PageStore;

// Whether the figures have the core and the slot of an entry's place among all entries.
pub(super) fn is_within(figures: &Figures, at: usize) -> bool
    ensures { result ≡ has (numbers figures.now) at }
{
    at / 64 < figures.cores() as usize && at % 64 < figures.slots() as usize
}

impl<P: PageStore> Memory<P> {
    // One entry written back, if the figures have it: whether it was a registered copy.
    fn settle_at(&mut self, at: usize) -> bool
        requires { at < 512 }
        ensures figures { self.new.figures ≡ self.old.figures }
        ensures rest { (k : ℕ) → at < k → slice_index_or self.new.entries k empty ≡ slice_index_or self.old.entries k empty }
        ensures after { view P.words self.new ≡ (if has (five_of self.old) at then write_back (view P.words self.old) (at / 64) (at % 64) else view P.words self.old) }
        ensures answer { result ≡ has (five_of self.old) at && is_registered (get_or self.old.entries at empty).state }
    {
        is_within(&self.figures, at) && self.write_back(Seat::nth(at))
    }

    /// Writes every registered copy to the page, in rising order of cores and slots: each becomes valid and its word has no
    /// owner any more. How many there were.
    pub fn settle(&mut self) -> u16
        ensures figures { self.new.figures ≡ self.old.figures }
        ensures answer { result ≡ (rule (five_of self.old) (view P.words self.old)).answer }
        ensures after { view P.words self.new ≡ (rule (five_of self.old) (view P.words self.old)).memory }
    {
        let mut settled = 0;
        for at in 0..512 {
            settled += self.settle_at(at) as u16;
        }
        settled
    }
}
