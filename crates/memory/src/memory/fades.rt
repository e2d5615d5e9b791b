//! The end of a phase: valid copies of strips that were not read-only go.
ghost use Rattle.std.specs.Prelude.{◌≡◌, ℕ, ◌/◌, ◌%◌, ◌<◌, ◌≤◌, cond, ◌&&◌, map, length};
ghost use Rattle.call.specs.Figures.{figures as numbers};
ghost use Rattle.rules.specs.Effects.{fade as rule, tally, dropped as drops_copy};
ghost use Rattle.memory.specs.Modes.{goes, left_by, drops};
ghost use Rattle.memory.specs.Views.{view, five_of, copies_of};
ghost use Rattle.memory.specs.Walks.{within, walked};

use super::Memory;
use super::settles::is_within;
use crate::bounds::Place;
use crate::entry::{Entry, Event};
use crate::mode::{Mode, mode_of};
use call::Figures;
use page::PageStore;

// Whether copies of a word go when a phase under this plan ends.
fn goes_at_end(figures: &Figures, plan: u64, word: Place) -> bool
    ensures { result ≡ goes (numbers figures.now) plan word.number }
{
    !matches!(mode_of(figures, plan, word.number), Mode::ReadOnly)
}

// The end of a phase at one entry: whether its copy is dropped, and the figures have its slot.
fn fade_at(figures: &Figures, plan: u64, at: usize, held: &mut Entry) -> bool
    ensures after { held.new ≡ left_by (numbers figures.now) plan held.old }
    ensures answer { result ≡ drops (numbers figures.now) plan held.old && within (numbers figures.now) at }
{
    goes_at_end(figures, plan, held.place)
        && held.turn(Event::Fade).is_dropped()
        && is_within(figures, at)
}

// The end of a phase at all entries: how many copies are dropped in the slots that the figures have.
fn fade_all(figures: &Figures, plan: u64, entries: &mut [Entry]) -> u16
    requires { length entries.old ≡ 512 }
    ensures after { entries.new ≡ map (left_by (numbers figures.now) plan) entries.old }
    ensures answer { result ≡ tally (λ p. drops_copy (numbers figures.now) plan (copies_of entries.old p.core p.slot)) (walked (numbers figures.now) 512) }
{
    let mut dropped = 0;
    for (at, held) in entries.iter_mut().enumerate() {
        dropped += fade_at(figures, plan, at, held) as u16;
    }
    dropped
}

impl<P: PageStore> Memory<P> {
    /// Ends a phase by its plan: valid copies of words whose strip was not read-only go, registered copies and owners stay. How
    /// many copies are dropped.
    pub fn fade(&mut self, plan: u64) -> u16
        ensures figures { self.new.figures ≡ self.old.figures }
        ensures answer { result ≡ (rule (five_of self.old) plan (view P.words self.old)).answer }
        ensures after { view P.words self.new ≡ (rule (five_of self.old) plan (view P.words self.old)).memory }
    {
        fade_all(&self.figures, plan, &mut self.entries)
    }
}
