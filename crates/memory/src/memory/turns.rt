//! What an event does to an entry in its slot, with what is due for the page and for the owners.
ghost use Rattle.std.specs.Prelude.{◌≡◌, ◌<◌, length, get_or, slice_index_or, slice_set};
ghost use Rattle.rules.specs.Effects.{write_back};
ghost use Rattle.memory.specs.Entries.{empty, turned, done_by};
ghost use Rattle.memory.specs.Owners.{index_of, is_registered};
ghost use Rattle.memory.specs.Views.{view, page_after, owners_after};
ghost use Rattle.memory.specs.declared.entry.Event.TheVariants.{Settle};

use super::Memory;
use crate::bounds::Seat;
use crate::entry::{Done, Entry, Event};
use page::PageStore;

// An event at one of some entries.
fn turn_in(entries: &mut [Entry], at: usize, event: Event) -> Done
    requires { at < length entries.old }
    ensures after { entries.new ≡ slice_set entries.old at (turned (slice_index_or entries.old at empty) event) }
    ensures answer { result ≡ done_by (get_or entries.old at empty).state event }
{
    entries[at].turn(event)
}

impl<P: PageStore> Memory<P> {
    // An event at an entry, with what is due for the page and for the owners. The place of a word that is due may lie past the
    // page's end: then the page has no such word, and the answer of the write may be let go.
    pub(super) fn turn_at(&mut self, at: Seat, event: Event) -> Done
        ensures figures { self.new.figures ≡ self.old.figures }
        ensures entries { self.new.entries ≡ slice_set self.old.entries (index_of at) (turned (slice_index_or self.old.entries (index_of at) empty) event) }
        ensures page { P.words self.new.page ≡ page_after (done_by (get_or self.old.entries (index_of at) empty).state event) (slice_index_or self.old.entries (index_of at) empty) (P.words self.old.page) }
        ensures owners { self.new.owners ≡ owners_after (done_by (get_or self.old.entries (index_of at) empty).state event) (slice_index_or self.old.entries (index_of at) empty) self.old.owners }
        ensures answer { result ≡ done_by (get_or self.old.entries (index_of at) empty).state event }
    {
        let at = at.index();
        let held = self.entries[at];
        let done = turn_in(&mut self.entries, at, event);
        match done {
            Done::Kept | Done::Dropped => {}
            Done::Written => {
                self.owners[held.place.number as usize] = None;
                let _ = self.page.write(held.place.number, held.word);
            }
            Done::Taken => self.owners[held.place.number as usize] = None,
        }
        done
    }

    // A slot's registered copy is written to the page, loses its owner and becomes valid; any other copy stays. Whether
    // there was one.
    pub(super) fn write_back(&mut self, at: Seat) -> bool
        ensures figures { self.new.figures ≡ self.old.figures }
        ensures entries { self.new.entries ≡ slice_set self.old.entries (index_of at) (turned (slice_index_or self.old.entries (index_of at) empty) Settle) }
        ensures after { view P.words self.new ≡ write_back (view P.words self.old) at.core.number at.slot.number }
        ensures answer { result ≡ is_registered (get_or self.old.entries (index_of at) empty).state }
    {
        self.turn_at(at, Event::Settle).is_written()
    }
}
