//! A cache entry and the table of what happens to it: one row for each state and event.
ghost use Rattle.std.specs.Prelude.{◌≡◌, if◌then◌else◌, nat_eq};
ghost use Rattle.memory.specs.Entries.{empty, turned, done_by, is_written, is_dropped};
ghost use Rattle.memory.specs.declared.entry.State.TheVariants.{Invalid};

use crate::bounds::Place;
use word::Word;

/// Whether an entry holds a copy: none, one that may be read, or the one that counts, whose core owns the word.
#[derive(Clone, Copy, PartialEq, Eq, Debug)]
pub enum State {
    Invalid,
    Valid,
    Registered,
}

/// Who owned a word when it was stored.
#[derive(Clone, Copy, PartialEq, Eq, Debug)]
pub enum Owner {
    /// The core that stores it.
    Itself,
    /// No core.
    Nobody,
    /// Another core, whose copy is gone then.
    Another,
}

/// What can happen to an entry in its slot.
#[derive(Clone, Copy)]
pub enum Event {
    /// The word is to be on the page: by a settle, or since another word wants the slot.
    Settle,
    /// Its core gives the copy up.
    Evict,
    /// Another core stores the word.
    Taken,
    /// A phase ends in which the word's strip was not read-only.
    Fade,
}

/// What an event did to an entry, so that its caller knows what else is due.
#[derive(Clone, Copy)]
pub enum Done {
    /// Nothing changed.
    Kept,
    /// A copy that did not count is gone.
    Dropped,
    /// The word is due on the page, and has no owner any more.
    Written,
    /// The word has no owner any more, and is not due on the page.
    Taken,
}

impl Done {
    // Whether the word is due on the page.
    pub(crate) fn is_written(self) -> bool
        ensures { result ≡ is_written self }
    {
        matches!(self, Done::Written)
    }

    // Whether a copy that did not count is gone.
    pub(crate) fn is_dropped(self) -> bool
        ensures { result ≡ is_dropped self }
    {
        matches!(self, Done::Dropped)
    }
}

/// An entry: its state, and the word that it holds with the word's place on the page. Of an invalid entry both say nothing.
#[derive(Clone, Copy)]
pub struct Entry {
    pub state: State,
    pub place: Place,
    pub word: Word,
}

impl Entry {
    // An entry that holds nothing.
    pub(crate) fn empty() -> Entry
        ensures { result ≡ empty }
    {
        Entry {
            state: State::Invalid,
            place: Place { number: 0 },
            word: Word::blank(),
        }
    }

    // What an event does to the entry, by its state.
    pub(crate) fn turn(&mut self, event: Event) -> Done
        ensures after { self.new ≡ turned self.old event }
        ensures answer { result ≡ done_by self.old.state event }
    {
        match (self.state, event) {
            (State::Invalid, _) | (State::Valid, Event::Settle) => Done::Kept,
            (State::Valid, Event::Evict | Event::Taken | Event::Fade) => self.leave(
                State::Invalid,
                Done::Dropped,
            ),
            (State::Registered, Event::Settle) => self.leave(State::Valid, Done::Written),
            (State::Registered, Event::Evict) => self.leave(State::Invalid, Done::Written),
            (State::Registered, Event::Taken) => self.leave(State::Invalid, Done::Taken),
            (State::Registered, Event::Fade) => Done::Kept,
        }
    }

    // The state of a word's copy, if the entry is looked at for that word: an entry of another word is invalid.
    pub(crate) fn state_for(&self, word: Place) -> State
        ensures { result ≡ (if nat_eq self.now.place.number word.number then self.now.state else Invalid) }
    {
        if self.place == word {
            self.state
        } else {
            State::Invalid
        }
    }

    // The entry leaves its state for another, and that is what was done.
    fn leave(&mut self, state: State, done: Done) -> Done
        ensures after { self.new ≡ record { state = state; place = self.old.place; word = self.old.word } }
        ensures answer { result ≡ done }
    {
        self.state = state;
        done
    }
}
