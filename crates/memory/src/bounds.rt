//! The numbers of cores, words and slots that a memory has room for, checked once.
ghost use Rattle.std.specs.Prelude.{◌≡◌, ◌/◌, ◌%◌, ◌<◌, true, ltb, if◌then◌else◌, Some, None, nat_lt};
ghost use Rattle.std.specs.Option.{option_map};

/// A number below a limit.
#[derive(Clone, Copy, PartialEq, Eq, Debug)]
pub struct Below<const LIMIT: u16> {
    pub(crate) number: u16,
    ghost within: { nat_lt number LIMIT ≡ true },
}

/// The number of a core: 0 to 7. A memory has a cache for each, whatever its figures.
pub type Core = Below<8>;

/// The place of a word on a page: 0 to 4,095. No page has more words.
pub type Place = Below<4096>;

/// The number of a slot in a core's cache: 0 to 63. A cache has room for each, whatever the figures.
pub(crate) type Slot = Below<64>;

impl<const LIMIT: u16> Below<LIMIT> {
    /// The number as one below the limit, if it is.
    pub fn new(number: u16) -> Option<Self>
        ensures { option_map (λ n. n.number) result ≡ (if ltb number LIMIT then Some number else None) }
    {
        if number < LIMIT {
            Some(Below { number })
        } else {
            None
        }
    }
}

/// A core's number.
impl From<Core> for u8 {
    ghost from_gives = { λ core number. number ≡ core.number };

    fn from(core: Core) -> u8 {
        core.number as u8
    }
}

/// A place's number.
impl From<Place> for u16 {
    ghost from_gives = { λ place number. number ≡ place.number };

    fn from(place: Place) -> u16 {
        place.number
    }
}

/// Where a copy stands: in a slot of a core's cache.
#[derive(Clone, Copy)]
pub(crate) struct Seat {
    pub(crate) core: Core,
    pub(crate) slot: Slot,
}

impl Seat {
    ghost use Rattle.memory.specs.Owners.{index_of};

    // The seat at a place among all entries.
    pub(crate) fn nth(at: usize) -> Seat
        requires { at < 512 }
        ensures core { result.core.number ≡ at / 64 }
        ensures slot { result.slot.number ≡ at % 64 }
    {
        Seat {
            core: Core {
                number: (at / 64) as u16,
            },
            slot: Slot {
                number: (at % 64) as u16,
            },
        }
    }

    // Its place among all entries: 64 for each core.
    pub(crate) fn index(self) -> usize
        ensures value { result ≡ index_of self }
        ensures within { result < 512 }
    {
        self.core.number as usize * 64 + self.slot.number as usize
    }
}
