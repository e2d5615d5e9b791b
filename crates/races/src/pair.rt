//! The first two different cores that made an access.
ghost use Rattle.std.specs.Prelude.{◌≡◌};
ghost use Rattle.races.specs.Pairs.{nobody, noted, other_than};

/// The first core that made an access, and the first core other than it.
#[derive(Clone, Copy)]
pub struct Pair {
    first: Option<u8>,
    second: Option<u8>,
}

impl Pair {
    /// Nobody yet.
    pub fn nobody() -> Pair
        ensures { result ≡ nobody }
    {
        Pair {
            first: None,
            second: None,
        }
    }

    /// Notes an access by a core.
    pub fn note(&mut self, core: u8)
        ensures { self.new ≡ noted self.old core }
    {
        match (self.first, self.second) {
            (None, _) => *self = Pair {
                first: Some(core),
                second: None,
            },
            (Some(first), None) if first != core => self.second = Some(core),
            (Some(_), _) => {}
        }
    }

    /// The earliest core other than this one.
    pub fn other_than(&self, core: u8) -> Option<u8>
        ensures { result ≡ other_than self.now core }
    {
        if self.first == Some(core) {
            self.second
        } else {
            self.first
        }
    }
}
