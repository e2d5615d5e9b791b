//! How a phase's accesses are noted, asked for and forgotten.
ghost use Rattle.std.specs.Prelude.{◌≡◌, ℕ, ◌<◌, List, [], ◌∷◌, ◌++◌};
ghost use Rattle.races.specs.Remembered.{Remembers};
ghost use Rattle.rules.specs.State.{Accessed};
ghost use Rattle.rules.specs.Refusals.{earliest};

use super::Races;
use crate::seen::Seen;
use call::Access;

impl Races {
    /// Nothing remembered.
    pub fn new() -> Races
        ensures { Remembers result [] }
    {
        Races {
            seen: [Seen::nothing(0); 4096],
            stamp: 1,
        }
    }

    /// Begins a new phase: nothing is remembered any more.
    pub fn forget(&mut self)
        ensures { Remembers self.new [] }
    {
        if self.stamp == u16::MAX {
            *self = Races::new();
        } else {
            self.stamp += 1;
        }
    }

    /// Notes an access of a core to a word; a word past the table is not remembered.
    pub fn note(&mut self, access: Access, core: u8, word: u16)
        ensures { (accesses : List Accessed) → Remembers self.old accesses → Remembers self.new (accesses ++ (record { core = core; word = word; access = access } ∷ [])) }
    {
        if word >= 4_096 {
            return;
        }
        let seen = &mut self.seen[word as usize];
        *seen = seen.in_phase(self.stamp).with(access, core);
    }

    /// The earliest core other than this one that made an access of this kind to the word in this phase; none of a word past the
    /// table.
    pub fn by_another(&self, access: Access, core: u8, word: u16) -> Option<u8>
        ensures { (accesses : List Accessed) → Remembers self.now accesses → word < 4096 → result ≡ earliest access core word accesses }
    {
        self.seen
            .get(word as usize)?
            .in_phase(self.stamp)
            .other_than(access, core)
    }
}

// Examples: whom a race would name, a new phase, and a word past the table.
#[cfg(test)]
mod tests {
    use super::*;

    // Core 3 loads word 7 before core 5: to core 3 the earliest other loader is 5, to every other core 3.
    #[test]
    fn first_loaders(rt: HostRuntime) {
        let mut races = Races::new();
        races.note(Access::Load, 3, 7);
        races.note(Access::Load, 5, 7);
        races.note(Access::Load, 6, 7);
        assert!(rt; races.by_another(Access::Load, 3, 7) == Some(5));
        assert!(rt; races.by_another(Access::Load, 6, 7) == Some(3));
        assert!(rt; races.by_another(Access::Store, 6, 7) == None);
    }

    // A new phase remembers nothing of the one before, and notes anew.
    #[test]
    fn forgotten(rt: HostRuntime) {
        let mut races = Races::new();
        races.note(Access::Store, 1, 4_095);
        assert!(rt; races.by_another(Access::Store, 0, 4_095) == Some(1));
        races.forget();
        assert!(rt; races.by_another(Access::Store, 0, 4_095) == None);
        races.note(Access::Store, 2, 4_095);
        assert!(rt; races.by_another(Access::Store, 0, 4_095) == Some(2));
    }

    #[test]
    fn past_the_table(rt: HostRuntime) {
        let mut races = Races::new();
        races.note(Access::Store, 1, 4_096);
        assert!(rt; races.by_another(Access::Store, 0, 4_096) == None);
    }
}
