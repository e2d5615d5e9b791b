//! What a phase has seen of one word.
ghost use Rattle.std.specs.Prelude.{◌≡◌};
ghost use Rattle.call.specs.declared.refusal.Access.TheVariants.{Load, Store};
ghost use Rattle.races.specs.Pairs.{nobody, other_than};
ghost use Rattle.races.specs.Remembered.{current, noted_in, pair_of};

use crate::pair::Pair;
use call::Access;

/// The first loaders and the first storers of a word in the phase with this stamp; of no meaning in any other phase.
#[derive(Clone, Copy)]
pub struct Seen {
    pub stamp: u16,
    pub loads: Pair,
    pub stores: Pair,
}

impl Seen {
    /// Nothing, under this stamp.
    pub(crate) fn nothing(stamp: u16) -> Seen
        ensures { result ≡ record { stamp = stamp; loads = nobody; stores = nobody } }
    {
        Seen {
            stamp,
            loads: Pair::nobody(),
            stores: Pair::nobody(),
        }
    }

    /// What the phase with this stamp has seen: nothing, if the stamp is another's.
    pub(crate) fn in_phase(self, stamp: u16) -> Seen
        ensures { result ≡ record { stamp = stamp; loads = current self stamp Load; stores = current self stamp Store } }
    {
        if self.stamp == stamp {
            self
        } else {
            Seen::nothing(stamp)
        }
    }

    /// The same with one more access of a core.
    pub fn with(mut self, access: Access, core: u8) -> Seen
        ensures { result ≡ noted_in access self core }
    {
        match access {
            Access::Load => self.loads.note(core),
            Access::Store => self.stores.note(core),
        }
        self
    }

    /// The earliest core other than this one that made an access of this kind.
    pub(crate) fn other_than(&self, access: Access, core: u8) -> Option<u8>
        ensures { result ≡ other_than (pair_of self.now access) core }
    {
        match access {
            Access::Load => self.loads.other_than(core),
            Access::Store => self.stores.other_than(core),
        }
    }
}
