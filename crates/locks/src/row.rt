//! One lock as it is kept, and what is done to it.
ghost use Rattle.std.specs.Prelude.{◌≡◌, ◌<◌, true, length, is_some};
ghost use Rattle.rules.specs.State.{free};
ghost use Rattle.rules.specs.Steps.{acquired_by, released_to, forgetting};
ghost use Rattle.locks.specs.Rows.{granted, passed_to};

use crate::grant::Grant;
use arrayvec::ArrayVec;
use std::marker::Model;

/// A lock: its holder, its last releaser, and the cores that wait for it in turn, who are seven at most.
#[derive(Drop)]
pub struct Row {
    holder: Option<u8>,
    last: Option<u8>,
    queue: ArrayVec<u8, 7>,
}

// A clause sees a lock of the rules.
impl Model for Row {
    ghost use Rattle.rules.specs.State.{Lock};

    ghost Value = { Lock };

    ghost view = { λ row. record { holder = row.holder; queue = row.queue.items; last = row.last } };
}

impl Row {
    /// A lock that nobody holds and nobody has released.
    pub(crate) fn free() -> Row
        ensures { result ≡ free }
    {
        Row {
            holder: None,
            last: None,
            queue: ArrayVec::new(),
        }
    }

    /// The core that holds the lock, if any.
    pub(crate) fn holder(&self) -> Option<u8>
        ensures { result ≡ self.now.holder }
    {
        self.holder
    }

    /// Gives a free lock to the core, or queues the core last.
    pub(crate) fn acquire(&mut self, core: u8) -> Grant
        requires { is_some self.old.holder ≡ true → length self.old.queue < 7 }
        ensures answer { result ≡ granted self.old.holder self.old }
        ensures after { self.new ≡ acquired_by self.old.holder self.old core }
    {
        match self.holder {
            None => {
                self.holder = Some(core);
                Grant::Granted(self.last)
            }
            Some(_) => {
                self.queue.push(core);
                Grant::Queued
            }
        }
    }

    /// Passes the lock to the first in the queue, if there is one, and remembers who released it.
    pub(crate) fn release(&mut self, core: u8) -> Option<u8>
        ensures answer { result ≡ passed_to self.old.queue }
        ensures after { self.new ≡ released_to self.old.queue core }
    {
        self.last = Some(core);
        self.holder = self.queue.pop_at(0);
        self.holder
    }

    /// Forgets the last releaser.
    pub(crate) fn forget(&mut self)
        ensures { self.new ≡ forgetting self.old }
    {
        self.last = None;
    }
}
