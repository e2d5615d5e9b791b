//! What a core does about locks.
ghost use Rattle.std.specs.Prelude.{◌≡◌, ◌<◌, length, IfSome};
ghost use Rattle.locks.specs.Ties.{waiting, holding, holder_of, attending, handed};

use crate::grant::Grant;

/// What a core does about locks: a core holds or waits for at most one.
#[derive(Clone, Copy)]
pub enum Attendance {
    /// It neither holds a lock nor waits for one.
    Away,
    /// It holds this lock.
    Holds(u8),
    /// It waits for this lock.
    Waits(u8),
}

impl Attendance {
    /// Whether the core waits for a lock.
    pub(crate) fn is_waiting(self) -> bool
        ensures { result ≡ waiting self }
    {
        matches!(self, Attendance::Waits(_))
    }

    /// Whether the core holds a lock.
    pub(crate) fn is_holding(self) -> bool
        ensures { result ≡ holding self }
    {
        matches!(self, Attendance::Holds(_))
    }

    /// Whether the core holds this lock.
    pub(crate) fn holds(self, lock: u8) -> bool
        ensures { result ≡ holder_of self lock }
    {
        matches!(self, Attendance::Holds(held) if held == lock)
    }

    /// What a core does once its acquire of the lock is answered.
    pub(crate) fn after(grant: Grant, lock: u8) -> Attendance
        ensures { result ≡ attending grant lock }
    {
        match grant {
            Grant::Granted(_) => Attendance::Holds(lock),
            Grant::Queued => Attendance::Waits(lock),
        }
    }
}

/// Notes that a core has released the lock, and that the next, if there is one, holds it.
pub(crate) fn hand_over(cores: &mut [Attendance], core: u8, next: Option<u8>, lock: u8)
    requires { (core < length cores.old) × (IfSome next (λ n. n < length cores.old)) }
    ensures { cores.new ≡ handed cores.old core next lock }
{
    cores[core as usize] = Attendance::Away;
    if let Some(next) = next {
        cores[next as usize] = Attendance::Holds(lock);
    }
}
