//! Why a call is refused.

/// An access to a word: what a race names.
#[derive(Clone, Copy, PartialEq, Eq, Debug)]
pub enum Access {
    Load,
    Store,
}

/// Why a call is refused. The checks of a call go down this list, and the first that is met is given.
#[derive(Clone, Copy, PartialEq, Eq, Debug)]
pub enum Refusal {
    /// 1: the core is not below the board's number of cores.
    NoCore,
    /// 2: the word is not below the board's size.
    OutsideBoard,
    /// 3: the core waits for a lock.
    Waiting,
    /// 4: a store into a read-only strip.
    ReadOnly,
    /// 5: the strip is locked and the core does not hold its lock.
    NotHolder,
    /// 6: a race in a written strip, with the earlier core and its access.
    Race(u8, Access),
    /// 7: the core has made as many stores as it is allowed.
    AllowanceSpent,
    /// 8: there is no such lock.
    NoLock,
    /// 9: the core holds a lock already.
    HoldsLock,
    /// 10: the core does not hold this lock.
    NotHeld,
    /// 11: the plan has a mode from 2 to 7.
    BadMode,
    /// 12: some lock is held.
    LockHeld,
    /// 13: the word has an owner.
    Owned,
}
