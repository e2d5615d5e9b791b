//! The calls that cores and the conductor make on a board.
ghost use Rattle.std.specs.Prelude.{◌≡◌};
ghost use Rattle.call.specs.Calls.{caller_of, kind_of, letter_of};

/// The kind of a call.
#[derive(Clone, Copy, PartialEq, Eq, Debug)]
pub enum Kind {
    Load,
    Store,
    Evict,
    Acquire,
    Release,
    Phase,
    Settle,
}

/// A call on the board. Its numbers are any that fit their types: the board checks each of them, so a call that it
/// will refuse is a call too.
#[derive(Clone, Copy, PartialEq, Eq, Debug)]
pub enum Call {
    /// A core asks for a word: core, word.
    Load(u8, u16),
    /// A core writes a word: core, word, value.
    Store(u8, u16, u32),
    /// A core gives up its copy of a word: core, word.
    Evict(u8, u16),
    /// A core asks for a lock: core, lock.
    Acquire(u8, u8),
    /// A core gives a lock back: core, lock.
    Release(u8, u8),
    /// The conductor begins a phase under a plan.
    Phase(u64),
    /// The conductor has every owned word written to the page.
    Settle,
}

impl Kind {
    /// The letter of a call's kind, in jobs and in lines.
    pub fn letter(self) -> char
        ensures { result ≡ letter_of self }
    {
        match self {
            Kind::Load => 'L',
            Kind::Store => 'S',
            Kind::Evict => 'E',
            Kind::Acquire => 'A',
            Kind::Release => 'R',
            Kind::Phase => 'P',
            Kind::Settle => 'T',
        }
    }
}

impl Call {
    /// Who makes the call: the core's number, or 8 for the conductor.
    pub fn caller(self) -> u8
        ensures { result ≡ caller_of self }
    {
        match self {
            Call::Load(core, _)
            | Call::Store(core, _, _)
            | Call::Evict(core, _)
            | Call::Acquire(core, _)
            | Call::Release(core, _) => core,
            Call::Phase(_) | Call::Settle => 8,
        }
    }

    /// The kind of the call.
    pub fn kind(self) -> Kind
        ensures { result ≡ kind_of self }
    {
        match self {
            Call::Load(_, _) => Kind::Load,
            Call::Store(_, _, _) => Kind::Store,
            Call::Evict(_, _) => Kind::Evict,
            Call::Acquire(_, _) => Kind::Acquire,
            Call::Release(_, _) => Kind::Release,
            Call::Phase(_) => Kind::Phase,
            Call::Settle => Kind::Settle,
        }
    }
}
