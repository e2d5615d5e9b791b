//! The interface of a signature: what it means, and the sentences that each signature shows of itself.
ghost use Rattle.std.specs.Prelude.{◌≡◌, ℕ};
ghost use Rattle.sets.specs.Operations.{Operations};
ghost use Rattle.sets.specs.Sentences.{Put, TakenIn, Cleared, Bounded};

/// For each core 0 to 7 a set of words 0 to 4,095, in which more words may be than were put: a false alarm costs a fetch, a
/// lost word would let a core read an old copy. Code that is generic in a signature has what its methods leave by equality,
/// and proofs above use the sentences alone.
pub trait Signature {
    // What it means, and what it is after a put, a take in and a clear.
    ghost operations: { Operations Self };

    // Outside the ranges nothing is held.
    ghost bounded: { (s : Self) → Bounded (operations.holds s) };

    // Put leaves the core's set holding the word and all it held.
    ghost puts: { (s : Self) (core word : ℕ) → Put (operations.holds s) (operations.holds (operations.put s core word)) core word };

    // Take in leaves the core's set holding all it held and all that the other core's set holds.
    ghost takes_in: { (s : Self) (core other : ℕ) → TakenIn (operations.holds s) (operations.holds (operations.take_in s core other)) core other };

    // Clear adds nothing to the core's set.
    ghost clears: { (s : Self) (core : ℕ) → Cleared (operations.holds s) (operations.holds (operations.clear s core)) core };

    /// Whether the core's set holds the word; no outside the ranges.
    fn ask(&self, core: u8, word: u16) -> bool
        ensures { result ≡ operations.holds self.now core word };

    /// Puts a word into a core's set. Outside the ranges no set is altered.
    fn put(&mut self, core: u8, word: u16)
        ensures { self.new ≡ operations.put self.old core word };

    /// Lets a core's set take in all that another core's set holds. Outside the ranges no set is altered.
    fn take_in(&mut self, core: u8, other: u8)
        ensures { self.new ≡ operations.take_in self.old core other };

    /// Clears a core's set, as far as the signature can. Outside the range no set is altered.
    fn clear(&mut self, core: u8)
        ensures { self.new ≡ operations.clear self.old core };
}
