//! The check that makes figures, and what they tell: each figure, the strip of a word and its slot.
ghost use Rattle.std.specs.Prelude.{◌≡◌, ℕ, ◌<◌, MatchResult};
ghost use Rattle.call.specs.Figures.{five, figures, checked, by_numbers, Broken, strip_of, slot_of};
ghost use Rattle.call.specs.Told.{figure_number};
ghost use Rattle.call.specs.declared.fault.FigureFault.{FigureFault as Fault};

use super::Figures;
use crate::fault::FigureFault;

impl Figures {
    /// Checks five numbers, row by row: figures where no row is broken, else the first that is.
    pub fn check(
        cores: u8,
        slots: u8,
        words: u16,
        strip: u16,
        allowance: u32,
    ) -> Result<Figures, FigureFault>
        ensures value { by_numbers result ≡ checked (five cores slots words strip allowance) }
        ensures exactly { MatchResult result (λ _. (e : Fault) → Broken e (five cores slots words strip allowance) → ⊥) (λ e. Broken e (five cores slots words strip allowance) × ((d : Fault) → figure_number d < figure_number e → Broken d (five cores slots words strip allowance) → ⊥)) }
    {
        if cores == 0 || cores > 8 {
            return Err(FigureFault::Cores);
        }
        if slots == 0 || slots > 64 {
            return Err(FigureFault::Slots);
        }
        if words == 0 || words > 4_096 {
            return Err(FigureFault::Words);
        }
        if strip == 0 || strip > 4_096 || words as u32 > 16 * strip as u32 {
            return Err(FigureFault::Strip);
        }
        if allowance == 0 || allowance > 1_000_000 {
            return Err(FigureFault::Allowance);
        }
        Ok(Figures {
            cores,
            slots,
            words,
            strip,
            allowance,
        })
    }

    /// How many cores share the board.
    pub fn cores(&self) -> u8
        ensures { result ≡ (figures self.now).cores }
    {
        self.cores
    }

    /// How many slots each core's cache has.
    pub fn slots(&self) -> u8
        ensures { result ≡ (figures self.now).slots }
    {
        self.slots
    }

    /// How many words of the page the board uses at the most.
    pub fn words(&self) -> u16
        ensures { result ≡ (figures self.now).words }
    {
        self.words
    }

    /// How many words make a strip.
    pub fn strip(&self) -> u16
        ensures { result ≡ (figures self.now).strip }
    {
        self.strip
    }

    /// How many stores each core may make.
    pub fn allowance(&self) -> u32
        ensures { result ≡ (figures self.now).allowance }
    {
        self.allowance
    }

    /// The strip of a word: the only place where it is computed.
    pub fn strip_of(&self, word: u16) -> u16
        ensures { result ≡ strip_of (figures self.now) word }
    {
        word / self.strip
    }

    /// The slot of a word in each core's cache: the only place where it is computed.
    pub fn slot_of(&self, word: u16) -> u8
        ensures { result ≡ slot_of (figures self.now) word }
    {
        (word % self.slots as u16) as u8
    }
}

#[cfg(test)]
mod tests {
    use super::*;

    // Sixteen strips of four words hold 64 words and not 65.
    #[test]
    fn sixteen_strips(rt: HostRuntime) {
        assert!(rt; Figures::check(2, 4, 64, 4, 10).is_ok());
        assert!(rt; fault_of(2, 4, 65, 4, 10) == Some(FigureFault::Strip));
    }

    // The first broken row is told, at both ends of each range.
    #[test]
    fn first_broken_row(rt: HostRuntime) {
        assert!(rt; fault_of(0, 0, 0, 0, 0) == Some(FigureFault::Cores));
        assert!(rt; fault_of(9, 65, 1, 1, 1) == Some(FigureFault::Cores));
        assert!(rt; fault_of(8, 65, 0, 1, 1) == Some(FigureFault::Slots));
        assert!(rt; fault_of(8, 64, 4_097, 0, 1) == Some(FigureFault::Words));
        assert!(rt; fault_of(8, 64, 4_096, 4_097, 0) == Some(FigureFault::Strip));
        assert!(rt; fault_of(8, 64, 4_096, 256, 1_000_001) == Some(FigureFault::Allowance));
        assert!(rt; Figures::check(8, 64, 4_096, 4_096, 1_000_000).is_ok());
    }

    fn fault_of(
        cores: u8,
        slots: u8,
        words: u16,
        strip: u16,
        allowance: u32,
    ) -> Option<FigureFault> {
        Figures::check(cores, slots, words, strip, allowance).err()
    }
}
