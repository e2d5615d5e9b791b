//! How rows of bits are made, asked and altered.
ghost use Rattle.std.specs.Prelude.{◌≡◌, ℕ, ◌/◌, ◌<◌, ◌≤◌, false, MatchOption};
ghost use Rattle.sets.specs.Rows.{added, rows_taken_in, rows_cleared};
ghost use Rattle.sets.specs.Tables.{row_of, row_joined};
ghost use Rattle.signature.specs.Rows.{blank, bits, with_bit, taken_in, cleared};

use super::Rows;

impl<const WIDTH: usize> Rows<WIDTH> {
    /// Rows without bits.
    pub(crate) fn new() -> Self
        ensures value { result ≡ blank WIDTH }
        ensures empty { (d x : ℕ) → bits result d x ≡ false }
    {
        Rows {
            table: [[0; WIDTH]; 8],
        }
    }

    /// Whether a bit of a core's row is set; no above core 7 and past the row's end.
    #[tactic(auto, using(sets::proofs::Rows::rows_apart), unfolding(sets::specs::Tables::rows_of))]
    pub(crate) fn has(&self, core: u8, bit: usize) -> bool
        ensures { result ≡ bits self.now core bit }
    {
        core < 8 && bit / 64 < WIDTH && (self.table[core as usize][bit / 64] >> (bit % 64)) % 2 == 1
    }

    /// The row of a core; none above core 7.
    pub(crate) fn row(&self, core: u8) -> Option<&[u64; WIDTH]>
        ensures cases { MatchOption result (8 ≤ core) (λ row. (core < 8) × (row.now ≡ row_of self.now.table core)) }
    {
        self.table.get(core as usize)
    }

    /// Sets a bit of a core's row.
    pub(crate) fn add(&mut self, core: u8, bit: usize)
        requires { (core < 8) × (bit / 64 < WIDTH) }
        ensures after { self.new ≡ with_bit self.old core bit }
        ensures exactly { (d x : ℕ) → bits self.new d x ≡ added (bits self.old) core bit d x }
    {
        self.table[core as usize][bit / 64] |= 1 << (bit % 64);
    }

    /// Joins a core's row with another core's. Out of range no row is altered.
    pub(crate) fn take_in(&mut self, core: u8, other: u8)
        ensures after { self.new ≡ taken_in self.old core other }
        ensures exactly { (d x : ℕ) → bits self.new d x ≡ rows_taken_in (bits self.old) core other d x }
    {
        if core < 8 && other < 8 {
            self.table[core as usize] = joined(
                self.table[core as usize],
                self.table[other as usize],
            );
        }
    }

    /// Empties a core's row. Out of range no row is altered.
    pub(crate) fn clear(&mut self, core: u8)
        ensures after { self.new ≡ cleared self.old core }
        ensures exactly { (d x : ℕ) → bits self.new d x ≡ rows_cleared (bits self.old) core d x }
    {
        if core < 8 {
            self.table[core as usize] = [0; WIDTH];
        }
    }
}

// A row joined with another, word by word.
fn joined<const WIDTH: usize>(mut row: [u64; WIDTH], other: [u64; WIDTH]) -> [u64; WIDTH]
    ensures { result ≡ row_joined row.entry other.entry }
{
    for (i, word) in other.iter().enumerate() {
        row[i] |= *word;
    }
    row
}
