//! The Bloom signature.
ghost use Rattle.std.specs.Prelude.{◌≡◌, ℕ, false};
ghost use Rattle.sets.specs.Fills.{bits_set, fill as fill_of};
ghost use Rattle.sets.specs.Rows.{bits_put, rows_taken_in, rows_cleared, first_bit, second_bit};
ghost use Rattle.sets.specs.Tables.{row_bit};
ghost use Rattle.signature.specs.Blooms.{fresh, bits, put as put_bloom, taken_in, cleared, operations as bloom_operations, bounded as is_bounded, puts as put_sentence, takes, clears_it};

use crate::interface::Signature;
use crate::rows::Rows;

/// The signature of 256 bits a core, four words of 64 bits. Word w sets bits w mod 256 and (w div 16 + 7 × w) mod 256, and is
/// held when both are set: it never loses a word, and may hold one that was not put.
#[derive(Drop)]
pub struct Bloom {
    rows: Rows<4>,
}

// The first bit of a word.
fn first_bit(word: u16) -> usize
    ensures { result ≡ first_bit word }
{
    word as usize % 256
}

// The second bit of a word.
fn second_bit(word: u16) -> usize
    ensures { result ≡ second_bit word }
{
    (word as usize / 16 + 7 * word as usize) % 256
}

// How many bits of a row are set.
fn ones(row: &[u64; 4]) -> u16
    ensures { result ≡ bits_set (row_bit row.now) 256 }
{
    row.iter().map(|word| word.count_ones()).sum::<u32>() as u16
}

impl Bloom {
    /// The Bloom signature whose bits are all 0.
    pub fn new() -> Bloom
        ensures value { result ≡ fresh }
        ensures empty { (core x : ℕ) → bits result core x ≡ false }
    {
        Bloom { rows: Rows::new() }
    }

    /// How many of a core's 256 bits are set; 0 of a core above 7.
    #[tactic(auto, unfolding(sets::specs::Tables::rows_of))]
    pub fn fill(&self, core: u8) -> u16
        ensures { result ≡ fill_of (bits self.now) core }
    {
        self.rows.row(core).map_or(0, ones)
    }
}

impl Signature for Bloom {
    ghost operations = { bloom_operations };

    ghost bounded = { is_bounded };

    ghost puts = { put_sentence };

    ghost takes_in = { takes };

    ghost clears = { clears_it };

    fn ask(&self, core: u8, word: u16) -> bool {
        word < 4096 && self.rows.has(core, first_bit(word)) && self.rows.has(core, second_bit(word))
    }

    /// The word's two bits are set in the core's row, and no other bit is altered.
    fn put(&mut self, core: u8, word: u16)
        ensures after { self.new ≡ put_bloom self.old core word }
        ensures exactly { (d x : ℕ) → bits self.new d x ≡ bits_put (bits self.old) core word d x }
    {
        if core < 8 && word < 4096 {
            self.rows.add(core, first_bit(word));
            self.rows.add(core, second_bit(word));
        }
    }

    /// The bits of the other core's row are set in the core's row, and no other bit is altered.
    fn take_in(&mut self, core: u8, other: u8)
        ensures after { self.new ≡ taken_in self.old core other }
        ensures exactly { (d x : ℕ) → bits self.new d x ≡ rows_taken_in (bits self.old) core other d x }
    {
        self.rows.take_in(core, other);
    }

    /// No bit of the core's row is set afterwards, and no other bit is altered.
    fn clear(&mut self, core: u8)
        ensures after { self.new ≡ cleared self.old core }
        ensures exactly { (d x : ℕ) → bits self.new d x ≡ rows_cleared (bits self.old) core d x }
    {
        self.rows.clear(core);
    }
}
