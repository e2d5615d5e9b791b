//! The exact signature.
ghost use Rattle.std.specs.Prelude.{◌≡◌, ℕ, false};
ghost use Rattle.sets.specs.Rows.{words_put, rows_taken_in, rows_cleared};
ghost use Rattle.signature.specs.Exacts.{fresh, held, put as put_exact, taken_in, cleared, operations as exact_operations, bounded as is_bounded, puts as put_sentence, takes, clears_it};

use crate::interface::Signature;
use crate::rows::Rows;

/// The signature that holds just what is named: a bit for each word of each core, 64 words of 64 bits a core.
#[derive(Drop)]
pub struct Exact {
    rows: Rows<64>,
}

impl Exact {
    /// The exact signature whose sets are all empty.
    pub fn new() -> Exact
        ensures value { result ≡ fresh }
        ensures empty { (core word : ℕ) → held result core word ≡ false }
    {
        Exact { rows: Rows::new() }
    }
}

impl Signature for Exact {
    ghost operations = { exact_operations };

    ghost bounded = { is_bounded };

    ghost puts = { put_sentence };

    ghost takes_in = { takes };

    ghost clears = { clears_it };

    fn ask(&self, core: u8, word: u16) -> bool {
        self.rows.has(core, word as usize)
    }

    /// The core's set gains the word alone.
    fn put(&mut self, core: u8, word: u16)
        ensures after { self.new ≡ put_exact self.old core word }
        ensures exactly { (d v : ℕ) → held self.new d v ≡ words_put (held self.old) core word d v }
    {
        if core < 8 && word < 4096 {
            self.rows.add(core, word as usize);
        }
    }

    /// The core's set gains the words of the other core's set alone.
    fn take_in(&mut self, core: u8, other: u8)
        ensures after { self.new ≡ taken_in self.old core other }
        ensures exactly { (d v : ℕ) → held self.new d v ≡ rows_taken_in (held self.old) core other d v }
    {
        self.rows.take_in(core, other);
    }

    /// The core's set is empty afterwards.
    fn clear(&mut self, core: u8)
        ensures after { self.new ≡ cleared self.old core }
        ensures exactly { (d v : ℕ) → held self.new d v ≡ rows_cleared (held self.old) core d v }
    {
        self.rows.clear(core);
    }
}
