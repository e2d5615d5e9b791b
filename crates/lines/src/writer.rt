//! Texts and numbers written one after another over the bytes of a buffer.
ghost use Rattle.std.specs.Prelude.{◌≡◌, ◌+◌, ◌≤◌, ◌<◌, ◌^◌, [], ◌∷◌, ◌++◌, length, decimal};
ghost use Rattle.lines.specs.Writing.{Added};

use itoa::Buffer;

// Writes into the first bytes of a buffer. The bytes from `end` on keep what they held.
#[derive(Drop)]
pub(crate) struct Writer<'a> {
    pub(crate) out: &'a mut [u8],
    pub(crate) end: usize,
}

// Always inlined: with a call for each number, lines of short numbers took up to three times as long.
impl Writer<'_> {
    // Adds a byte.
    #[inline(always)]
    pub(crate) fn byte(&mut self, byte: u8)
        requires { self.old.end < length self.old.out.now }
        ensures { Added self.old (byte ∷ []) self.new }
    {
        self.out[self.end] = byte;
        self.end += 1;
    }

    // Adds a text.
    #[inline(always)]
    pub(crate) fn text(&mut self, text: &[u8])
        requires { self.old.end + length text.now ≤ length self.old.out.now }
        ensures { Added self.old text.now self.new }
    {
        let end = self.end + text.len();
        self.out[self.end..end].copy_from_slice(text);
        self.end = end;
    }

    // Adds a number, without leading zeros.
    #[inline(always)]
    fn number(&mut self, n: u32)
        requires { self.old.end + 10 ≤ length self.old.out.now }
        ensures { Added self.old (decimal n) self.new }
    {
        let mut digits = Buffer::new();
        self.text(digits.format(n).as_bytes());
    }

    // Adds a number and the byte that ends its field. One digit, as most numbers of lines are, is added with that byte.
    #[inline(always)]
    pub(crate) fn field(&mut self, n: u32, stop: u8)
        requires { self.old.end + 11 ≤ length self.old.out.now }
        ensures added { Added self.old (decimal n ++ (stop ∷ [])) self.new }
        ensures of_a_byte { n < 2 ^ 8 → self.new.end ≤ self.old.end + 4 }
        ensures of_two_bytes { n < 2 ^ 16 → self.new.end ≤ self.old.end + 6 }
        ensures most { self.new.end ≤ self.old.end + 11 }
    {
        if n < 10 {
            self.text(&[b'0' + n as u8, stop]);
        } else {
            self.number(n);
            self.byte(stop);
        }
    }
}
