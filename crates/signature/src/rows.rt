//! Eight rows of bits, a row for each core, of which both signatures are made. The type stands apart from its methods, since the
//! definitions that the methods' contracts cite name the type.
ghost use Rattle.std.specs.Prelude.{◌≡◌, All, length};

mod methods;

/// Eight rows of `WIDTH` words of 64 bits.
#[derive(Drop)]
pub(crate) struct Rows<const WIDTH: usize> {
    table: [[u64; WIDTH]; 8],
    ghost cores: { length table ≡ 8 },
    ghost widths: { All (λ row. length row ≡ WIDTH) table },
}
