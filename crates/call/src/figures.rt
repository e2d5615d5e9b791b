//! The figures of a board, checked. The type stands apart from its methods, since the definitions that the methods'
//! contracts cite name the type.
ghost use Rattle.std.specs.Prelude.{◌≡◌, true};
ghost use Rattle.call.specs.Rows.{passes_cores, passes_slots, passes_words, passes_strip, passes_allowance};

pub mod methods;

/// The five figures of a board: how many cores share it, how many slots each core's cache has, how many words of the
/// page it uses at the most, how many words make a strip, and the allowance: how many stores each core may make.
/// No value of this type breaks a row of the check.
#[derive(Clone, Copy)]
pub struct Figures {
    cores: u8,
    slots: u8,
    words: u16,
    strip: u16,
    allowance: u32,
    ghost cores_pass: { passes_cores cores ≡ true },
    ghost slots_pass: { passes_slots slots ≡ true },
    ghost words_pass: { passes_words words ≡ true },
    ghost strip_pass: { passes_strip words strip ≡ true },
    ghost allowance_pass: { passes_allowance allowance ≡ true },
}
