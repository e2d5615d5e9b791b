//! The mode of a word's strip under a plan.
ghost use Rattle.std.specs.Prelude.{◌≡◌, ◌/◌, ◌%◌, ◌^◌, ◌<◌};
ghost use Rattle.call.specs.Figures.{figures as numbers};
ghost use Rattle.rules.specs.Plans.{bits_of, mode_of_bits, mode_of, has_bad_mode};
ghost use Rattle.memory.specs.Modes.{mode_in, bad_at};

use call::Figures;

/// How the words of a strip are shared in a phase: read only, each word written by one core, or mixed under a lock.
#[derive(Clone, Copy)]
pub enum Mode {
    ReadOnly,
    Written,
    Locked(u8),
}

// The four bits of a strip in a plan. A plan has room for sixteen strips, and past them it says 0.
fn bits(plan: u64, strip: u16) -> u8
    ensures value { result ≡ bits_of plan strip }
    ensures small { result < 16 }
{
    if strip < 16 {
        ((plan >> (4 * strip as u32)) % 16) as u8
    } else {
        0
    }
}

// What four bits say.
fn mode_of_bits(bits: u8) -> Mode
    requires { bits < 16 }
    ensures { mode_in result ≡ mode_of_bits bits }
{
    match bits {
        0 => Mode::ReadOnly,
        1..=7 => Mode::Written,
        _ => Mode::Locked(bits - 8),
    }
}

/// The mode of a word's strip under a plan: the only place where it is computed.
pub fn mode_of(figures: &Figures, plan: u64, word: u16) -> Mode
    ensures { mode_in result ≡ mode_of (numbers figures.now) plan word }
{
    mode_of_bits(bits(plan, figures.strip_of(word)))
}

// Whether the strip's four bits are from 2 to 7, which no mode has.
fn is_bad(plan: u64, strip: u16) -> bool
    ensures { result ≡ bad_at plan strip }
{
    matches!(bits(plan, strip), 2..=7)
}

/// Whether a plan has a mode from 2 to 7 in one of its sixteen strips, also in one without words.
pub fn has_bad_mode(plan: u64) -> bool
    ensures { result ≡ has_bad_mode plan }
{
    for strip in 0..16 {
        if is_bad(plan, strip) {
            return true;
        }
    }
    false
}
