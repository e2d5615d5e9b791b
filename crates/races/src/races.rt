//! The memory of a phase's accesses. The type stands apart from its methods, since the definitions that the methods' contracts
//! cite name the type.
ghost use Rattle.std.specs.Prelude.{◌≡◌, ℕ, ◌<◌, true, length};
ghost use Rattle.races.specs.Stamps.{up_to};

use crate::seen::Seen;

pub mod methods;

/// What this phase has seen of each of 4,096 words. A word's memory counts only if it has this phase's stamp, so that a new phase
/// forgets all of it by taking the next stamp.
#[derive(Drop)]
pub struct Races {
    seen: [Seen; 4096],
    stamp: u16,
    ghost full: { length seen ≡ 4096 },
    ghost begun: { 0 < stamp },
    ghost older: { (word : ℕ) → up_to seen stamp word ≡ true },
}
