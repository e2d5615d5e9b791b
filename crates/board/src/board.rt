//! A board. The type stands apart from its methods, since a type with a ghost field takes in all that its file names.
ghost use Rattle.std.specs.Prelude.{◌≡◌, ◌≤◌, length};
ghost use Rattle.board.specs.Memories.{RemembersSome};

use locks::Locks;
use memory::Memory;
use races::Races;

pub mod answers;
pub mod checks;
pub mod loads;
pub mod opens;
pub mod phases;
pub mod questions;
pub mod stores;
pub mod turns;

/// A board: page, caches and owners, the signature, the locks, this phase's accesses, how many stores each core has made, the plan in
/// force, and how many words of the page it uses.
#[derive(Drop)]
pub struct Board<P, S> {
    memory: Memory<P>,
    signature: S,
    locks: Locks,
    races: Races,
    counts: [u32; 8],
    plan: u64,
    size: u16,
    ghost eight: { length counts ≡ 8 },
    ghost most: { size ≤ 4096 },
    ghost some: { RemembersSome races },
}
