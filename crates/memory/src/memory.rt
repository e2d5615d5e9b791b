//! The memory of a board. The type stands apart from its methods, since a type with a ghost field takes in all that its
//! file names.
ghost use Rattle.std.specs.Prelude.{◌≡◌, ℕ, true, length, None, slice_index_or};
ghost use Rattle.call.specs.Figures.{figures as numbers};
ghost use Rattle.memory.specs.Owners.{holds};

use crate::bounds::Core;
use crate::entry::Entry;
use call::Figures;

pub mod fades;
pub mod loads;
pub mod opens;
pub mod places;
pub mod questions;
pub mod settles;
pub mod stores;
pub mod turns;

/// A page, the entries of eight cores' caches, 64 each, core by core, and the owner of each word. An owner's own entry
/// holds the word, registered.
#[derive(Drop)]
pub struct Memory<P> {
    figures: Figures,
    page: P,
    entries: [Entry; 512],
    owners: [Option<Core>; 4096],
    ghost caches: { length entries ≡ 512 },
    ghost words: { length owners ≡ 4096 },
    ghost owned: { (word : ℕ) → holds (numbers figures) entries word (slice_index_or owners word None) ≡ true },
}
