//! The memory of a board: its page, each core's copies of words, and who owns which word. It knows no lock, no race, no
//! refusal and no signature: those stand above it.
#![tactic(auto)]

pub mod bounds;
pub mod entry;
pub mod memory;
pub mod mode;

pub use bounds::{Below, Core, Place};
pub use entry::{Done, Entry, Event, Owner, State};
pub use memory::Memory;
pub use mode::{Mode, has_bad_mode, mode_of};
