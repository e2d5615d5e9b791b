//! The board: the calls of cores and conductor on caches, locks and page, over any page store and any signature; and whole runs
//! of them, with the laws of runs.
#![tactic(auto)]

pub mod board;
pub mod runs;

pub use board::Board;
pub use runs::{Run, play_calls};
